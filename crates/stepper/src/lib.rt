// A second engine for translations: it stops before each read, and keeps its place as plain data.
#![tactic(auto)]

ghost use Rattle.std.specs.Prelude.{◌≡◌, false, ◌<◌, length};
ghost use Rattle.stages.specs.Stages.{look};
ghost use Rattle.stages.specs.Listed.{places};
ghost use Rattle.translate.specs.Translated.{first_refusal, start_of};
ghost use Rattle.stepper.specs.Position.{misplaced};
ghost use Rattle.stepper.specs.Press.{access_at, state_at, started, unfinished_badly, press_refusals, tells, moved, turned, pressed};

use access::Access;
use effective::Paging;
use exceptions::Refusal;
use hart::state::Hart;
use position::Position;
use privilege::Context;
use rules::Kind;
use stages::{PLACES, Read};
use translate::Answer;

pub mod position;

// Where a walk stands: before an entry of the image, or at its end. (What a place holds, and neither a failure nor a lack: no Result.)
#[derive(Clone, Copy)]
pub enum State {
    Going(Position),
    Ended(Answer),
}

// A place: the image's base and length, the access, what it takes from the hart, where the walk stands, and the list of reads so far.
#[derive(Clone, Copy)]
pub struct Place {
    pub base: u64,
    pub length: u64,
    pub kind: Kind,
    pub address: u64,
    pub width: u64,
    pub context: Context,
    pub paging: Paging,
    pub state: State,
    pub reads: [Read; PLACES],
    pub count: usize,
}

// What a press answers: the walk goes on, it has ended, or the press is refused.
#[derive(Clone, Copy)]
pub enum Told {
    Going,
    Ended(Answer),
    Refused(Refusal),
}

// The place after a press, with the entry that it showed, if it showed one, and what it answers.
#[derive(Clone, Copy)]
pub struct Pressed {
    pub place: Place,
    pub shown: Option<Read>,
    pub told: Told,
}

// Where the walk of a translation begins; one that is refused or misaligned has ended.
fn first(h: Hart, base: u64, len: u64, kind: Kind, address: u64, width: u64) -> State
    ensures { result ≡ state_at base len (start_of h base len kind address width) }
{
    let s = translate::starts(h, base, len, kind, address, width);
    match s {
        Err(x) => State::Ended(x),
        Ok(a) => position::begin(base, len, a),
    }
}

// What a press answers by where the walk stands after it.
fn tell(state: State) -> Told
    ensures { result ≡ tells state }
{
    match state {
        State::Going(_) => Told::Going,
        State::Ended(x) => Told::Ended(x),
    }
}

// Whether an unfinished place is one that no start leads to, by its count, its stage and its levels.
fn is_unfinished_badly(a: Access, count: usize, state: State) -> bool
    ensures { result ≡ unfinished_badly a count state }
{
    match state {
        State::Going(q) => (count == PLACES) | q.is_misplaced(a),
        State::Ended(_) => false,
    }
}

impl Place {
    // The first place of a translation. Of the image only its base and length are looked at.
    pub fn start(h: Hart, base: u64, bytes: &[u8], kind: Kind, address: u64, width: u64) -> Place
        ensures { result ≡ started h base (length bytes.now) kind address width }
    {
        let length = bytes.len() as u64;
        Place {
            base,
            length,
            kind,
            address,
            width,
            context: h.context(),
            paging: h.paging(),
            state: first(h, base, length, kind, address, width),
            reads: walk::none(),
            count: 0,
        }
    }

    // The access, as the hart made it at the start.
    fn access(self) -> Access
        ensures { result ≡ access_at self }
    {
        effective::access(
            self.context,
            self.paging,
            self.kind,
            self.address,
            self.width,
        )
    }

    // Whether a press on an image is refused, and as what.
    fn refusal(self, base: u64, len: u64) -> Result<(), Refusal>
        ensures { result ≡ first_refusal (press_refusals self base len) }
    {
        if image::refused(base, len) {
            return Err(Refusal::Image);
        }
        let bad = is_unfinished_badly(self.access(), self.count, self.state);
        if !(base == self.base) | !(len == self.length) | (PLACES < self.count) | bad {
            return Err(Refusal::Place);
        }
        Ok(())
    }

    // The place with another state and list.
    fn moved(self, state: State, reads: [Read; PLACES], count: usize) -> Place
        ensures { result ≡ moved self state reads count }
    {
        Place {
            state,
            reads,
            count,
            ..self
        }
    }

    // The one entry: read, listed and shown, and on from it.
    fn turn(self, bytes: &[u8], q: Position) -> Pressed
        requires room { self.count < places }
        requires placed { misplaced (access_at self) q ≡ false }
        ensures { result ≡ turned self q (look self.base bytes.now q.at) }
    {
        let a = self.access();
        let mut reads = self.reads;
        let count = self.count;
        let at = q.at;
        let Some(e) = image::fetch(self.base, bytes, at.0) else {
            let end = Answer::Fault(a.access_fault());
            return Pressed {
                place: self.moved(State::Ended(end), reads, count),
                shown: None,
                told: Told::Ended(end),
            };
        };
        let item = Read {
            stage: q.stage,
            level: q.level(),
            address: at,
            value: e,
        };
        reads[count] = item;
        let state = q.after(self.base, self.length, a, e);
        Pressed {
            place: self.moved(state, reads, count + 1),
            shown: Some(item),
            told: tell(state),
        }
    }

    // A press on an image: the place back, the entry that was shown, and the answer.
    pub fn press(self, base: u64, bytes: &[u8]) -> Pressed
        ensures { result ≡ pressed self base bytes.now }
    {
        if let Err(refusal) = self.refusal(base, bytes.len() as u64) {
            return Pressed {
                place: self,
                shown: None,
                told: Told::Refused(refusal),
            };
        }
        match self.state {
            State::Ended(x) => Pressed {
                place: self,
                shown: None,
                told: Told::Ended(x),
            },
            State::Going(q) => self.turn(bytes, q),
        }
    }
}
