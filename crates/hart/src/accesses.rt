// Register access: read, write, set and clear.
ghost use Rattle.std.specs.Prelude.{◌≡◌, ◌<◌, length};
ghost use Rattle.registers.specs.Places.{kept};
ghost use Rattle.registers.specs.Views.{lets};
ghost use Rattle.registers.specs.Registers.{count, at};
ghost use Rattle.table.specs.Table.{row_of, view_of};
ghost use Rattle.hart.specs.Hart.{passes};
ghost use Rattle.hart.specs.Event.{halted};
ghost use Rattle.hart.specs.Access.{answer, goes, access_row, unlisted, access, read, write, set, clear};
ghost use Rattle.hart.specs.Lent.{on, accessed_on};

use crate::control::Control;
use crate::event;
use crate::event::{Ended, Halt, Outcome};
use crate::state::Hart;
use csr::Form;
use exceptions::Refusal;
use privilege::Verdict;
use registers::{masks, places};
use table::Row;
use table::kept::Kept;

// The value answered is the old one where the access was done, and 0 where it trapped or was refused.
#[derive(Clone, Copy)]
pub struct Accessed {
    pub hart: Hart,
    pub outcome: Outcome,
    pub value: u64,
}

// The same without the registers.
#[derive(Clone, Copy)]
pub struct Answer {
    pub control: Control,
    pub outcome: Outcome,
    pub value: u64,
}

// The bits that a register's gate lets through.
fn gate(at: Kept, regs: &[u64; places::KEPT]) -> u64
    ensures { result ≡ lets regs.now (view_of at 0) }
{
    let gate = at.gate.and_then(|place| regs.get(place));
    gate.copied().unwrap_or(masks::WORD)
}

impl Control {
    // An access that goes on: it answers what the register shows and writes to its bits of a mask, where it writes; pc moves on.
    fn goes(
        mut self,
        at: Kept,
        mask: u64,
        form: Form,
        w: u64,
        writes: bool,
        regs: &mut [u64; places::KEPT],
    ) -> Answer
        requires home { at.home < kept }
        requires shift { at.shift < 64 }
        ensures { accessed_on result regs.new ≡ goes (on self regs.old) (view_of at mask) form w writes }
    {
        let home = at.home;
        let gate = gate(at, regs);
        let word = regs[home];
        let old = csr::show(at, gate, word);
        let x = csr::combine(form, old, w);
        regs[home] = csr::store(at, mask, gate, word, x, writes);
        self.pc = event::next(self.pc);
        Answer {
            control: self,
            outcome: Outcome::Done,
            value: old,
        }
    }

    // One that halts, and answers 0.
    fn answer_halt(self, halt: Halt, word: u32, regs: &mut [u64; places::KEPT]) -> Answer
        ensures { accessed_on result regs.new ≡ answer (halted (on self regs.old) halt word) 0 }
    {
        let Ended { control, outcome } = self.halt(halt, word, regs);
        Answer {
            control,
            outcome,
            value: 0,
        }
    }

    // An access to the register of a row of the table.
    fn access_row(
        self,
        passed: bool,
        own: Result<(), Refusal>,
        place: usize,
        row: Row,
        form: Form,
        w: u64,
        writes: bool,
        word: u32,
        regs: &mut [u64; places::KEPT],
    ) -> Answer
        requires listed { place < count }
        requires stands { row ≡ row_of (at place) }
        requires checked { passed ≡ passes (on self regs.old) }
        ensures { accessed_on result regs.new ≡ access_row (on self regs.old) own place row form w writes word }
    {
        let verdict = csr::verdict(self.context(regs), row, writes);
        // not by `settle`: what comes of it is an answer over lent registers, and no step
        match event::stops(passed, own, verdict) {
            Ok(()) => {
                let to = table::kept::reach(place, self.v == 1);
                self.goes(to, row.mask, form, w, writes, regs)
            }
            Err(halt) => self.answer_halt(halt, word, regs),
        }
    }

    // An access to a number that no register has.
    fn unlisted(
        self,
        passed: bool,
        own: Result<(), Refusal>,
        word: u32,
        regs: &mut [u64; places::KEPT],
    ) -> Answer
        requires { passed ≡ passes (on self regs.old) }
        ensures { accessed_on result regs.new ≡ unlisted (on self regs.old) own word }
    {
        let verdict = Verdict {
            gives2: true,
            gives22: false,
        };
        match event::stops(passed, own, verdict) {
            Ok(()) => {
                Answer {
                    control: self,
                    outcome: Outcome::Done,
                    value: 0,
                }
            }
            Err(halt) => self.answer_halt(halt, word, regs),
        }
    }

    // An access to the register with a number, by a hart that has passed check 2 or not: that is asked of the words as they were
    // given, since those lent were copied just now, and a load waits for that.
    pub fn access(
        self,
        passed: bool,
        form: Form,
        number: u64,
        w: u64,
        writes: bool,
        word: u32,
        regs: &mut [u64],
    ) -> Answer
        requires whole { length regs.old ≡ kept }
        requires checked { passed ≡ passes (on self regs.old) }
        ensures { accessed_on result regs.new ≡ access (on self regs.old) form number w writes word }
    {
        let own = csr::check(number);
        let regs = regs.as_mut_array().unwrap();
        let Some((place, row)) = table::lookup(number) else {
            return self.unlisted(passed, own, word, regs);
        };
        self.access_row(passed, own, place, row, form, w, writes, word, regs)
    }
}

impl Hart {
    fn access(self, form: Form, number: u64, w: u64, writes: bool, word: u32) -> Accessed
        ensures { result ≡ access self form number w writes word }
    {
        let passed = self.passes();
        let mut regs = self.regs;
        let Answer {
            control,
            outcome,
            value,
        } = self
            .control()
            .access(passed, form, number, w, writes, word, &mut regs);
        Accessed {
            hart: control.on(regs),
            outcome,
            value,
        }
    }

    // Each is an instruction, and C's call of each goes by its own.
    pub fn read(self, number: u64, word: u32) -> Accessed
        ensures { result ≡ read self number word }
    {
        self.access(Form::Read, number, 0, false, word)
    }

    pub fn write(self, number: u64, w: u64, word: u32) -> Accessed
        ensures { result ≡ write self number w word }
    {
        self.access(Form::Write, number, w, true, word)
    }

    pub fn set(self, number: u64, w: u64, writes: bool, word: u32) -> Accessed
        ensures { result ≡ set self number w writes word }
    {
        self.access(Form::Set, number, w, writes, word)
    }

    pub fn clear(self, number: u64, w: u64, writes: bool, word: u32) -> Accessed
        ensures { result ≡ clear self number w writes word }
    {
        self.access(Form::Clear, number, w, writes, word)
    }
}
