// What an event comes to, and the order in which it is settled.
ghost use Rattle.std.specs.Prelude.{◌≡◌, Err, length};
ghost use Rattle.registers.specs.Places.{kept};
ghost use Rattle.hart.specs.declared.state.Hart.{Hart};
ghost use Rattle.hart.specs.Hart.{passes};
ghost use Rattle.hart.specs.declared.event.Halt.{Halt};
ghost use Rattle.hart.specs.declared.event.Halt.TheVariants.{Refuses};
ghost use Rattle.hart.specs.declared.event.Step.{Step};
ghost use Rattle.hart.specs.Event.{is_done, done, trapped, plain, halted, stop_of, settled, Gives, next, moved};
ghost use Rattle.hart.specs.Lent.{on, step_on};

use crate::control::Control;
use crate::state::Hart;
use exceptions::{Exception, Refusal};
use privilege::Verdict;
use registers::places;

// The event was done, it trapped with a cause, it was refused, or an interrupt was taken, by its bit in mip.
#[derive(Clone, Copy)]
pub enum Outcome {
    Done,
    Trapped(u64),
    Refused(Refusal),
    Interrupted(u64),
}

#[derive(Clone, Copy)]
pub struct Step {
    pub hart: Hart,
    pub outcome: Outcome,
}

// A step without the registers.
#[derive(Clone, Copy)]
pub struct Ended {
    pub control: Control,
    pub outcome: Outcome,
}

// Why an event does not go on: it is refused, or raises a cause.
#[derive(Clone, Copy)]
pub enum Halt {
    Refuses(Refusal),
    Raises(u64),
}

impl From<Refusal> for Halt {
    ghost from_gives = { λ r h. h ≡ Refuses r };

    fn from(refusal: Refusal) -> Halt {
        Halt::Refuses(refusal)
    }
}

// No cause of its own.
pub const ALLOWED: Verdict = Verdict {
    gives2: false,
    gives22: false,
};

// For events that have no instruction word, and give no cause of their own.
pub const NO_VALUE: u32 = 0;

// A cause and its value, the flag clear.
pub fn plain(cause: u64, value: u64) -> Exception
    ensures { result ≡ plain cause value }
{
    Exception {
        cause,
        value,
        value2: 0,
        word: 0,
        flag: false,
    }
}

// pc moved on by 4, wrapping.
pub fn next(pc: u64) -> u64
    ensures { result ≡ next pc }
{
    std::num::wrapping_add_u64(pc, 4)
}

// Refusal 2 where check 2 fails, then the call's own, then the cause that the verdict gives.
pub fn stops(passed: bool, own: Result<(), Refusal>, verdict: Verdict) -> Result<(), Halt>
    ensures { (h : Hart) → passed ≡ passes h → result ≡ stop_of h own verdict }
{
    if !passed {
        return Err(Halt::Refuses(Refusal::Hart));
    }
    own?;
    if verdict.gives2 {
        return Err(Halt::Raises(2));
    }
    if verdict.gives22 {
        return Err(Halt::Raises(22));
    }
    Ok(())
}

impl Outcome {
    pub fn is_done(self) -> bool
        ensures { result ≡ is_done self }
    {
        matches!(self, Outcome::Done)
    }
}

impl Ended {
    // The step, with these registers.
    pub fn on(self, regs: [u64; places::KEPT]) -> Step
        ensures { result ≡ step_on self regs }
    {
        let Ended { control, outcome } = self;
        Step {
            hart: control.on(regs),
            outcome,
        }
    }
}

impl Control {
    // The trap is delivered.
    fn take_trap(self, t: Exception, regs: &mut [u64; places::KEPT]) -> Ended
        ensures { step_on result regs.new ≡ trapped (on self regs.old) t }
    {
        let taken = self.deliver(t, regs);
        Ended {
            control: taken,
            outcome: Outcome::Trapped(t.cause),
        }
    }

    // An event that does not go on: it is refused, or raises a cause with its instruction word.
    pub fn halt(self, halt: Halt, word: u32, regs: &mut [u64; places::KEPT]) -> Ended
        ensures { step_on result regs.new ≡ halted (on self regs.old) halt word }
    {
        match halt {
            Halt::Refuses(refusal) => {
                Ended {
                    control: self,
                    outcome: Outcome::Refused(refusal),
                }
            }
            Halt::Raises(cause) => self.take_trap(plain(cause, u64::from(word)), regs),
        }
    }
}

impl Hart {
    // The trap is delivered. (The lines of `Control`'s stand again here and in `halt`, by value: over lent registers HLV and HSV are slower.)
    pub fn take_trap(self, t: Exception) -> Step
        ensures { result ≡ trapped self t }
    {
        let taken = self.deliver(t);
        Step {
            hart: taken,
            outcome: Outcome::Trapped(t.cause),
        }
    }

    // Whether it goes on, with its own refusal and the verdict on its instruction. (Inlined, since a call of it copies the hart.)
    #[inline(always)]
    pub fn stops(self, own: Result<(), Refusal>, verdict: Verdict) -> Result<(), Halt>
        ensures { result ≡ stop_of self own verdict }
    {
        stops(self.passes(), own, verdict)
    }

    // An event that does not go on.
    pub fn halt(self, halt: Halt, word: u32) -> Step
        ensures { result ≡ halted self halt word }
    {
        match halt {
            Halt::Refuses(refusal) => {
                Step {
                    hart: self,
                    outcome: Outcome::Refused(refusal),
                }
            }
            Halt::Raises(cause) => self.take_trap(plain(cause, u64::from(word))),
        }
    }

    // The step that an event comes to where it goes on; else its halt, with its instruction word.
    pub fn settle<F: FnOnce(Hart) -> Step>(
        self,
        own: Result<(), Refusal>,
        verdict: Verdict,
        word: u32,
        finish: F,
    ) -> Step
        requires { stop_of self own verdict ≡ Ok tt → F.pre finish self }
        ensures finishes { (finished : Step) → Gives (F.post finish self) finished → result ≡ settled self own verdict word finished }
        ensures halts { (halt : Halt) → stop_of self own verdict ≡ Err halt → result ≡ halted self halt word }
    {
        match self.stops(own, verdict) {
            Ok(()) => finish(self),
            Err(halt) => {
                let mut regs = self.regs;
                let ended = self.control().halt(halt, word, &mut regs);
                ended.on(regs)
            }
        }
    }

    // The step that is done.
    pub fn done(self) -> Step
        ensures { result ≡ done self }
    {
        Step {
            hart: self,
            outcome: Outcome::Done,
        }
    }

    // pc moves on.
    pub fn moved(mut self) -> Hart
        ensures { result ≡ moved self }
    {
        self.pc = next(self.pc);
        self
    }
}
