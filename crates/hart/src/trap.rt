// Trap requests, environment calls and breakpoints.
ghost use Rattle.std.specs.Prelude.{◌≡◌};
ghost use Rattle.hart.specs.Trap.{trapping, trap, ecall, ebreak};

use crate::event;
use crate::event::Step;
use crate::state::Hart;
use exceptions::{Exception, Refusal};

impl Hart {
    // The trap is taken, unless refused.
    fn trapping(self, own: Result<(), Refusal>, t: Exception) -> Step
        ensures { result ≡ trapping self own t }
    {
        self.settle(own, event::ALLOWED, event::NO_VALUE, |h| h.take_trap(t))
    }

    // A trap request.
    pub fn trap(self, t: Exception) -> Step
        ensures { result ≡ trap self t }
    {
        self.trapping(traps::check(self.context(), t), t)
    }

    // ECALL.
    pub fn ecall(self) -> Step
        ensures { result ≡ ecall self }
    {
        let cause = delivery::call_cause(self.context());
        self.trapping(Ok(()), event::plain(cause, 0))
    }

    // EBREAK.
    pub fn ebreak(self) -> Step
        ensures { result ≡ ebreak self }
    {
        self.trapping(Ok(()), delivery::breakpoint(self.v, self.pc))
    }
}
