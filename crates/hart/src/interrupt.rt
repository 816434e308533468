// The event that takes the interrupt that is due.
ghost use Rattle.std.specs.Prelude.{◌≡◌};
ghost use Rattle.hart.specs.Interrupt.{taking, interrupt};

use crate::event;
use crate::event::{Outcome, Step};
use crate::state::Hart;
use delivery::Target;

impl Hart {
    // The interrupt is taken, or none is due.
    fn take_interrupt(self, due: Option<(Target, u64)>) -> Step
        ensures { result ≡ taking self due }
    {
        let Some((to, n)) = due else {
            return self.done();
        };
        let taken = self.deliver_to(to, interrupts::exception(to, n));
        Step {
            hart: taken,
            outcome: Outcome::Interrupted(n),
        }
    }

    // Takes the interrupt that is due.
    pub fn interrupt(self) -> Step
        ensures { result ≡ interrupt self }
    {
        self.settle(Ok(()), event::ALLOWED, event::NO_VALUE, |h| {
            h.take_interrupt(interrupts::choose(h.context(), h.lines()))
        })
    }
}
