// WFI and the fences: those that don't trap only move pc.
ghost use Rattle.std.specs.Prelude.{◌≡◌};
ghost use Rattle.hart.specs.Wait.{passing, wfi, sfence_vma, hfence_vvma, hfence_gvma};

use crate::event::Step;
use crate::state::Hart;
use privilege::Verdict;

impl Hart {
    fn passing(self, verdict: Verdict, word: u32) -> Step
        ensures { result ≡ passing self verdict word }
    {
        self.settle(Ok(()), verdict, word, |h| h.moved().done())
    }

    // Each is an instruction, and C's call of each goes by its own.
    pub fn wfi(self, word: u32) -> Step
        ensures { result ≡ wfi self word }
    {
        self.passing(instructions::wfi(self.context()), word)
    }

    pub fn sfence_vma(self, word: u32) -> Step
        ensures { result ≡ sfence_vma self word }
    {
        self.passing(instructions::sfence_vma(self.context()), word)
    }

    pub fn hfence_vvma(self, word: u32) -> Step
        ensures { result ≡ hfence_vvma self word }
    {
        self.passing(instructions::hfence_vvma(self.context()), word)
    }

    pub fn hfence_gvma(self, word: u32) -> Step
        ensures { result ≡ hfence_gvma self word }
    {
        self.passing(instructions::hfence_gvma(self.context()), word)
    }
}
