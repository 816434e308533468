// MRET and SRET.
ghost use Rattle.std.specs.Prelude.{◌≡◌};
ghost use Rattle.hart.specs.Return.{returned_m, returned_hs, returned_vs, returned_s, mret, sret};

use crate::event::Step;
use crate::state::Hart;
use registers::fields::{MPP, SPP, SPV};
use registers::places;

impl Hart {
    fn return_m(mut self) -> Hart
        ensures { result ≡ returned_m self }
    {
        let s = self.regs[places::MSTATUS];
        self.v = status::v_after_mret(s);
        self.privilege = MPP.get(s);
        self.pc = self.regs[places::MEPC];
        self.regs[places::MSTATUS] = status::leave_m(s);
        self
    }

    fn return_hs(mut self) -> Hart
        ensures { result ≡ returned_hs self }
    {
        let s = self.regs[places::MSTATUS];
        let h = self.regs[places::HSTATUS];
        self.v = SPV.get(h);
        self.privilege = SPP.get(s);
        self.pc = self.regs[places::SEPC];
        self.regs[places::MSTATUS] = status::leave_hs(s);
        self.regs[places::HSTATUS] = status::leave_h(h);
        self
    }

    fn return_vs(mut self) -> Hart
        ensures { result ≡ returned_vs self }
    {
        let s = self.regs[places::VSSTATUS];
        self.v = 1;
        self.privilege = SPP.get(s);
        self.pc = self.regs[places::VSEPC];
        self.regs[places::VSSTATUS] = status::leave_s(s);
        self
    }

    fn return_s(self) -> Hart
        ensures { result ≡ returned_s self }
    {
        if self.v == 1 {
            return self.return_vs();
        }
        self.return_hs()
    }

    // Each is an instruction, and C's call of each goes by its own.
    pub fn mret(self, word: u32) -> Step
        ensures { result ≡ mret self word }
    {
        self.settle(Ok(()), instructions::mret(self.context()), word, |h| {
            h.return_m().done()
        })
    }

    pub fn sret(self, word: u32) -> Step
        ensures { result ≡ sret self word }
    {
        self.settle(Ok(()), instructions::sret(self.context()), word, |h| {
            h.return_s().done()
        })
    }
}
