// What a hart holds, and check 2.
ghost use Rattle.std.specs.Prelude.{◌≡◌};
ghost use Rattle.hart.specs.Hart.{reset, context, lines, paging, passes};
ghost use Rattle.hart.specs.Lent.{control};

use crate::control::Control;
use effective::Paging;
use interrupts::Lines;
use privilege::Context;
use registers::{file, places};

// V, the privilege (0 U, 1 S, 3 M), pc, and each register that is kept at its place.
#[derive(Clone, Copy)]
pub struct Hart {
    pub v: u64,
    pub privilege: u64,
    pub pc: u64,
    pub regs: [u64; places::KEPT],
}

impl Hart {
    // No stored bit of a register is set.
    pub fn reset(v: u64, privilege: u64, pc: u64) -> Hart
        ensures { result ≡ reset v privilege pc }
    {
        Hart {
            v,
            privilege,
            pc,
            regs: file::reset(),
        }
    }

    // What it holds beside its registers.
    pub fn control(self) -> Control
        ensures { result ≡ control self }
    {
        Control {
            v: self.v,
            privilege: self.privilege,
            pc: self.pc,
        }
    }

    // What an instruction's permission depends on. (By value, beside that of `Control`: through it a translation takes more instructions.)
    pub fn context(self) -> Context
        ensures { result ≡ context self }
    {
        Context {
            v: self.v,
            privilege: self.privilege,
            mstatus: self.regs[places::MSTATUS],
            hstatus: self.regs[places::HSTATUS],
        }
    }

    // What an interrupt's being due depends on beside.
    pub fn lines(self) -> Lines
        ensures { result ≡ lines self }
    {
        Lines {
            mip: self.regs[places::MIP],
            mie: self.regs[places::MIE],
            mideleg: self.regs[places::MIDELEG],
            hideleg: self.regs[places::HIDELEG],
            vsstatus: self.regs[places::VSSTATUS],
        }
    }

    // What an access goes by beside.
    pub fn paging(self) -> Paging
        ensures { result ≡ paging self }
    {
        Paging {
            vsstatus: self.regs[places::VSSTATUS],
            satp: self.regs[places::SATP],
            vsatp: self.regs[places::VSATP],
            hgatp: self.regs[places::HGATP],
        }
    }

    // Check 2.
    pub fn passes(self) -> bool
        ensures { result ≡ passes self }
    {
        let c = self.context();
        let regs = self.regs;
        c.check(file::pass(regs), self.pc)
    }
}
