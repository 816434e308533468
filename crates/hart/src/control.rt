// What a hart holds beside its registers. The functions over it are lent the registers.
ghost use Rattle.std.specs.Prelude.{◌≡◌, length};
ghost use Rattle.registers.specs.Places.{kept};
ghost use Rattle.hart.specs.Hart.{context};
ghost use Rattle.hart.specs.Lent.{on};

use crate::state::Hart;
use privilege::Context;
use registers::places;

#[derive(Clone, Copy)]
pub struct Control {
    pub v: u64,
    pub privilege: u64,
    pub pc: u64,
}

impl Control {
    // The hart with these registers.
    pub fn on(self, regs: [u64; places::KEPT]) -> Hart
        ensures { result ≡ on self regs }
    {
        Hart {
            v: self.v,
            privilege: self.privilege,
            pc: self.pc,
            regs,
        }
    }

    // What an instruction's permission depends on.
    pub fn context(self, regs: &[u64; places::KEPT]) -> Context
        ensures { result ≡ context (on self regs.now) }
    {
        Context {
            v: self.v,
            privilege: self.privilege,
            mstatus: regs[places::MSTATUS],
            hstatus: regs[places::HSTATUS],
        }
    }
}
