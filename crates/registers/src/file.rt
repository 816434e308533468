// The registers that a hart keeps, each at its place.
ghost use Rattle.std.specs.Prelude.{◌≡◌};
ghost use Rattle.registers.specs.File.{initial, registers_pass};

use crate::{masks, places, rules};

// After reset: no stored bit is set.
pub fn reset() -> [u64; places::KEPT]
    ensures { result ≡ initial }
{
    let mut regs = [0u64; places::KEPT];
    regs[places::VSSTATUS] = masks::STATUS_FIXED;
    regs[places::MSTATUS] = masks::MSTATUS_FIXED;
    regs[places::MIDELEG] = masks::VS_INTERRUPTS;
    regs[places::HSTATUS] = masks::HSTATUS_FIXED;
    regs
}

// Every register holds what a write could store.
pub fn pass(r: [u64; places::KEPT]) -> bool
    ensures { result ≡ registers_pass r }
{
    let s = rules::supervisor_legal(r[places::STVEC], r[places::SEPC], r[places::SATP]);
    let vs = rules::supervisor_legal(r[places::VSTVEC], r[places::VSEPC], r[places::VSATP]);
    let vsstatus = rules::status_legal(r[places::VSSTATUS]);
    let m = rules::machine_legal(
        r[places::MSTATUS],
        r[places::MEDELEG],
        r[places::MIDELEG],
        r[places::MIE],
        r[places::MTVEC],
        r[places::MEPC],
        r[places::MIP],
    );
    let h = rules::hypervisor_legal(
        r[places::HSTATUS],
        r[places::HEDELEG],
        r[places::HIDELEG],
        r[places::HGATP],
    );
    let guest = vsstatus & vs;
    s & (guest & (m & h))
}
