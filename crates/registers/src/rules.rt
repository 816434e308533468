// What a register can hold, and what goes into it of a write.
ghost use Rattle.std.specs.Prelude.{◌≡◌, ◌&&◌, [], ◌∷◌, ◌-◌, eqb};
ghost use Rattle.std.specs.Int.Bits.{bit_and};
ghost use Rattle.bits.specs.Field.{top, get};
ghost use Rattle.registers.specs.Fields.{MPP, MODE};
ghost use Rattle.registers.specs.Rules.{among, taken, legal, rule, modes, stores_mstatus, stores_status, stores_hstatus, stores_hedeleg, stores_medeleg, stores_mideleg, stores_hideleg, stores_interrupts, stores_tvec, stores_epc, stores_satp, stores_hgatp};

use crate::fields::{MODE, MPP};
use crate::masks;
use crate::places::{HGATP, MSTATUS, SATP, VSATP};

// No bit outside the mask but the fixed ones.
fn masked(mask: u64, fixed: u64, x: u64) -> bool
    ensures { result ≡ eqb (bit_and x (top - mask)) fixed }
{
    x & !mask == fixed
}

// MPP is a privilege.
fn mpp_fits(x: u64) -> bool
    ensures { result ≡ among (get MPP x) (0 ∷ 1 ∷ 3 ∷ []) }
{
    let p = MPP.get(x);
    (p == 3) | (p == 1) | (p == 0)
}

// MODE is Bare, Sv39, Sv48 or Sv57 (in hgatp Sv39x4, Sv48x4 or Sv57x4).
fn mode_fits(x: u64) -> bool
    ensures { result ≡ among (get MODE x) modes }
{
    let m = MODE.get(x);
    (m == 10) | (m == 9) | (m == 8) | (m == 0)
}

// What the register at a place, which held old, comes to hold where x is to go into it.
pub fn take(place: usize, old: u64, x: u64) -> u64
    ensures { result ≡ taken (rule place).restriction old x }
{
    if place == MSTATUS {
        return bits::select(mpp_fits(x), x, MPP.put(MPP.get(old), x));
    }
    if place == HGATP {
        return bits::select(mode_fits(x), x, MODE.put(MODE.get(old), x));
    }
    if (place == SATP) | (place == VSATP) {
        return bits::select(mode_fits(x), x, old);
    }
    x
}

// The S registers that can't hold every word; vsatp and the others of VS alike.
pub fn supervisor_legal(tvec: u64, epc: u64, satp: u64) -> bool
    ensures { result ≡ (legal stores_tvec tvec && (legal stores_epc epc && legal stores_satp satp)) }
{
    let modes = mode_fits(satp) & masked(masks::WORD, 0, satp);
    masked(masks::TVEC, 0, tvec) & (masked(masks::EPC, 0, epc) & modes)
}

// The M registers that can't hold every word.
pub fn machine_legal(
    mstatus: u64,
    medeleg: u64,
    mideleg: u64,
    mie: u64,
    tvec: u64,
    epc: u64,
    mip: u64,
) -> bool
    ensures { result ≡ (legal stores_mstatus mstatus && (legal stores_medeleg medeleg && (legal stores_mideleg mideleg && (legal stores_interrupts mie && (legal stores_tvec tvec && (legal stores_epc epc && legal stores_interrupts mip)))))) }
{
    let status = mpp_fits(mstatus) & masked(masks::MSTATUS, masks::MSTATUS_FIXED, mstatus);
    let pending = masked(masks::EPC, 0, epc) & masked(masks::INTERRUPTS, 0, mip);
    let enabled = masked(masks::INTERRUPTS, 0, mie) & (masked(masks::TVEC, 0, tvec) & pending);
    let delegated = masked(masks::S_INTERRUPTS, masks::VS_INTERRUPTS, mideleg) & enabled;
    status & (masked(masks::MEDELEG, 0, medeleg) & delegated)
}

// The H registers that can't hold every word.
pub fn hypervisor_legal(hstatus: u64, hedeleg: u64, hideleg: u64, hgatp: u64) -> bool
    ensures { result ≡ (legal stores_hstatus hstatus && (legal stores_hedeleg hedeleg && (legal stores_hideleg hideleg && legal stores_hgatp hgatp))) }
{
    let modes = mode_fits(hgatp) & masked(masks::HGATP, 0, hgatp);
    let delegated = masked(masks::HEDELEG, 0, hedeleg)
        & (masked(masks::VS_INTERRUPTS, 0, hideleg) & modes);
    masked(masks::HSTATUS, masks::HSTATUS_FIXED, hstatus) & delegated
}

// vsstatus.
pub fn status_legal(status: u64) -> bool
    ensures { result ≡ legal stores_status status }
{
    masked(masks::STATUS, masks::STATUS_FIXED, status)
}
