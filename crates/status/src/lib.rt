// The status words at traps and returns.
#![tactic(auto)]

ghost use Rattle.std.specs.Prelude.{◌≡◌};
ghost use Rattle.bits.specs.Assign.{◌after◌};
ghost use Rattle.status.specs.Trap.{into_m, into_s, into_h};
ghost use Rattle.status.specs.Return.{v_after_mret, from_m, from_s, from_hs, from_h};

use registers::fields::{GVA, HGVA, MIE, MPIE, MPP, MPRV, MPV, SIE, SPIE, SPP, SPV, SPVP};

// mstatus at a trap into M, from V and privilege, with the flag.
pub fn enter_m(v: u64, privilege: u64, flag: bool, s: u64) -> u64
    ensures { result ≡ s after into_m v privilege flag s }
{
    let gva = u64::from(flag);
    MPV.put(
        v,
        MPP.put(privilege, MPIE.put(MIE.get(s), MIE.put(0, GVA.put(gva, s)))),
    )
}

// mstatus at a trap into HS, vsstatus at one into VS, from a privilege.
pub fn enter_s(privilege: u64, s: u64) -> u64
    ensures { result ≡ s after into_s privilege s }
{
    SPP.put(privilege, SPIE.put(SIE.get(s), SIE.put(0, s)))
}

// hstatus at a trap into HS, from V and privilege, with the flag.
pub fn enter_h(v: u64, privilege: u64, flag: bool, s: u64) -> u64
    ensures { result ≡ s after into_h v privilege flag s }
{
    let spvp = bits::select(v == 1, privilege, SPVP.get(s));
    let gva = u64::from(flag);
    SPV.put(v, SPVP.put(spvp, HGVA.put(gva, s)))
}

// mstatus at MRET.
pub fn leave_m(s: u64) -> u64
    ensures { result ≡ s after from_m s }
{
    let mprv = bits::select(MPP.get(s) == 3, MPRV.get(s), 0);
    MIE.put(
        MPIE.get(s),
        MPIE.put(1, MPP.put(0, MPV.put(0, MPRV.put(mprv, s)))),
    )
}

// V after MRET.
pub fn v_after_mret(s: u64) -> u64
    ensures { result ≡ v_after_mret s }
{
    bits::select(MPP.get(s) == 3, 0, MPV.get(s))
}

// vsstatus at SRET in VS.
pub fn leave_s(s: u64) -> u64
    ensures { result ≡ s after from_s s }
{
    SPP.put(0, SIE.put(SPIE.get(s), SPIE.put(1, s)))
}

// mstatus at SRET with V=0.
pub fn leave_hs(s: u64) -> u64
    ensures { result ≡ s after from_hs s }
{
    MPRV.put(0, leave_s(s))
}

// hstatus at SRET with V=0.
pub fn leave_h(s: u64) -> u64
    ensures { result ≡ s after from_h }
{
    SPV.put(0, s)
}
