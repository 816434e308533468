// What MRET, SRET, WFI, the fences and the hypervisor loads and stores give.
#![tactic(auto)]

ghost use Rattle.std.specs.Prelude.{◌≡◌};
ghost use Rattle.bits.specs.Field.{Fits};
ghost use Rattle.instructions.specs.Instructions.{illegal_with, virtual_with, mret, sret, wfi, sfence_vma, hfence_vvma, hfence_gvma, hypervisor_access};

use bits::Field;
use privilege::{Context, Mode, Verdict};
use registers::fields::{HU, TSR, TVM, TW, VTSR, VTVM, VTW};

// Two rules: one function of both would take the modes and the status word at each call.
// U, and HS with a control of mstatus set.
fn illegal_with(control: Field, c: Context) -> bool
    requires { Fits control }
    ensures { result ≡ illegal_with control c }
{
    c.is(Mode::U) | (c.is(Mode::HS) & (control.get(c.mstatus) == 1))
}

// VU, and VS with a control of hstatus set.
fn virtual_with(control: Field, c: Context) -> bool
    requires { Fits control }
    ensures { result ≡ virtual_with control c }
{
    c.is(Mode::VU) | (c.is(Mode::VS) & (control.get(c.hstatus) == 1))
}

pub fn mret(c: Context) -> Verdict
    ensures { result ≡ mret c }
{
    Verdict {
        gives2: !c.is(Mode::M),
        gives22: false,
    }
}

pub fn sret(c: Context) -> Verdict
    ensures { result ≡ sret c }
{
    Verdict {
        gives2: illegal_with(TSR, c),
        gives22: virtual_with(VTSR, c),
    }
}

pub fn wfi(c: Context) -> Verdict
    ensures { result ≡ wfi c }
{
    Verdict {
        gives2: !c.is(Mode::M) & ((TW.get(c.mstatus) == 1) | c.is(Mode::U)),
        gives22: virtual_with(VTW, c),
    }
}

pub fn sfence_vma(c: Context) -> Verdict
    ensures { result ≡ sfence_vma c }
{
    Verdict {
        gives2: illegal_with(TVM, c),
        gives22: virtual_with(VTVM, c),
    }
}

pub fn hfence_vvma(c: Context) -> Verdict
    ensures { result ≡ hfence_vvma c }
{
    Verdict {
        gives2: c.is(Mode::U),
        gives22: c.v == 1,
    }
}

pub fn hfence_gvma(c: Context) -> Verdict
    ensures { result ≡ hfence_gvma c }
{
    let illegal = illegal_with(TVM, c);
    let guest = c.v == 1;
    Verdict {
        gives2: illegal,
        gives22: guest,
    }
}

pub fn hypervisor_access(c: Context) -> Verdict
    ensures { result ≡ hypervisor_access c }
{
    let denied = c.is(Mode::U) & !(HU.get(c.hstatus) == 1);
    let virtual_mode = c.v == 1;
    Verdict {
        gives2: denied,
        gives22: virtual_mode,
    }
}
