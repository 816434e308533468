// Control and status register access: what it gives and what it writes.
#![tactic(auto)]

ghost use Rattle.std.specs.Prelude.{◌≡◌, ◌<◌};
ghost use Rattle.csr.specs.Access.{refusal_of, verdict, combined};
ghost use Rattle.bits.specs.Field.{pick};
ghost use Rattle.registers.specs.Views.{shown, stored_by};
ghost use Rattle.table.specs.Table.{view_of};

use exceptions::Refusal;
use privilege::{Context, Mode, Verdict};
use registers::fields::{TVM, VTVM};
use registers::rules;
use table::kept::Kept;
use table::{Level, Row};

#[derive(Clone, Copy)]
pub enum Form {
    Read,
    Write,
    Set,
    Clear,
}

// An access's own refusal: a register number over 4095.
pub fn check(number: u64) -> Result<(), Refusal>
    ensures { result ≡ refusal_of number }
{
    if number > 4095 {
        return Err(Refusal::Register);
    }
    Ok(())
}

// An access to the register of a row.
pub fn verdict(c: Context, row: Row, writes: bool) -> Verdict
    ensures { result ≡ verdict c row writes }
{
    let satp = row.number == 0x180;
    let tvm = (TVM.get(c.mstatus) == 1) & (satp | (row.number == 0x680));
    let vtvm = (VTVM.get(c.hstatus) == 1) & satp;
    let host = c.is(Mode::U) | (c.is(Mode::HS) & ((row.level == Level::MACHINE) | tvm));
    let guest = (c.v == 1) & (row.level == Level::MACHINE);
    let vs = c.is(Mode::VS) & (vtvm | (row.level == Level::HYPERVISOR));
    Verdict {
        gives2: (writes & row.read_only) | (host | guest),
        gives22: vs | c.is(Mode::VU),
    }
}

// What is written where old is seen.
pub fn combine(form: Form, old: u64, w: u64) -> u64
    ensures { result ≡ combined form old w }
{
    match form {
        Form::Read => old,
        Form::Write => w,
        Form::Set => old | w,
        Form::Clear => old & !w,
    }
}

// What a read shows of a register's home, of which the gate lets some bits through.
pub fn show(at: Kept, gate: u64, word: u64) -> u64
    requires { at.shift < 64 }
    ensures { result ≡ shown (view_of at 0) gate word }
{
    ((word & gate) >> at.shift) & at.shows
}

// What the home holds after an access that writes x to the register's bits of a mask, or does not write; old is held before.
pub fn store(at: Kept, mask: u64, gate: u64, old: u64, x: u64, writes: bool) -> u64
    requires { at.shift < 64 }
    ensures { result ≡ pick writes (stored_by (view_of at mask) gate old x) old }
{
    let here = mask << at.shift;
    let through = (old & !gate) | ((x << at.shift) & gate);
    let new = (old & !here) | (through & here);
    bits::select(writes, rules::take(at.home, old, new), old)
}
