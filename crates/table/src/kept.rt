// Where the bits of each row of the table are kept, and of which numbers a hart keeps a register.
ghost use Rattle.std.specs.Prelude.{◌≡◌, map, ◌<◌, get_or};
ghost use Rattle.registers.specs.Registers.{count, Register, registers, at};
ghost use Rattle.table.specs.Table.{kept_of, twin_row, reached, numbers, number_at};

use crate::ROWS;
use bits::select;
use registers::{masks, places};

// Where a register's bits are kept and how far up they stand there, those that a read shows, and the place of the register that lets
// them through, if one does.
#[derive(Clone, Copy)]
pub struct Kept {
    pub home: usize,
    pub shift: u64,
    pub shows: u64,
    pub gate: Option<usize>,
}

// The rows of the registers that show some bits of another's place, or none.
const SSTATUS: usize = 0;

const SIE: usize = 1;

const SIP: usize = 7;

const VSIE: usize = 10;

const VSIP: usize = 16;

const HGEIE: usize = 34;

const HIE: usize = 33;

const HIP: usize = 36;

const HVIP: usize = 37;

const HGEIP: usize = 40;

// So many S registers stand first in the table, and behind them as many VS registers, each in the place of its S register.
const S_ROWS: usize = 9;

// By row: the place of its bits. (Apart from the table, whose rows are fixed as number, level, read-only flag and mask.) (An array that is indexed by a variable is written out first: these are bytes.) hgeie and hgeip have none.
const HOMES: [u8; ROWS] = [
    places::MSTATUS as u8,
    places::MIE as u8,
    places::STVEC as u8,
    places::SSCRATCH as u8,
    places::SEPC as u8,
    places::SCAUSE as u8,
    places::STVAL as u8,
    places::MIP as u8,
    places::SATP as u8,
    places::VSSTATUS as u8,
    places::MIE as u8,
    places::VSTVEC as u8,
    places::VSSCRATCH as u8,
    places::VSEPC as u8,
    places::VSCAUSE as u8,
    places::VSTVAL as u8,
    places::MIP as u8,
    places::VSATP as u8,
    places::MSTATUS as u8,
    places::MEDELEG as u8,
    places::MIDELEG as u8,
    places::MIE as u8,
    places::MTVEC as u8,
    places::MSCRATCH as u8,
    places::MEPC as u8,
    places::MCAUSE as u8,
    places::MTVAL as u8,
    places::MIP as u8,
    places::MTINST as u8,
    places::MTVAL2 as u8,
    places::HSTATUS as u8,
    places::HEDELEG as u8,
    places::HIDELEG as u8,
    places::MIE as u8,
    0,
    places::HTVAL as u8,
    places::MIP as u8,
    places::MIP as u8,
    places::HTINST as u8,
    places::HGATP as u8,
    0,
];

// The numbers of the registers that a hart keeps, by place.
const NUMBERS: [u64; places::KEPT] = [
    0x105, 0x140, 0x141, 0x142, 0x143, 0x180, 0x200, 0x205, 0x240, 0x241, 0x242, 0x243, 0x280,
    0x300, 0x302, 0x303, 0x304, 0x305, 0x340, 0x341, 0x342, 0x343, 0x344, 0x34a, 0x34b, 0x600,
    0x602, 0x603, 0x643, 0x64a, 0x680,
];

fn homes() -> [u8; ROWS]
    ensures { result ≡ map (λ (x : Register). x.view.home) registers }
{
    HOMES
}

fn all_numbers() -> [u64; places::KEPT]
    ensures { result ≡ numbers registers }
{
    NUMBERS
}

// How far up a row's bits stand there.
fn shift(row: usize) -> u64
    requires { row < count }
    ensures { result ≡ (at row).view.shift }
{
    select((row == VSIE) | (row == VSIP), 1, 0)
}

// Those that it shows.
fn shows(row: usize) -> u64
    requires { row < count }
    ensures { result ≡ (at row).view.shows }
{
    let s = (row == SIE) | (row == SIP) | (row == VSIE) | (row == VSIP);
    let vs = (row == HIE) | (row == HIP) | (row == HVIP);
    let none = (row == HGEIE) | (row == HGEIP);
    let interrupts = select(s, masks::S_INTERRUPTS, masks::VS_INTERRUPTS);
    let some = select(row == SSTATUS, masks::SSTATUS, select(none, 0, interrupts));
    select((row == SSTATUS) | none | s | vs, some, masks::WORD)
}

// The place of its gate.
fn gate(row: usize) -> Option<usize>
    requires { row < count }
    ensures { result ≡ (at row).view.gate }
{
    if (row == SIE) | (row == SIP) {
        return Some(places::MIDELEG);
    }
    if (row == VSIE) | (row == VSIP) {
        return Some(places::HIDELEG);
    }
    None
}

// The row that its number reaches with V=1, for S numbers that of the VS register.
fn twin(row: usize) -> usize
    requires { row < count }
    ensures { result ≡ get_or (map twin_row registers) row 0 }
{
    if row < S_ROWS {
        return row + S_ROWS;
    }
    row
}

// What a row has of a place.
fn kept_at(row: usize) -> Kept
    requires { row < count }
    ensures { result ≡ kept_of (at row).view }
{
    let homes = homes();
    Kept {
        home: homes[row] as usize,
        shift: shift(row),
        shows: shows(row),
        gate: gate(row),
    }
}

// What the number of a row reaches, with V=1 or with V=0.
pub fn reach(place: usize, guest: bool) -> Kept
    requires { place < count }
    ensures { result ≡ kept_of (reached guest (at place)) }
{
    if guest {
        return kept_at(twin(place));
    }
    kept_at(place)
}

// The number of the register kept at a place; none past these.
pub fn number(place: usize) -> Option<u64>
    ensures { result ≡ number_at place }
{
    if place >= places::KEPT {
        return None;
    }
    Some(all_numbers()[place])
}
