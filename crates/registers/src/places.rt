// The registers that a hart keeps, each at its place, in rising order of number: all but the views of others, as sstatus, and the
// constants hgeie and hgeip.

// How many they are.
pub const KEPT: usize = 31;

pub const STVEC: usize = 0;

pub const SSCRATCH: usize = 1;

pub const SEPC: usize = 2;

pub const SCAUSE: usize = 3;

pub const STVAL: usize = 4;

pub const SATP: usize = 5;

pub const VSSTATUS: usize = 6;

pub const VSTVEC: usize = 7;

pub const VSSCRATCH: usize = 8;

pub const VSEPC: usize = 9;

pub const VSCAUSE: usize = 10;

pub const VSTVAL: usize = 11;

pub const VSATP: usize = 12;

pub const MSTATUS: usize = 13;

pub const MEDELEG: usize = 14;

pub const MIDELEG: usize = 15;

pub const MIE: usize = 16;

pub const MTVEC: usize = 17;

pub const MSCRATCH: usize = 18;

pub const MEPC: usize = 19;

pub const MCAUSE: usize = 20;

pub const MTVAL: usize = 21;

pub const MIP: usize = 22;

pub const MTINST: usize = 23;

pub const MTVAL2: usize = 24;

pub const HSTATUS: usize = 25;

pub const HEDELEG: usize = 26;

pub const HIDELEG: usize = 27;

pub const HTVAL: usize = 28;

pub const HTINST: usize = 29;

pub const HGATP: usize = 30;
