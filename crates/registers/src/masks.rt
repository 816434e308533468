// The bits that a write stores, by register, and what its other bits read.
use crate::fields::{
    GVA, HGVA, HU, MEI, MIE, MODE, MPIE, MPP, MPRV, MPV, MSI, MTI, MXR, SEI, SIE, SPIE, SPP, SPV,
    SPVP, SSI, STI, SUM, SXL, TSR, TVM, TW, UXL, VMID, VSEI, VSSI, VSTI, VSXL, VTSR, VTVM, VTW,
};

pub const WORD: u64 = 0xFFFF_FFFF_FFFF_FFFF;

// sstatus and vsstatus
pub const STATUS: u64 = 1 << SIE.low | 1 << SPIE.low | 1 << SPP.low | 1 << SUM.low | 1 << MXR.low;

pub const MSTATUS: u64 = STATUS
    | 1 << MIE.low
    | 1 << MPIE.low
    | 3 << MPP.low
    | 1 << MPRV.low
    | 1 << TVM.low
    | 1 << TW.low
    | 1 << TSR.low
    | 1 << GVA.low
    | 1 << MPV.low;

pub const HSTATUS: u64 = 1 << HGVA.low
    | 1 << SPV.low
    | 1 << SPVP.low
    | 1 << HU.low
    | 1 << VTVM.low
    | 1 << VTW.low
    | 1 << VTSR.low;

pub const HEDELEG: u64 = 0xB1FF;

pub const MEDELEG: u64 = 0xF0_B7FF;

pub const TVEC: u64 = !0b10;

pub const EPC: u64 = !0b11;

// PPN 43:0, its bits 1:0 always zero
pub const HGATP: u64 = 0xF << MODE.low | 0x3FFF << VMID.low | 0xFFF_FFFF_FFFC;

pub const STATUS_FIXED: u64 = 2 << UXL.low;

pub const MSTATUS_FIXED: u64 = 2 << UXL.low | 2 << SXL.low;

pub const HSTATUS_FIXED: u64 = 2 << VSXL.low;

// what sstatus shows of mstatus
pub const SSTATUS: u64 = STATUS | 3 << UXL.low;

// S's interrupts: what mideleg writes and sie shows.
pub const S_INTERRUPTS: u64 = 1 << SSI.low | 1 << STI.low | 1 << SEI.low;

// VS's: what mideleg has always, hideleg writes and hie shows.
pub const VS_INTERRUPTS: u64 = 1 << VSSI.low | 1 << VSTI.low | 1 << VSEI.low;

// what mie writes and mip can hold
pub const INTERRUPTS: u64 = S_INTERRUPTS
    | VS_INTERRUPTS
    | 1 << MSI.low
    | 1 << MTI.low
    | 1 << MEI.low;

// what a write to mip writes
pub const MIP: u64 = S_INTERRUPTS | 1 << VSSI.low;

// what a write to sip, to vsip and to hip writes
pub const SIP: u64 = 1 << SSI.low;

pub const VSIP: u64 = SIP;

pub const HIP: u64 = 1 << VSSI.low;
