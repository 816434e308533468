// The named fields of the status registers and of satp, vsatp and hgatp.
use bits::Field;

// mstatus; SIE, SPIE, SPP, SUM, MXR and UXL are also those of sstatus and vsstatus.
pub const SIE: Field = Field { low: 1, width: 1 };

pub const MIE: Field = Field { low: 3, width: 1 };

pub const SPIE: Field = Field { low: 5, width: 1 };

pub const MPIE: Field = Field { low: 7, width: 1 };

pub const SPP: Field = Field { low: 8, width: 1 };

pub const MPP: Field = Field { low: 11, width: 2 };

pub const MPRV: Field = Field { low: 17, width: 1 };

pub const SUM: Field = Field { low: 18, width: 1 };

pub const MXR: Field = Field { low: 19, width: 1 };

pub const TVM: Field = Field { low: 20, width: 1 };

pub const TW: Field = Field { low: 21, width: 1 };

pub const TSR: Field = Field { low: 22, width: 1 };

pub const GVA: Field = Field { low: 38, width: 1 };

pub const MPV: Field = Field { low: 39, width: 1 };

pub const UXL: Field = Field { low: 32, width: 2 };

pub const SXL: Field = Field { low: 34, width: 2 };

// hstatus; HGVA is its GVA.
pub const HGVA: Field = Field { low: 6, width: 1 };

pub const SPV: Field = Field { low: 7, width: 1 };

pub const SPVP: Field = Field { low: 8, width: 1 };

pub const HU: Field = Field { low: 9, width: 1 };

pub const VTVM: Field = Field { low: 20, width: 1 };

pub const VTW: Field = Field { low: 21, width: 1 };

pub const VTSR: Field = Field { low: 22, width: 1 };

pub const VSXL: Field = Field { low: 32, width: 2 };

// satp and vsatp (MODE, PPN), hgatp (all three).
pub const MODE: Field = Field { low: 60, width: 4 };

pub const VMID: Field = Field { low: 44, width: 14 };

pub const PPN: Field = Field { low: 0, width: 44 };

// mip and mie, and where it has them mideleg, hideleg and the views: of S, VS and M the software, timer and external interrupts.
pub const SSI: Field = Field { low: 1, width: 1 };

pub const VSSI: Field = Field { low: 2, width: 1 };

pub const MSI: Field = Field { low: 3, width: 1 };

pub const STI: Field = Field { low: 5, width: 1 };

pub const VSTI: Field = Field { low: 6, width: 1 };

pub const MTI: Field = Field { low: 7, width: 1 };

pub const SEI: Field = Field { low: 9, width: 1 };

pub const VSEI: Field = Field { low: 10, width: 1 };

pub const MEI: Field = Field { low: 11, width: 1 };
