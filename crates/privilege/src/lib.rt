// The five modes, and what an instruction's permission depends on.
#![tactic(auto)]

ghost use Rattle.std.specs.Prelude.{◌≡◌};
ghost use Rattle.privilege.specs.Mode.{is, among_five, stray_mprv, checked};

use registers::fields::MPRV;

// The five modes, M with V=0.
#[derive(Clone, Copy)]
pub enum Mode {
    U,
    HS,
    M,
    VU,
    VS,
}

// V, the privilege (0 U, 1 S, 3 M), and the two status words with the controls.
#[derive(Clone, Copy)]
pub struct Context {
    pub v: u64,
    pub privilege: u64,
    pub mstatus: u64,
    pub hstatus: u64,
}

// What an instruction gives: cause 2 (illegal instruction), else 22 (virtual instruction), else neither. (The rules say the two apart, and both may hold.)
#[derive(Clone, Copy)]
pub struct Verdict {
    pub gives2: bool,
    pub gives22: bool,
}

impl Context {
    // Whether this is the mode that it is in.
    pub fn is(self, mode: Mode) -> bool
        ensures { result ≡ is mode self }
    {
        let (v, privilege) = match mode {
            Mode::U => (0, 0),
            Mode::HS => (0, 1),
            Mode::M => (0, 3),
            Mode::VU => (1, 0),
            Mode::VS => (1, 1),
        };
        (self.v == v) & (self.privilege == privilege)
    }

    // The mode is one of the five: U, HS, VU and VS, or M.
    pub fn is_among_five(self) -> bool
        ensures { result ≡ among_five self }
    {
        ((self.v < 2) & (self.privilege < 2)) | self.is(Mode::M)
    }

    // MPRV=1 outside M.
    pub fn has_stray_mprv(self) -> bool
        ensures { result ≡ stray_mprv self }
    {
        (MPRV.get(self.mstatus) == 1) & !self.is(Mode::M)
    }

    // Check 2, of a hart whose registers pass or not, at pc.
    pub fn check(self, registers: bool, pc: u64) -> bool
        ensures { result ≡ checked self registers pc }
    {
        self.is_among_five() & (registers & ((pc % 4 == 0) & !self.has_stray_mprv()))
    }
}
