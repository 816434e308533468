// An access: what it asks of each stage, and its faults.
#![tactic(auto)]

ghost use Rattle.std.specs.Prelude.{◌≡◌, true};
ghost use Rattle.rules.specs.Kind.{by};
ghost use Rattle.access.specs.Widths.{known, misaligned};
ghost use Rattle.access.specs.Needs.{need_of, first_need, second_need, entry_need};
ghost use Rattle.access.specs.Faults.{raised, misalignment, access_fault, page_fault, guest_page_fault, entry_fault};

use exceptions::Exception;
use rules::{Kind, Need, Right};

// A guest physical address: where a first-stage entry is, and what the first stage yields. Only the second stage, also when
// off, makes a machine address of it.
#[derive(Clone, Copy)]
pub struct Guest(pub u64);

#[derive(Clone, Copy)]
pub struct Machine(pub u64);

// A stage's tables: the number of their levels, 0 for Bare, and the root's PPN.
#[derive(Clone, Copy)]
pub struct Root {
    pub levels: u64,
    pub ppn: u64,
}

// An access: its kind, which faults and U go by, and the right that it needs; with what the walk takes from the hart: the effective V, whether
// the effective mode is a user mode, SUM, the MXR that counts at the first stage (mxr) and at the second (mmxr, mstatus's), and each stage's
// tables.
#[derive(Clone, Copy)]
pub struct Access {
    pub kind: Kind,
    pub right: Right,
    pub address: u64,
    pub width: u64,
    pub v: bool,
    pub user: bool,
    pub sum: bool,
    pub mxr: bool,
    pub mmxr: bool,
    pub first: Root,
    pub second: Root,
}

// Whether an access can have so many bytes.
pub fn is_known(width: u64) -> bool
    ensures { result ≡ known width }
{
    (width == 1) | (width == 2) | (width == 4) | (width == 8)
}

// Whether a load or store of a known width is misaligned. A known width is a power of two: its remainder is the bits below it.
pub fn is_misaligned(kind: Kind, address: u64, width: u64) -> bool
    requires { known width ≡ true }
    ensures { result ≡ misaligned kind address width }
{
    let t = address & (width - 1) != 0;
    kind.by(false, t, t)
}

// What a kind of access asks of a leaf.
fn need(kind: Kind, right: Right, user: bool, sum: bool, mxr: bool) -> Need
    ensures { result ≡ need_of kind right user sum mxr }
{
    Need {
        right,
        fetch: matches!(kind, Kind::Fetch),
        user,
        sum,
        mxr,
    }
}

impl Access {
    // The fault whose cause is the access's own of three.
    fn raise(self, fetch: u64, load: u64, store: u64, value2: u64) -> Exception
        ensures { result ≡ raised self (by self.kind fetch load store) value2 0 }
    {
        Exception {
            cause: self.kind.by(fetch, load, store),
            value: self.address,
            value2,
            word: 0,
            flag: self.v,
        }
    }

    // Each fault is one call, by its name in the rules: an argument that says which would be matched on to make the same call.
    // A misaligned load or store.
    pub fn misalignment(self) -> Exception
        ensures { result ≡ misalignment self }
    {
        self.raise(0, 4, 6, 0)
    }

    pub fn access_fault(self) -> Exception
        ensures { result ≡ access_fault self }
    {
        self.raise(1, 5, 7, 0)
    }

    pub fn page_fault(self) -> Exception
        ensures { result ≡ page_fault self }
    {
        self.raise(12, 13, 15, 0)
    }

    pub fn guest_page_fault(self, guest: Guest) -> Exception
        ensures { result ≡ guest_page_fault self guest }
    {
        self.raise(20, 21, 23, guest.0 / 4)
    }

    // The fault of a guest entry: the access's own, with the word that says that the hart read it.
    pub fn entry_fault(self, guest: Guest) -> Exception
        ensures { result ≡ entry_fault self guest }
    {
        let mut fault = self.raise(20, 21, 23, guest.0 / 4);
        fault.word = 0x3000;
        fault
    }

    // What the access asks of the first stage.
    pub fn first_need(self) -> Need
        ensures { result ≡ first_need self }
    {
        need(self.kind, self.right, self.user, self.sum, self.mxr)
    }

    // What the access asks of the second stage.
    pub fn second_need(self) -> Need
        ensures { result ≡ second_need self }
    {
        need(self.kind, self.right, true, false, self.mmxr)
    }
}

// What the read of a guest entry asks of the second stage.
pub fn entry_need() -> Need
    ensures { result ≡ entry_need }
{
    need(Kind::Load, Right::Read, true, false, false)
}
