// The table of registers, in rising order of number, and its search; where each row's bits are kept.
#![tactic(auto)]

ghost use Rattle.std.specs.Prelude.{◌≡◌, [], ◌∷◌, ◌++◌, ◌+◌, ◌<◌, ◌≤◌, replicate};
ghost use Rattle.registers.specs.Registers.{count};
ghost use Rattle.table.specs.Table.{first_at, table};
ghost use Rattle.table.specs.Search.{looks, no_row, row_at, rows_from, after, halving, told_from, searched};

use registers::masks;

pub mod kept;

// How many registers there are.
pub const ROWS: usize = 41;

// The places of the middle rows: of the table, of the rows below that and of those above; no more than a quarter of the rows is left
// between these.
const MIDDLE: usize = 20;

const LOWER: usize = 10;

const UPPER: usize = 31;

const QUARTER: usize = 10;

// A search looks at no more rows than these.
pub const LOOKS: usize = 8;

// The level that a number belongs to, by a number of its own: S; VS and H; M. (No enum of these three: a table that is searched may
// have any, and with one case more, for the rest, an access takes a third more instructions.)
#[derive(Clone, Copy, PartialEq, Eq)]
pub struct Level(pub u8);

impl Level {
    pub const SUPERVISOR: Level = Level(1);

    pub const HYPERVISOR: Level = Level(2);

    pub const MACHINE: Level = Level(3);
}

#[derive(Clone, Copy)]
pub struct Row {
    pub number: u16,
    pub level: Level,
    pub read_only: bool,
    pub mask: u64,
}

// What a search found, a place and the row that stands there, and the places that it looked at, so many of them, in their order; the rest are zero.
// (By value, as the list of reads is.)
#[derive(Clone, Copy)]
pub struct Searched {
    pub found: Option<(usize, Row)>,
    pub places: [usize; LOOKS],
    pub count: usize,
}

const TABLE: [Row; ROWS] = [
    // sstatus
    Row {
        number: 0x100,
        level: Level::SUPERVISOR,
        read_only: false,
        mask: masks::STATUS,
    },
    // sie
    Row {
        number: 0x104,
        level: Level::SUPERVISOR,
        read_only: false,
        mask: masks::S_INTERRUPTS,
    },
    // stvec
    Row {
        number: 0x105,
        level: Level::SUPERVISOR,
        read_only: false,
        mask: masks::TVEC,
    },
    // sscratch
    Row {
        number: 0x140,
        level: Level::SUPERVISOR,
        read_only: false,
        mask: masks::WORD,
    },
    // sepc
    Row {
        number: 0x141,
        level: Level::SUPERVISOR,
        read_only: false,
        mask: masks::EPC,
    },
    // scause
    Row {
        number: 0x142,
        level: Level::SUPERVISOR,
        read_only: false,
        mask: masks::WORD,
    },
    // stval
    Row {
        number: 0x143,
        level: Level::SUPERVISOR,
        read_only: false,
        mask: masks::WORD,
    },
    // sip
    Row {
        number: 0x144,
        level: Level::SUPERVISOR,
        read_only: false,
        mask: masks::SIP,
    },
    // satp
    Row {
        number: 0x180,
        level: Level::SUPERVISOR,
        read_only: false,
        mask: masks::WORD,
    },
    // vsstatus
    Row {
        number: 0x200,
        level: Level::HYPERVISOR,
        read_only: false,
        mask: masks::STATUS,
    },
    // vsie
    Row {
        number: 0x204,
        level: Level::HYPERVISOR,
        read_only: false,
        mask: masks::S_INTERRUPTS,
    },
    // vstvec
    Row {
        number: 0x205,
        level: Level::HYPERVISOR,
        read_only: false,
        mask: masks::TVEC,
    },
    // vsscratch
    Row {
        number: 0x240,
        level: Level::HYPERVISOR,
        read_only: false,
        mask: masks::WORD,
    },
    // vsepc
    Row {
        number: 0x241,
        level: Level::HYPERVISOR,
        read_only: false,
        mask: masks::EPC,
    },
    // vscause
    Row {
        number: 0x242,
        level: Level::HYPERVISOR,
        read_only: false,
        mask: masks::WORD,
    },
    // vstval
    Row {
        number: 0x243,
        level: Level::HYPERVISOR,
        read_only: false,
        mask: masks::WORD,
    },
    // vsip
    Row {
        number: 0x244,
        level: Level::HYPERVISOR,
        read_only: false,
        mask: masks::VSIP,
    },
    // vsatp
    Row {
        number: 0x280,
        level: Level::HYPERVISOR,
        read_only: false,
        mask: masks::WORD,
    },
    // mstatus
    Row {
        number: 0x300,
        level: Level::MACHINE,
        read_only: false,
        mask: masks::MSTATUS,
    },
    // medeleg
    Row {
        number: 0x302,
        level: Level::MACHINE,
        read_only: false,
        mask: masks::MEDELEG,
    },
    // mideleg
    Row {
        number: 0x303,
        level: Level::MACHINE,
        read_only: false,
        mask: masks::S_INTERRUPTS,
    },
    // mie
    Row {
        number: 0x304,
        level: Level::MACHINE,
        read_only: false,
        mask: masks::INTERRUPTS,
    },
    // mtvec
    Row {
        number: 0x305,
        level: Level::MACHINE,
        read_only: false,
        mask: masks::TVEC,
    },
    // mscratch
    Row {
        number: 0x340,
        level: Level::MACHINE,
        read_only: false,
        mask: masks::WORD,
    },
    // mepc
    Row {
        number: 0x341,
        level: Level::MACHINE,
        read_only: false,
        mask: masks::EPC,
    },
    // mcause
    Row {
        number: 0x342,
        level: Level::MACHINE,
        read_only: false,
        mask: masks::WORD,
    },
    // mtval
    Row {
        number: 0x343,
        level: Level::MACHINE,
        read_only: false,
        mask: masks::WORD,
    },
    // mip
    Row {
        number: 0x344,
        level: Level::MACHINE,
        read_only: false,
        mask: masks::MIP,
    },
    // mtinst
    Row {
        number: 0x34a,
        level: Level::MACHINE,
        read_only: false,
        mask: masks::WORD,
    },
    // mtval2
    Row {
        number: 0x34b,
        level: Level::MACHINE,
        read_only: false,
        mask: masks::WORD,
    },
    // hstatus
    Row {
        number: 0x600,
        level: Level::HYPERVISOR,
        read_only: false,
        mask: masks::HSTATUS,
    },
    // hedeleg
    Row {
        number: 0x602,
        level: Level::HYPERVISOR,
        read_only: false,
        mask: masks::HEDELEG,
    },
    // hideleg
    Row {
        number: 0x603,
        level: Level::HYPERVISOR,
        read_only: false,
        mask: masks::VS_INTERRUPTS,
    },
    // hie
    Row {
        number: 0x604,
        level: Level::HYPERVISOR,
        read_only: false,
        mask: masks::VS_INTERRUPTS,
    },
    // hgeie
    Row {
        number: 0x607,
        level: Level::HYPERVISOR,
        read_only: false,
        mask: 0,
    },
    // htval
    Row {
        number: 0x643,
        level: Level::HYPERVISOR,
        read_only: false,
        mask: masks::WORD,
    },
    // hip
    Row {
        number: 0x644,
        level: Level::HYPERVISOR,
        read_only: false,
        mask: masks::HIP,
    },
    // hvip
    Row {
        number: 0x645,
        level: Level::HYPERVISOR,
        read_only: false,
        mask: masks::VS_INTERRUPTS,
    },
    // htinst
    Row {
        number: 0x64a,
        level: Level::HYPERVISOR,
        read_only: false,
        mask: masks::WORD,
    },
    // hgatp
    Row {
        number: 0x680,
        level: Level::HYPERVISOR,
        read_only: false,
        mask: masks::HGATP,
    },
    // hgeip
    Row {
        number: 0xe12,
        level: Level::HYPERVISOR,
        read_only: true,
        mask: 0,
    },
];

fn number_of(row: Row) -> u64
    ensures { result ≡ row.number }
{
    u64::from(row.number)
}

// The search goes on among the rows of a quarter, those from place first to before place end, after looks at the middle row of the
// table and at that of the half.
fn halve(rows: [Row; QUARTER], first: usize, end: usize, half: usize, n: u64) -> Searched
    requires { (first ≤ end) × (end ≤ first + 10) × (end ≤ count) }
    ensures { result ≡ told_from (replicate looks 0) 0 (after 20 (after half (halving 6 (replicate first no_row ++ rows) n first end))) }
{
    let mut places = [MIDDLE, half, 0, 0, 0, 0, 0, 0];
    let mut looked: usize = 2;
    let mut low = first;
    let mut high = end;
    // `binary_search_by` tells no places that it looked at
    while low < high {
        let middle = (low + high) / 2;
        let row = rows[middle - first];
        let number = number_of(row);
        places[looked] = middle;
        looked += 1;
        if number == n {
            return Searched {
                found: Some((middle, row)),
                places,
                count: looked,
            };
        }
        if number < n {
            low = middle + 1;
        } else {
            high = middle;
        }
    }
    Searched {
        found: None,
        places,
        count: looked,
    }
}

// The rows of a quarter: nine from place FIRST on, and that at place LAST, which of a quarter of nine is the last of them again.
fn quarter<const FIRST: usize, const LAST: usize>(table: [Row; ROWS]) -> [Row; QUARTER]
    requires first { FIRST + 8 < count }
    requires last { LAST < count }
    ensures { result ≡ rows_from table 9 FIRST (row_at table LAST ∷ []) }
{
    [
        table[FIRST],
        table[FIRST + 1],
        table[FIRST + 2],
        table[FIRST + 3],
        table[FIRST + 4],
        table[FIRST + 5],
        table[FIRST + 6],
        table[FIRST + 7],
        table[FIRST + 8],
        table[LAST],
    ]
}

// The row that bears the number n, in any table as long as ours, if its numbers rise. An array that is indexed by a variable is
// written out first, and of a constant table that would be every row at each search: so two looks go to fixed places, where the
// compiler knows the rows, and only a quarter of them is written out.
pub fn search(table: [Row; ROWS], n: u64) -> Searched
    ensures { result ≡ searched table n }
{
    let row = table[MIDDLE];
    if number_of(row) == n {
        return Searched {
            found: Some((MIDDLE, row)),
            places: [MIDDLE, 0, 0, 0, 0, 0, 0, 0],
            count: 1,
        };
    }
    if number_of(row) < n {
        let row = table[UPPER];
        if number_of(row) == n {
            return Searched {
                found: Some((UPPER, row)),
                places: [MIDDLE, UPPER, 0, 0, 0, 0, 0, 0],
                count: 2,
            };
        }
        if number_of(row) < n {
            return halve(quarter::<32, 40>(table), UPPER + 1, ROWS, UPPER, n);
        }
        return halve(quarter::<21, 30>(table), MIDDLE + 1, UPPER, UPPER, n);
    }
    let row = table[LOWER];
    if number_of(row) == n {
        return Searched {
            found: Some((LOWER, row)),
            places: [MIDDLE, LOWER, 0, 0, 0, 0, 0, 0],
            count: 2,
        };
    }
    if number_of(row) < n {
        return halve(quarter::<11, 19>(table), LOWER + 1, MIDDLE, LOWER, n);
    }
    halve(quarter::<0, 9>(table), 0, LOWER, LOWER, n)
}

// The table; a function that used the constant would carry a copy of it in its proof.
fn rows() -> [Row; ROWS]
    ensures { result ≡ table }
{
    TABLE
}

// The register with the number n.
pub fn lookup(n: u64) -> Option<(usize, Row)>
    ensures { result ≡ first_at table n 0 }
{
    search(rows(), n).found
}
