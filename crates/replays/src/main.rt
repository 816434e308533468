// Document 01's replays of the translation: an image's length; the guest whose hgatp has root PPN 80004 hex; the deepest walk of
// three levels over three. Then four over four and five over five, 24 and 35 reads, in an image of one page (2026-05).
// Answers and reads are written as in docs/REPLAY.md.
#![tactic(auto)]

ghost use Rattle.std.specs.Prelude.{◌+◌, ◌≤◌, length};

use exceptions::Exception;
use hart::state::Hart;
use registers::places;
use rules::Kind;
use stages::Read;
use std::{fmt, io};
use translate::{Answer, Translated, translate};

const BASE: u64 = 0x8000_0000;

// An access of 8 bytes by a hart in VS, of whose registers two are set.
#[derive(Clone, Copy)]
struct Access {
    vsatp: u64,
    hgatp: u64,
    kind: Kind,
    address: u64,
}

// By the guest with root PPN 80004.
const LOAD: Access = Access {
    vsatp: 0,
    hgatp: 0x8000_0000_0008_0004,
    kind: Kind::Load,
    address: 0x4000_1008,
};

const STORE: Access = Access {
    kind: Kind::Store,
    ..LOAD
};

// Loads through both stages, of as many levels each. (Indexes are 2 above level 0, where it is 3.)
const SV39: Access = Access {
    vsatp: 0x8000_0000_0000_0006,
    hgatp: 0x8000_0000_0008_0000,
    kind: Kind::Load,
    address: 0x1008,
};

const SV48: Access = Access {
    vsatp: 0x9000_0000_0000_0001,
    hgatp: 0x9000_0000_0008_0000,
    kind: Kind::Load,
    address: 0x100_8040_3008,
};

const SV57: Access = Access {
    vsatp: 0xA000_0000_0000_0001,
    hgatp: 0xA000_0000_0008_0000,
    kind: Kind::Load,
    address: 0x2_0100_8040_3008,
};

impl Access {
    fn over(self, image: &[u8]) -> Translated {
        let mut h = Hart::reset(1, 1, 0);
        h.regs[places::VSATP] = self.vsatp;
        h.regs[places::HGATP] = self.hgatp;
        translate(h, BASE, image, self.kind, self.address, 8)
    }
}

// An answer as it is written, all numbers in hex.
#[derive(Drop)]
struct Shown(Answer);

impl fmt::Display for Shown {
    fn fmt<W: fmt::Write>(&self, f: &mut fmt::Formatter<W>) -> fmt::Result {
        match self.0 {
            Answer::Address(m) => write!(f, "address {:x}", m.0),
            Answer::Refused(refusal) => write!(f, "refused {:x}", u64::from(refusal)),
            Answer::Fault(fault) => {
                let Exception {
                    cause,
                    value,
                    value2,
                    word,
                    flag,
                } = fault;
                let flag = u8::from(flag);
                write!(f, "fault {cause:x} {value:x} {value2:x} {word:x} {flag}")
            }
        }
    }
}

// Writes the answer on a line, then each read on one of its own.
fn replay(rt: &impl Print, access: Access, image: &[u8]) -> io::Result<()> {
    let Translated {
        answer,
        reads,
        count,
        ..
    } = access.over(image);
    println!(rt; "{}", Shown(answer))?;
    for read in reads.iter().take(count) {
        let Read {
            stage,
            level,
            address,
            value,
        } = *read;
        println!(rt; "read {stage:x} {level:x} {:x} {value:x}", address.0)?;
    }
    Ok(())
}

fn write_length(rt: &impl Print, len: u64) -> io::Result<()> {
    let said = if image::refused(0, len) {
        "refused"
    } else {
        "taken"
    };
    println!(rt; "{len:x} {said}")
}

// Puts an entry into an image.
fn enter(image: &mut [u8], at: usize, entry: u64)
    requires { at + 8 ≤ length image.old }
{
    image[at..at + 8].copy_from_slice(&entry.to_le_bytes());
}

// Two pointers, and the three leaves.
fn guest(rt: &impl Print, image: &mut [u8; 0x1_1000]) -> io::Result<()> {
    enter(image, 0x4008, 0x2000_2001);
    enter(image, 0x8000, 0x2000_2401);
    enter(image, 0x9008, 0x2000_40D7);
    replay(rt, LOAD, image)?;
    enter(image, 0x9008, 0x2000_40C7);
    replay(rt, LOAD, image)?;
    enter(image, 0x9008, 0x2000_4057);
    replay(rt, LOAD, image)?;
    replay(rt, STORE, image)
}

// In an image of ten pages: guest page p is the image's page p.
fn deepest(rt: &impl Print, image: &mut [u8; 0xA000]) -> io::Result<()> {
    // The second stage: its root of 16 KiB, and two tables.
    enter(image, 0x0000, 0x2000_1001);
    enter(image, 0x4000, 0x2000_1401);
    enter(image, 0x5030, 0x2000_18D7);
    enter(image, 0x5038, 0x2000_1CD7);
    enter(image, 0x5040, 0x2000_20D7);
    enter(image, 0x5048, 0x2000_24D7);
    // The first stage: pages 6, 7 and 8, and the page itself.
    enter(image, 0x6000, 0x1C01);
    enter(image, 0x7000, 0x2001);
    enter(image, 0x8008, 0x24C7);
    replay(rt, SV39, image)
}

// One page is every table of both stages, and the page itself.
fn one_page(rt: &impl Print, image: &mut [u8; 0x1000]) -> io::Result<()> {
    // The second stage: a pointer to it, a leaf for guest page 1.
    enter(image, 0x0000, 0x2000_0001);
    enter(image, 0x0008, 0x2000_00DF);
    // The first stage: a pointer to guest page 1, a leaf for it.
    enter(image, 0x0010, 0x0401);
    enter(image, 0x0018, 0x04CF);
    replay(rt, SV48, image)?;
    replay(rt, SV57, image)
}

fn main(rt: HostRuntime) -> io::Result<()> {
    write_length(&rt, 0x400_0000)?;
    write_length(&rt, 0x400_1000)?;
    guest(&rt, &mut [0; 0x1_1000])?;
    deepest(&rt, &mut [0; 0xA000])?;
    one_page(&rt, &mut [0; 0x1000])
}
