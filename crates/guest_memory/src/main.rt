// A hypervisor stores into its guest's memory and loads from it, through both stages (2026-03). The image too is built by HSV, with both stages Bare.
// A line for each event: its name and operands (docs/REPLAY.md), what it came to, and how many entries were read. After `trapped` stand cause, value, second
// value and instruction word. Numbers are hexadecimal.
#![tactic(auto)]

use hart::event::Outcome;
use hart::guest::Performed;
use hart::state::Hart;
use registers::places;
use std::{fmt, io};

const BASE: u64 = 0x8000_0000;

// The bits of hstatus.SPVP and vsstatus.SUM.
const SPVP: u64 = 0x100;

const SUM: u64 = 0x4_0000;

// The instructions' words for one byte, to x10 or from x12, at the address in x11.
const HLV: u32 = 0x6005_C573;

const HLVU: u32 = 0x6015_C573;

const HLVX: u32 = 0x6035_C573;

const HSV: u32 = 0x62C5_C073;

// Entries, each with its offset in the image.
const ENTRIES: [(u64, u64); 17] = [
    // The second stage: guest pages 6 to B are the image's. 6 and 7 are read-only, A is execute-only.
    (0x0000, 0x2000_1001),
    (0x4000, 0x2000_1401),
    (0x5030, 0x2000_1853),
    (0x5038, 0x2000_1C53),
    (0x5040, 0x2000_20D7),
    (0x5048, 0x2000_24D7),
    (0x5050, 0x2000_2859),
    (0x5058, 0x2000_2CD7),
    // The first stage: tables in guest pages 6, 7 and 8, and one in C, which the second stage does not map.
    (0x6000, 0x1C01),
    (0x6008, 0x3001),
    (0x7000, 0x2001),
    // 1000: a page of data. 2000: execute-only. 3000: a U page. 5000: guest page C. 6000: the table that these entries are in.
    (0x8008, 0x24C7),
    (0x8010, 0x2849),
    (0x8018, 0x2CD7),
    (0x8028, 0x30C7),
    (0x8030, 0x20C7),
    // An instruction, at 2008: addi x10, x10, -1.
    (0xA008, 0xFFF5_0513),
];

// Each with its width in bytes and its address, HLV with whether it is signed between them, HSV with the value behind.
#[derive(Clone, Copy)]
enum Event {
    Hlv(u64, bool, u64),
    Hlvx(u64, u64),
    Hsv(u64, u64, u64),
}

// Eight bytes stored, and loaded at each width, signed and unsigned.
const WIDTHS: [Event; 8] = [
    Event::Hsv(8, 0x1010, 0x8182_8384_8586_8788),
    Event::Hlv(8, true, 0x1010),
    Event::Hlv(4, true, 0x1010),
    Event::Hlv(4, false, 0x1014),
    Event::Hlv(2, true, 0x1012),
    Event::Hlv(2, false, 0x1016),
    Event::Hlv(1, true, 0x1013),
    Event::Hlv(1, false, 0x1017),
];

// Stores of fewer: the low bytes of the value, among what was there and what lies beside it.
const PARTS: [Event; 9] = [
    Event::Hsv(4, 0x1014, 0x0102_0304_0506_0708),
    Event::Hlv(8, true, 0x1010),
    Event::Hsv(2, 0x1012, 0x0102_0304_0506_0708),
    Event::Hlv(8, true, 0x1010),
    Event::Hsv(1, 0x1011, 0x0102_0304_0506_0708),
    Event::Hlv(8, true, 0x1010),
    Event::Hlv(2, true, 0x1012),
    Event::Hlv(8, true, 0x1008),
    Event::Hlv(8, true, 0x1018),
];

// HLVX reads an execute-only page, where HLV and HSV fault, and no page without X.
const CODE: [Event; 7] = [
    Event::Hlvx(4, 0x2008),
    Event::Hlvx(2, 0x200A),
    Event::Hlvx(8, 0x2008),
    Event::Hlvx(4, 0x1010),
    Event::Hlv(4, true, 0x2008),
    Event::Hsv(4, 0x2008, 0x13),
    Event::Hlvx(4, 0x2008),
];

// Misaligned; a fault of the first stage, of the second, and of the second on the way to a guest entry.
const FAULTS: [Event; 9] = [
    Event::Hlv(8, true, 0x100C),
    Event::Hsv(8, 0x100C, 0),
    Event::Hlv(8, true, 0x4010),
    Event::Hsv(8, 0x4010, 0),
    Event::Hlv(8, true, 0x5008),
    Event::Hsv(8, 0x5008, 0),
    Event::Hlv(8, true, 0x4020_0008),
    Event::Hlvx(4, 0x4020_0008),
    Event::Hsv(8, 0x4020_0008, 0),
];

// An entry stored into the guest's table: the next walk goes by it.
const TABLE: [Event; 3] = [
    Event::Hsv(8, 0x6020, 0x24C7),
    Event::Hlv(8, true, 0x6020),
    Event::Hlv(8, true, 0x4010),
];

// A form's word for a width.
fn word(form: u32, width: u64) -> u32 {
    match width {
        1 => form,
        2 => form | 1 << 26,
        4 => form | 2 << 26,
        _ => form | 3 << 26,
    }
}

impl Event {
    // What it comes to on a hart, and in the image.
    fn on(self, h: Hart, image: &mut [u8]) -> Performed {
        match self {
            Event::Hlv(width, signed, address) => {
                let form = if signed { HLV } else { HLVU };
                h.hlv(BASE, image, width, signed, address, word(form, width))
            }
            Event::Hlvx(width, address) => h.hlvx(BASE, image, width, address, word(HLVX, width)),
            Event::Hsv(width, address, value) => {
                h.hsv(BASE, image, width, address, value, word(HSV, width))
            }
        }
    }
}

impl fmt::Display for Event {
    fn fmt<W: fmt::Write>(&self, f: &mut fmt::Formatter<W>) -> fmt::Result {
        match *self {
            Event::Hlv(width, signed, address) => {
                let signed = u8::from(signed);
                write!(f, "hlv {width} {signed} {address:x}")
            }
            Event::Hlvx(width, address) => write!(f, "hlvx {width} {address:x}"),
            Event::Hsv(width, address, value) => write!(f, "hsv {width} {address:x} {value:x}"),
        }
    }
}

// An event's line, but for the event.
#[derive(Drop)]
struct Line(Performed);

impl fmt::Display for Line {
    fn fmt<W: fmt::Write>(&self, f: &mut fmt::Formatter<W>) -> fmt::Result {
        let Performed {
            hart,
            outcome,
            value,
            count,
            ..
        } = self.0;
        match outcome {
            Outcome::Done => write!(f, "done {value:x}")?,
            Outcome::Trapped(cause) => write!(f, "trapped {cause:x} {}", Trap(hart))?,
            Outcome::Refused(refusal) => write!(f, "refused {:x}", u64::from(refusal))?,
            // None of these events is one.
            Outcome::Interrupted(_) => {}
        }
        write!(f, " reads {count:x}")
    }
}

// What a hart in M was told of a trap, but for the cause.
#[derive(Drop)]
struct Trap(Hart);

impl fmt::Display for Trap {
    fn fmt<W: fmt::Write>(&self, f: &mut fmt::Formatter<W>) -> fmt::Result {
        let regs = self.0.regs;
        let value = regs[places::MTVAL];
        let value2 = regs[places::MTVAL2];
        let word = regs[places::MTINST];
        write!(f, "{value:x} {value2:x} {word:x}")
    }
}

// Does an event on a hart and writes its line.
fn step(rt: &impl Print, h: Hart, image: &mut [u8], event: Event) -> io::Result<()> {
    println!(rt; "{event} {}", Line(event.on(h, image)))
}

// Each event on the hart as given: the hart that one leaves is dropped.
fn replay(rt: &impl Print, h: Hart, image: &mut [u8], events: &[Event]) -> io::Result<()> {
    for event in events {
        step(rt, h, &mut *image, *event)?;
    }
    Ok(())
}

// In HS, with a guest whose tables are those of the image; writes which it is.
fn hypervisor(rt: &impl Print, spvp: bool, sum: bool) -> io::Result<Hart> {
    println!(rt; "spvp {} sum {}", u8::from(spvp), u8::from(sum))?;
    let mut h = Hart::reset(0, 1, 0x1000);
    h.regs[places::VSATP] = 0x8000_0000_0000_0006;
    h.regs[places::HGATP] = 0x8000_0000_0008_0000;
    if spvp {
        h.regs[places::HSTATUS] |= SPVP;
    }
    if sum {
        h.regs[places::VSSTATUS] |= SUM;
    }
    Ok(h)
}

// The U page, with SPVP and SUM both ways.
fn rights(rt: &impl Print, image: &mut [u8]) -> io::Result<()> {
    let vs = hypervisor(rt, true, false)?;
    step(rt, vs, &mut *image, Event::Hlv(8, true, 0x3008))?;
    step(rt, vs, &mut *image, Event::Hsv(8, 0x3008, 0x33))?;
    let sum = hypervisor(rt, true, true)?;
    step(rt, sum, &mut *image, Event::Hsv(8, 0x3008, 0x55))?;
    step(rt, sum, &mut *image, Event::Hlv(8, true, 0x3008))?;
    let vu = hypervisor(rt, false, true)?;
    step(rt, vu, &mut *image, Event::Hlv(8, true, 0x3008))?;
    step(rt, vu, &mut *image, Event::Hlv(8, true, 0x1010))
}

// The entries, by HSV to machine addresses.
fn build(image: &mut [u8]) {
    let h = Hart::reset(0, 1, 0x1000);
    for (at, entry) in ENTRIES {
        h.hsv(BASE, &mut *image, 8, BASE | at, entry, word(HSV, 8));
    }
}

fn main(rt: HostRuntime) -> io::Result<()> {
    let mut image = [0u8; 0xC000];
    build(&mut image);
    let mut h = hypervisor(&rt, true, false)?;
    replay(&rt, h, &mut image, &WIDTHS)?;
    replay(&rt, h, &mut image, &PARTS)?;
    replay(&rt, h, &mut image, &CODE)?;
    replay(&rt, h, &mut image, &FAULTS)?;
    replay(&rt, h, &mut image, &TABLE)?;
    rights(&rt, &mut image)?;
    // In VS: 22, with the word.
    h.v = 1;
    step(&rt, h, &mut image, Event::Hlv(4, true, 0x1010))
}
