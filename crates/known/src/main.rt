// The known replays of registers, traps and returns that are run and compared, and a tour through all five modes and all
// three targets of a trap. A line for each event: its name (docs/REPLAY.md), its operands but for zeros, what it came to, the
// value answered, then V, privilege and pc. Numbers are hexadecimal.
#![tactic(auto)]

use exceptions::Exception;
use hart::accesses::Accessed;
use hart::event::{Outcome, Step};
use hart::state::Hart;
use std::{fmt, io};

// The instructions' words. CSRRS from x0, CSRRW, CSRRS and CSRRC from x11, all to x10, beside the register's number.
const READ: u32 = 0x2573;

const WRITE: u32 = 0x5_9573;

const SET: u32 = 0x5_A573;

const CLEAR: u32 = 0x5_B573;

const MRET: u32 = 0x3020_0073;

const SRET: u32 = 0x1020_0073;

const WFI: u32 = 0x1050_0073;

// Fences of all addresses.
const SFENCE_VMA: u32 = 0x1200_0073;

const HFENCE_VVMA: u32 = 0x2200_0073;

const HFENCE_GVMA: u32 = 0x6200_0073;

// An access has the register's number, then the value. A set or a clear writes.
#[derive(Clone, Copy)]
enum Event {
    Read(u64),
    Write(u64, u64),
    Set(u64, u64),
    Clear(u64, u64),
    Trap(Exception),
    Ecall,
    Ebreak,
    Mret,
    Sret,
    Wfi,
    SfenceVma,
    HfenceVvma,
    HfenceGvma,
    Interrupt,
}

// The load guest-page fault of a guest entry.
const GUEST_ENTRY: Exception = Exception {
    cause: 21,
    value: 0x4000_1008,
    value2: 0x1000_0402,
    word: 0x3000,
    flag: true,
};

// A call from U, which can't arise in M.
const CALL: Exception = Exception {
    cause: 8,
    value: 0,
    value2: 0,
    word: 0,
    flag: false,
};

const TOUR: [Event; 44] = [
    // Register 1000 gives refusal 5.
    Event::Read(0x1000),
    // M hands all that it can to HS and VS, but for the environment call from HS.
    Event::Write(0x302, 0xF0_B5FF),
    Event::Write(0x602, 0xB1FF),
    Event::Write(0x305, 0x3001),
    Event::Write(0x105, 0x1001),
    Event::Write(0x205, 0x2001),
    // M to HS by MRET; M's numbers are out of reach there.
    Event::Write(0x341, 0x4000),
    Event::Set(0x300, 0x800),
    Event::Mret,
    Event::Read(0x341),
    // The trap's value is the instruction's word.
    Event::Read(0x143),
    // HS to U by SRET, and back by a call.
    Event::Clear(0x100, 0x100),
    Event::Write(0x141, 0x5000),
    Event::Sret,
    Event::Ecall,
    Event::Read(0x142),
    // HS to VS by SRET.
    Event::Set(0x600, 0x80),
    Event::Set(0x100, 0x100),
    Event::Write(0x141, 0x6000),
    Event::Sret,
    // VS to VU by SRET, and back by a breakpoint.
    Event::Write(0x141, 0x7000),
    Event::Sret,
    Event::Ebreak,
    Event::Read(0x142),
    Event::Read(0x143),
    // VS's own numbers are out of reach in VS: into HS, where they are not.
    Event::Read(0x241),
    Event::Read(0x143),
    Event::Read(0x241),
    Event::Read(0x600),
    Event::Wfi,
    // Fences in HS, and into M by a call.
    Event::SfenceVma,
    Event::HfenceVvma,
    Event::HfenceGvma,
    Event::Ecall,
    Event::Read(0x342),
    // A request that is delivered, and one that can't arise.
    Event::Trap(GUEST_ENTRY),
    Event::Read(0x34B),
    Event::Trap(CALL),
    // An interrupt that waits for MIE, and then is taken: M's tvec is vectored.
    Event::Write(0x304, 2),
    Event::Write(0x344, 2),
    Event::Interrupt,
    Event::Set(0x300, 8),
    Event::Interrupt,
    Event::Read(0x342),
];

// An access's word.
fn access(word: u32, number: u64) -> u32 {
    ((number % 0x1000) as u32) << 20 | word
}

// An event that is no access answers 0.
fn answered(step: Step) -> Accessed {
    let Step { hart, outcome } = step;
    Accessed {
        hart,
        outcome,
        value: 0,
    }
}

impl Event {
    fn name(self) -> &'static str {
        match self {
            Event::Read(_) => "read",
            Event::Write(..) => "write",
            Event::Set(..) => "set",
            Event::Clear(..) => "clear",
            Event::Trap(_) => "trap",
            Event::Ecall => "ecall",
            Event::Ebreak => "ebreak",
            Event::Mret => "mret",
            Event::Sret => "sret",
            Event::Wfi => "wfi",
            Event::SfenceVma => "sfence.vma",
            Event::HfenceVvma => "hfence.vvma",
            Event::HfenceGvma => "hfence.gvma",
            Event::Interrupt => "interrupt",
        }
    }

    // What it comes to on a hart.
    fn on(self, h: Hart) -> Accessed {
        match self {
            Event::Read(n) => h.read(n, access(READ, n)),
            Event::Write(n, x) => h.write(n, x, access(WRITE, n)),
            Event::Set(n, x) => h.set(n, x, true, access(SET, n)),
            Event::Clear(n, x) => h.clear(n, x, true, access(CLEAR, n)),
            Event::Trap(request) => answered(h.trap(request)),
            Event::Ecall => answered(h.ecall()),
            Event::Ebreak => answered(h.ebreak()),
            Event::Mret => answered(h.mret(MRET)),
            Event::Sret => answered(h.sret(SRET)),
            Event::Wfi => answered(h.wfi(WFI)),
            Event::SfenceVma => answered(h.sfence_vma(SFENCE_VMA)),
            Event::HfenceVvma => answered(h.hfence_vvma(HFENCE_VVMA)),
            Event::HfenceGvma => answered(h.hfence_gvma(HFENCE_GVMA)),
            Event::Interrupt => answered(h.interrupt()),
        }
    }
}

// The name in eleven letters, and the operands.
impl fmt::Display for Event {
    fn fmt<W: fmt::Write>(&self, f: &mut fmt::Formatter<W>) -> fmt::Result {
        let name = self.name();
        write!(f, "{name:11}")?;
        match *self {
            Event::Read(n) => write!(f, " {n:x}"),
            Event::Write(n, x) | Event::Set(n, x) | Event::Clear(n, x) => {
                write!(f, " {n:x} {x:x}")
            }
            Event::Trap(request) => write_request(request, f),
            _ => Ok(()),
        }
    }
}

fn write_request<W: fmt::Write>(request: Exception, f: &mut fmt::Formatter<W>) -> fmt::Result {
    let Exception { cause, value, .. } = request;
    write!(f, " {cause:x}")?;
    if value != 0 {
        write!(f, " {value:x}")?;
    }
    Ok(())
}

// An event's line, but for the event.
#[derive(Drop)]
struct Line(Accessed);

impl fmt::Display for Line {
    fn fmt<W: fmt::Write>(&self, f: &mut fmt::Formatter<W>) -> fmt::Result {
        let Accessed {
            hart,
            outcome,
            value,
        } = self.0;
        match outcome {
            Outcome::Done => write!(f, "done")?,
            Outcome::Trapped(cause) => write!(f, "trapped {cause:x}")?,
            Outcome::Refused(refusal) => write!(f, "refused {:x}", u64::from(refusal))?,
            Outcome::Interrupted(n) => write!(f, "interrupted {n:x}")?,
        }
        let Hart {
            v,
            privilege,
            pc,
            ..
        } = hart;
        write!(f, " value {value:x} hart {v:x} {privilege:x} {pc:x}")
    }
}

// Does an event, writes its line, and hands on the hart that it left.
fn step(rt: &impl Print, h: Hart, event: Event) -> io::Result<Hart> {
    let accessed = event.on(h);
    println!(rt; "{event} {}", Line(accessed))?;
    Ok(accessed.hart)
}

fn main(rt: HostRuntime) -> io::Result<()> {
    let start = Hart::reset(0, 3, 0x1000);
    // Register FFF gives cause 2.
    step(&rt, start, Event::Read(0xFFF))?;
    let mut h = start;
    for event in TOUR {
        h = step(&rt, h, event)?;
    }
    // A pc that fails check 2.
    h.pc = 2;
    step(&rt, h, Event::Mret)?;
    Ok(())
}
