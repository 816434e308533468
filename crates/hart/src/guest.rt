// HLV, HLVX and HSV: a hypervisor reads and writes its guest's memory.
ghost use Rattle.std.specs.Prelude.{◌≡◌};
ghost use Rattle.hart.specs.Guest.{unwalked, arrives, reach, performed, load, hlv, hlvx, hsv};

use crate::event::{Outcome, Step};
use crate::state::Hart;
use hypervisor::Operation;
use stages::{PLACES, Read};
use walk::Walked;

// What a hypervisor load or store comes to, but for its bytes: these are at a machine address where it was done.
#[derive(Clone, Copy)]
pub struct Reach {
    pub hart: Hart,
    pub outcome: Outcome,
    pub at: u64,
    pub reads: [Read; PLACES],
    pub count: usize,
}

// What it comes to. The value is what was loaded, and 0 of a store or where it trapped or was refused.
#[derive(Clone, Copy)]
pub struct Performed {
    pub hart: Hart,
    pub outcome: Outcome,
    pub value: u64,
    pub reads: [Read; PLACES],
    pub count: usize,
}

fn unwalked(s: Step) -> Reach
    ensures { result ≡ unwalked s }
{
    let Step { hart, outcome } = s;
    Reach {
        hart,
        outcome,
        at: 0,
        reads: walk::none(),
        count: 0,
    }
}

fn answer(r: Reach, value: u64) -> Performed
    ensures { result ≡ performed r value }
{
    let Reach {
        hart,
        outcome,
        reads,
        count,
        ..
    } = r;
    Performed {
        hart,
        outcome,
        value,
        reads,
        count,
    }
}

impl Hart {
    // What a walk comes to: a fault is delivered as a trap.
    fn arrive(self, w: Walked) -> Reach
        ensures { result ≡ arrives self w.reached w.reads w.count }
    {
        let Walked {
            reads,
            count,
            reached,
        } = w;
        match reached {
            Ok(m) => {
                Reach {
                    hart: self.moved(),
                    outcome: Outcome::Done,
                    at: m.0,
                    reads,
                    count,
                }
            }
            Err(f) => {
                let Step { hart, outcome } = self.take_trap(f);
                Reach {
                    hart,
                    outcome,
                    at: 0,
                    reads,
                    count,
                }
            }
        }
    }

    // Refusals and causes of its own, then the walk for the guest.
    fn reach(
        self,
        o: Operation,
        base: u64,
        bytes: &[u8],
        width: u64,
        address: u64,
        word: u32,
    ) -> Reach
        ensures { result ≡ reach self o base bytes.now width address word }
    {
        let c = self.context();
        let own = o.check(base, bytes.len() as u64, width);
        // not by `settle`: what comes of it has a list of reads
        match self.stops(own, instructions::hypervisor_access(c)) {
            Ok(()) => self.arrive(o.walk(c, self.paging(), base, bytes, address, width)),
            Err(halt) => unwalked(self.halt(halt, word)),
        }
    }

    // A load of one of the two kinds.
    fn load(
        self,
        o: Operation,
        base: u64,
        bytes: &[u8],
        width: u64,
        signed: bool,
        address: u64,
        word: u32,
    ) -> Performed
        ensures { result ≡ load self o base bytes.now width signed address word }
    {
        let r = self.reach(o, base, bytes, width, address, word);
        if !r.outcome.is_done() {
            return answer(r, 0);
        }
        let value = image::data::load(base, bytes, r.at, width, signed);
        answer(r, value)
    }

    pub fn hlv(
        self,
        base: u64,
        bytes: &[u8],
        width: u64,
        signed: bool,
        address: u64,
        word: u32,
    ) -> Performed
        ensures { result ≡ hlv self base bytes.now width signed address word }
    {
        self.load(Operation::Hlv, base, bytes, width, signed, address, word)
    }

    pub fn hlvx(self, base: u64, bytes: &[u8], width: u64, address: u64, word: u32) -> Performed
        ensures { result ≡ hlvx self base bytes.now width address word }
    {
        self.load(Operation::Hlvx, base, bytes, width, false, address, word)
    }

    // Stores where nothing stopped it.
    pub fn hsv(
        self,
        base: u64,
        bytes: &mut [u8],
        width: u64,
        address: u64,
        value: u64,
        word: u32,
    ) -> Performed
        ensures { (result, bytes.new) ≡ hsv self base bytes.old width address value word }
    {
        let reached = self.reach(Operation::Hsv, base, bytes, width, address, word);
        if !reached.outcome.is_done() {
            return answer(reached, 0);
        }
        image::data::store(base, bytes, reached.at, width, value);
        answer(reached, 0)
    }
}
