// The second stage over a guest address, its reads written as words where the caller wants them.
#![tactic(auto)]

ghost use Rattle.std.specs.Prelude.{◌≡◌, ◌+◌, ◌-◌, ◌*◌, ◌^◌, ◌<◌, ◌≤◌, length};
ghost use Rattle.rules.specs.Test.{test_of};
ghost use Rattle.stages.specs.Stages.{machine, look, translation};
ghost use Rattle.second_stage.specs.Place.{need_at, fault_at, second_at, Tables};
ghost use Rattle.second_stage.specs.Words.{onto, stored, into, Inspects};

use access::{Access, Guest, Machine};
use exceptions::Exception;
use image::Image;
use rules::{Judgement, Test};

// What a stage or the whole walk came to, and the index behind the words of its reads.
#[derive(Clone, Copy)]
pub struct Progress {
    pub next: usize,
    pub reached: Result<Machine, Exception>,
}

// One read's words, from an index on.
pub fn put(out: &mut [u64], next: usize, stage: u64, level: u64, at: u64, e: u64)
    requires { next + 4 ≤ length out.old }
    ensures { out.new ≡ stored out.old next stage level at e }
{
    out[next] = stage;
    out[next + 1] = level;
    out[next + 2] = at;
    out[next + 3] = e;
}

// An entry of either stage: read, listed in out from an index on, and judged for an address. None is outside the image.
pub fn inspect<'a>(
    image: Image<'a>,
    t: Test,
    stage: u64,
    level: u64,
    address: u64,
    at: Machine,
    next: usize,
    out: &mut [u64],
) -> Option<Judgement>
    requires low { level < 5 }
    requires room { next + 4 ≤ length out.old }
    ensures { Inspects (look image.entry.base image.entry.bytes.now) t stage level address at next out.old out.new result }
{
    let e = image.entry(at.0)?;
    put(&mut *out, next, stage, level, at.0, e);
    Some(t.judge(level, address, e))
}

// What the second stage asks of a leaf, with so many first-stage levels left.
pub fn test(a: Access, left: u64) -> Test
    ensures { result ≡ test_of (need_at a left) }
{
    if left == 0 {
        return a.second_need().test();
    }
    access::entry_need().test()
}

// The second stage's fault, with so many first-stage levels left.
pub fn fault(a: Access, left: u64, guest: Guest) -> Exception
    ensures { result ≡ fault_at a left guest }
{
    if left == 0 {
        return a.guest_page_fault(guest);
    }
    a.entry_fault(guest)
}

// The second stage where it is off: it passes the address on.
pub fn passed(guest: Guest) -> Machine
    ensures { result ≡ machine guest.0 }
{
    Machine(guest.0)
}

// The second stage over a guest address, with so many first-stage levels left; its reads go into out, from an index on.
pub fn walk<'a>(
    image: Image<'a>,
    a: Access,
    left: u64,
    guest: Guest,
    from: usize,
    out: &mut [u64],
) -> Progress
    requires tables { Tables a }
    requires room { from + 4 * a.second.levels ≤ length out.old }
    ensures { onto out.new result.next result.reached ≡ into (look image.entry.base image.entry.bytes.now) (translation (second_at a left guest)) out.old from }
{
    let levels = a.second.levels;
    let address = guest.0;
    let mut next = from;
    if levels == 0 {
        return Progress {
            next,
            reached: Ok(passed(guest)),
        };
    }
    if !rules::is_small(levels, address) {
        return Progress {
            next,
            reached: Err(fault(a, left, guest)),
        };
    }
    let t = test(a, left);
    // no range counts these turns: the level falls where an entry is a pointer
    let mut level = levels - 1;
    let mut at = a.second.ppn * 4096 + 8 * rules::root_index(levels, address);
    loop {
        let seen = inspect(image, t, 2, level, address, Machine(at), next, &mut *out);
        let Some(j) = seen else {
            return Progress {
                next,
                reached: Err(a.access_fault()),
            };
        };
        next += 4;
        match j {
            Judgement::Bad => {
                return Progress {
                    next,
                    reached: Err(fault(a, left, guest)),
                };
            }
            Judgement::Leaf(x) => {
                return Progress {
                    next,
                    reached: Ok(Machine(x)),
                };
            }
            Judgement::Pointer(table) => {
                level -= 1;
                at = table + 8 * rules::index(level, address);
            }
        }
    }
}
