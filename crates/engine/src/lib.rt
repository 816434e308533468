// The walk of an access through both stages, its list of reads written as words where the caller wants it.
#![tactic(auto)]

ghost use Rattle.std.specs.Prelude.{◌≡◌, ◌+◌, ◌-◌, ◌*◌, ◌^◌, ◌≤◌, length, replicate};
ghost use Rattle.std.proofs.lemmas.List.Edits.{sets};
ghost use Rattle.stages.specs.Tree.{run};
ghost use Rattle.stages.specs.Stages.{look, walk_of, last};
ghost use Rattle.second_stage.specs.Place.{Tables};
ghost use Rattle.second_stage.specs.Words.{onto, into};
ghost use Rattle.engine.specs.Place.{reach, start_guest, strays};
ghost use Rattle.engine.specs.Written.{Written};

use access::{Access, Guest, Machine};
use exceptions::Exception;
use image::Image;
use rules::Judgement;
use second_stage::{Progress, passed};

// What a walk comes to: how many reads stand in the list, and its end.
#[derive(Clone, Copy)]
pub struct Listed {
    pub count: usize,
    pub reached: Result<Machine, Exception>,
}

// Whether a first stage that is on finds fault with the address.
fn strays(a: Access) -> bool
    requires { Tables a }
    ensures { result ≡ strays a }
{
    let levels = a.first.levels;
    levels != 0 && !rules::is_extended(levels, a.address)
}

// The first guest address: of the first stage's root entry, or the access's own.
fn start(a: Access) -> Guest
    requires { Tables a }
    ensures { result ≡ start_guest a }
{
    let levels = a.first.levels;
    if levels == 0 {
        return Guest(a.address);
    }
    Guest(a.first.ppn * 4096 + 8 * rules::index(levels - 1, a.address))
}

// The end of the walk: the whole access must lie in the image.
pub fn conclude(base: u64, len: u64, a: Access, m: Machine) -> Result<Machine, Exception>
    ensures { result ≡ last base len a m }
{
    if image::inside(base, len, m.0, a.width) {
        return Ok(m);
    }
    Err(a.access_fault())
}

// The walk of an access; its reads go into out, from an index on.
pub fn walk_into<'a>(image: Image<'a>, a: Access, from: usize, out: &mut [u64]) -> Progress
    requires tables { Tables a }
    requires room { from + 4 * reach a a.first.levels ≤ length out.old }
    ensures { let base = image.entry.base in let bytes = image.entry.bytes.now in onto out.new result.next result.reached ≡ into (look base bytes) (walk_of base (length bytes) a) out.old from }
{
    let base = image.base;
    let len = image.bytes.len() as u64;
    let address = a.address;
    let mut next = from;
    if strays(a) {
        return Progress {
            next,
            reached: Err(a.page_fault()),
        };
    }
    let mut left = a.first.levels;
    let mut guest = start(a);
    // neither stage is on: nothing is read, as the loop would find
    if (left == 0) & (a.second.levels == 0) {
        return Progress {
            next,
            reached: conclude(base, len, a, passed(guest)),
        };
    }
    let t = a.first_need().test();
    // no range counts these turns: the levels left fall where an entry is a pointer
    loop {
        let s = second_stage::walk(image, a, left, guest, next, &mut *out);
        next = s.next;
        let Ok(m) = s.reached else {
            return s;
        };
        if left == 0 {
            return Progress {
                next,
                reached: conclude(base, len, a, m),
            };
        }
        left -= 1;
        let seen = second_stage::inspect(image, t, 1, left, address, m, next, &mut *out);
        let Some(j) = seen else {
            return Progress {
                next,
                reached: Err(a.access_fault()),
            };
        };
        next += 4;
        match j {
            Judgement::Bad => {
                return Progress {
                    next,
                    reached: Err(a.page_fault()),
                };
            }
            Judgement::Leaf(x) => {
                left = 0;
                guest = Guest(x);
            }
            Judgement::Pointer(table) => {
                guest = Guest(table + 8 * rules::index(left - 1, address));
            }
        }
    }
}

// Zeros from an index up to another.
pub fn clear(from: usize, end: usize, out: &mut [u64])
    requires order { from ≤ end }
    requires fits { end ≤ length out.old }
    ensures { out.new ≡ sets out.old from (replicate (end - from) 0) }
{
    out[from..end].fill(0);
}

// The walk of an access over an image, its list written into so many places of out, four words each, from an index on.
pub fn list<'a>(image: Image<'a>, a: Access, places: usize, from: usize, out: &mut [u64]) -> Listed
    requires tables { Tables a }
    requires enough { reach a a.first.levels ≤ places }
    requires room { from + 4 * places ≤ length out.old }
    ensures { let base = image.entry.base in let bytes = image.entry.bytes.now in Written (run (look base bytes) (walk_of base (length bytes) a)) places from out.old out.new result }
{
    let w = walk_into(image, a, from, &mut *out);
    clear(w.next, from + 4 * places, &mut *out);
    Listed {
        count: (w.next - from) / 4,
        reached: w.reached,
    }
}
