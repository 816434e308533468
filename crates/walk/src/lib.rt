// The walk by value: its list of reads in an array.
#![tactic(auto)]

ghost use Rattle.std.specs.Prelude.{◌≡◌, ◌+◌, ◌*◌, ◌^◌, ◌≤◌, length};
ghost use Rattle.stages.specs.Tree.{run};
ghost use Rattle.stages.specs.Stages.{look, walk_of};
ghost use Rattle.stages.specs.Listed.{places, unused};
ghost use Rattle.second_stage.specs.Place.{Tables};
ghost use Rattle.walk.specs.Walked.{unpack, walked};

use access::{Access, Machine};
use exceptions::Exception;
use image::Image;
use stages::{PLACES, Read};

// What a walk comes to: the list of reads with their count, and its end. (The list is by value, of so many places, the rest zero: it is answered so.)
#[derive(Clone, Copy)]
pub struct Walked {
    pub reads: [Read; PLACES],
    pub count: usize,
    pub reached: Result<Machine, Exception>,
}

// A list without reads.
pub fn none() -> [Read; PLACES]
    ensures { result ≡ unused places }
{
    [Read {
        stage: 0,
        level: 0,
        address: Machine(0),
        value: 0,
    }; PLACES]
}

// The list that words hold.
fn pack(words: &[u64]) -> [Read; PLACES]
    requires { length words.now ≡ 4 * places }
    ensures { result ≡ unpack words.now }
{
    let mut reads = none();
    for (i, read) in reads.iter_mut().enumerate() {
        let at = 4 * i;
        *read = Read {
            stage: words[at],
            level: words[at + 1],
            address: Machine(words[at + 2]),
            value: words[at + 3],
        };
    }
    reads
}

// The walk of an access over an image.
pub fn walk(base: u64, bytes: &[u8], a: Access) -> Walked
    requires ends { base + length bytes.now ≤ 2 ^ 56 }
    requires tables { Tables a }
    ensures { result ≡ walked (run (look base bytes.now) (walk_of base (length bytes.now) a)) }
{
    let mut words = [0u64; 4 * PLACES];
    let w = engine::list(Image::new(base, bytes), a, PLACES, 0, &mut words);
    Walked {
        reads: pack(&words),
        count: w.count,
        reached: w.reached,
    }
}
