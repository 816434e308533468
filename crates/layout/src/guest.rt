// The words of what a hypervisor load or store comes to: as a register access's, then the count and the list of reads.
ghost use Rattle.std.specs.Prelude.{◌≡◌, ◌*◌, length};
ghost use Rattle.stages.specs.Listed.{places, read_words};
ghost use Rattle.layout.specs.Layout.{performed_size, performed_words};

use crate::{ACCESS, Words, write_access};
use hart::guest::Performed;
use stages::{PLACES, Read};

// Where the list begins, and how many words the result takes.
const LIST_AT: usize = ACCESS + 1;

pub const PERFORMED: usize = LIST_AT + 4 * PLACES;

// The places of a list, four words each.
fn put_reads(reads: &[Read; PLACES], out: &mut [u64])
    requires { length out.old ≡ 4 * places }
    ensures { out.new ≡ read_words reads.now }
{
    for (i, read) in reads.iter().enumerate() {
        out[4 * i..4 * i + 4].copy_from_slice(&[
            read.stage,
            read.level,
            read.address.0,
            read.value,
        ]);
    }
}

impl Words for Performed {
    ghost SIZE = { performed_size };

    ghost written = { performed_words };

    const SIZE: usize = PERFORMED;

    #[inline(always)]
    fn write_to(&self, out: &mut [u64]) {
        if out.len() == PERFORMED {
            write_access(&self.hart, self.outcome, self.value, &mut out[..ACCESS]);
            out[ACCESS] = self.count as u64;
            put_reads(&self.reads, &mut out[LIST_AT..]);
        }
    }
}
