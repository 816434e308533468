// The walk written out, in specs/; here the list's item. No function: walk runs it.
#![tactic(auto)]

use access::Machine;

// How many places the list of reads has.
pub const PLACES: usize = 35;

// One entry of the list; its stage is 1 for the first, 2 for the second.
#[derive(Clone, Copy)]
pub struct Read {
    pub stage: u64,
    pub level: u64,
    pub address: Machine,
    pub value: u64,
}
