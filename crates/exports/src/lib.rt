// The C face: every public call of the model on numbers and slices of numbers. The crates layout and listing have the word layout.
#![tactic(auto)]

pub mod accesses;
pub mod events;
pub mod harts;
pub mod lookup;
pub mod translation;
