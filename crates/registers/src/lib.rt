// The registers: named fields, what a write stores, and those that a hart keeps at their places.
#![tactic(auto)]

pub mod fields;
pub mod file;
pub mod masks;
pub mod places;
pub mod rules;
