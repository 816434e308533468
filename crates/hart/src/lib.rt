// The hart, and its events as methods: each hands the next hart back.
#![tactic(auto)]

pub mod accesses;
pub mod control;
pub mod deliver;
pub mod event;
pub mod guest;
pub mod interrupt;
pub mod returns;
pub mod state;
pub mod trap;
pub mod wait;
