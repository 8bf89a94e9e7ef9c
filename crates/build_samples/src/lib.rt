//! A build of one copy over a world in memory: a call of `build` that meets all that its clauses ask for.
#![tactic(auto)]

mod declared;
mod sample;

pub use sample::{Sample, build_copy};
