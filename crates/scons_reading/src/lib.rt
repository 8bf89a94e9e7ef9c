//! The reading of all scripts, from the words of the command line to a graph: they run over the host, and what they have
//! declared goes into the graph. What a reading gives, over the files that stand, is `Reads` of `specs/Reads.antt`.
#![tactic(auto)]

mod ends;
mod faults;
mod reading;
mod rules;
mod running;
mod starting;
mod wanting;

pub use reading::read_scripts;
