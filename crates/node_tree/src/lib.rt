//! The nodes of a tree: a number for each path.
//!
//! A contract sees `Nodes` as the list of its paths, in the order of their numbers. Numbers and paths are one to one:
//! `number_of` finds the place of a path in the list, and each path of the list stands at its own number.
#![tactic(auto)]

mod nodes;

pub use nodes::{NodeRefusal, Nodes};
