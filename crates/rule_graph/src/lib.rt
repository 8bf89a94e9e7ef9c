//! What scripts have declared: nodes, rules, aliases, defaults, help texts and variant directories.
//!
//! A contract sees a `Graph` as the record `RuleGraph` of plain lists: paths by their numbers, rules by theirs, aliases with
//! their members. A node has one declared rule at most. `Rules.antt` of `specs/` tells which rule a node has and why a rule
//! isn't taken, `Graphs.antt` the whole.
#![tactic(auto)]

mod aliases;
mod build_fault;
mod fault;
mod graph;
mod rule;
mod table;
mod wish;

pub use build_fault::{BuildFault, What};
pub use fault::RuleFault;
pub use graph::Graph;
pub use rule::Rule;
pub use wish::Wish;
