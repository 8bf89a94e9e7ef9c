//! The command: its words, the reading of scripts, what is requested, and then cleaning, a dry run or a build.
//!
//! `scons` goes through the steps of a run in turn. The first fault of the steps before building ends it; the faults of a
//! build stand in the order in which they were found.
#![tactic(auto)]

mod below;
mod build_step;
mod clean_step;
mod copied;
mod dry_step;
mod ending;
mod load_step;
mod lookups;
mod members;
mod printed;
mod reading;
mod report;
mod requests;
mod step;
mod stop;
mod texts;
mod top;
mod tree_step;

pub use report::{Report, Top};
pub use step::Step;
pub use top::scons;
