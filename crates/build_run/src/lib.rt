//! The build: what the plan wants is done, and the plan is told what came of it.
//!
//! A rule is decided over the files as they are. One that is stale has its record withdrawn and its targets removed before
//! its action starts, and gets its new record once the action has ended well. So a build that is stopped at any moment
//! leaves no record that says more than what stands.
#![tactic(auto)]

mod account;
mod building;
mod clear;
mod decide;
mod end;
mod ending;
mod explain;
mod launch;
mod leftovers;
mod site;
mod start;
mod tickets;
mod turns;

pub use building::{Options, build};
pub use end::BuildEnd;
