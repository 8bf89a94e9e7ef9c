//! What a build does next: a pure machine over events.
//!
//! A plan is made for a graph and the requested nodes. It says what is wanted next, to scan a file for a rule, to
//! decide whether a rule is stale, to wait for a running rule, or to rest, and hears what came of it. It knows files by
//! their nodes alone: what they hold, and what is stale, is the build's business.
//!
//! An event costs the edges of the rule or file that it is about. The rules that may be decided stand in the order in
//! which a depth-first walk from the requested nodes leaves them. The walk is made again only where a scan brings a need
//! that could change that order.
#![tactic(auto)]

mod cycles;
mod files;
mod held;
mod marks;
mod meeting;
mod naming;
mod order;
mod plan;
mod queue;
mod reach;
mod sets;
mod states;
mod steps;
mod task;
mod walk;
mod want;

pub use plan::Plan;
pub use states::RuleState;
pub use want::{PlanEvent, Want};
