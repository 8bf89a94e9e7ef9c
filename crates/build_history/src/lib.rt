//! Histories: what becomes of a world in memory by edits of its files, builds, and builds that are stopped.
//!
//! A contract sees a history as the list of its events, each of which leads from one world to the next: `specs/Histories.antt`.
#![tactic(auto)]

mod course;
mod event;
mod told;

pub use course::history;
pub use event::{Event, HistoryFault};
pub use told::Told;
