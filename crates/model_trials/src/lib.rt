//! Slow functions, whose contracts are definitions of `build_model`: what a rule depends on, which rules it needs, when it is due,
//! and what a clean build makes. They go over plain lists and do nothing clever, so that a faster body can be tried beside them.
#![tactic(auto)]

pub mod changes;
pub mod clean;
pub mod cycles;
pub mod loops;
pub mod needs;
pub mod order;
pub mod reach;
pub mod spots;
pub mod stale;
