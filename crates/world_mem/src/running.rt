//! A job that runs.
use act_table::Contents;
use world_api::{Job, Outcome};

/// A job that has started and not ended: what it was given, how it ends, what it makes, the same once more to keep, and
/// how many files that is.
#[derive(Drop)]
pub struct RunningJob {
    pub job: Job,
    pub given: Contents,
    pub outcome: Outcome,
    pub made: Contents,
    pub kept: Contents,
    pub gained: usize,
}
