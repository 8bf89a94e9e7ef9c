//! What happened to the tree and its jobs, as far as it is needed to have each earlier state back.
use crate::slots::File;
use act_table::Contents;
use scons_base::Paths;
use world_api::Job;

#[derive(Drop)]
pub enum Change {
    /// This file was removed.
    Removed(File),
    /// These directories came to stand.
    Made(Paths),
    /// A job started, and these directories came to stand above its targets.
    Started(Paths),
    Ended(Ending),
}

/// A job that ended, at its place among those that ran, and how many contents were met by it.
#[derive(Drop)]
pub struct Ending {
    pub place: usize,
    pub job: Job,
    pub given: Contents,
    pub gained: usize,
}

/// Whether a bank changed or what is around.
#[derive(Clone, Copy, Debug, PartialEq, Eq)]
pub enum Turn {
    Disk,
    Tree,
}
