//! What the log of a world holds.
ghost use Rattle.std.specs.Prelude.{◌≡◌};
ghost use Rattle.world_api.specs.Causes.{HasOutcomeCause};
ghost use Rattle.world_mem.specs.Ending.{faults_after};
ghost use Rattle.world_mem.specs.Kept.{counts_of};

use world_api::{Job, Outcome};

/// How often the outside was at fault, since the world was made.
#[derive(Clone, Copy, Debug)]
pub struct Faults {
    pub disk: u64,
    pub tree: u64,
    pub start: u64,
    pub action: u64,
}

impl Faults {
    /// The counts after an ending.
    pub fn after(&self, outcome: Outcome) -> Faults
        ensures counts { result ≡ faults_after outcome self.now }
        ensures cause { HasOutcomeCause outcome (counts_of self.now) (counts_of result) }
    {
        match outcome {
            Outcome::Failed(_) => Faults {
                disk: self.disk,
                tree: self.tree,
                start: self.start,
                action: self.action.saturating_add(1),
            },
            Outcome::Broken => Faults {
                disk: self.disk,
                tree: self.tree,
                start: self.start.saturating_add(1),
                action: self.action,
            },
            Outcome::Done | Outcome::NoMemory => *self,
        }
    }
}

/// A start, with the counts at that moment, or the ending of the job of this id.
#[derive(Drop)]
pub enum Event {
    Started(Job, Faults),
    Finished(u32, Outcome),
}
