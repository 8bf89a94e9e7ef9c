//! How a job ends.
ghost use Rattle.std.specs.Prelude.{◌≡◌, ◌≢◌, ◌++◌, ◌+◌, ◌<◌, ◌≤◌, ℕ, List, Some, None, Contains, map, vec_len};
ghost use Rattle.std.specs.Vec.{vec_capacity};
ghost use Rattle.world_mem.specs.InSlots.{slot_at, content_of, mark_of};
ghost use Rattle.act_table.specs.Listed.{contents_in};
ghost use Rattle.world_mem.specs.Kept.{met_of};
ghost use Rattle.world_mem.specs.Settles.{AreStamped, HeldOrMet, HoldMade, StillNamed};
ghost use Rattle.world_mem.specs.Slotwise.{HoldNone, NoneMarked, OthersStay};

use crate::room::add;
use crate::slots::Slots;
use act_table::Contents;
use world_api::{Job, Outcome};

/// Settles the targets of a job that ends. What it made has been met from then on; where it isn't done nothing stands.
pub fn conclude(
    slots: &mut Slots,
    met: &mut Vec<Contents>,
    job: &Job,
    outcome: Outcome,
    made: Contents,
    kept: Contents,
    stamp: u64,
)
    requires names { map (λ entry. entry.0) made ≡ job.now.targets }
    requires same { kept ≡ made }
    requires room { vec_len met.old < vec_capacity met.old }
    ensures others { OthersStay job.now.targets slots.old slots.new }
    ensures done { outcome ≡ Outcome.Done → HoldMade made job.now.targets slots.old slots.new }
    ensures absent { outcome ≢ Outcome.Done → HoldNone job.now.targets slots.new }
    ensures stamped { AreStamped stamp job.now.targets slots.new }
    ensures unmarked { (path : List ℕ) → Contains job.now.targets path → mark_of (slot_at slots.new path) ≡ None }
    ensures marks { NoneMarked slots.old slots.new }
    ensures held { HeldOrMet (met_of met.new.items) slots.old slots.new }
    ensures met { outcome ≡ Outcome.Done → met_of met.new.items ≡ met_of met.old.items ++ contents_in kept }
    ensures unmet { outcome ≢ Outcome.Done → met.new.items ≡ met.old.items }
    ensures more { (more : List (List ℕ)) × (met_of met.new.items ≡ met_of met.old.items ++ more) }
    ensures named { StillNamed slots.old slots.new }
    ensures length { vec_len met.new ≤ vec_len met.old + 1 }
    ensures capacity { vec_capacity met.old ≤ vec_capacity met.new }
{
    if outcome == Outcome::Done {
        slots.settle(made, stamp);
        add(met, kept);
    } else {
        slots.clear(&job.targets);
    }
}
