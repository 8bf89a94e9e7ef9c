//! Room that is taken before it is needed.
ghost use Rattle.std.specs.Prelude.{◌≡◌, ◌++◌, ◌∷◌, [], ◌+◌, ◌<◌, ◌≤◌, ℕ, List, Some, OnOk, vec_len};
ghost use Rattle.std.specs.Vec.{vec_capacity};
ghost use Rattle.world_mem.specs.InSlots.{slot_at, content_of, file_of, mark_of};
ghost use Rattle.world_mem.specs.Settles.{HavePlaces};
ghost use Rattle.world_mem.specs.Slotwise.{SlotsStay};
ghost use Rattle.world_mem.specs.Standing.{is_dir};
ghost use Rattle.world_mem.specs.declared.slots.Slot.{Slot};

use crate::dirs::Dirs;
use crate::event::Event;
use crate::past::Change;
use crate::running::RunningJob;
use crate::slots::Slots;
use act_table::Contents;
use scons_base::{Memory, Paths};
use std::alloc::Global;
use world_api::Job;

/// Puts an item at the end of a vector that has the room.
pub fn add<T: Drop>(items: &mut Vec<T>, item: T)
    requires { vec_len items.old < vec_capacity items.old }
    ensures items { items.new.items ≡ items.old.items ++ item ∷ [] }
    ensures len { vec_len items.new ≡ vec_len items.old + 1 }
    ensures capacity { vec_capacity items.old ≤ vec_capacity items.new }
{
    items.push(item).unwrap();
}

/// Takes room for so many further items.
pub fn widen<T: Drop>(items: &mut Vec<T>, more: usize) -> Result<(), Memory>
    ensures items { items.new.items ≡ items.old.items }
    ensures len { vec_len items.new ≡ vec_len items.old }
    ensures capacity { vec_capacity items.old ≤ vec_capacity items.new }
    ensures room { OnOk result (vec_len items.new + more ≤ vec_capacity items.new) }
{
    items.reserve(more)?;
    Ok(())
}

/// Takes room for so many further changes, and for one job more in what is listed of those that run.
pub fn widen_all(
    past: &mut Vec<Change>,
    log: &mut Vec<Event>,
    met: &mut Vec<Contents>,
    jobs: &mut Vec<Job>,
    running: &mut Vec<RunningJob>,
    changes: usize,
) -> Result<(), Memory>
    ensures past { past.new.items ≡ past.old.items }
    ensures past_len { vec_len past.new ≡ vec_len past.old }
    ensures past_capacity { vec_capacity past.old ≤ vec_capacity past.new }
    ensures past_room { OnOk result (vec_len past.new + changes ≤ vec_capacity past.new) }
    ensures log { log.new.items ≡ log.old.items }
    ensures log_len { vec_len log.new ≡ vec_len log.old }
    ensures log_capacity { vec_capacity log.old ≤ vec_capacity log.new }
    ensures log_room { OnOk result (vec_len log.new + (vec_len running.new + 2) ≤ vec_capacity log.new) }
    ensures met { met.new.items ≡ met.old.items }
    ensures met_len { vec_len met.new ≡ vec_len met.old }
    ensures met_capacity { vec_capacity met.old ≤ vec_capacity met.new }
    ensures met_room { OnOk result (vec_len met.new + (vec_len running.new + 1) ≤ vec_capacity met.new) }
    ensures jobs { jobs.new.items ≡ jobs.old.items }
    ensures job_room { OnOk result (vec_len jobs.new + 1 ≤ vec_capacity jobs.new) }
    ensures running { running.new.items ≡ running.old.items }
    ensures running_len { vec_len running.new ≡ vec_len running.old }
    ensures run_room { OnOk result (vec_len running.new + 1 ≤ vec_capacity running.new) }
{
    let runs = running.len();
    widen(past, changes)?;
    widen(log, runs + 2)?;
    widen(met, runs + 1)?;
    widen(jobs, 1)?;
    widen(running, 1)?;
    Ok(())
}

/// Makes the places of a job's targets, and of the directories above them.
pub fn make_places(
    alloc: Global,
    slots: &mut Slots,
    dirs: &mut Dirs,
    targets: &Paths,
    fresh: &Paths,
) -> Result<(), Memory>
    ensures kept { SlotsStay slots.old slots.new }
    ensures same { (path : List ℕ) → content_of (slot_at slots.new path) ≡ content_of (slot_at slots.old path) }
    ensures files { (path : List ℕ) → file_of (slot_at slots.new path) ≡ file_of (slot_at slots.old path) }
    ensures marks { (path : List ℕ) → mark_of (slot_at slots.new path) ≡ mark_of (slot_at slots.old path) }
    ensures dirs { (dir : List ℕ) → is_dir dirs.new dir ≡ is_dir dirs.old dir }
    ensures places { OnOk result (HavePlaces targets.now slots.new) }
    ensures fresh { OnOk result (HavePlaces fresh.now dirs.new.slots) }
{
    dirs.make_places(alloc, fresh)?;
    slots.make_places(alloc, targets)
}
