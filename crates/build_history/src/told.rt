//! How far a history has come, and what each event makes of it.
ghost use Rattle.std.specs.Prelude.{◌≡◌, ◌++◌, ◌∷◌, [], IfOk, IfErr, OnOk, OnErr};
ghost use Rattle.world_mem.specs.Means.{around_in};
ghost use Rattle.build_history.specs.Events.{IsEdit, IsRun, IsStopped};
ghost use Rattle.build_history.specs.Histories.{RefusesEdit};

use crate::event::HistoryFault;
use scons_base::{Blob, Memory, PathText, Text};
use scons_top::{Report, scons};
use sign_store::recorded;
use std::alloc::Global;
use world_api::Bank;
use world_mem::{EditRefusal, Files, MemSink, MemWorld};

/// What a history left: its world, the files after each event, and for each build its report and what it printed.
#[derive(Drop)]
pub struct Told {
    pub world: MemWorld,
    pub trees: Vec<Files>,
    pub reports: Vec<Report>,
    pub outs: Vec<Blob>,
}

impl Told {
    /// A history in which nothing has happened yet.
    pub(crate) fn new(alloc: Global, world: MemWorld) -> Told
        ensures world { result.world ≡ world }
        ensures trees { result.trees.items ≡ [] }
        ensures reports { result.reports.items ≡ [] }
        ensures outs { result.outs.items ≡ [] }
    {
        Told {
            world,
            trees: Vec::new(alloc),
            reports: Vec::new(alloc),
            outs: Vec::new(alloc),
        }
    }
}

/// A run of the command that ended: its report, and what it printed on standard output.
#[derive(Drop)]
pub(crate) struct Ran {
    pub report: Report,
    pub printed: Blob,
}

/// Sets the bytes of a file that has no record. A refusal names the place of the event, and leaves the world as it was.
pub(crate) fn edit(
    alloc: Global,
    place: usize,
    world: &mut MemWorld,
    path: &PathText,
    bytes: &[u8],
) -> Result<(), HistoryFault>
    ensures edited { OnOk result (IsEdit path.now bytes.now world.old world.new) }
    ensures idle { (around_in world.old).running ≡ [] → (around_in world.new).running ≡ [] }
    ensures fault { IfErr result (RefusesEdit place path.now world.old) }
{
    if !world.synced(Bank::A) || !world.synced(Bank::B) {
        return Err(HistoryFault::Unsynced(place));
    }
    if recorded(alloc, world.bank(Bank::A), world.bank(Bank::B), path)? {
        return Err(HistoryFault::HasRecord(place));
    }
    match world.edit(path, bytes) {
        Ok(()) => Ok(()),
        Err(EditRefusal::Place) => Err(HistoryFault::Place(place)),
        Err(EditRefusal::Memory) => Err(HistoryFault::Memory),
    }
}

/// Runs the command, which prints on two sinks of its own.
pub(crate) fn run(alloc: Global, words: &[Text], world: &mut MemWorld) -> Result<Ran, Memory>
    requires idle { (around_in world.old).running ≡ [] }
    ensures ran { IfOk result (λ ran. IsRun words.now world.old world.new ran.report ran.printed) }
{
    let mut out = MemSink::new(alloc, Vec::new(alloc))?;
    let mut err = MemSink::new(alloc, Vec::new(alloc))?;
    let report = scons(alloc, words, world, &mut out, &mut err);
    let printed = Blob::of(alloc, out.text())?;
    Ok(Ran { report, printed })
}

/// Runs the command in a world that fails from so many calls on, and stops it there.
pub(crate) fn stop(
    alloc: Global,
    words: &[Text],
    calls: u32,
    pick: u32,
    world: MemWorld,
) -> Result<MemWorld, Memory>
    requires idle { (around_in world).running ≡ [] }
    ensures stopped { IfOk result (IsStopped words.now calls pick world) }
    ensures idle { IfOk result (λ left. (around_in left).running ≡ []) }
{
    let mut world = world;
    world.fuse(calls);
    run(alloc, words, &mut world)?;
    match world.stop(pick) {
        Ok(left) => Ok(left),
        Err(_) => Err(Memory),
    }
}
