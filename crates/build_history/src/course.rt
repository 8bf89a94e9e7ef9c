//! The course of a history: its events, one after another.
ghost use Rattle.std.specs.Prelude.{◌≡◌, ◌++◌, ◌∷◌, [], None, IfOk, IfErr, OnOk};
ghost use Rattle.world_mem.specs.Means.{around_in};
ghost use Rattle.build_history.specs.Events.{IsStopped};
ghost use Rattle.build_history.specs.Histories.{Goes, Happens, IsRefused, IsTold, Refuses, StopsIn, TellsRun};

use crate::event::{Event, HistoryFault};
use crate::told::{Told, edit, run, stop};
use scons_base::{Memory, Text};
use std::alloc::Global;
use world_mem::MemWorld;

/// What becomes of a world by these events. A refusal names the first event that is refused, and drops the world.
pub fn history(alloc: Global, events: &[Event], world: MemWorld) -> Result<Told, HistoryFault>
    requires idle { (around_in world).running ≡ [] }
    requires unfused { world.calls.fuse ≡ None }
    ensures told { IfOk result (IsTold events.now world) }
    ensures fault { IfErr result (IsRefused events.now world) }
{
    let mut told = Told::new(alloc, world);
    for (place, event) in events.iter().enumerate() {
        told = after(alloc, told, place, event)?;
    }
    Ok(told)
}

/// The history with one event more, which stands at this place.
fn after(alloc: Global, told: Told, place: usize, event: &Event) -> Result<Told, HistoryFault>
    requires idle { (around_in told.world).running ≡ [] }
    ensures goes { IfOk result (Goes event.now told) }
    ensures fault { IfErr result (Refuses place event.now told.world) }
{
    let mut next = happened(alloc, told, place, event)?;
    let files = next.world.files()?;
    next.trees.push(files)?;
    Ok(next)
}

/// What an event leaves.
fn happened(alloc: Global, told: Told, place: usize, event: &Event) -> Result<Told, HistoryFault>
    requires idle { (around_in told.world).running ≡ [] }
    ensures happens { IfOk result (Happens event.now told) }
    ensures fault { IfErr result (Refuses place event.now told.world) }
{
    let mut next = told;
    match event {
        Event::Edit(path, bytes) => {
            edit(alloc, place, &mut next.world, path, bytes.as_slice())?;
            Ok(next)
        }
        Event::Delete(path) => {
            next.world.remove_file(path);
            Ok(next)
        }
        Event::Build(words) => {
            build(alloc, words.as_slice(), &mut next)?;
            Ok(next)
        }
        Event::Stopped(words, calls, pick) => {
            let left = stopped(alloc, words.as_slice(), *calls, *pick, next)?;
            Ok(left)
        }
    }
}

/// Runs the command, and keeps its report and what it printed.
fn build(alloc: Global, words: &[Text], told: &mut Told) -> Result<(), Memory>
    requires idle { (around_in told.old.world).running ≡ [] }
    ensures ran { OnOk result (TellsRun words.now told.old told.new) }
    ensures trees { told.new.trees ≡ told.old.trees }
{
    let ran = run(alloc, words, &mut told.world)?;
    told.outs.push(ran.printed)?;
    told.reports.push(ran.report)?;
    Ok(())
}

/// Runs the command in a world that fails from so many calls on, and stops it there.
fn stopped(alloc: Global, words: &[Text], calls: u32, pick: u32, told: Told) -> Result<Told, Memory>
    requires idle { (around_in told.world).running ≡ [] }
    ensures stopped { IfOk result (StopsIn words.now calls pick told) }
{
    let Told {
        world,
        trees,
        reports,
        outs,
    } = told;
    let world = stop(alloc, words, calls, pick, world)?;
    Ok(Told {
        world,
        trees,
        reports,
        outs,
    })
}
