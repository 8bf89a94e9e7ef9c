//! Builds that are stopped after so many calls of the outside: what the next build does.
use crate::builds::Builds;
use crate::idle::IdleWorld;
use crate::steps::words_of;
use trial_text::Told;

/// How a stop may turn out: each number takes other outcomes of writes and jobs that were under way.
const PICKS: u32 = 8;

/// No build here makes as many calls.
const MOST_CALLS: u32 = 10_000;

/// Builds with these words that are stopped after each number of calls, and builds after them.
pub(crate) fn put_stops(told: &mut Told, world: &IdleWorld, words: &str) {
    let words = words_of(world.alloc, told, words);
    match Builds::new(world, words.as_slice()) {
        Some(builds) => put_counts(told, &builds),
        None => told.refuse(),
    }
}

/// A line for each number of calls, up to the one with which the build ends: what the next build has started after each
/// outcome of the stop.
fn put_counts(told: &mut Told, builds: &Builds) {
    for calls in 0..MOST_CALLS {
        told.put("stopped after ");
        told.show(calls);
        told.put(":");
        let is_whole = put_outcomes(told, builds, calls);
        told.put("\n");
        if is_whole || told.is_refused() {
            return;
        }
    }
    told.refuse();
}

/// What the next build starts after each outcome; says whether the stopped one was whole before.
fn put_outcomes(told: &mut Told, builds: &Builds, calls: u32) -> bool {
    let mut is_whole = false;
    for pick in 0..PICKS {
        is_whole = put_outcome(told, builds, calls, pick);
    }
    is_whole
}

fn put_outcome(told: &mut Told, builds: &Builds, calls: u32, pick: u32) -> bool {
    match stopped(builds, calls, pick) {
        Some((mut world, status)) => {
            put_next(told, builds, &mut world);
            status == 0
        }
        None => {
            told.refuse();
            false
        }
    }
}

/// A world in which a build was stopped after so many calls, and the status that the build would have had.
fn stopped(builds: &Builds, calls: u32, pick: u32) -> Option<(IdleWorld, u8)> {
    let mut world = builds.world.again(Vec::new(builds.world.alloc))?;
    world.fuse(calls);
    let status = world.status(builds.words)?;
    Some((world.stopped(pick)?, status))
}

/// Builds on, and tells how many actions that started. A status other than 0 and files that aren't those of a clean build are
/// said.
fn put_next(told: &mut Told, builds: &Builds, world: &mut IdleWorld) {
    let status = world.status(builds.words);
    told.put(" ");
    told.show(world.inner.jobs().len());
    match status {
        Some(0) => {}
        Some(_) => told.put(" (status)"),
        None => told.refuse(),
    }
    if !builds.are_clean(world) {
        told.put(" (other files)");
    }
}
