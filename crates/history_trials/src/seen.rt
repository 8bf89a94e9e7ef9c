//! What is seen behind the last event of a random history.
use crate::begun::{SCRIPT, first_files, first_world};
use crate::course::{bytes_of, put_file};
use crate::kept::kept_in;
use crate::names::spot_of;
use crate::numbers::Numbers;
use crate::project::Project;
use build_history::{Event, Told as History, history};
use model_trials::spots::Spot;
use model_trials::stale::{PlainFile, PlainKept};
use scons_base::{Blob, PathText};
use std::alloc::Global;
use trial_text::Told;
use world_api::Job;

/// What is seen behind an event, and the files that were seen before it.
#[derive(Drop)]
pub(crate) struct Seen {
    /// The files before the last event, where there were others before.
    pub(crate) before: Option<Vec<PlainFile>>,
    pub(crate) files: Vec<PlainFile>,
    pub(crate) script: Blob,
    pub(crate) kept: Vec<PlainKept>,
    /// The status of the last run that ended.
    pub(crate) status: Option<u8>,
    pub(crate) reports: usize,
    /// The first targets of the jobs since the last stop.
    pub(crate) started: Vec<Spot>,
}

/// Takes the world of a number through events, from its beginning on.
pub(crate) fn look(
    alloc: Global,
    told: &mut Told,
    seed: u64,
    number: u64,
    events: &[Event],
) -> Option<Seen> {
    let mut numbers = Numbers::new(seed, number);
    let project = Project::new(&mut numbers);
    let files = first_files(alloc, told, &mut numbers, &project);
    let world = first_world(alloc, told, &mut numbers, files)?;
    match history(alloc, events, world) {
        Ok(left) => seen_in(alloc, told, left, events.len()),
        Err(_) => None,
    }
}

fn seen_in(alloc: Global, told: &mut Told, left: History, events: usize) -> Option<Seen> {
    let mut left = left;
    if left.trees.len() != events || left.outs.len() != left.reports.len() {
        return None;
    }
    let kept = kept_in(alloc, told, &mut left.world);
    let started = started_in(alloc, told, left.world.jobs());
    let [.., last] = left.trees.as_slice() else {
        return None;
    };
    let files = plain_files(alloc, told, last.as_slice())?;
    let script = script_in(alloc, last.as_slice())?;
    let before = match left.trees.as_slice() {
        [.., before, _] => Some(plain_files(alloc, told, before.as_slice())?),
        _ => None,
    };
    let status = match left.reports.as_slice() {
        [.., report] => Some(report.status),
        [] => None,
    };
    Some(Seen {
        before,
        files,
        script,
        kept,
        status,
        reports: left.reports.len(),
        started,
    })
}

/// The files of a project, where besides there is only its script.
pub(crate) fn plain_files(
    alloc: Global,
    told: &mut Told,
    files: &[(PathText, Blob)],
) -> Option<Vec<PlainFile>> {
    let mut plain = Vec::new(alloc);
    for (path, bytes) in files {
        if path.as_str() == SCRIPT {
            continue;
        }
        let spot = spot_of(path.as_str())?;
        let bytes = bytes_of(alloc, told, bytes.as_slice());
        put_file(told, &mut plain, &spot, bytes);
    }
    Some(plain)
}

fn script_in(alloc: Global, files: &[(PathText, Blob)]) -> Option<Blob> {
    for (path, bytes) in files {
        if path.as_str() == SCRIPT {
            return Blob::of(alloc, bytes.as_slice()).ok();
        }
    }
    None
}

fn started_in(alloc: Global, told: &mut Told, jobs: &[Job]) -> Vec<Spot> {
    let mut started = Vec::new(alloc);
    for job in jobs {
        let first = job.targets.as_slice().first();
        match first.and_then(|path| spot_of(path.as_str())) {
            Some(spot) => told.keep(&mut started, spot),
            None => told.refuse(),
        }
    }
    started
}
