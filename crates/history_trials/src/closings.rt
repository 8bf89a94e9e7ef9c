//! Histories that end in many ways: stopped after each number of calls, with a call that fails, or with a bank that is cut.
use crate::events::{events_of, word_of, words_of};
use crate::outset::{CALLS, world_of, world_with};
use build_history::{Event, Told as History, history};
use scons_base::{Blob, PathText};
use std::alloc::Global;
use trial_text::Told;
use world_api::Bank;
use world_mem::{Call, Files, MemWorld};

/// How a stop may turn out: each number takes other outcomes of writes and jobs that were under way.
const PICKS: u32 = 8;

/// What the events of a row leave, with further ones behind them.
fn left_by(
    alloc: Global,
    told: &mut Told,
    lines: &str,
    failing: Vec<(Call, u32)>,
    further: Vec<Event>,
) -> Option<History> {
    let mut events = events_of(alloc, told, lines);
    for event in further {
        told.keep(&mut events, event);
    }
    let world = world_of(alloc, told, lines, failing)?;
    history(alloc, events.as_slice(), world).ok()
}

/// The event that runs the command with these words.
fn build_of(alloc: Global, told: &mut Told, words: &str) -> Event {
    Event::Build(words_of(alloc, told, words))
}

/// The files that a build leaves of the same files and no records.
fn clean_files(alloc: Global, told: &mut Told, lines: &str, words: &str) -> Option<Files> {
    let left = left_by(alloc, told, lines, Vec::new(alloc), Vec::new(alloc))?;
    let files = left.world.files().ok()?;
    let mut events = Vec::new(alloc);
    let event = build_of(alloc, told, words);
    told.keep(&mut events, event);
    let world = world_with(alloc, files.into_vec(), &[])?;
    let left = history(alloc, events.as_slice(), world).ok()?;
    left.world.files().ok()
}

/// Whether these are the files of a clean build.
fn are_clean(world: &MemWorld, clean: &Files) -> bool {
    match world.files() {
        Ok(files) => files.as_slice() == clean.as_slice(),
        Err(_) => false,
    }
}

/// The status of the last run.
fn last_status(left: &History) -> Option<u8> {
    match left.reports.as_slice() {
        [.., report] => Some(report.status),
        [] => None,
    }
}

/// Stops a run behind a history after each number of calls up to the last, in each way, and builds on: `LAST WORDS`. Told is how many
/// actions the build behind the stop starts; another status than 0 and other files than those of a clean build are said.
pub(crate) fn put_stops(alloc: Global, told: &mut Told, lines: &str, rest: &str) {
    let (last, words) = word_of(rest);
    let Some(clean) = clean_files(alloc, told, lines, words) else {
        return told.refuse();
    };
    for calls in 0..=told.number(last) {
        told.put("stopped after ");
        told.show(calls);
        told.put(":");
        for pick in 0..PICKS {
            put_stop(alloc, told, lines, words, calls, pick, &clean);
        }
        told.put("\n");
        if told.is_refused() {
            return;
        }
    }
}

fn put_stop(
    alloc: Global,
    told: &mut Told,
    lines: &str,
    words: &str,
    calls: u32,
    pick: u32,
    clean: &Files,
) {
    let mut further = Vec::new(alloc);
    let stopped = Event::Stopped(words_of(alloc, told, words), calls, pick);
    told.keep(&mut further, stopped);
    let event = build_of(alloc, told, words);
    told.keep(&mut further, event);
    let Some(left) = left_by(alloc, told, lines, Vec::new(alloc), further) else {
        return told.refuse();
    };
    told.put(" ");
    told.show(left.world.jobs().len());
    if last_status(&left) != Some(0) {
        told.put(" (status)");
    }
    if !are_clean(&left.world, clean) {
        told.put(" (other files)");
    }
}

/// Builds twice behind a history, where each call of the outside fails at each number below this one: `NUMBERS WORDS`. Told are both
/// statuses, and whether the files are those of a clean build.
pub(crate) fn put_failures(alloc: Global, told: &mut Told, lines: &str, rest: &str) {
    let (numbers, words) = word_of(rest);
    let numbers = told.number(numbers);
    let Some(clean) = clean_files(alloc, told, lines, words) else {
        return told.refuse();
    };
    for (name, call) in CALLS {
        for number in 0..numbers {
            told.put_all(&[name, " "]);
            told.show(number);
            told.put(":");
            let failing = failing_of(alloc, told, call, number);
            put_failure(alloc, told, lines, words, failing, &clean);
        }
    }
}

fn failing_of(alloc: Global, told: &mut Told, call: Call, number: u32) -> Vec<(Call, u32)> {
    let mut failing = Vec::new(alloc);
    told.keep(&mut failing, (call, number));
    failing
}

fn put_failure(
    alloc: Global,
    told: &mut Told,
    lines: &str,
    words: &str,
    failing: Vec<(Call, u32)>,
    clean: &Files,
) {
    let mut further = Vec::new(alloc);
    for _ in 0..2 {
        let event = build_of(alloc, told, words);
        told.keep(&mut further, event);
    }
    let Some(left) = left_by(alloc, told, lines, failing, further) else {
        return told.refuse();
    };
    for report in &left.reports {
        told.put(" ");
        told.show(report.status);
    }
    if are_clean(&left.world, clean) {
        told.put(" as clean\n");
    } else {
        told.put(" other files\n");
    }
}

/// Builds behind a history whose first signature bank is cut to each length. Told is how many actions that starts.
pub(crate) fn put_cuts(alloc: Global, told: &mut Told, lines: &str, words: &str) {
    let no_failing = Vec::new(alloc);
    let Some(left) = left_by(alloc, told, lines, no_failing, Vec::new(alloc)) else {
        return told.refuse();
    };
    let Ok(files) = left.world.files() else {
        return told.refuse();
    };
    let bank = left.world.bank(Bank::A);
    for size in 0..=bank.len() {
        match bank.get(..size) {
            Some(front) => put_cut(alloc, told, files.as_slice(), front, words),
            None => told.refuse(),
        }
    }
}

fn put_cut(alloc: Global, told: &mut Told, files: &[(PathText, Blob)], front: &[u8], words: &str) {
    told.put("cut to ");
    told.show(front.len());
    told.put(": status ");
    let mut events = Vec::new(alloc);
    let event = build_of(alloc, told, words);
    told.keep(&mut events, event);
    let files = copies_of(alloc, told, files);
    let Some(world) = world_with(alloc, files, front) else {
        return told.refuse();
    };
    match history(alloc, events.as_slice(), world) {
        Ok(left) => put_built(told, &left),
        Err(_) => told.refuse(),
    }
}

fn put_built(told: &mut Told, left: &History) {
    match last_status(left) {
        Some(status) => told.show(status),
        None => told.refuse(),
    }
    told.put(", ");
    told.show(left.world.jobs().len());
    told.put(" started\n");
}

fn copies_of(alloc: Global, told: &mut Told, files: &[(PathText, Blob)]) -> Vec<(PathText, Blob)> {
    let mut copies = Vec::new(alloc);
    for (path, bytes) in files {
        match (path.copy(), bytes.copy()) {
            (Ok(path), Ok(bytes)) => told.keep(&mut copies, (path, bytes)),
            _ => told.refuse(),
        }
    }
    copies
}

/// The size of each signature bank, and its generation where it has one.
pub(crate) fn put_banks(told: &mut Told, world: &MemWorld) {
    put_bank(told, "A", world.bank(Bank::A));
    put_bank(told, "B", world.bank(Bank::B));
}

fn put_bank(told: &mut Told, name: &str, bytes: &[u8]) {
    told.put_all(&["bank ", name, ": "]);
    told.show(bytes.len());
    told.put(" bytes");
    if let Some(generation) = bytes.get(16) {
        told.put(", generation ");
        told.show(*generation);
    }
    told.put("\n");
}
