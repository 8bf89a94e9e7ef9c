//! Runs of the command over a world in memory, and what is told of them.
use crate::idle::IdleWorld;
use crate::steps::words_of;
use scons_base::PathText;
use scons_top::Report;
use std::str;
use trial_text::Told;
use world_api::Job;
use world_mem::MemSink;

/// What a run answered, and what it wrote.
#[derive(Drop)]
pub(crate) struct Ran {
    pub(crate) report: Report,
    pub(crate) out: MemSink,
    pub(crate) err: MemSink,
}

/// Runs the command with these words, and tells what it wrote, answered and started.
pub(crate) fn put_run(told: &mut Told, world: &mut IdleWorld, words: &str) {
    told.put_all(&["$ scons ", words, "\n"]);
    let before = world.inner.jobs().len();
    let words = words_of(world.alloc, told, words);
    match world.run(words.as_slice()) {
        Some(ran) => put_ran(told, &ran, world.inner.jobs(), before),
        None => told.refuse(),
    }
}

/// What stands on standard output and on standard error, the status, what was started after so many jobs, and what was skipped.
fn put_ran(told: &mut Told, ran: &Ran, jobs: &[Job], before: usize) {
    told.put_bytes(ran.out.text());
    put_marked(told, ran.err.text());
    told.put("status ");
    told.show(ran.report.status);
    told.put(", ");
    told.show(ran.report.faults.len());
    told.put(" faults, started:");
    put_started(told, jobs, before);
    told.put("\n");
    put_skipped(told, ran.report.skipped.as_slice());
}

/// Each line of standard error, marked.
fn put_marked(told: &mut Told, bytes: &[u8]) {
    let Ok(text) = str::from_utf8(bytes) else {
        return told.refuse();
    };
    for line in text.lines() {
        told.put_all(&["! ", line, "\n"]);
    }
}

/// The first target of each job behind so many.
fn put_started(told: &mut Told, jobs: &[Job], before: usize) {
    for job in jobs.iter().skip(before) {
        if let Some(target) = job.targets.as_slice().first() {
            told.put_all(&[" ", target.as_str()]);
        }
    }
}

fn put_skipped(told: &mut Told, skipped: &[(PathText, PathText)]) {
    for (held, by) in skipped {
        told.put_all(&["skipped ", held.as_str(), " for ", by.as_str(), "\n"]);
    }
}

/// The status of a run, and the first line of standard error, if there is one, without its mark.
pub(crate) fn put_fault(told: &mut Told, ran: &Ran) {
    told.show(ran.report.status);
    let Ok(text) = str::from_utf8(ran.err.text()) else {
        return told.refuse();
    };
    if let Some(line) = text.lines().next() {
        told.put_all(&[" ", line.strip_prefix("scons: *** ").unwrap_or(line)]);
    }
}
