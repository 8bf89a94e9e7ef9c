//! A bank of which only the first bytes stand.
use crate::calls::BYTES;
use crate::fields::{bytes_of, pair};
use crate::held::bare_world;
use crate::stops::put_record;
use scons_base::PathText;
use std::alloc::Global;
use trial_text::Told;
use world_api::{Bank, Disk};

/// `PATH BYTES`: what the first so many of the bytes say of a path, for each number of them. Numbers in a row with one
/// answer share a line.
pub(crate) fn put_cuts(alloc: Global, told: &mut Told, text: &str) {
    let (path, bytes) = pair(told, text);
    match (PathText::read(alloc, path), bytes_of(alloc, bytes)) {
        (Ok(path), Some(bytes)) => put_cuts_of(alloc, told, &path, bytes.as_slice()),
        _ => told.refuse(),
    }
}

fn put_cuts_of(alloc: Global, told: &mut Told, path: &PathText, bytes: &[u8]) {
    let mut answers = Told::new(alloc);
    for len in 0..bytes.len().saturating_add(1) {
        put_cut(alloc, &mut answers, path, &bytes[..len]);
        answers.put("\n");
    }
    put_runs(told, answers.as_str());
    if answers.is_refused() {
        told.refuse();
    }
}

fn put_cut(alloc: Global, told: &mut Told, path: &PathText, bytes: &[u8]) {
    match bare_world(alloc, Vec::new(alloc)) {
        Some(mut world) => {
            if bytes.len() <= BYTES
                && world.write_at(Bank::A, 0, bytes).is_ok()
                && world.sync(Bank::A).is_ok()
            {
                put_record(alloc, told, &mut world, path);
            } else {
                told.refuse();
            }
        }
        None => told.refuse(),
    }
}

/// Tells answers to the numbers from 0 on, which stand in a line each: those in a row that are the same share one.
fn put_runs(told: &mut Told, answers: &str) {
    let mut first: usize = 0;
    for (number, answer) in answers.lines().enumerate() {
        let next = number.saturating_add(1);
        if answers.lines().nth(next) != Some(answer) {
            put_run(told, first, number, answer);
            first = next;
        }
    }
}

/// The answer to the numbers from one to another.
fn put_run(told: &mut Told, first: usize, last: usize, answer: &str) {
    told.show(first);
    told.put(" to ");
    told.show(last);
    told.put_all(&[": ", answer, "\n"]);
}
