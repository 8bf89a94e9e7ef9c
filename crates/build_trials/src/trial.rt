//! One trial: its steps over a world of its own.
use crate::acts::world_of;
use crate::failures::put_failures;
use crate::graphs::{put_graph_stops, put_graphs};
use crate::idle::IdleWorld;
use crate::runs::put_run;
use crate::sampled::put_copy;
use crate::spoiled::{bank_of, put_cuts, spoil};
use crate::steps::{STEP, Step, word_of, words_of};
use crate::stops::put_stops;
use scons_base::{Blob, PathText};
use std::alloc::Global;
use trial_text::Told;
use world_api::Bank;

/// Tells the name of a trial, and what its steps give.
pub(crate) fn put_trial(alloc: Global, told: &mut Told, trial: &str) {
    let (name, steps) = trial.split_once(STEP).unwrap_or((trial, ""));
    told.put_all(&["== ", name, "\n"]);
    match world_of(alloc, told, steps) {
        Some(mut world) => put_steps(told, &mut world, steps),
        None => told.refuse(),
    }
    told.end(name);
}

fn put_steps(told: &mut Told, world: &mut IdleWorld, steps: &str) {
    for text in steps.split(STEP) {
        let step = Step::of(text);
        put_step(told, world, step);
        told.end(step.line);
    }
}

fn put_step(told: &mut Told, world: &mut IdleWorld, step: Step) {
    match step.word {
        // These were taken as the world began.
        "act" | "fail" | "orders" => {}
        "file" => put_file(told, world, step),
        "large" => put_large(told, world, step.rest),
        "gone" => world.remove(told, step.rest),
        "cut" | "mark" | "bank" => spoil(told, world, step),
        "show" => show(told, world, step.rest),
        "banks" => put_banks(told, world),
        "bytes" => put_bytes(told, world, step.rest),
        _ => put_runs(told, world, step),
    }
}

/// A step that runs the command, or says what its next run is refused.
fn put_runs(told: &mut Told, world: &mut IdleWorld, step: Step) {
    match step.word {
        "run" => put_run(told, world, step.rest),
        "copy" => put_copy(world.alloc, told, step.rest),
        "refused" => {
            let number = told.number(step.rest);
            told.keep(&mut world.refused, number);
        }
        "refused_errors" => {
            let number = told.number(step.rest);
            told.keep(&mut world.refused_errors, number);
        }
        "turns" => put_turns(told, world, step.rest),
        "cuts" => put_cuts(told, world, step.rest),
        "failures" => put_failures(told, world, step.rest),
        "stops" => put_stops(told, world, step.rest),
        "graphs" => put_graphs(world.alloc, told, step.rest),
        "graph_stops" => put_graph_stops(world.alloc, told, step.rest),
        _ => told.refuse(),
    }
}

/// Gives a file the content that stands behind its path, or on the lines below, each with its line feed.
fn put_file(told: &mut Told, world: &mut IdleWorld, step: Step) {
    let (path, text) = word_of(step.rest);
    match step.below {
        None => world.edit(told, path, text.as_bytes()),
        Some(lines) if text.is_empty() => put_lines(told, world, path, lines),
        Some(_) => told.refuse(),
    }
}

fn put_lines(told: &mut Told, world: &mut IdleWorld, path: &str, lines: &str) {
    match format!(in world.alloc; "{lines}\n") {
        Ok(content) => world.edit(told, path, content.as_bytes()),
        Err(_) => told.refuse(),
    }
}

/// Gives a file so many bytes.
fn put_large(told: &mut Told, world: &mut IdleWorld, rest: &str) {
    let (path, size) = word_of(rest);
    match Vec::from_elem(world.alloc, b'a', told.number(size) as usize) {
        Ok(bytes) => world.edit(told, path, bytes.as_slice()),
        Err(_) => told.refuse(),
    }
}

/// What a file holds.
fn show(told: &mut Told, world: &IdleWorld, name: &str) {
    let Ok(files) = world.inner.files() else {
        return told.refuse();
    };
    match content_of(files.as_slice(), name) {
        Some(content) => {
            told.put_all(&[name, ": "]);
            told.put_bytes(content);
            if !content.ends_with(b"\n") {
                told.put("\n");
            }
        }
        None => told.put_all(&[name, " is no file\n"]),
    }
}

fn content_of<'a>(files: &'a [(PathText, Blob)], name: &str) -> Option<&'a [u8]> {
    for (path, bytes) in files {
        if path.as_str() == name {
            return Some(bytes.as_slice());
        }
    }
    None
}

/// Builds so many times, with a file that holds `0` and `1` in turn: `TIMES PATH WORDS`.
fn put_turns(told: &mut Told, world: &mut IdleWorld, rest: &str) {
    let (times, rest) = word_of(rest);
    let (path, words) = word_of(rest);
    let words = words_of(world.alloc, told, words);
    for turn in 0..told.number(times) {
        let content = if turn % 2 == 0 { "0" } else { "1" };
        world.edit(told, path, content.as_bytes());
        match world.status(words.as_slice()) {
            Some(0) => {}
            _ => told.refuse(),
        }
    }
}

/// The size of each signature bank, and its generation where it has one.
fn put_banks(told: &mut Told, world: &IdleWorld) {
    put_bank(told, "A", world.inner.bank(Bank::A));
    put_bank(told, "B", world.inner.bank(Bank::B));
}

fn put_bank(told: &mut Told, name: &str, bytes: &[u8]) {
    told.put_all(&["bank ", name, ": "]);
    told.show(bytes.len());
    told.put(" bytes");
    if let Some(generation) = bytes.get(16) {
        told.put(", generation ");
        told.show(*generation);
    }
    told.put("\n");
}

/// The bytes of a signature bank, hexadecimal.
fn put_bytes(told: &mut Told, world: &IdleWorld, name: &str) {
    let Some(bank) = bank_of(name) else {
        return told.refuse();
    };
    told.put_all(&["bank ", name, ": "]);
    for byte in world.inner.bank(bank) {
        told.show(format_args!("{byte:02x}"));
    }
    told.put("\n");
}
