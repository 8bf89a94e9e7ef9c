//! Takes a world in memory through each history on its standard input, and writes what is told of it.
//!
//! A line `== NAME` begins a history, in a world without files in which a command makes what its sources hold. Each line below is an event:
//! `edit PATH TEXT` (`\n` in the text stands for a line feed), `delete PATH`, `build WORDS`, `stopped CALLS PICK WORDS`, and
//! `turns TIMES PATH WORDS`, which sets a file to `0` and `1` in turn and builds each time. Lines of the world: `fail CODE PATH TEXT
//! COMMAND`, `orders NUMBERS`, and `failing CALL NUMBER`. Told are the status of each build and what it printed, and the files behind the
//! last event, by `banks` the signature banks too; or why the history is refused, and at which event. A last line `stops LAST WORDS`,
//! `failures NUMBERS WORDS` or `cuts WORDS` goes on in many ways. `random SEED NUMBER` takes so many random histories, and compares each
//! run with the slow functions that are the definitions of `build_model`.
#![tactic(auto)]

mod asked;
mod begun;
mod closings;
mod course;
mod events;
mod judged;
mod kept;
mod names;
mod numbers;
mod outset;
mod project;
mod random;
mod seen;
mod shown;
mod texts;

use crate::closings::{put_banks, put_cuts, put_failures, put_stops};
use crate::events::{events_of, word_of};
use crate::outset::world_of;
use crate::random::put_random;
use crate::shown::{put_fault, put_told};
use build_history::history;
use std::alloc::Global;
use std::io;
use trial_text::Told;

fn main(rt: HostRuntime) -> io::Result<()> {
    let table = io::read_to_string(rt.alloc(), rt.reader())?;
    let mut told = Told::new(rt.alloc());
    put_histories(rt.alloc(), &mut told, table.as_str());
    rt.print(told.as_str())
}

/// Tells what each history of the table gives.
fn put_histories(alloc: Global, told: &mut Told, table: &str) {
    let table = table.strip_suffix("\n").unwrap_or(table);
    for text in table.split("\n== ") {
        put_history(alloc, told, text.strip_prefix("== ").unwrap_or(text));
    }
}

fn put_history(alloc: Global, told: &mut Told, text: &str) {
    let (name, lines) = text.split_once('\n').unwrap_or((text, ""));
    told.put_all(&["== ", name, "\n"]);
    match lines.strip_prefix("random ") {
        Some(rest) => put_random(alloc, told, rest),
        None => put_lines(alloc, told, lines),
    }
    told.end(name);
}

/// Tells what a history leaves, or how it ends in many ways.
fn put_lines(alloc: Global, told: &mut Told, lines: &str) {
    let (_, last) = lines.rsplit_once('\n').unwrap_or(("", lines));
    let (verb, rest) = word_of(last);
    match verb {
        "stops" => put_stops(alloc, told, lines, rest),
        "failures" => put_failures(alloc, told, lines, rest),
        "cuts" => put_cuts(alloc, told, lines, rest),
        "banks" => put_left(alloc, told, lines, true),
        _ => put_left(alloc, told, lines, false),
    }
}

fn put_left(alloc: Global, told: &mut Told, lines: &str, with_banks: bool) {
    let events = events_of(alloc, told, lines);
    let untold = turns_in(told, lines);
    match world_of(alloc, told, lines, Vec::new(alloc)) {
        Some(world) => match history(alloc, events.as_slice(), world) {
            Ok(left) => {
                put_told(told, &left, untold);
                if with_banks {
                    put_banks(told, &left.world);
                }
            }
            Err(fault) => put_fault(told, fault),
        },
        None => told.refuse(),
    }
}

/// How many builds come by turns.
fn turns_in(told: &mut Told, lines: &str) -> usize {
    let mut turns: usize = 0;
    for line in lines.lines() {
        let (verb, rest) = word_of(line);
        if verb == "turns" {
            let (times, _) = word_of(rest);
            turns = turns.saturating_add(told.number(times) as usize);
        }
    }
    turns
}
