//! The rows of the table.
use crate::cuts::put_cuts;
use crate::held::Held;
use crate::stops::{put_banks, put_records};
use std::alloc::Global;
use trial_text::Told;

/// The world that was made last, and the rows of calls since, a line for each.
#[derive(Drop)]
pub(crate) struct Rows {
    held: Option<Held>,
    calls: String,
}

impl Rows {
    pub(crate) fn new(alloc: Global) -> Rows {
        Rows {
            held: None,
            calls: String::new(alloc),
        }
    }

    /// Tells what a row gives, in lines of its own.
    pub(crate) fn put_row(&mut self, alloc: Global, told: &mut Told, row: &str) {
        let (verb, rest) = row.split_once(' ').unwrap_or((row, ""));
        match verb {
            "" | "#" => {}
            "new" => self.begin(alloc, told, rest),
            "stop" => self.stop(told, rest),
            "stops" => put_banks(alloc, told, self.calls.as_str()),
            "records" => put_records(alloc, told, self.calls.as_str(), rest),
            "cuts" => put_cuts(alloc, told, rest),
            _ => self.put_call(alloc, told, row, verb, rest),
        }
    }

    /// Begins with another world.
    fn begin(&mut self, alloc: Global, told: &mut Told, failures: &str) {
        self.calls.clear();
        self.held = Held::new(alloc, told, failures);
    }

    fn stop(&mut self, told: &mut Told, pick: &str) {
        let pick = told.number(pick);
        match self.held.take() {
            Some(held) => self.held = held.stopped(told, pick),
            None => told.refuse(),
        }
    }

    /// Makes a call, or changes or shows the world by hand.
    fn put_call(&mut self, alloc: Global, told: &mut Told, row: &str, verb: &str, rest: &str) {
        let Some(held) = &mut self.held else {
            return told.refuse();
        };
        if held.call(alloc, told, verb, rest) {
            if self.calls.push_str(row).is_err() || self.calls.push('\n').is_err() {
                told.refuse();
            }
        } else {
            held.by_hand(alloc, told, verb, rest);
        }
        told.put("\n");
    }
}
