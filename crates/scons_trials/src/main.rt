//! Runs the trials on its standard input over a world and sinks in memory, and writes what each left.
//!
//! A line `== NAME` begins a trial of a script with one rule, whose old target stands. The lines below it say what else is so:
//! `word` is a word of the command line, `script` the script's whole text (`\n` for a line feed), `no` takes the script or the
//! source away, `large` makes a source of so many bytes, `action` lets the action end with this status, `call` lets a call of the
//! world fail that has this number, counted from 0, `out` and `err` so a write on a stream.
#![tactic(auto)]

mod seen;
mod trial;

use crate::seen::put_run;
use crate::trial::Trial;
use std::alloc::Global;
use std::io;
use trial_text::Told;

fn main(rt: HostRuntime) -> io::Result<()> {
    let table = io::read_to_string(rt.alloc(), rt.reader())?;
    let mut told = Told::new(rt.alloc());
    put_all(rt.alloc(), &mut told, table.as_str());
    rt.print(told.as_str())
}

/// Tells what each trial of the table left.
fn put_all(alloc: Global, told: &mut Told, table: &str) {
    for part in table.split("== ") {
        if let Some((name, lines)) = part.split_once('\n') {
            told.put_all(&["== ", name, "\n"]);
            put_trial(alloc, told, lines);
            told.end(name);
        }
    }
}

fn put_trial(alloc: Global, told: &mut Told, lines: &str) {
    let mut trial = Trial::new(alloc);
    for line in lines.lines() {
        trial.take(told, line);
    }
    put_run(alloc, told, &trial);
}
