//! Runs the trials on its standard input over a world in memory, and writes what each run printed, answered and started.
//!
//! A line `== NAME` begins a trial with a tree of its own. Lines that begin with `-- ` are its steps. `act` and `fail` say what a
//! command makes, and `orders` which running job ends at each wait: they hold for the whole trial. The others are taken in order:
//! `file` puts a file whose content follows on the line or on the lines below, `gone` removes one, `large` puts a file of so
//! many bytes, `cut`, `mark` and `bank` put other bytes into the signature file, `refused` is the number of a write on standard
//! output that the next run is refused, `refused_errors` of one on standard error, `run` is the command with these words, and
//! `show` writes a file. `copy` builds a copy of this content alone, without scripts and without the trial's tree.
//! `failures` builds once with each failure of the outside, and once more without it. `stops` stops a build after each
//! number of its calls, in each way that a stop may turn out, and builds on. `cuts` builds with the signature file cut to each
//! length. `turns` builds over and over, and `banks` says how large the signature file's halves are, and
//! `bytes` shows one of them. `graphs` builds all small graphs of a shape, beside slow functions that are the definitions of `build_model`,
//! and `graph_stops` stops such builds.
#![tactic(auto)]

mod acts;
mod builds;
mod failures;
mod graph_texts;
mod graphs;
mod idle;
mod looked;
mod rounds;
mod runs;
mod sampled;
mod small;
mod spoiled;
mod steps;
mod stops;
mod trial;

use crate::trial::put_trial;
use std::alloc::Global;
use std::io;
use trial_text::Told;

fn main(rt: HostRuntime) -> io::Result<()> {
    let table = io::read_to_string(rt.alloc(), rt.reader())?;
    let mut told = Told::new(rt.alloc());
    put_trials(rt.alloc(), &mut told, table.as_str());
    rt.print(told.as_str())
}

/// Tells what each trial of the table gives.
fn put_trials(alloc: Global, told: &mut Told, table: &str) {
    let table = table.strip_suffix("\n").unwrap_or(table);
    for trial in table.split("\n== ") {
        put_trial(alloc, told, trial.strip_prefix("== ").unwrap_or(trial));
    }
}
