//! Reads the scripts on standard input over a tree in memory, and prints what each prints and declares, or the fault that
//! it has. What SCons prints for the same scripts is stored beside them wherever both mean the same.
//!
//! A trial begins behind a heading `=== NAME WORDS`, whose words are those of a command line. Its first file is SConstruct;
//! a line `--- PATH` begins a further one.
#![tactic(auto)]

mod graph_text;
mod trial;

use crate::trial::put_trial;
use std::alloc::Global;
use std::io;
use trial_text::Told;

fn main(rt: HostRuntime) -> io::Result<()> {
    let table = io::read_to_string(rt.alloc(), rt.reader())?;
    let mut told = Told::new(rt.alloc());
    put_all(rt.alloc(), &mut told, table.as_str());
    rt.print(told.as_str())
}

/// Tells each heading, and behind it what comes of its trial.
fn put_all(alloc: Global, told: &mut Told, table: &str) {
    for part in table.split("=== ") {
        if !part.is_empty() {
            let (heading, files) = part.split_once('\n').unwrap_or((part, ""));
            told.put_all(&["=== ", heading, "\n"]);
            put_trial(alloc, told, heading, files);
            told.end(heading);
        }
    }
}
