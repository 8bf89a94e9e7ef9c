//! Tries scripts on the table that standard input holds, and prints what each gives. A line `@@ WORD` begins one of the table's
//! three parts: `trees` are scripts and their trees (`trees.rt`), `runs` scripts that are run (`runs.rt`), and `values` cases of
//! one line (`values.rt`), behind which stands what no script can ask (`beside.rt`).
#![tactic(auto)]

mod beside;
mod made;
mod runs;
mod scripts;
mod trees;
mod values;
mod width;

use crate::beside::put_beside;
use crate::runs::put_runs;
use crate::trees::put_trees;
use crate::values::put_values;
use std::alloc::Global;
use std::io;
use trial_text::Told;

fn main(rt: HostRuntime) -> io::Result<()> {
    let table = io::read_to_string(rt.alloc(), rt.reader())?;
    let mut told = Told::new(rt.alloc());
    put_all(rt.alloc(), &mut told, table.as_str());
    rt.print(told.as_str())
}

/// Tells what each part of the table gives.
fn put_all(alloc: Global, told: &mut Told, table: &str) {
    for part in table.split("@@ ") {
        if let Some((word, rows)) = part.split_once('\n') {
            put_part(alloc, told, word, rows);
            told.end(word);
        }
    }
}

fn put_part(alloc: Global, told: &mut Told, word: &str, rows: &str) {
    match word {
        "trees" => put_trees(alloc, told, rows),
        "runs" => put_runs(alloc, told, rows),
        "values" => {
            put_values(alloc, told, rows);
            put_beside(alloc, told);
        }
        _ => told.refuse(),
    }
}
