//! Tries plans on all small graphs, with every order of endings, beside slow functions that are the definitions of
//! `build_model`.
//!
//! A line of standard input is a row: roles, shape and endings (`row.rt`). Each graph of four rules with one source, and at
//! most two needs of each rule, is run so at one, two and three jobs. A row of words asks when a rule is due (`dues.rt`). A row
//! that can't be read, or for which memory runs out, is refused.
#![tactic(auto)]

mod cases;
mod choices;
mod compare;
mod dues;
mod facts;
mod graphs;
mod plain;
mod progress;
mod row;
mod tally;
mod trial;

use crate::dues::put_due;
use crate::trial::put_graphs;
use std::alloc::Global;
use std::io;
use trial_text::Told;

fn main(rt: HostRuntime) -> io::Result<()> {
    let table = io::read_to_string(rt.alloc(), rt.reader())?;
    let mut told = Told::new(rt.alloc());
    put_all(rt.alloc(), &mut told, table.as_str());
    rt.print(told.as_str())
}

/// Tells each row, and behind it what it gives.
fn put_all(alloc: Global, told: &mut Told, table: &str) {
    for line in table.lines() {
        told.put(line);
        if line.contains(' ') {
            put_due(alloc, told, line);
        } else {
            put_graphs(alloc, told, line);
        }
        told.put("\n");
        told.end(line);
    }
}
