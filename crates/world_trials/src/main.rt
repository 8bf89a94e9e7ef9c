//! Makes the calls on its standard input on a world in memory, one a line, and writes each line with what the call gives
//! below it.
//!
//! `new` makes a world without files, in which the calls fail that follow it, each as `CALL:NUMBER`. `write`, `sync`, `size`
//! and `read` are the calls of a disk, `bank` and `synced` show a bank. `top`, `kind`, `content`, `list`, `stamp`,
//! `make_dir`, `remove`, `start` and `wait` are those of a world; one job runs at a time, of one target, one dependency and
//! one signed line, or a write of more of both, and a file at its target is taken away by hand before it starts. `edit`, `remove_file`, `files`,
//! `jobs`, `fuse` and `stop` are no calls of a world. Bytes are hexadecimal behind `x`, else they are the text itself.
//!
//! `stops` makes the calls since `new` once more, on a world of its own for each number of them, and shows what is left of
//! the banks where it stops then, for each pick from 0 to 7; `records PATH` says instead whether the banks have a record
//! for the path, and of which digest. `cuts PATH BYTES` says so of a first bank that has only so many of these bytes.
#![tactic(auto)]

mod calls;
mod cuts;
mod fields;
mod held;
mod job;
mod rows;
mod shown;
mod stops;

use crate::rows::Rows;
use std::alloc::Global;
use std::io;
use trial_text::Told;

fn main(rt: HostRuntime) -> io::Result<()> {
    let table = io::read_to_string(rt.alloc(), rt.reader())?;
    let mut told = Told::new(rt.alloc());
    put_rows(rt.alloc(), &mut told, table.as_str());
    rt.print(told.as_str())
}

/// Tells each row, and below it what it gives.
fn put_rows(alloc: Global, told: &mut Told, table: &str) {
    let mut rows = Rows::new(alloc);
    for row in table.lines() {
        told.put_all(&[row, "\n"]);
        rows.put_row(alloc, told, row);
        told.end(row);
    }
}
