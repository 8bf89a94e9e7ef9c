//! Works out the rows on its standard input, one a line, and writes each row with what it gives below it.
//!
//! A row is a verb and what it is about. `includes` has the bytes of a file, `encode` and `changed` have records, `decode`
//! has bytes; `encode1` and `decode1` are of version 1. The other verbs act on a store over two banks in memory: `A` and `B`
//! put bytes into a bank, `size` lets one claim a size, `banks` and `sizes` show both, `show` one of them; `open` begins as
//! `begin` does and shows sizes alone; `again` puts a record many times, `many` one record of many targets; `cuts`, `flips`
//! and `mutate` spoil the banks in many ways, of which `mutations` says what each is read as; `stops` begins a store, puts a
//! record, or several in a group, and stops after each call of the disk. A record is written `WORK TARGETS; SIGNED; DEPS`, the work with `:sha1` or
//! `:sha256` behind it where its digests are such: targets and dependencies stand between spaces, signed lines between `|`,
//! a dependency as `NAME=CONTENT` or, where no file stands there, as `NAME`, with `@STAMP` behind it where it has a stamp.
//! Bytes are hexadecimal.
#![tactic(auto)]

mod alone;
mod banks;
mod disk;
mod draws;
mod fields;
mod mutations;
mod puts;
mod readings;
mod record;
mod rows;
mod runs;
mod shown;
mod spoilt;
mod stops;
mod tally;

use crate::rows::Rows;
use std::alloc::Global;
use std::io;
use trial_text::Told;

fn main(rt: HostRuntime) -> io::Result<()> {
    let table = io::read_to_string(rt.alloc(), rt.reader())?;
    let mut told = Told::new(rt.alloc());
    put_rows(rt.alloc(), &mut told, table.as_str());
    rt.print(told.as_str())
}

/// Tells each row, and below it what it gives.
fn put_rows(alloc: Global, told: &mut Told, table: &str) {
    let mut rows = Rows::new(alloc);
    for row in table.lines() {
        told.put_all(&[row, "\n"]);
        rows.put_row(alloc, told, row);
        told.end(row);
    }
}
