//! Builds over a world whose jobs run on threads, and writes what each run printed and what the tree holds after it: headers that are
//! edited, why rules run, headers that are made, in whatever order their jobs end, a header that is written, an action that fails, and two rules
//! whose jobs meet.
#![tactic(auto)]

mod meeting;
mod rows;
mod runs;
mod start;
mod trial;

use crate::rows::{put_edited, put_explained, put_failed, put_made, put_met, put_written};
use std::io;
use trial_text::Told;

fn main(rt: HostRuntime) -> io::Result<()> {
    let alloc = rt.alloc();
    let mut told = Told::new(alloc);
    put_edited(alloc, rt, &mut told);
    put_explained(alloc, rt, &mut told);
    put_made(alloc, rt, &mut told);
    put_written(alloc, rt, &mut told);
    put_failed(alloc, rt, &mut told);
    put_met(alloc, rt, &mut told);
    rt.print(told.as_str())
}
