//! Runs jobs on worker threads, and prints what came back: a thousand jobs of which 64 are out at a time, ten times over one pool
//! and a hundred times over one world; and two jobs that the gate holds until both have come.
#![tactic(auto)]

mod meeting;
mod rounds;
mod world_rounds;

use std::io;

fn main(rt: HostRuntime) -> io::Result<()> {
    let alloc = rt.alloc();
    match rounds::run(alloc, rt) {
        Ok(tally) => println!(rt;
            "{} endings, {} of them not their job's own",
            tally.endings, tally.strange
        )?,
        Err(_) => println!(rt; "rounds: out of memory")?,
    }
    match world_rounds::run(alloc, rt) {
        Some(tally) => println!(rt;
            "{} endings of a world, {} of them not a running job's",
            tally.endings, tally.strange
        )?,
        None => println!(rt; "world: out of memory")?,
    }
    match meeting::run(alloc, rt) {
        Ok(missed) => println!(rt; "2 jobs, {missed} of them without the other")?,
        Err(_) => println!(rt; "meeting: out of memory")?,
    }
    Ok(())
}
