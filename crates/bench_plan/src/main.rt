//! The plan on generated graphs: `bench_plan WORD RULES ..` runs the bench of each word on so many rules. They promise
//! nothing. `run` tells how many events a run takes, `time` how long it takes too, `held` how many rules a failed one holds, and
//! `cycle` how long a cycle is (`runs.rt`). A word of no bench, one without a number, and want of memory are refused.
#![tactic(auto)]

mod graphs;
mod runs;

use crate::runs::put_bench;
use std::{env, io};
use trial_text::Told;

fn main(rt: HostRuntime) -> io::Result<()> {
    let words: Vec<String> = env::args(&rt)?.skip(1).collect(rt.alloc())?;
    let mut told = Told::new(rt.alloc());
    put_all(&rt, &mut told, words.as_slice());
    rt.print(told.as_str())
}

/// Runs the bench of each word on as many rules as the next word says.
fn put_all(rt: &HostRuntime, told: &mut Told, words: &[String]) {
    for pair in words.chunks(2) {
        match pair {
            [word, count] => {
                let count = told.number(count.as_str());
                put_bench(rt, told, word.as_str(), count);
                told.end(word.as_str());
            }
            [word] => {
                told.refuse();
                told.end(word.as_str());
            }
            _ => {}
        }
    }
}
