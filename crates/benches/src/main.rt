//! The programs that `bench/` times, each under a word: `benches WORD [ARGUMENT..]`. They promise nothing.
#![tactic(auto)]

mod costs;
mod nodes;
mod rule_env;
mod scripts;
mod substitution;
mod values;

use anyhow::{Result, bail};
use std::{env, io};

fn main(rt: HostRuntime) -> Result<()> {
    let mut arguments = env::args(&rt)?.skip(1);
    let Some(word) = arguments.next() else {
        return Ok(());
    };
    let first = arguments.next().unwrap_or(String::new(rt.alloc()));
    let second = arguments.next().unwrap_or(String::new(rt.alloc()));
    if !run(&rt, word.as_str(), first.as_str(), second.as_str())? {
        bail!("no bench of that name: {word}");
    }
    Ok(())
}

/// Runs what a word names, and says whether it names something. An argument that isn't given is empty.
fn run(rt: &HostRuntime, word: &str, first: &str, second: &str) -> io::Result<bool> {
    match word {
        "lex" => scripts::lex_file(rt, first)?,
        "parse" => scripts::parse_file(rt, first)?,
        "eval" => scripts::run_file(rt, first)?,
        "nodes" => nodes::intern_and_find(rt)?,
        "costs" => costs::expand(rt, first, second)?,
        "subst" => substitution::expand(rt, first, second)?,
        "values" => values::time_operations(rt)?,
        _ => return Ok(false),
    }
    Ok(true)
}

/// The number that an argument gives, or 1.
fn number(argument: &str) -> Option<u32> {
    if argument.is_empty() {
        return Some(1);
    }
    argument.parse::<u32>().ok()
}
