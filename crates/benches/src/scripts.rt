//! The script in a file: lexed, parsed, and run.
use eval_hosts::Replying;
use py_eval::run;
use py_heap::{Budget, Heap};
use py_lex::lex;
use py_parse::parse;
use py_token::Tokens;
use py_tree::Script;
use scons_base::limits::UNIT_LIMIT;
use std::alloc::Global;
use std::time::Instant;
use std::{fs, io};

/// Lexes a file, and says how long that took.
pub fn lex_file(rt: &HostRuntime, path: &str) -> io::Result<()> {
    let bytes = fs::read(rt, path)?;
    time_lexing(rt, bytes.as_slice())
}

fn time_lexing(rt: &HostRuntime, bytes: &[u8]) -> io::Result<()> {
    let start = Instant::now(rt)?;
    match lex(rt.alloc(), bytes) {
        Ok(tokens) => say_tokens(rt, start, tokens.len()),
        Err(fault) => rt.println(fault),
    }
}

fn say_tokens(rt: &HostRuntime, start: Instant, count: usize) -> io::Result<()> {
    let time = start.elapsed(rt)?.as_micros();
    println!(rt; "py_lex: {count} tokens in {time} microseconds")
}

/// Parses a file, and says how long that took.
pub fn parse_file(rt: &HostRuntime, path: &str) -> io::Result<()> {
    let bytes = fs::read(rt, path)?;
    let start = Instant::now(rt)?;
    match lex(rt.alloc(), bytes.as_slice()) {
        Ok(tokens) => time_parsing(rt, start, &tokens),
        Err(fault) => rt.println(fault),
    }
}

fn time_parsing(rt: &HostRuntime, start: Instant, tokens: &Tokens) -> io::Result<()> {
    let lexed = start.elapsed(rt)?.as_micros();
    match parse(rt.alloc(), tokens) {
        Ok(script) => say_lines(rt, start, lexed, script.lines.len()),
        Err(fault) => rt.println(fault),
    }
}

fn say_lines(rt: &HostRuntime, start: Instant, lexed: u128, count: usize) -> io::Result<()> {
    let time = start.elapsed(rt)?.as_micros();
    println!(rt; "py_parse: {count} lines in {time} microseconds, {lexed} of them for the tokens")
}

/// Runs the script in a file, and says how long that took and what it used.
pub fn run_file(rt: &HostRuntime, path: &str) -> io::Result<()> {
    let bytes = fs::read(rt, path)?;
    match script_of(rt.alloc(), bytes.as_slice()) {
        Some(script) => time_run(rt, &script),
        None => rt.println("no script"),
    }
}

fn script_of(alloc: Global, bytes: &[u8]) -> Option<Script> {
    let tokens = lex(alloc, bytes).ok()?;
    parse(alloc, &tokens).ok()
}

fn time_run(rt: &HostRuntime, script: &Script) -> io::Result<()> {
    let start = Instant::now(rt)?;
    let used = units_of(rt.alloc(), script);
    let time = start.elapsed(rt)?.as_micros();
    match used {
        Some(used) => println!(rt; "py_eval: {used} units in {time} microseconds"),
        None => println!(rt; "py_eval: a fault after {time} microseconds"),
    }
}

/// The units that a script uses, where it comes to its end.
fn units_of(alloc: Global, script: &Script) -> Option<u64> {
    let mut host = Replying {
        printed: String::new(alloc),
        inner: Vec::new(alloc),
        first: Vec::new(alloc),
        refusals: 0,
    };
    match run(script, Heap::new(alloc), &mut host, Budget::new(UNIT_LIMIT)) {
        Ok(ran) => Some(ran.budget.used()),
        Err(_) => None,
    }
}
