//! Scripts that are run: what each prints and how it ends. CPython's output is stored beside them wherever a script means there
//! what it means here.
//!
//! A script begins behind a heading `=== NAME`. Words behind the name change how it is tried. `units` tells the units used, and
//! `total=N` gives so many; `left=N` has the host refuse to print more texts than N; with `replies` the host replies to calls.
//! A line `--- run` begins a script that a call of `run` begins, and `--- next` one behind the first. `--- sum N` stands for the
//! assignment of a sum of N ones to `x`.
use crate::scripts::{put_kind, script_of};
use eval_hosts::{Printing, Replying};
use py_eval::{EvalFault, Exit, Ran, run};
use py_heap::{Budget, Heap};
use py_tree::Script;
use std::alloc::Global;
use trial_text::Told;

/// How scripts are tried.
#[derive(Clone, Copy)]
struct Way {
    /// The host replies, and doesn't only print.
    replies: bool,
    /// The units that were used are told.
    tells: bool,
    total: u64,
    /// The texts that the host prints before it refuses, if it does.
    left: Option<u64>,
}

/// Tells each heading, and behind it what its scripts print, how they end where that isn't at the end, and the units where they
/// are asked for.
pub fn put_runs(alloc: Global, told: &mut Told, rows: &str) {
    for row in rows.split("=== ") {
        if let Some((heading, lines)) = row.split_once('\n') {
            told.put_all(&["=== ", heading, "\n"]);
            put_run(alloc, told, way_of(heading), lines);
            told.end(heading);
        }
    }
}

/// What a heading asks for.
fn way_of(heading: &str) -> Way {
    let mut way = Way {
        replies: false,
        tells: false,
        total: 20_000_000,
        left: None,
    };
    for word in heading.split_whitespace() {
        match word {
            "units" => way.tells = true,
            "replies" => way.replies = true,
            _ => {
                way.total = number(word, "total=").unwrap_or(way.total);
                way.left = number(word, "left=").or(way.left);
            }
        }
    }
    way
}

fn number(word: &str, name: &str) -> Option<u64> {
    word.strip_prefix(name)?.parse::<u64>().ok()
}

fn put_run(alloc: Global, told: &mut Told, way: Way, lines: &str) {
    match with_sums(alloc, lines) {
        Some(text) => put_scripts(alloc, told, way, text.as_str()),
        None => told.refuse(),
    }
}

/// The lines with sums in the place of what stands for them.
fn with_sums(alloc: Global, lines: &str) -> Option<String> {
    let mut text = String::new(alloc);
    for line in lines.lines() {
        push_line(alloc, &mut text, line)?;
    }
    Some(text)
}

fn push_line(alloc: Global, text: &mut String, line: &str) -> Option<()> {
    match number(line, "--- sum ") {
        Some(count) => {
            let ones = " + 1".repeat(alloc, count as usize).ok()?;
            text.push_str("x = 0").ok()?;
            text.push_str(ones.as_str()).ok()?;
        }
        None => text.push_str(line).ok()?,
    }
    text.push('\n').ok()
}

fn put_scripts(alloc: Global, told: &mut Told, way: Way, text: &str) {
    let first = text.split("--- ").next().unwrap_or("");
    match script_of(alloc, first) {
        Some(script) if way.replies => put_replied(alloc, told, way, &script, text),
        Some(script) => put_printed(alloc, told, way, &script),
        None => told.refuse(),
    }
}

fn put_printed(alloc: Global, told: &mut Told, way: Way, script: &Script) {
    let mut host = Printing {
        printed: String::new(alloc),
        left: way.left,
        refusals: 0,
    };
    let outcome = run(script, Heap::new(alloc), &mut host, Budget::new(way.total));
    told.put(host.printed.as_str());
    put_end(told, way, &outcome);
}

fn put_replied(alloc: Global, told: &mut Told, way: Way, script: &Script, text: &str) {
    let Some(inner) = scripts_behind(alloc, text, "run\n") else {
        return told.refuse();
    };
    let Some(first) = scripts_behind(alloc, text, "next\n") else {
        return told.refuse();
    };
    let mut host = Replying {
        printed: String::new(alloc),
        inner,
        first,
        refusals: 0,
    };
    let outcome = run(script, Heap::new(alloc), &mut host, Budget::new(way.total));
    told.put(host.printed.as_str());
    put_end(told, way, &outcome);
}

/// The scripts that lines with this word begin, the first of them last.
fn scripts_behind(alloc: Global, text: &str, word: &str) -> Option<Vec<Script>> {
    let mut scripts = Vec::new(alloc);
    for part in text.split("--- ") {
        if let Some(lines) = part.strip_prefix(word) {
            if scripts.push(script_of(alloc, lines)?).is_err() {
                return None;
            }
        }
    }
    scripts.reverse();
    Some(scripts)
}

/// That the host ended the scripts, and the units where they are asked for, or the fault.
fn put_end(told: &mut Told, way: Way, outcome: &Result<Ran, EvalFault>) {
    match outcome {
        Ok(ran) => {
            if ran.exit == Exit::Returned {
                told.put("returned\n");
            }
            if way.tells {
                told.show(ran.budget.used());
                told.put(" units\n");
            }
        }
        Err(EvalFault::Memory) => told.put("memory\n"),
        Err(EvalFault::At { script, line, kind }) => {
            told.put("fault in script ");
            told.show(*script);
            told.put(", line ");
            told.show(*line);
            told.put(": ");
            put_kind(told, kind);
            told.put("\n");
        }
    }
}
