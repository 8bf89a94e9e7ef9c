//! Cases, one a line, and a line for each: what the last expression of the case shows, in quotes where it is a text, or why it
//! has no value. A line without a statement is a heading, and is told as it is.
//!
//! A case is a script of one line, with `;` between its statements. One that ends in `units` tells the units that it used.
//! One that ends in a call of `print` tells what that prints. `an_object` stands for an object, `a_path` for one that shows
//! as a path, and `a_function` for a function.
use crate::scripts::{put_kind, script_of};
use eval_hosts::Replying;
use py_eval::{EvalFault, Ran, run};
use py_heap::{Budget, Heap, HostId};
use py_tree::Script;
use std::alloc::{AllocError, Global};
use trial_text::Told;

/// The units that a case has, fewer than a reading.
const TOTAL: u64 = 20_000_000;

/// The number of the object that stands for the name `value`, and shows as a path here.
const PATH: HostId = HostId(0);

/// Tells what each case comes to.
pub fn put_values(alloc: Global, told: &mut Told, rows: &str) {
    for line in rows.lines() {
        if line.is_empty() || line.starts_with('#') {
            told.put(line);
        } else {
            put_case(alloc, told, line);
        }
        told.put("\n");
        told.end(line);
    }
}

fn put_case(alloc: Global, told: &mut Told, case: &str) {
    let (front, last) = case.rsplit_once("; ").unwrap_or(("", case));
    match text_of(alloc, front, last) {
        Ok(text) => put_script(alloc, told, last, text.as_str()),
        Err(_) => told.refuse(),
    }
}

fn put_script(alloc: Global, told: &mut Told, last: &str, text: &str) {
    match script_of(alloc, text) {
        Some(script) => put_outcome(alloc, told, last, &script),
        None => told.refuse(),
    }
}

/// The script of some statements and what stands behind them: an expression is shown as the item of a list, so that a text
/// stands in quotes.
fn text_of(alloc: Global, front: &str, last: &str) -> Result<String, AllocError> {
    if last.starts_with("units") {
        format!(in alloc; "{front}\n")
    } else if last.starts_with("print(") {
        format!(in alloc; "{front}\n{last}\n")
    } else {
        let names = names_of(front, last);
        format!(in alloc; "{names}{front}\nprint([{last}\n])\n")
    }
}

/// The statements in front of a case that has one of the three names.
fn names_of(front: &str, last: &str) -> &'static str {
    let named = |name: &str| front.contains(name) || last.contains(name);
    if named("a_function") || named("a_path") || named("an_object") {
        "def a_function():\n    pass\na_path = value; an_object = thing\n"
    } else {
        ""
    }
}

/// What a script prints, or the fault that ends it, or the units that it uses.
fn put_outcome(alloc: Global, told: &mut Told, last: &str, script: &Script) {
    match heap_with_path(alloc) {
        Some(heap) => put_over(alloc, told, last, script, heap),
        None => told.refuse(),
    }
}

fn heap_with_path(alloc: Global) -> Option<Heap> {
    let mut heap = Heap::new(alloc);
    match heap.object(PATH, "src/a.c") {
        Ok(_) => Some(heap),
        Err(_) => None,
    }
}

fn put_over(alloc: Global, told: &mut Told, last: &str, script: &Script, heap: Heap) {
    let mut host = Replying {
        printed: String::new(alloc),
        inner: Vec::new(alloc),
        first: Vec::new(alloc),
        refusals: 0,
    };
    let outcome = run(script, heap, &mut host, Budget::new(TOTAL));
    put_end(told, last, host.printed.as_str(), &outcome);
}

fn put_end(told: &mut Told, last: &str, printed: &str, outcome: &Result<Ran, EvalFault>) {
    match outcome {
        Ok(ran) => put_told(told, last, printed, ran.budget.used()),
        Err(EvalFault::Memory) => told.put("Memory"),
        Err(EvalFault::At { kind, .. }) => put_kind(told, kind),
    }
}

/// What a script has printed, as the end of its case asks.
fn put_told(told: &mut Told, last: &str, printed: &str, units: u64) {
    if last.starts_with("print(") {
        told.put(printed.trim_end());
    } else if !last.starts_with("units") {
        told.put(item_in(printed).unwrap_or(printed));
    } else if printed.is_empty() {
        told.show(units);
    } else {
        told.put(printed);
    }
}

/// The item of a list of one that is shown on a line.
fn item_in(text: &str) -> Option<&str> {
    text.strip_prefix("[")?.strip_suffix("]\n")
}
