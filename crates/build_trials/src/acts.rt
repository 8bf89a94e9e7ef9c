//! What commands make, and which job ends first: what holds for a whole trial.
use crate::idle::IdleWorld;
use crate::steps::{STEP, Step, keep_text, word_of};
use scons_base::{Blob, PathText, Texts};
use std::alloc::Global;
use trial_text::Told;
use world_api::Content;
use world_mem::{ActRow, ActTable, Contents, Made};

/// A world without files, in which commands make and jobs end what and as the steps of a trial say.
pub(crate) fn world_of(alloc: Global, told: &mut Told, steps: &str) -> Option<IdleWorld> {
    let mut rows = Vec::new(alloc);
    let mut orders = Vec::new(alloc);
    for text in steps.split(STEP) {
        let step = Step::of(text);
        match step.word {
            "act" => put_act(alloc, told, &mut rows, step),
            "fail" => put_fail(alloc, told, &mut rows, step),
            "orders" => put_orders(told, &mut orders, step.rest),
            _ => {}
        }
        told.end(step.line);
    }
    let table = ActTable::new(rows);
    IdleWorld::new(alloc, Vec::new(alloc), table, orders, Vec::new(alloc))
}

/// What a command makes.
fn put_act(alloc: Global, told: &mut Told, rows: &mut Vec<ActRow>, step: Step) {
    let made = Made::Files(contents_of(alloc, told, step));
    put_row(alloc, told, rows, step.rest, None, made);
}

/// That a command ends with a code where its sources hold this.
fn put_fail(alloc: Global, told: &mut Told, rows: &mut Vec<ActRow>, step: Step) {
    let (code, line) = word_of(step.rest);
    match code.parse::<i32>() {
        Ok(code) => {
            let given = Some(contents_of(alloc, told, step));
            put_row(alloc, told, rows, line, given, Made::Fail(code));
        }
        Err(_) => told.refuse(),
    }
}

fn put_row(
    alloc: Global,
    told: &mut Told,
    rows: &mut Vec<ActRow>,
    line: &str,
    given: Option<Contents>,
    made: Made,
) {
    let mut lines = Vec::new(alloc);
    keep_text(alloc, told, &mut lines, line);
    let signed = Texts::new(lines);
    let row = ActRow {
        signed,
        given,
        made,
    };
    told.keep(rows, row);
}

/// The lines below a step as paths, each with what stands behind it.
fn contents_of(alloc: Global, told: &mut Told, step: Step) -> Contents {
    let mut contents = Vec::new(alloc);
    for line in step.below.unwrap_or("").lines() {
        match content_of(alloc, line) {
            Some(content) => told.keep(&mut contents, content),
            None => told.refuse(),
        }
    }
    Contents::new(contents)
}

fn content_of(alloc: Global, line: &str) -> Option<(PathText, Content)> {
    let (path, text) = word_of(line);
    let path = PathText::read(alloc, path).ok()?;
    let bytes = Blob::of(alloc, text.as_bytes()).ok()?;
    Some((path, Some(bytes)))
}

/// Which of the running jobs ends at each wait.
fn put_orders(told: &mut Told, orders: &mut Vec<u32>, text: &str) {
    for order in text.split_whitespace() {
        let order = told.number(order);
        told.keep(orders, order);
    }
}
