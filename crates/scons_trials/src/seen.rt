//! What a trial's run leaves, as text.
ghost use Rattle.std.specs.Prelude.{◌≡◌, []};
ghost use Rattle.world_mem.specs.AsAround.{around_of};

use crate::trial::{Source, Trial};
use one_rule::{Report, scons};
use scons_base::{Blob, PathText, Text, Texts};
use std::alloc::Global;
use std::str;
use trial_text::Told;
use world_api::World;
use world_mem::{ActRow, ActTable, Made, MemSink, MemWorld};

/// The most bytes of a target that are written.
const TARGET_LIMIT: u64 = 1000;

/// Runs a trial, and tells its status, what it printed, and its target.
pub fn put_run(alloc: Global, told: &mut Told, trial: &Trial) {
    let mut files = Vec::new(alloc);
    add_files(alloc, told, trial, &mut files);
    let mut rows = Vec::new(alloc);
    if let Some(status) = trial.action {
        add_failing(alloc, told, &mut rows, status);
    }
    put_over(alloc, told, trial, files, ActTable::new(rows));
}

/// The script, the source, and an old target.
fn add_files(alloc: Global, told: &mut Told, trial: &Trial, files: &mut Vec<(PathText, Blob)>) {
    if let Some(script) = trial.script {
        add_script(alloc, told, files, script);
    }
    match trial.source {
        Source::Usual => add_bytes(alloc, told, files, "s", b"abc".as_slice()),
        Source::Large(size) => add_large(alloc, told, files, size),
        Source::Absent => {}
    }
    add_bytes(alloc, told, files, "o", b"old".as_slice());
}

fn add_script(alloc: Global, told: &mut Told, files: &mut Vec<(PathText, Blob)>, text: &str) {
    match text.replace(alloc, "\\n", "\n") {
        Ok(text) => add_bytes(alloc, told, files, "SConstruct", text.as_bytes()),
        Err(_) => told.refuse(),
    }
}

fn add_bytes(
    alloc: Global,
    told: &mut Told,
    files: &mut Vec<(PathText, Blob)>,
    path: &str,
    bytes: &[u8],
) {
    match Blob::of(alloc, bytes) {
        Ok(bytes) => add_file(alloc, told, files, path, bytes),
        Err(_) => told.refuse(),
    }
}

/// A source of so many bytes.
fn add_large(alloc: Global, told: &mut Told, files: &mut Vec<(PathText, Blob)>, size: u32) {
    match Vec::from_elem(alloc, b'a', size as usize) {
        Ok(bytes) => add_file(alloc, told, files, "s", Blob::new(bytes)),
        Err(_) => told.refuse(),
    }
}

fn add_file(
    alloc: Global,
    told: &mut Told,
    files: &mut Vec<(PathText, Blob)>,
    path: &str,
    bytes: Blob,
) {
    match PathText::read(alloc, path) {
        Ok(path) => told.keep(files, (path, bytes)),
        Err(_) => told.refuse(),
    }
}

/// The action, where it fails.
fn add_failing(alloc: Global, told: &mut Told, rows: &mut Vec<ActRow>, status: i32) {
    let mut lines = Vec::new(alloc);
    match Text::of(alloc, "mk") {
        Ok(line) => told.keep(&mut lines, line),
        Err(_) => told.refuse(),
    }
    told.keep(
        rows,
        ActRow {
            signed: Texts::new(lines),
            given: None,
            made: Made::Fail(status),
        },
    );
}

fn put_over(
    alloc: Global,
    told: &mut Told,
    trial: &Trial,
    files: Vec<(PathText, Blob)>,
    table: ActTable,
) {
    let Ok(calls) = Vec::from_slice(alloc, trial.calls.as_slice()) else {
        return told.refuse();
    };
    match MemWorld::new(alloc, files, table, Vec::new(alloc), calls) {
        Ok(mut world) => put_in(alloc, told, trial, &mut world),
        Err(_) => told.refuse(),
    }
}

fn put_in(alloc: Global, told: &mut Told, trial: &Trial, world: &mut MemWorld)
    requires { (around_of world.old.state).running ≡ [] }
{
    match (sink_of(alloc, &trial.out), sink_of(alloc, &trial.err)) {
        (Some(mut out), Some(mut err)) => {
            let report = scons(alloc, trial.words.as_slice(), world, &mut out, &mut err);
            put_report(told, &report);
            told.put_bytes(out.text());
            put_errors(told, err.text());
        }
        _ => told.refuse(),
    }
    put_target(alloc, told, world);
}

/// A sink whose writes of these numbers fail.
fn sink_of(alloc: Global, failing: &Vec<u32>) -> Option<MemSink> {
    MemSink::new(alloc, Vec::from_slice(alloc, failing.as_slice()).ok()?).ok()
}

fn put_report(told: &mut Told, report: &Report) {
    told.put("status ");
    told.show(report.status);
    told.put(", ");
    told.show(report.faults.as_slice().len());
    told.put(" faults\n");
}

/// Each line of standard error, marked.
fn put_errors(told: &mut Told, bytes: &[u8]) {
    match str::from_utf8(bytes) {
        Ok(text) => put_marked(told, text),
        Err(_) => told.refuse(),
    }
}

fn put_marked(told: &mut Told, text: &str) {
    for line in text.lines() {
        told.put_all(&["! ", line, "\n"]);
    }
}

fn put_target(alloc: Global, told: &mut Told, world: &mut MemWorld) {
    let Ok(path) = PathText::read(alloc, "o") else {
        return told.refuse();
    };
    match world.read_file(&path, TARGET_LIMIT) {
        Ok(Some(bytes)) => put_content(told, bytes.as_slice()),
        Ok(None) => told.put("o is no file\n"),
        Err(_) => told.put("o cannot be read\n"),
    }
}

fn put_content(told: &mut Told, bytes: &[u8]) {
    told.put("o: ");
    told.put_bytes(bytes);
    if !bytes.ends_with(b"\n".as_slice()) {
        told.put("\n");
    }
}
