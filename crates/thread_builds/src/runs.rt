//! The words of a run, what it prints, and how its report and a file are told.
use scons_base::{Blob, PathText, Text};
use scons_top::Report;
use std::alloc::Global;
use trial_text::Told;
use world_mem::MemSink;

/// Standard output and standard error.
#[derive(Drop)]
pub(crate) struct Sinks {
    pub(crate) out: MemSink,
    pub(crate) err: MemSink,
}

impl Sinks {
    pub(crate) fn new(alloc: Global) -> Option<Sinks> {
        let out = MemSink::new(alloc, Vec::new(alloc)).ok()?;
        let err = MemSink::new(alloc, Vec::new(alloc)).ok()?;
        Some(Sinks { out, err })
    }

    /// Tells what stands on standard output, and behind it what stands on standard error.
    pub(crate) fn put(&self, told: &mut Told) {
        told.put_bytes(self.out.text());
        told.put_bytes(self.err.text());
    }
}

/// The words between blanks.
pub(crate) fn words_of(alloc: Global, told: &mut Told, text: &str) -> Vec<Text> {
    let mut words = Vec::new(alloc);
    for word in text.split_whitespace() {
        match Text::of(alloc, word) {
            Ok(word) => told.keep(&mut words, word),
            Err(_) => told.refuse(),
        }
    }
    words
}

pub(crate) fn put_report(told: &mut Told, report: &Report, jobs: usize) {
    told.put("status ");
    told.show(report.status);
    told.put(", ");
    told.show(jobs);
    told.put(" jobs so far\n");
    for (held, by) in report.skipped.as_slice() {
        told.put_all(&[held.as_str(), " was held back by ", by.as_str(), "\n"]);
    }
}

/// A file's path and what it holds, which stands among these.
pub(crate) fn put_file(told: &mut Told, files: &[(PathText, Blob)], path: &str) {
    for (name, content) in files {
        if name.as_str() == path {
            told.put_all(&[path, ":\n"]);
            return told.put_bytes(content.as_slice());
        }
    }
    told.refuse();
}
