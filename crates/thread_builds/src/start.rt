//! What a trial begins with.
use scons_base::{Blob, PathText, Text, Texts};
use std::alloc::Global;
use trial_text::Told;
use world_mem::{ActRow, Contents, Made};

/// The files that stand, and what commands make of them.
#[derive(Drop)]
pub(crate) struct Start {
    pub(crate) alloc: Global,
    pub(crate) files: Vec<(PathText, Blob)>,
    pub(crate) rows: Vec<ActRow>,
}

impl Start {
    pub(crate) fn new(alloc: Global) -> Start {
        Start {
            alloc,
            files: Vec::new(alloc),
            rows: Vec::new(alloc),
        }
    }

    pub(crate) fn file(&mut self, told: &mut Told, path: &str, content: &str) {
        match file_of(self.alloc, path, content) {
            Some(file) => told.keep(&mut self.files, file),
            None => told.refuse(),
        }
    }

    /// A command makes this file.
    pub(crate) fn makes(&mut self, told: &mut Told, line: &str, path: &str, content: &str) {
        let row = ActRow {
            signed: lines_of(self.alloc, told, line),
            given: None,
            made: Made::Files(contents_of(self.alloc, told, path, content)),
        };
        told.keep(&mut self.rows, row);
    }

    /// A command fails where a file holds this.
    pub(crate) fn fails(&mut self, told: &mut Told, line: &str, path: &str, content: &str) {
        let row = ActRow {
            signed: lines_of(self.alloc, told, line),
            given: Some(contents_of(self.alloc, told, path, content)),
            made: Made::Fail(1),
        };
        told.keep(&mut self.rows, row);
    }
}

/// One line as the signed lines of an action.
fn lines_of(alloc: Global, told: &mut Told, line: &str) -> Texts {
    let mut lines = Vec::new(alloc);
    match Text::of(alloc, line) {
        Ok(line) => told.keep(&mut lines, line),
        Err(_) => told.refuse(),
    }
    Texts::new(lines)
}

/// One file as contents.
fn contents_of(alloc: Global, told: &mut Told, path: &str, content: &str) -> Contents {
    let mut pairs = Vec::new(alloc);
    match file_of(alloc, path, content) {
        Some((path, content)) => told.keep(&mut pairs, (path, Some(content))),
        None => told.refuse(),
    }
    Contents::new(pairs)
}

fn file_of(alloc: Global, path: &str, content: &str) -> Option<(PathText, Blob)> {
    let path = PathText::read(alloc, path).ok()?;
    let content = Blob::of(alloc, content.as_bytes()).ok()?;
    Some((path, content))
}
