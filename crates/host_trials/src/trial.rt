//! Scripts to try, and what comes of their reading.
use crate::graph_text::put_graph;
use rule_graph::Graph;
use scons_base::{Blob, PathText, Text};
use scons_host::{HostEnd, ReadKind};
use scons_reading::read_scripts;
use scons_words::{Words, WordsFault, read_words};
use std::alloc::Global;
use trial_text::Told;
use world_mem::{ActTable, MemSink, MemWorld};

/// What comes of the words of a heading and of the files behind it.
pub(crate) fn put_trial(alloc: Global, told: &mut Told, heading: &str, files: &str) {
    let words = words_of(alloc, told, heading);
    match read_words(alloc, words.as_slice()) {
        Ok(words) => put_reading(alloc, told, &words, files),
        Err(WordsFault::At(place, kind)) => {
            told.put("word ");
            told.show(place);
            told.put_all(&[": ", kind.name(), "\n"]);
        }
        Err(WordsFault::Memory) => told.refuse(),
    }
}

/// The words behind the name of a heading.
fn words_of(alloc: Global, told: &mut Told, heading: &str) -> Vec<Text> {
    let mut words = Vec::new(alloc);
    for word in heading.split_whitespace().skip(1) {
        match Text::of(alloc, word) {
            Ok(word) => told.keep(&mut words, word),
            Err(_) => told.refuse(),
        }
    }
    words
}

/// What the scripts among these files print, and the graph or the fault.
fn put_reading(alloc: Global, told: &mut Told, words: &Words, files: &str) {
    match world_of(alloc, told, files) {
        Some(mut world) => put_read(alloc, told, words, &mut world),
        None => told.refuse(),
    }
}

/// The tree of the files, if it can be one.
fn world_of(alloc: Global, told: &mut Told, files: &str) -> Option<MemWorld> {
    let files = files_of(alloc, told, files);
    let table = ActTable::new(Vec::new(alloc));
    MemWorld::new(alloc, files, table, Vec::new(alloc), Vec::new(alloc)).ok()
}

fn files_of(alloc: Global, told: &mut Told, text: &str) -> Vec<(PathText, Blob)> {
    let mut files = Vec::new(alloc);
    for (place, part) in text.split("--- ").enumerate() {
        let (path, content) = named(place, part);
        match file_of(alloc, path, content) {
            Some(file) => told.keep(&mut files, file),
            None => told.refuse(),
        }
    }
    files
}

/// The path of a file and its content. The first one has no line for its path.
fn named(place: usize, part: &str) -> (&str, &str) {
    if place == 0 {
        ("SConstruct", part)
    } else {
        part.split_once('\n').unwrap_or((part, ""))
    }
}

fn file_of(alloc: Global, path: &str, content: &str) -> Option<(PathText, Blob)> {
    let path = PathText::read(alloc, path).ok()?;
    let content = Blob::of(alloc, content.as_bytes()).ok()?;
    Some((path, content))
}

fn put_read(alloc: Global, told: &mut Told, words: &Words, world: &mut MemWorld) {
    match MemSink::new(alloc, Vec::new(alloc)) {
        Ok(mut sink) => put_printed(alloc, told, words, world, &mut sink),
        Err(_) => told.refuse(),
    }
}

fn put_printed(
    alloc: Global,
    told: &mut Told,
    words: &Words,
    world: &mut MemWorld,
    sink: &mut MemSink,
) {
    let outcome = read_scripts(alloc, world, sink, words);
    told.put_bytes(sink.text());
    put_outcome(alloc, told, words, &outcome);
}

/// The graph, or why there is none.
fn put_outcome(alloc: Global, told: &mut Told, words: &Words, outcome: &Result<Graph, HostEnd>) {
    match outcome {
        Ok(graph) => put_graph(told, graph, words.requested.as_slice()),
        Err(HostEnd::Reading(path, line, kind)) => {
            told.put_all(&[path.as_str(), ", line "]);
            told.show(*line);
            put_kind(alloc, told, kind);
        }
        Err(HostEnd::Tree(path)) => told.put_all(&["TreeFault ", path.as_str(), "\n"]),
        Err(HostEnd::Out) => told.put("OutFault\n"),
        Err(HostEnd::TooLarge(path, size)) => {
            told.put_all(&["TooLarge ", path.as_str(), " "]);
            told.show(*size);
            told.put("\n");
        }
        Err(HostEnd::TooMany(what, count)) => told.show(format_args!("TooMany {what:?} {count}\n")),
        Err(HostEnd::Memory) => told.refuse(),
    }
}

fn put_kind(alloc: Global, told: &mut Told, kind: &ReadKind) {
    match kind.text(alloc) {
        Ok(text) => told.put_all(&[": ", text.as_str(), "\n"]),
        Err(_) => told.refuse(),
    }
}
