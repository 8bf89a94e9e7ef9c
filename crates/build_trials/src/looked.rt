//! What stands in the world of a small graph, as the plain lists that the slow functions go over.
use crate::graph_texts::included_in;
use crate::idle::IdleWorld;
use crate::small::{Small, name_of, source, target};
use md5::{Digest, Md5};
use model_trials::reach::{PlainRule, Scan};
use model_trials::spots::Spot;
use model_trials::stale::PlainFile;
use scons_base::{Blob, Listing, PathText};
use std::alloc::Global;
use trial_text::Told;

/// The files of a world.
pub(crate) fn files_of(told: &mut Told, world: &IdleWorld) -> Vec<(PathText, Blob)> {
    match world.inner.files() {
        Ok(files) => files.into_vec(),
        Err(_) => {
            told.refuse();
            Vec::new(world.alloc)
        }
    }
}

/// What a file holds.
pub(crate) fn content_at<'a>(files: &'a [(PathText, Blob)], name: &str) -> Option<&'a [u8]> {
    for (path, bytes) in files {
        if path.as_str() == name {
            return Some(bytes.as_slice());
        }
    }
    None
}

/// The targets of a graph that stand there.
pub(crate) fn targets_in(
    alloc: Global,
    told: &mut Told,
    graph: &Small,
    files: &[(PathText, Blob)],
) -> Vec<PlainFile> {
    let mut found = Vec::new(alloc);
    for number in 0..graph.shape.rules {
        put_file(alloc, told, graph, files, target(number), &mut found);
        put_file(alloc, told, graph, files, source(number), &mut found);
    }
    found
}

fn put_file(
    alloc: Global,
    told: &mut Told,
    graph: &Small,
    files: &[(PathText, Blob)],
    path: Spot,
    found: &mut Vec<PlainFile>,
) {
    if content_at(files, name_of(graph.shape.copied, &path)).is_some() {
        let bytes = Listing::empty(alloc);
        let file = PlainFile {
            path,
            bytes,
            stamp: 0,
        };
        told.keep(found, file);
    }
}

/// The rules of a graph, and the copy rules behind them, by what its files include.
pub(crate) fn rules_of(
    alloc: Global,
    told: &mut Told,
    graph: &Small,
    files: &[(PathText, Blob)],
) -> Vec<PlainRule> {
    let mut rules = Vec::new(alloc);
    for number in 0..graph.shape.rules {
        let mut rule = graph.plain_rule(alloc, told, number);
        rule.scans = scans_of(alloc, told, graph, files);
        told.keep(&mut rules, rule);
    }
    if graph.shape.copied {
        put_copies(alloc, told, graph, &mut rules);
    }
    rules
}

fn put_copies(alloc: Global, told: &mut Told, graph: &Small, rules: &mut Vec<PlainRule>) {
    for number in 0..graph.shape.rules {
        let rule = graph.copy_rule(alloc, told, number);
        told.keep(rules, rule);
    }
}

/// What each file of a graph includes.
fn scans_of(
    alloc: Global,
    told: &mut Told,
    graph: &Small,
    files: &[(PathText, Blob)],
) -> Vec<Scan> {
    let mut scans = Vec::new(alloc);
    for number in 0..graph.shape.rules {
        put_scan(alloc, told, graph, files, target(number), &mut scans);
        put_scan(alloc, told, graph, files, source(number), &mut scans);
    }
    scans
}

fn put_scan(
    alloc: Global,
    told: &mut Told,
    graph: &Small,
    files: &[(PathText, Blob)],
    file: Spot,
    scans: &mut Vec<Scan>,
) {
    if let Some(content) = content_at(files, name_of(graph.shape.copied, &file)) {
        let includes = included_in(alloc, told, content);
        told.keep(scans, Scan { file, includes });
    }
}

/// The digest of what stands at a path, hexadecimal; a line of its own where nothing stands.
pub(crate) fn digest_at(
    alloc: Global,
    told: &mut Told,
    files: &[(PathText, Blob)],
    name: &str,
) -> String {
    let Some(content) = content_at(files, name) else {
        return text_of(alloc, told, "absent");
    };
    match hex::encode(alloc, Md5::digest(content)) {
        Ok(digest) => digest,
        Err(_) => text_of(alloc, told, ""),
    }
}

fn text_of(alloc: Global, told: &mut Told, text: &str) -> String {
    match String::from_str(alloc, text) {
        Ok(text) => text,
        Err(_) => {
            told.refuse();
            String::new(alloc)
        }
    }
}
