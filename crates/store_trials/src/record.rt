//! Records as rows write them.
use crate::fields::{keep_path, long_number};
use deciders::{Dep, Rec, digest_of};
use scons_base::{Listing, PathText, Paths, Text, Texts};
use std::alloc::Global;
use trial_text::Told;
use world_api::{Decider, Hash, Work};

/// The record that a text writes. Where a part of it can't be read the line is refused, and the record lacks it.
pub(crate) fn record_of(alloc: Global, told: &mut Told, text: &str) -> Rec {
    let (head, rest) = text.split_once(';').unwrap_or((text, ""));
    let (signed, deps) = rest.split_once(';').unwrap_or((rest, ""));
    let (work, targets) = head.split_once(' ').unwrap_or((head, ""));
    let (work, hash) = work.split_once(':').unwrap_or((work, "md5"));
    let hash = hash_of(told, hash);
    Rec {
        work: work_of(told, work),
        hash,
        targets: Paths::new(targets_of(alloc, told, targets)),
        signed: Texts::new(lines_of(alloc, told, signed.trim())),
        deps: Listing::new(deps_of(alloc, told, hash, deps)),
    }
}

fn work_of(told: &mut Told, word: &str) -> Work {
    match word {
        "Shell" => Work::Shell,
        "Copy" => Work::Copy,
        "Write" => Work::Write,
        _ => {
            told.refuse();
            Work::Shell
        }
    }
}

fn hash_of(told: &mut Told, word: &str) -> Hash {
    match word {
        "md5" => Hash::Md5,
        "sha1" => Hash::Sha1,
        "sha256" => Hash::Sha256,
        _ => {
            told.refuse();
            Hash::Md5
        }
    }
}

pub(crate) fn decider_of(word: &str) -> Option<Decider> {
    match word {
        "content" => Some(Decider::Content),
        "timestamp-newer" => Some(Decider::Newer),
        "timestamp-match" => Some(Decider::Match),
        "content-timestamp" => Some(Decider::ContentMatch),
        _ => None,
    }
}

fn targets_of(alloc: Global, told: &mut Told, text: &str) -> Vec<PathText> {
    let mut targets = Vec::new(alloc);
    for word in text.split_whitespace() {
        keep_path(alloc, told, &mut targets, word);
    }
    targets
}

fn lines_of(alloc: Global, told: &mut Told, text: &str) -> Vec<Text> {
    let mut lines = Vec::new(alloc);
    for line in text.split_terminator('|') {
        keep_line(alloc, told, &mut lines, line);
    }
    lines
}

fn keep_line(alloc: Global, told: &mut Told, lines: &mut Vec<Text>, line: &str) {
    match Text::of(alloc, line) {
        Ok(line) => told.keep(lines, line),
        Err(_) => told.refuse(),
    }
}

fn deps_of(alloc: Global, told: &mut Told, hash: Hash, text: &str) -> Vec<Dep> {
    let mut deps = Vec::new(alloc);
    for word in text.split_whitespace() {
        keep_dep(alloc, told, hash, &mut deps, word);
    }
    deps
}

fn keep_dep(alloc: Global, told: &mut Told, hash: Hash, deps: &mut Vec<Dep>, word: &str) {
    let (file, stamp) = match word.split_once('@') {
        Some((file, stamp)) => (file, Some(long_number(told, stamp))),
        None => (word, None),
    };
    let (name, digest) = match file.split_once('=') {
        Some((name, content)) => (name, Some(digest_of(hash, content.as_bytes()))),
        None => (file, None),
    };
    match PathText::read(alloc, name) {
        Ok(name) => told.keep(
            deps,
            Dep {
                name,
                digest,
                stamp,
            },
        ),
        Err(_) => told.refuse(),
    }
}
