//! A row of words: whether a rule has changed, is due and is stale by each decider, as the slow functions say.
//!
//! `due FILES RECORDED STAMP OLD NOW`: which targets are files, which have the old record, when the files were changed, and the
//! records; with `always` for `due` the rule is always carried out. A record is `SIGNED:TARGETS:DEPENDENCIES`, with `:1` or
//! `:2` behind it where its digests are by another function, a dependency `NAME.DIGEST.STAMP,`, and `-` is none. By content
//! no stamps are kept.
use crate::plain::empty_rule;
use model_trials::changes::{PlainDependency, PlainRecord, has_changed};
use model_trials::reach::{PlainDecider, PlainRule};
use model_trials::spots::Spot;
use model_trials::stale::{PlainFile, PlainKept, is_due, is_stale};
use scons_base::{Listing, Text};
use std::alloc::Global;
use trial_text::Told;

/// What a row asks about: a rule, its records, and what stands at its targets.
#[derive(Drop)]
struct Due {
    rule: PlainRule,
    /// When the files were changed.
    stamp: Option<u64>,
    old: PlainRecord,
    now: PlainRecord,
    files: Vec<PlainFile>,
    kept: Vec<PlainKept>,
}

/// What holds of a row by each decider, under the names of the SCons User Guide, "Deciding When an Input File Has Changed".
pub fn put_due(alloc: Global, told: &mut Told, line: &str) {
    told.put(" by");
    let mut due = due_of(alloc, told, line, false);
    put_by(told, &mut due, "content", PlainDecider::Content);
    let mut due = due_of(alloc, told, line, true);
    put_by(
        told,
        &mut due,
        "timestamp-newer",
        PlainDecider::TimestampNewer,
    );
    put_by(
        told,
        &mut due,
        "timestamp-match",
        PlainDecider::TimestampMatch,
    );
    put_by(
        told,
        &mut due,
        "content-timestamp",
        PlainDecider::ContentTimestamp,
    );
}

/// Whether the rule has changed, is due and is stale by a decider.
fn put_by(told: &mut Told, due: &mut Due, name: &str, decider: PlainDecider) {
    due.rule.decider = decider;
    let (files, kept) = (due.files.as_slice(), due.kept.as_slice());
    told.put_all(&[" ", name, ": changed "]);
    told.show(has_changed(decider, due.stamp, &due.old, &due.now));
    told.put(", due ");
    told.show(is_due(files, kept, &due.rule, &due.now));
    told.put(", stale ");
    told.show(is_stale(files, kept, &due.rule, &due.now));
    told.put(";");
}

/// What a row asks about, where dependencies have stamps or where they don't.
fn due_of(alloc: Global, told: &mut Told, line: &str, has_stamps: bool) -> Due {
    let (kind, words) = cut(told, line, ' ');
    let (files, words) = cut(told, words, ' ');
    let (recorded, words) = cut(told, words, ' ');
    let (stamp, words) = cut(told, words, ' ');
    let (old, now) = cut(told, words, ' ');
    let stamp = stamp_of(told, stamp);
    let now = record(alloc, told, now, has_stamps);
    Due {
        rule: rule_of(alloc, told, kind, now.targets.as_slice()),
        stamp,
        old: record(alloc, told, old, has_stamps),
        now,
        files: files_at(alloc, told, files, stamp),
        kept: kept_at(alloc, told, recorded, old, has_stamps),
    }
}

/// What stands before a mark, and what stands behind it. A text without it refuses the line.
fn cut<'a>(told: &mut Told, text: &'a str, mark: char) -> (&'a str, &'a str) {
    match text.split_once(mark) {
        Some(parts) => parts,
        None => {
            told.refuse();
            (text, "")
        }
    }
}

/// The stamp that a field is.
fn stamp_of(told: &mut Told, field: &str) -> Option<u64> {
    if field == "-" {
        return None;
    }
    Some(u64::from(told.number(field)))
}

/// The paths of a field, a letter each.
fn spots_of(alloc: Global, told: &mut Told, field: &str) -> Vec<Spot> {
    let mut spots = Vec::new(alloc);
    for letter in field.bytes() {
        if letter != b'-' {
            told.keep(&mut spots, Spot::new(letter));
        }
    }
    spots
}

/// The rule that makes these targets.
fn rule_of(alloc: Global, told: &mut Told, kind: &str, targets: &[Spot]) -> PlainRule {
    let mut rule = empty_rule(alloc, 0);
    match kind {
        "due" => {}
        "always" => rule.always = true,
        _ => told.refuse(),
    }
    for target in targets {
        told.keep(&mut rule.targets, *target);
    }
    rule
}

/// A file of this stamp at each path.
fn files_at(alloc: Global, told: &mut Told, paths: &str, stamp: Option<u64>) -> Vec<PlainFile> {
    let mut files = Vec::new(alloc);
    for path in &spots_of(alloc, told, paths) {
        let file = PlainFile {
            path: *path,
            bytes: Listing::empty(alloc),
            stamp: stamp.unwrap_or(0),
        };
        told.keep(&mut files, file);
    }
    files
}

/// The record of a text at each path.
fn kept_at(
    alloc: Global,
    told: &mut Told,
    paths: &str,
    text: &str,
    has_stamps: bool,
) -> Vec<PlainKept> {
    let mut records = Vec::new(alloc);
    for path in &spots_of(alloc, told, paths) {
        let kept = record(alloc, told, text, has_stamps);
        let path = *path;
        told.keep(&mut records, PlainKept { path, kept });
    }
    records
}

fn record(alloc: Global, told: &mut Told, text: &str, has_stamps: bool) -> PlainRecord {
    let (signed, parts) = cut(told, text, ':');
    let (targets, parts) = cut(told, parts, ':');
    let (dependencies, hash) = parts.split_once(':').unwrap_or((parts, "0"));
    PlainRecord {
        work: 0,
        hash: told.number(hash) as usize,
        signed: signed_of(alloc, told, signed),
        targets: spots_of(alloc, told, targets),
        dependencies: dependencies_of(alloc, told, dependencies, has_stamps),
    }
}

/// The only signed line of a record.
fn signed_of(alloc: Global, told: &mut Told, line: &str) -> Vec<Text> {
    let mut signed = Vec::new(alloc);
    if let Some(line) = text_of(alloc, told, line) {
        told.keep(&mut signed, line);
    }
    signed
}

fn text_of(alloc: Global, told: &mut Told, text: &str) -> Option<Text> {
    match Text::of(alloc, text) {
        Ok(text) => Some(text),
        Err(_) => {
            told.refuse();
            None
        }
    }
}

fn dependencies_of(
    alloc: Global,
    told: &mut Told,
    field: &str,
    has_stamps: bool,
) -> Vec<PlainDependency> {
    let mut dependencies = Vec::new(alloc);
    for text in field.split_terminator(',') {
        let dependency = dependency(alloc, told, text, has_stamps);
        told.keep(&mut dependencies, dependency);
    }
    dependencies
}

fn dependency(alloc: Global, told: &mut Told, text: &str, has_stamps: bool) -> PlainDependency {
    let (name, parts) = cut(told, text, '.');
    let (digest, stamp) = cut(told, parts, '.');
    let stamp = stamp_of(told, stamp);
    PlainDependency {
        name: name_of(told, name),
        digest: digest_of(alloc, told, digest),
        stamp: if has_stamps { stamp } else { None },
    }
}

/// The path that a letter is.
fn name_of(told: &mut Told, field: &str) -> Spot {
    match field.as_bytes() {
        [letter] => Spot::new(*letter),
        _ => {
            told.refuse();
            Spot::new(0)
        }
    }
}

fn digest_of(alloc: Global, told: &mut Told, field: &str) -> Option<Text> {
    if field == "-" {
        return None;
    }
    text_of(alloc, told, field)
}
