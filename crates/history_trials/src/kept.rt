//! Records as plain lists: those that stand in a world, and those that a rule gets.
use crate::names::{NAMES, spot_of};
use deciders::Rec;
use md5::{Digest, Md5};
use model_trials::changes::{PlainDependency, PlainRecord, has_changed};
use model_trials::reach::{PlainDecider, PlainRule};
use model_trials::spots::Spot;
use model_trials::stale::{PlainFile, PlainKept, file_at, record_at};
use scons_base::{PathText, Paths, Text, Texts};
use sign_store::{Store, View};
use std::alloc::Global;
use trial_text::Told;
use world_api::{Hash, Work};
use world_mem::MemWorld;

/// The number of copying among the ways in which a file is made.
pub(crate) const COPY: usize = 1;

/// The records that stand in a world, by its banks.
pub(crate) fn kept_in(alloc: Global, told: &mut Told, world: &mut MemWorld) -> Vec<PlainKept> {
    match Store::read(alloc, world) {
        Ok(view) => kept_by(alloc, told, &view),
        Err(_) => {
            told.refuse();
            Vec::new(alloc)
        }
    }
}

fn kept_by(alloc: Global, told: &mut Told, view: &View) -> Vec<PlainKept> {
    let mut kept = Vec::new(alloc);
    for (letter, name) in NAMES {
        match PathText::read(alloc, name) {
            Ok(path) => {
                if let Some(rec) = view.get(&path) {
                    let record = plain_record(alloc, told, rec);
                    keep(told, &mut kept, Spot::new(letter), record);
                }
            }
            Err(_) => told.refuse(),
        }
    }
    kept
}

/// Keeps a record behind others.
pub(crate) fn keep(told: &mut Told, kept: &mut Vec<PlainKept>, path: Spot, record: PlainRecord) {
    told.keep(kept, PlainKept { path, kept: record });
}

fn plain_record(alloc: Global, told: &mut Told, rec: &Rec) -> PlainRecord {
    let mut dependencies = Vec::new(alloc);
    for dep in rec.deps.as_slice() {
        let digest = match &dep.digest {
            Some(digest) => Some(hexadecimal(alloc, told, digest.as_bytes())),
            None => None,
        };
        let dependency = PlainDependency {
            name: spot_or_none(dep.name.as_str()),
            digest,
            stamp: dep.stamp,
        };
        told.keep(&mut dependencies, dependency);
    }
    PlainRecord {
        work: work_number(rec.work),
        hash: hash_number(rec.hash),
        signed: copied(alloc, told, rec.signed.as_slice()),
        targets: spots_of(alloc, told, &rec.targets),
        dependencies,
    }
}

fn work_number(work: Work) -> usize {
    match work {
        Work::Shell => 0,
        Work::Copy => COPY,
        Work::Write => 2,
    }
}

fn hash_number(hash: Hash) -> usize {
    match hash {
        Hash::Md5 => 0,
        Hash::Sha1 => 1,
        Hash::Sha256 => 2,
    }
}

/// The path of a name, or one that no project has.
fn spot_or_none(name: &str) -> Spot {
    match spot_of(name) {
        Some(spot) => spot,
        None => Spot::new(0),
    }
}

fn spots_of(alloc: Global, told: &mut Told, paths: &Paths) -> Vec<Spot> {
    let mut spots = Vec::new(alloc);
    for path in paths.as_slice() {
        told.keep(&mut spots, spot_or_none(path.as_str()));
    }
    spots
}

pub(crate) fn copied(alloc: Global, told: &mut Told, texts: &[Text]) -> Vec<Text> {
    let mut copies = Vec::new(alloc);
    for text in texts {
        match Text::of(alloc, text.as_str()) {
            Ok(copy) => told.keep(&mut copies, copy),
            Err(_) => told.refuse(),
        }
    }
    copies
}

/// The record that a rule gets over these dependencies.
pub(crate) fn record_of(
    alloc: Global,
    told: &mut Told,
    rule: &PlainRule,
    lines: &[Text],
    given: &[(Spot, Option<Text>)],
) -> PlainRecord {
    let mut dependencies = Vec::new(alloc);
    for (name, digest) in given {
        let dependency = PlainDependency {
            name: *name,
            digest: copy_of(alloc, told, digest),
            stamp: None,
        };
        told.keep(&mut dependencies, dependency);
    }
    PlainRecord {
        work: if rule.keeps_sources { COPY } else { 0 },
        hash: 0,
        signed: copied(alloc, told, lines),
        targets: same_spots(alloc, told, rule.targets.as_slice()),
        dependencies,
    }
}

fn copy_of(alloc: Global, told: &mut Told, text: &Option<Text>) -> Option<Text> {
    let text = text.as_ref()?;
    match Text::of(alloc, text.as_str()) {
        Ok(copy) => Some(copy),
        Err(_) => {
            told.refuse();
            None
        }
    }
}

/// The digest of what stands at a path, hexadecimal.
pub(crate) fn digest_at(
    alloc: Global,
    told: &mut Told,
    files: &[PlainFile],
    path: &Spot,
) -> Option<Text> {
    let file = file_at(files, path)?;
    let digest = Md5::digest(file.bytes.as_slice());
    Some(hexadecimal(alloc, told, digest.as_slice()))
}

fn hexadecimal(alloc: Global, told: &mut Told, bytes: &[u8]) -> Text {
    let mut digits = Told::new(alloc);
    for byte in bytes {
        digits.show(format_args!("{byte:02x}"));
    }
    match Text::of(alloc, digits.as_str()) {
        Ok(text) => text,
        Err(_) => {
            told.refuse();
            Text::new(String::new(alloc))
        }
    }
}

/// Copies of records.
pub(crate) fn kept_of(alloc: Global, told: &mut Told, kept: &[PlainKept]) -> Vec<PlainKept> {
    let mut copies = Vec::new(alloc);
    for place in kept {
        let record = record_copy(alloc, told, &place.kept);
        keep(told, &mut copies, place.path, record);
    }
    copies
}

fn record_copy(alloc: Global, told: &mut Told, record: &PlainRecord) -> PlainRecord {
    let mut dependencies = Vec::new(alloc);
    for dependency in &record.dependencies {
        let copy = PlainDependency {
            name: dependency.name,
            digest: copy_of(alloc, told, &dependency.digest),
            stamp: dependency.stamp,
        };
        told.keep(&mut dependencies, copy);
    }
    PlainRecord {
        work: record.work,
        hash: record.hash,
        signed: copied(alloc, told, record.signed.as_slice()),
        targets: same_spots(alloc, told, record.targets.as_slice()),
        dependencies,
    }
}

fn same_spots(alloc: Global, told: &mut Told, spots: &[Spot]) -> Vec<Spot> {
    let mut copies = Vec::new(alloc);
    for spot in spots {
        told.keep(&mut copies, *spot);
    }
    copies
}

/// Whether the same record is kept at a path in two lists, or none in both.
pub(crate) fn is_kept_alike(a: &[PlainKept], b: &[PlainKept], path: &Spot) -> bool {
    match (record_at(a, path), record_at(b, path)) {
        (Some(a), Some(b)) => !has_changed(PlainDecider::Content, None, a, b),
        (None, None) => true,
        _ => false,
    }
}
