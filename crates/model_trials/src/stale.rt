//! When a rule has to be carried out, slowly: by the definitions of `build_model`, over plain lists of files and of records.
ghost use Rattle.std.specs.Prelude.{◌≡◌, ◌↔◌, is_some, Any, IsTrue};
ghost use Rattle.std.specs.Option.{option_map, option_copied};
ghost use Rattle.build_model.specs.Stale.{IsDue, IsStale, first_stamp};
ghost use Rattle.model_trials.specs.Plain.{as_rule, decider_of};
ghost use Rattle.model_trials.specs.Staling.{as_record, file_at, tree_of, stamps_of, records_of, IsDueAt};

use crate::changes::{PlainRecord, has_changed};
use crate::reach::{PlainDecider, PlainRule};
use crate::spots::Spot;
use scons_base::Listing;

/// A file: what it holds, and when it was changed.
#[derive(Drop)]
pub struct PlainFile {
    pub path: Spot,
    pub bytes: Listing<u8>,
    pub stamp: u64,
}

/// A record that is kept at a path.
#[derive(Drop)]
pub struct PlainKept {
    pub path: Spot,
    pub kept: PlainRecord,
}

/// The file at a path.
pub fn file_at<'a>(files: &'a [PlainFile], path: &Spot) -> Option<&'a PlainFile>
    ensures { option_copied result ≡ file_at files.now path.now }
{
    for file in files {
        if file.path.is(path) {
            return Some(file);
        }
    }
    None
}

/// Whether a file stands at a path.
fn is_file(files: &[PlainFile], path: &Spot) -> bool
    ensures { result ≡ is_some (tree_of files.now path.now) }
{
    match file_at(files, path) {
        Some(_) => true,
        None => false,
    }
}

/// When the file at a path was changed.
fn stamp_at(files: &[PlainFile], path: &Spot) -> Option<u64>
    ensures { result ≡ stamps_of files.now path.now }
{
    match file_at(files, path) {
        Some(file) => Some(file.stamp),
        None => None,
    }
}

/// When the first target was changed.
fn first_stamp(files: &[PlainFile], targets: &[Spot]) -> Option<u64>
    ensures { result ≡ first_stamp (stamps_of files.now) targets.now }
{
    match targets {
        [first, ..] => stamp_at(files, first),
        [] => None,
    }
}

/// The record that is kept at a path.
pub fn record_at<'a>(records: &'a [PlainKept], path: &Spot) -> Option<&'a PlainRecord>
    ensures { option_map as_record (option_copied result) ≡ records_of records.now path.now }
{
    for place in records {
        if place.path.is(path) {
            return Some(&place.kept);
        }
    }
    None
}

/// Whether a target says that its rule is due.
fn is_due_at(
    decider: PlainDecider,
    target: Option<u64>,
    files: &[PlainFile],
    records: &[PlainKept],
    path: &Spot,
    now: &PlainRecord,
) -> bool
    ensures { IsTrue result ↔
        IsDueAt (decider_of decider) target (tree_of files.now) (records_of records.now) (as_record now.now) path.now }
{
    if !is_file(files, path) {
        return true;
    }
    match record_at(records, path) {
        Some(old) => has_changed(decider, target, old, now),
        None => true,
    }
}

fn any_due(
    decider: PlainDecider,
    target: Option<u64>,
    files: &[PlainFile],
    records: &[PlainKept],
    targets: &[Spot],
    now: &PlainRecord,
) -> bool
    ensures { IsTrue result ↔
        Any (IsDueAt (decider_of decider) target (tree_of files.now) (records_of records.now) (as_record now.now)) targets.now }
{
    targets.iter().any(|path| is_due_at(decider, target, files, records, path, now))
}

/// Whether a rule is due by its decider, where its record of now is this one.
pub fn is_due(
    files: &[PlainFile],
    records: &[PlainKept],
    rule: &PlainRule,
    now: &PlainRecord,
) -> bool
    ensures { IsTrue result ↔
        IsDue (tree_of files.now) (stamps_of files.now) (records_of records.now) (as_rule rule.now) (as_record now.now) }
{
    if rule.always {
        return true;
    }
    let targets = rule.targets.as_slice();
    any_due(
        rule.decider,
        first_stamp(files, targets),
        files,
        records,
        targets,
        now,
    )
}

/// Whether a rule is stale: due by content.
pub fn is_stale(
    files: &[PlainFile],
    records: &[PlainKept],
    rule: &PlainRule,
    now: &PlainRecord,
) -> bool
    ensures { IsTrue result ↔
        IsStale (tree_of files.now) (records_of records.now) (as_rule rule.now) (as_record now.now) }
{
    if rule.always {
        return true;
    }
    any_due(
        PlainDecider::Content,
        None,
        files,
        records,
        rule.targets.as_slice(),
        now,
    )
}
