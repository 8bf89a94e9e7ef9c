//! What a rule depends on, slowly: each function is a definition of `build_model`, over plain lists.
ghost use Rattle.std.specs.Prelude.{◌≡◌, ◌<◌, IfOk, OnOk, vec_len};
ghost use Rattle.build_model.specs.Reach.{breadth_first as breadth_first_of, kept_sources as kept_of, declared as declared_of, left_out as left_out_of, first_scanned as first_scanned_of, scan_list as scan_list_of, reach as reach_of};
ghost use Rattle.model_trials.specs.Plain.{as_rule, included as included_of, IsTaken};

use crate::spots::{Spot, joined, those, unseen};
use scons_base::Memory;
use std::alloc::Global;

/// By what a dependency counts as changed.
#[derive(Clone, Copy)]
pub enum PlainDecider {
    Content,
    TimestampNewer,
    TimestampMatch,
    ContentTimestamp,
}

/// A rule, as plain lists of paths.
#[derive(Drop)]
pub struct PlainRule {
    pub number: usize,
    pub keeps_sources: bool,
    pub targets: Vec<Spot>,
    pub sources: Vec<Spot>,
    pub scanned: Vec<Spot>,
    pub depends: Vec<Spot>,
    pub libraries: Vec<Spot>,
    pub ignored: Vec<Spot>,
    pub required: Vec<Spot>,
    pub always: bool,
    pub decider: PlainDecider,
    /// The files that were scanned for it.
    pub scans: Vec<Scan>,
}

/// A file that was scanned, and what it includes.
#[derive(Drop)]
pub struct Scan {
    pub file: Spot,
    pub includes: Vec<Spot>,
}

/// What a file includes, as far as files were scanned.
fn included<'a>(scans: &'a [Scan], file: &Spot) -> &'a [Spot]
    ensures { result.now ≡ included_of scans.now file.now }
{
    for scan in scans {
        if scan.file.is(file) {
            return scan.includes.as_slice();
        }
    }
    &[]
}

/// Takes the first path that waits, and lets wait what it includes that wasn't seen.
fn take_first(
    alloc: Global,
    scans: &[Scan],
    seen: &mut Vec<Spot>,
    waiting: &mut Vec<Spot>,
    found: &mut Vec<Spot>,
) -> Result<(), Memory>
    requires { 0 < vec_len waiting.old }
    ensures { OnOk result (IsTaken (included_of scans.now) seen.old.items waiting.old.items found.old.items
        seen.new.items waiting.new.items found.new.items) }
{
    let path = waiting.remove(0);
    found.push(path)?;
    let new = unseen(alloc, seen.as_slice(), included(scans, &path))?;
    waiting.extend_from_slice(new.as_slice())?;
    *seen = joined(alloc, new.as_slice(), seen.as_slice())?;
    Ok(())
}

/// At most so many paths, breadth first.
fn breadth_first(
    alloc: Global,
    scans: &[Scan],
    room: usize,
    mut seen: Vec<Spot>,
    mut waiting: Vec<Spot>,
) -> Result<Vec<Spot>, Memory>
    ensures { IfOk result (λ found. found.items ≡ breadth_first_of (included_of scans.now) room seen.items waiting.items) }
{
    let mut found = Vec::new(alloc);
    for _taken in 0..room {
        if waiting.is_empty() {
            break;
        }
        take_first(alloc, scans, &mut seen, &mut waiting, &mut found)?;
    }
    Ok(found)
}

/// A rule's sources less what it ignores; one that copies or writes keeps them all.
fn kept_sources(alloc: Global, rule: &PlainRule) -> Result<Vec<Spot>, Memory>
    ensures { IfOk result (λ kept. kept.items ≡ kept_of (as_rule rule.now)) }
{
    let ignored = if rule.keeps_sources {
        &[]
    } else {
        rule.ignored.as_slice()
    };
    unseen(alloc, ignored, rule.sources.as_slice())
}

/// What the graph alone says that a rule depends on.
fn declared(alloc: Global, rule: &PlainRule) -> Result<Vec<Spot>, Memory>
    ensures { IfOk result (λ all. all.items ≡ declared_of (as_rule rule.now)) }
{
    let kept = kept_sources(alloc, rule)?;
    let seen = joined(alloc, kept.as_slice(), rule.ignored.as_slice())?;
    let further = joined(alloc, rule.depends.as_slice(), rule.libraries.as_slice())?;
    let further = unseen(alloc, seen.as_slice(), further.as_slice())?;
    joined(alloc, kept.as_slice(), further.as_slice())
}

/// What is never found: a rule's own targets, and what it ignores.
fn left_out(alloc: Global, rule: &PlainRule) -> Result<Vec<Spot>, Memory>
    ensures { IfOk result (λ out. out.items ≡ left_out_of (as_rule rule.now)) }
{
    joined(alloc, rule.targets.as_slice(), rule.ignored.as_slice())
}

/// The sources that are scanned.
fn first_scanned(alloc: Global, rule: &PlainRule) -> Result<Vec<Spot>, Memory>
    ensures { IfOk result (λ first. first.items ≡ first_scanned_of (as_rule rule.now)) }
{
    let kept = kept_sources(alloc, rule)?;
    those(alloc, rule.scanned.as_slice(), kept.as_slice())
}

/// The files that are scanned, sources first, breadth first.
pub fn scan_list(alloc: Global, limit: usize, rule: &PlainRule) -> Result<Vec<Spot>, Memory>
    ensures { IfOk result (λ files. files.items ≡ scan_list_of limit (included_of rule.now.scans.items) (as_rule rule.now)) }
{
    scan_list_over(alloc, limit, rule, rule.scans.as_slice())
}

/// The same over what was scanned besides.
fn scan_list_over(
    alloc: Global,
    limit: usize,
    rule: &PlainRule,
    scans: &[Scan],
) -> Result<Vec<Spot>, Memory>
    ensures { IfOk result (λ files. files.items ≡ scan_list_of limit (included_of scans.now) (as_rule rule.now)) }
{
    let first = first_scanned(alloc, rule)?;
    let out = left_out(alloc, rule)?;
    let seen = joined(alloc, first.as_slice(), out.as_slice())?;
    breadth_first(alloc, scans, limit, seen, first)
}

/// The dependencies of a rule, in order.
pub fn reach(alloc: Global, limit: usize, rule: &PlainRule) -> Result<Vec<Spot>, Memory>
    ensures { IfOk result (λ all. all.items ≡ reach_of limit (included_of rule.now.scans.items) (as_rule rule.now)) }
{
    reach_over(alloc, limit, rule, rule.scans.as_slice())
}

/// The same over what was scanned besides.
pub(crate) fn reach_over(
    alloc: Global,
    limit: usize,
    rule: &PlainRule,
    scans: &[Scan],
) -> Result<Vec<Spot>, Memory>
    ensures { IfOk result (λ all. all.items ≡ reach_of limit (included_of scans.now) (as_rule rule.now)) }
{
    let named = declared(alloc, rule)?;
    let out = left_out(alloc, rule)?;
    let seen = joined(alloc, named.as_slice(), out.as_slice())?;
    let files = scan_list_over(alloc, limit, rule, scans)?;
    let found = unseen(alloc, seen.as_slice(), files.as_slice())?;
    joined(alloc, named.as_slice(), found.as_slice())
}
