//! Copies that are left over: nothing makes them any more, and they aren't sources.
ghost use Rattle.std.specs.Prelude.{◌≡◌, IfOk, Some, Contains, true};
ghost use Rattle.build_files.specs.Causes.{HasLookCause};
ghost use Rattle.build_files.specs.Leftovers.{AtRest, IsOfCopy, IsLeftover, AreLeftovers};
ghost use Rattle.sign_store.specs.Copies.{IsCopyIn};
ghost use Rattle.variant_dirs.specs.Variants.{source_of};
ghost use Rattle.world_api.specs.Looks.{Looks};

use crate::copies::has_copies;
use crate::end::ListEnd;
use crate::inputs::is_file_at;
use crate::known::{copied_from, is_copied, is_made};
use crate::record::Records;
use deciders::Rec;
use rule_graph::Graph;
use scons_base::{Listing, Memory, PathText};
use std::alloc::Global;
use world_api::{Work, World};

/// The records of the leftover copies. Where no variant directory has copies, no record is looked at.
#[tactic(auto, using(crate::proofs::Looking::looking))]
pub fn leftover_copies<W: World, R: Records>(
    alloc: Global,
    world: &mut W,
    graph: &Graph,
    records: &R,
) -> Result<Listing<Rec>, ListEnd>
    ensures looks { Looks W.meaning world.old world.new }
    ensures cause { HasLookCause (W.meaning.counts world.old) (W.meaning.counts world.new) result }
    ensures left { AtRest W.meaning world.new → IfOk result (AreLeftovers graph.now (W.meaning.around world.new) (IsCopyIn (R.map records.now))) }
{
    if !has_copies(graph) {
        return Ok(Listing::empty(alloc));
    }
    let copies = records.copies(alloc)?;
    leftovers_of(alloc, world, graph, copies.as_slice())
}

/// Those of these records that are of leftover copies.
#[tactic(auto, using(crate::proofs::Looking::looking))]
fn leftovers_of<W: World>(
    alloc: Global,
    world: &mut W,
    graph: &Graph,
    copies: &[Rec],
) -> Result<Listing<Rec>, ListEnd>
    ensures looks { Looks W.meaning world.old world.new }
    ensures cause { HasLookCause (W.meaning.counts world.old) (W.meaning.counts world.new) result }
    ensures left { AtRest W.meaning world.new → IfOk result (AreLeftovers graph.now (W.meaning.around world.new) (Contains copies.now)) }
{
    let mut left = Listing::empty(alloc);
    for rec in copies {
        if is_leftover(world, graph, rec)? {
            left.push(rec.copy()?)?;
        }
    }
    Ok(left)
}

/// Whether a record is of a leftover copy: a file in a variant directory with copies that has no rule, and was copied from
/// its source there.
#[tactic(auto, using(crate::proofs::Looking::looking))]
pub fn is_leftover<W: World>(world: &mut W, graph: &Graph, rec: &Rec) -> Result<bool, ListEnd>
    ensures looks { Looks W.meaning world.old world.new }
    ensures cause { HasLookCause (W.meaning.counts world.old) (W.meaning.counts world.new) result }
    ensures is { AtRest W.meaning world.new → IfOk result (λ is. is ≡ true → IsLeftover graph.now (W.meaning.around world.new) rec.now) }
    ensures all { AtRest W.meaning world.new → IfOk result (λ is. IsLeftover graph.now (W.meaning.around world.new) rec.now → is ≡ true) }
{
    let [path] = rec.targets.as_slice() else {
        return Ok(false);
    };
    if is_made(graph, path) || !was_copied(graph, path, rec)? {
        return Ok(false);
    }
    if copied_from(world, graph, graph.rules(), path)?.is_some() {
        return Ok(false);
    }
    is_file_at(world, path)
}

/// Whether a record says that a path of a variant directory with copies was copied from its source there.
fn was_copied(graph: &Graph, path: &PathText, rec: &Rec) -> Result<bool, Memory>
    ensures is { IfOk result (λ was. was ≡ true → IsOfCopy graph.now rec.now path.now) }
    ensures all { IfOk result (λ was. IsOfCopy graph.now rec.now path.now → was ≡ true) }
{
    match (rec.work, rec.deps.as_slice()) {
        (Work::Copy, [dep]) if is_copied(graph, path) => has_source(graph, path, &dep.name),
        _ => Ok(false),
    }
}

/// Whether a path has this source.
fn has_source(graph: &Graph, path: &PathText, name: &PathText) -> Result<bool, Memory>
    ensures is { IfOk result (λ has. has ≡ true → source_of graph.now.variants graph.now.top path.now ≡ Some name.now) }
    ensures all { IfOk result (λ has. source_of graph.now.variants graph.now.top path.now ≡ Some name.now → has ≡ true) }
{
    match graph.variants().source_of(graph.top(), path)? {
        Some(source) => Ok(source == *name),
        None => Ok(false),
    }
}
