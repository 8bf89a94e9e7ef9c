//! The build of the copy, over a world in memory.
ghost use Rattle.std.specs.Prelude.{◌≡◌, ◌∷◌, [], codes, IfSome};
ghost use Rattle.build_samples.specs.Copies.{copy_graph, target_node};
ghost use Rattle.build_samples.specs.Samples.{HasBuilt, IsOutsetOf};

use crate::declared::declare_copy;
use build_run::{BuildEnd, Options, build};
use rule_graph::Graph;
use scons_base::{Blob, NodeId, PathText};
use sign_store::Store;
use std::alloc::Global;
use world_api::Hash;
use world_mem::{ActTable, MemSink, MemWorld};

/// What a build answered and printed, and what it left.
#[derive(Drop)]
pub struct Sample {
    pub end: BuildEnd,
    pub out: MemSink,
    pub err: MemSink,
    pub store: Store,
    pub world: MemWorld,
}

/// Copies `s`, which holds this content and is all that there is, to `t`.
pub fn build_copy(alloc: Global, content: &[u8]) -> Option<Sample>
    ensures { IfSome result (HasBuilt content.now) }
{
    let (graph, target) = declare_copy(alloc)?;
    let (world, store) = outset(alloc, content)?;
    let (out, err) = sinks(alloc)?;
    Some(built(alloc, content, graph, target, (world, store), (out, err)))
}

/// Builds the target of a graph from what a build begins with. What it begins with is told by the content of `s`.
fn built(
    alloc: Global,
    content: &[u8],
    graph: Graph,
    target: NodeId,
    begun: (MemWorld, Store),
    sinks: (MemSink, MemSink),
) -> Sample
    requires graph { graph ≡ copy_graph }
    requires target { target ≡ target_node }
    requires outset { IsOutsetOf content.now begun.0 begun.1 }
    ensures { HasBuilt content.now result }
{
    let mut graph = graph;
    let (mut world, mut store) = begun;
    let (mut out, mut err) = sinks;
    let options = Options {
        jobs: 1,
        keep: false,
        hash: Hash::Md5,
        silent: false,
        explain: false,
    };
    let end = build(
        alloc,
        &mut graph,
        &[target],
        &mut store,
        &mut world,
        &mut out,
        &mut err,
        &options,
    );
    Sample {
        end,
        out,
        err,
        store,
        world,
    }
}

/// Two sinks that take all.
fn sinks(alloc: Global) -> Option<(MemSink, MemSink)> {
    let out = MemSink::new(alloc, Vec::new(alloc)).ok()?;
    let err = MemSink::new(alloc, Vec::new(alloc)).ok()?;
    Some((out, err))
}

/// What the build begins with: a world in which `s` is the only file and no call fails, and its store.
fn outset(alloc: Global, content: &[u8]) -> Option<(MemWorld, Store)>
    ensures { IfSome result (λ begun. IsOutsetOf content.now begun.0 begun.1) }
{
    let files = only_file(alloc, content)?;
    let table = ActTable::new(Vec::new(alloc));
    let Ok(mut world) = MemWorld::new(alloc, files, table, Vec::new(alloc), Vec::new(alloc)) else {
        return None;
    };
    let Ok(store) = Store::begin(alloc, &mut world) else {
        return None;
    };
    Some((world, store))
}

/// The file `s` with this content.
fn only_file(alloc: Global, content: &[u8]) -> Option<Vec<(PathText, Blob)>>
    ensures { IfSome result (λ files. files.items ≡ (codes "s", content.now) ∷ []) }
{
    let path = PathText::read(alloc, "s").ok()?;
    let bytes = Blob::of(alloc, content).ok()?;
    vec![in alloc; (path, bytes)].ok()
}
