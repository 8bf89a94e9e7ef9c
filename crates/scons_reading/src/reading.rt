//! The reading of all scripts, from the words of the command line to a graph.
ghost use Rattle.std.specs.Prelude.{◌≡◌, Ok, Err, IfOk, IfErr};
ghost use Rattle.py_tree.specs.Tree.{script_tree};
ghost use Rattle.rule_graph.specs.Graphs.{RuleGraph};
ghost use Rattle.scons_decls.specs.State.{declared_of};
ghost use Rattle.scons_host.specs.Causes.{EndsLook, ReadingCauses, WorldCauses};
ghost use Rattle.scons_host.specs.Prints.{Prints};
ghost use Rattle.scons_host.specs.Shown.{Shown};
ghost use Rattle.scons_host.specs.SoFar.{so_far};
ghost use Rattle.scons_reading.specs.Coming.{HasGraph, HasOutcome, IsEndOfLook, Over};
ghost use Rattle.scons_reading.specs.Reads.{ReadsOn, Reads, begun_of};
ghost use Rattle.world_api.specs.Looks.{LooksAtFiles};

use crate::ends::end_of;
use crate::rules::graph_of;
use crate::running::run_all;
use crate::starting::begun;
use py_heap::Heap;
use py_tree::Script;
use rule_graph::Graph;
use scons_host::{HostEnd, State, Stop};
use scons_words::Words;
use std::alloc::Global;
use world_api::{Sink, World};

/// Reads all scripts: their graph, with what they print written to `out`.
pub fn read_scripts<W: World, O: Sink>(
    alloc: Global,
    world: &mut W,
    out: &mut O,
    words: &Words,
) -> Result<Graph, HostEnd>
    ensures looks { LooksAtFiles W.meaning world.old world.new }
    ensures prints { Prints O.meaning out.old out.new }
    ensures causes { ReadingCauses W.meaning O.meaning world.old out.old world.new out.new result }
    ensures reads { Over W.meaning O.meaning world.old out.old world.new out.new (λ f text.
        HasOutcome (Reads f words.now) text result) }
{
    let mut heap = Heap::new(alloc);
    match begun(alloc, world, &mut heap, words) {
        Ok((state, script)) => read_on(alloc, world, out, heap, state, &script),
        Err(stop) => Err(end_of(alloc, stop)),
    }
}

/// Reads all scripts from the first on, which has begun.
fn read_on<W: World, O: Sink>(
    alloc: Global,
    world: &mut W,
    out: &mut O,
    heap: Heap,
    mut state: State,
    script: &Script,
) -> Result<Graph, HostEnd>
    ensures looks { LooksAtFiles W.meaning world.old world.new }
    ensures prints { Prints O.meaning out.old out.new }
    ensures causes { ReadingCauses W.meaning O.meaning world.old out.old world.new out.new result }
    ensures reads { let b = begun_of (script_tree script.now) (so_far state) heap in
        Over W.meaning O.meaning world.old out.old world.new out.new (λ f text. HasOutcome (ReadsOn f b) text result) }
{
    match run_all(world, out, &mut state, heap, script) {
        Ok(()) => graph_end(alloc, world, state),
        Err(end) => Err(end),
    }
}

/// The graph of what all scripts have declared.
fn graph_end<W: World>(alloc: Global, world: &mut W, state: State) -> Result<Graph, HostEnd>
    ensures looks { LooksAtFiles W.meaning world.old world.new }
    ensures causes { WorldCauses W.meaning world.old world.new result }
    ensures graph { Shown W.meaning world.old world.new (λ f. HasGraph f (so_far state) result) }
{
    let State {
        declared,
        scripts,
        ..
    } = state;
    ended_by(alloc, graph_of(alloc, world, declared, &scripts))
}

/// The graph, or the end that a stop gives.
fn ended_by(alloc: Global, graph: Result<Graph, Stop>) -> Result<Graph, HostEnd>
    ensures cause { EndsLook graph result }
    ensures end { IsEndOfLook graph result }
{
    match graph {
        Ok(graph) => Ok(graph),
        Err(stop) => Err(end_of(alloc, stop)),
    }
}
