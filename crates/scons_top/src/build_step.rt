//! The build of what was requested.
ghost use Rattle.std.specs.Prelude.{◌≡◌, ◌||◌, ◌&&◌, [], not, true, false, Contains, IfOk, IfErr};
ghost use Rattle.build_run.specs.Goings.{Passes, Goes};
ghost use Rattle.scons_top.specs.Faults.{IsLateStop, EarlyOnlyIf};
ghost use Rattle.scons_top.specs.Foreign.{RunByBytes, StepByBytes, StopsOpening};
ghost use Rattle.sign_store.specs.Readings.{AreReadable};
ghost use Rattle.world_api.specs.Statuses.{HasStatus};
ghost use Rattle.rule_graph.specs.Graphs.{RuleGraph};
ghost use Rattle.sign_store.specs.Stores.{IsKept, is_live, HasMapOf};
ghost use Rattle.scons_top.specs.Builds.{BeginsStore, RunBuilds};
ghost use Rattle.scons_top.specs.Scripted.{RunBuildsOf};
ghost use Rattle.scons_top.specs.Steps.{IsBuildingStep, LeavesAt, RunEndsAt, StopsAt};
ghost use Rattle.scons_top.specs.Printed.{EndsPrinting, LosesOut, ServesPrinting};
ghost use Rattle.scons_top.specs.Sinks.{PrintsUpTo};
ghost use Rattle.scons_top.specs.RunLines.{ending_text};
ghost use Rattle.scons_top.specs.Requested.{AskForNodes, GivesNodes, nodes_asked};
ghost use Rattle.scons_top.specs.Stopping.{RunsSafely};
ghost use Rattle.scons_top.specs.Told.{TellsOrStops};
ghost use Rattle.scons_top.specs.Stops.{Reports, SinkStep, WorldStep};
ghost use Rattle.scons_top.specs.Trees.{shows_trees};

use crate::ending::{closed, tell_done, tell_faulty};
use crate::printed::say;
use crate::report::Report;
use crate::requests::Request;
use crate::step::Step;
use crate::stop::Stop;
use crate::tree_step::tell_trees;
use build_run::{BuildEnd, Options, build};
use rule_graph::{BuildFault, Graph};
use scons_base::{Memory, NodeId};
use scons_report::building_text;
use scons_words::Words;
use sign_store::Store;
use std::alloc::Global;
use world_api::{Sink, World};

/// Begins the store and builds.
pub(crate) fn build_requests<W: World, O: Sink, E: Sink>(
    alloc: Global,
    graph: &mut Graph,
    words: &Words,
    requests: &[Request],
    world: &mut W,
    out: &mut O,
    err: &mut E,
    at: &mut Step,
) -> Result<Report, Stop>
    requires unclosed { W.meaning.closed world.old ≡ [] }
    requires idle { W.meaning.tells world.old → (W.meaning.around world.old).running ≡ [] }
    ensures building { IsBuildingStep at.new }
    ensures ends { RunEndsAt at.new result }
    ensures bytes { RunByBytes W.meaning at.new world.old world.new result }
    ensures leaves { LeavesAt W.meaning at.new world.old world.new }
    ensures passes { Passes W.meaning world.old world.new }
    ensures reports { Reports W.meaning O.meaning E.meaning world.old out.old err.old world.new out.new err.new result }
    ensures prints { ServesPrinting W.meaning O.meaning words.now at.new graph.old requests.now world.old out.old world.new out.new result }
    ensures tells { TellsOrStops E.meaning err.old err.new result }
    ensures idle { W.meaning.tells world.new → (W.meaning.around world.new).running ≡ [] }
    ensures late { IfErr result IsLateStop }
    ensures faults { IfOk result (λ report. EarlyOnlyIf ⊥ report.faults) }
    ensures status { IfOk result (λ report. HasStatus report.status report.faults) }
    ensures builds { AskForNodes graph.old requests.now → RunBuilds W.meaning words.now world.old world.new result }
    ensures of { AskForNodes graph.old requests.now → RunBuildsOf W.meaning words.now graph.old (nodes_asked requests.now) world.old world.new result }
    ensures safe { AskForNodes graph.old requests.now → RunsSafely W.meaning world.old world.new }
{
    *at = Step::Store;
    let nodes = nodes_of(alloc, requests)?;
    let mut store = begin_store(alloc, world)?;
    *at = Step::Building;
    say(out, words, building_text(alloc))?;
    let options = Options {
        jobs: words.jobs,
        keep: words.keep,
        hash: words.hash,
        silent: words.silent,
        explain: words.explain,
    };
    let declared = graph.rules();
    let end = build(
        alloc,
        graph,
        nodes.as_slice(),
        &mut store,
        world,
        out,
        err,
        &options,
    );
    if has_trees(words, &end) {
        let started = end.started.as_slice();
        let mut report = tell_trees(
            alloc, graph, declared, words, requests, started, world, out, err,
        );
        report.skipped = end.skipped;
        return Ok(report);
    }
    let written = tell_end(alloc, graph, words, requests, &end, out);
    Ok(closed(
        alloc,
        end.faults,
        end.skipped,
        end.memory,
        written,
        Step::Building,
    ))
}

#[tactic(auto, using(crate::proofs::Causing::causing))]
fn begin_store<W: World>(alloc: Global, world: &mut W) -> Result<Store, Stop>
    ensures goes { Goes W.meaning world.old world.new }
    ensures step { WorldStep (W.meaning.counts world.old) (W.meaning.counts world.new) result }
    ensures live { IfOk result (λ store. is_live store ≡ true) }
    ensures keeps { IfOk result (IsKept W.meaning world.new) }
    ensures stops { IfErr result (StopsAt Step.Store) }
    ensures bytes { StepByBytes W.meaning world.old world.new result }
    ensures refused { W.meaning.tells world.new → IfErr result (StopsOpening (W.meaning.seen world.old)) }
    ensures readable { W.meaning.tells world.new → IfOk result (λ store. AreReadable (W.meaning.seen world.old)) }
    ensures late { IfErr result IsLateStop }
    ensures begins { BeginsStore W.meaning world.old world.new }
    ensures map { W.meaning.tells world.new → IfOk result (HasMapOf (W.meaning.seen world.old)) }
{
    match Store::begin(alloc, world) {
        Ok(store) => Ok(store),
        Err(refusal) => Err(Stop::from(refusal)),
    }
}

/// Whether trees are shown behind a build that ended so: it has no fault.
fn has_trees(words: &Words, end: &BuildEnd) -> bool
    ensures faults { result ≡ true → end.now.faults ≡ [] }
    ensures memory { result ≡ true → end.now.memory ≡ false }
    ensures shows { result ≡ true → shows_trees words.now end.now.faults ≡ true }
    ensures plain { result ≡ false → end.now.memory ≡ false → shows_trees words.now end.now.faults ≡ false }
{
    words.tree && !words.silent && !end.memory && end.faults.is_empty()
}

/// The requested nodes, in order.
pub(crate) fn nodes_of(alloc: Global, requests: &[Request]) -> Result<Vec<NodeId>, Memory>
    ensures are { IfOk result (λ nodes. nodes.items ≡ nodes_asked requests.now) }
    ensures nodes { (graph : RuleGraph) → AskForNodes graph requests.now → GivesNodes graph result }
{
    let mut nodes = Vec::new(alloc);
    for request in requests {
        nodes.extend_from_slice(request.nodes.as_slice())?;
    }
    Ok(nodes)
}

/// Writes the last lines, unless the sink refused or memory was wanting.
fn tell_end<O: Sink>(
    alloc: Global,
    graph: &Graph,
    words: &Words,
    requests: &[Request],
    end: &BuildEnd,
    out: &mut O,
) -> Result<(), Stop>
    ensures step { SinkStep (O.meaning.faults out.old) (O.meaning.faults out.new) result }
    ensures prints { EndsPrinting O.meaning words.now graph.now requests.now end.now out.old out.new result }
{
    if loses_out(end) {
        return Ok(());
    }
    tell_ending(alloc, graph, words, requests, end, out)
}

/// Writes what was up to date and that it is done, or that faults ended it.
fn tell_ending<O: Sink>(
    alloc: Global,
    graph: &Graph,
    words: &Words,
    requests: &[Request],
    end: &BuildEnd,
    out: &mut O,
) -> Result<(), Stop>
    ensures step { SinkStep (O.meaning.faults out.old) (O.meaning.faults out.new) result }
    ensures prints { PrintsUpTo O.meaning (ending_text words.now graph.now requests.now end.now.started end.now.faults) out.old out.new result }
{
    if end.faults.is_empty() {
        return tell_done(alloc, graph, words, requests, end.started.as_slice(), out);
    }
    tell_faulty(alloc, words, end.faults.as_slice(), out)
}

/// Whether standard output refused, which is reported then, or memory was wanting.
fn loses_out(end: &BuildEnd) -> bool
    ensures { result ≡ true → LosesOut end.now }
{
    if end.memory {
        return true;
    }
    end.is_out_shut && has_out_fault(end.faults.as_slice())
}

fn has_out_fault(faults: &[BuildFault]) -> bool
    ensures { result ≡ true → Contains faults.now BuildFault.OutFault }
{
    for fault in faults {
        if matches!(fault, BuildFault::OutFault) {
            return true;
        }
    }
    false
}
