//! The trees of what was asked for, behind a build without a fault.
ghost use Rattle.std.specs.Prelude.{◌≡◌, [], IfErr, IfOk, Ok};
ghost use Rattle.scons_top.specs.Causes.{RunCauses};
ghost use Rattle.scons_top.specs.Faults.{IsLateStop, EarlyOnlyIf};
ghost use Rattle.scons_top.specs.Steps.{ReportsAt, RunEndsAt};
ghost use Rattle.scons_top.specs.Stops.{Reports};
ghost use Rattle.scons_top.specs.Told.{TellsFaults, TellsOrStops};
ghost use Rattle.scons_top.specs.Trees.{AreTreesCaused, PrintsTreeOf, PrintsTreesOf, TreesPrint};
ghost use Rattle.scons_top.specs.Watching.{Watches};
ghost use Rattle.world_api.specs.Statuses.{HasStatus};

use crate::dry_step::end_with;
use crate::ending::{ended, good, tell_requests};
use crate::printed::say;
use crate::report::Report;
use crate::requests::Request;
use crate::step::Step;
use crate::stop::Stop;
use rule_graph::{BuildFault, Graph};
use scons_base::RuleId;
use scons_report::{TreeEnd, done_text, tree_text};
use scons_words::Words;
use std::alloc::Global;
use world_api::{Sink, World};

/// Writes the last lines of a build without a fault, and in front of the end line the tree of each request in order. The first so
/// many rules of the graph are the declared ones. What was built stands whatever comes, so there is a report of it.
pub(crate) fn tell_trees<W: World, O: Sink, E: Sink>(
    alloc: Global,
    graph: &mut Graph,
    declared: u32,
    words: &Words,
    requests: &[Request],
    started: &[RuleId],
    world: &mut W,
    out: &mut O,
    err: &mut E,
) -> Report
    requires idle { W.meaning.tells world.old → (W.meaning.around world.old).running ≡ [] }
    ensures watches { Watches W.meaning world.old world.new }
    ensures causes { RunCauses W.meaning O.meaning E.meaning world.old out.old err.old world.new out.new err.new result }
    ensures tells { TellsFaults E.meaning err.old err.new result }
    ensures prints { TreesPrint W.meaning O.meaning words.now declared graph.old requests.now started.now world.old out.old world.new out.new (Ok result) }
    ensures ends { ReportsAt Step.Building result }
    ensures faults { EarlyOnlyIf ⊥ result.faults }
    ensures status { HasStatus result.status result.faults }
{
    match show_trees(
        alloc, graph, declared, words, requests, started, world, out, err,
    ) {
        Ok(report) => report,
        Err(stop) => ended(alloc, stop, Step::Building, err),
    }
}

/// The same, up to a refusal of standard output or want of memory. A fault in a tree ends the run as one of a build does.
#[tactic(auto, using(crate::proofs::Watching::standing))]
fn show_trees<W: World, O: Sink, E: Sink>(
    alloc: Global,
    graph: &mut Graph,
    declared: u32,
    words: &Words,
    requests: &[Request],
    started: &[RuleId],
    world: &mut W,
    out: &mut O,
    err: &mut E,
) -> Result<Report, Stop>
    requires idle { W.meaning.tells world.old → (W.meaning.around world.old).running ≡ [] }
    ensures watches { Watches W.meaning world.old world.new }
    ensures reports { Reports W.meaning O.meaning E.meaning world.old out.old err.old world.new out.new err.new result }
    ensures tells { TellsOrStops E.meaning err.old err.new result }
    ensures prints { TreesPrint W.meaning O.meaning words.now declared graph.old requests.now started.now world.old out.old world.new out.new result }
    ensures ends { RunEndsAt Step.Building result }
    ensures late { IfErr result IsLateStop }
    ensures faults { IfOk result (λ report. EarlyOnlyIf ⊥ report.faults) }
    ensures status { IfOk result (λ report. HasStatus report.status report.faults) }
{
    tell_requests(alloc, graph, words, requests, started, out)?;
    match print_trees(alloc, graph, declared, requests, world, out) {
        Ok(()) => {
            say(out, words, done_text(alloc))?;
            Ok(good(alloc, Step::Building))
        }
        Err(TreeEnd::Fault(fault)) => match fault {
            BuildFault::OutFault => Err(Stop::Build(BuildFault::OutFault)),
            _ => end_with(alloc, words, fault, out, err, Step::Building),
        },
        Err(TreeEnd::Memory) => Err(Stop::Memory),
    }
}

/// Prints the tree of each request in order.
#[tactic(auto, using(crate::proofs::Watching::standing))]
fn print_trees<W: World, O: Sink>(
    alloc: Global,
    graph: &mut Graph,
    declared: u32,
    requests: &[Request],
    world: &mut W,
    out: &mut O,
) -> Result<(), TreeEnd>
    requires idle { W.meaning.tells world.old → (W.meaning.around world.old).running ≡ [] }
    ensures watches { Watches W.meaning world.old world.new }
    ensures cause { AreTreesCaused W.meaning O.meaning world.old out.old world.new out.new result }
    ensures prints { PrintsTreesOf W.meaning O.meaning declared requests.now graph.old world.old out.old graph.new world.new out.new result }
{
    for request in requests {
        print_tree(alloc, graph, declared, request, world, out)?;
    }
    Ok(())
}

fn print_tree<W: World, O: Sink>(
    alloc: Global,
    graph: &mut Graph,
    declared: u32,
    request: &Request,
    world: &mut W,
    out: &mut O,
) -> Result<(), TreeEnd>
    ensures watches { Watches W.meaning world.old world.new }
    ensures cause { AreTreesCaused W.meaning O.meaning world.old out.old world.new out.new result }
    ensures prints { PrintsTreeOf W.meaning O.meaning declared request.now graph.old world.old out.old graph.new world.new out.new result }
{
    let word = request.word.as_str();
    let nodes = request.nodes.as_slice();
    tree_text(
        alloc,
        graph,
        declared,
        word,
        nodes,
        request.is_node,
        world,
        out,
    )
}
