//! The tree of a request, over the files as they are.
ghost use Rattle.std.specs.Prelude.{◌≡◌, IfOk};
ghost use Rattle.scons_report.specs.Asked.{children_asked, HasTreeCause};
ghost use Rattle.scons_report.specs.Built.{Plans, ShowsBuilds};
ghost use Rattle.scons_report.specs.Causes.{HasListCause};
ghost use Rattle.task_plan.specs.Plans.{IsIdle};
ghost use Rattle.world_api.specs.Looks.{Looks};

use crate::dry::cycle_of;
use crate::over::plan_over;
use crate::tree::{children_of, print_tree};
use crate::tree_end::TreeEnd;
use build_files::{Inputs, ListEnd};
use rule_graph::Graph;
use scons_base::NodeId;
use std::alloc::Global;
use task_plan::Plan;
use world_api::{Hash, Sink, World};

/// Prints the tree of a word behind a build: the word, and what it stands for below it, which is these nodes, or what the one node
/// is made of that the word names itself. The first so many rules of the graph are the declared ones. The files are scanned as they
/// are. Rules that wait for themselves are a fault.
#[tactic(auto, using(crate::proofs::Ending::ending))]
pub fn tree_text<W: World, O: Sink>(
    alloc: Global,
    graph: &mut Graph,
    declared: u32,
    request: &str,
    nodes: &[NodeId],
    is_node: bool,
    world: &mut W,
    out: &mut O,
) -> Result<(), TreeEnd>
    ensures looks { Looks W.meaning world.old world.new }
    ensures cause { HasTreeCause (W.meaning.counts world.old) (W.meaning.counts world.new) (O.meaning.faults out.old) (O.meaning.faults out.new) result }
    ensures shows { ShowsBuilds W.meaning O.meaning graph.old graph.new declared request.now nodes.now is_node world.old world.new out.old out.new result }
{
    let plan = plan_of(alloc, graph, declared, nodes, world)?;
    let children = children_asked(graph, &plan, nodes, is_node);
    print_tree(alloc, graph, &plan, request, children, out)
}

/// What stands below a word: its nodes, or the children of the one that it names itself.
fn children_asked<'a>(
    graph: &'a Graph,
    plan: &'a Plan,
    nodes: &'a [NodeId],
    is_node: bool,
) -> &'a [NodeId]
    ensures { result.now ≡ children_asked graph.now plan.now is_node nodes.now }
{
    match nodes {
        [node, ..] if is_node => children_of(graph, plan, *node),
        _ => nodes,
    }
}

/// The plan of these nodes once all its files are scanned, where each rule counts as made. None is given where rules wait for themselves.
#[tactic(auto, using(crate::proofs::Ending::ending))]
fn plan_of<W: World>(
    alloc: Global,
    graph: &mut Graph,
    declared: u32,
    nodes: &[NodeId],
    world: &mut W,
) -> Result<Plan, ListEnd>
    ensures looks { Looks W.meaning world.old world.new }
    ensures cause { HasListCause (W.meaning.counts world.old) (W.meaning.counts world.new) result }
    ensures rests { IfOk result IsIdle }
    ensures plans { IfOk result (Plans W.meaning graph.old declared nodes.now world.old graph.new world.new) }
{
    graph.laws();
    let mut inputs = Inputs::over(alloc, Hash::Md5, graph, declared);
    let plan = plan_over(alloc, graph, &mut inputs, nodes, world)?;
    plan.finishes(graph);
    match cycle_of(alloc, graph, &plan) {
        Some(end) => Err(end),
        None => Ok(plan),
    }
}
