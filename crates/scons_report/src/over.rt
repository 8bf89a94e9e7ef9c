//! A plan that is gone over to its end: all its files are scanned as they are, and each rule counts as made.
ghost use Rattle.std.specs.Prelude.{◌≡◌, ◌≢◌, ℕ, List, false, IfOk, OnOk};
ghost use Rattle.build_means.specs.Grown.{Begun};
ghost use Rattle.build_model.specs.Rules.{Tree};
ghost use Rattle.scons_base.specs.declared.ids.NodeId.{NodeId};
ghost use Rattle.build_files.specs.declared.inputs.Inputs.{Inputs};
ghost use Rattle.scons_report.specs.Causes.{HasListCause};
ghost use Rattle.scons_report.specs.Overs.{GoesOver, IsOver, StaysOver};
ghost use Rattle.task_plan.specs.Plans.{IsDecidedNext, IsIdle, IsScannedNext};
ghost use Rattle.task_plan.specs.Watched.{IsComplete, IsStill};
ghost use Rattle.world_api.specs.Around.{Around};
ghost use Rattle.world_api.specs.Looks.{Looks};

use build_files::{Inputs, ListEnd};
use rule_graph::Graph;
use scons_base::{Memory, NodeId, RuleId};
use std::alloc::Global;
use task_plan::{Plan, PlanEvent, Want};
use world_api::World;

/// The plan of these nodes, gone over to its end.
#[tactic(auto, using(crate::proofs::Ending::ending))]
pub(crate) fn plan_over<W: World>(
    alloc: Global,
    graph: &mut Graph,
    inputs: &mut Inputs,
    nodes: &[NodeId],
    world: &mut W,
) -> Result<Plan, ListEnd>
    ensures looks { Looks W.meaning world.old world.new }
    ensures cause { HasListCause (W.meaning.counts world.old) (W.meaning.counts world.new) result }
    ensures gone { inputs.new.gone ≡ inputs.old.gone }
    ensures idle { IfOk result IsIdle }
    ensures over { IfOk result (GoesOver W.meaning graph.old inputs.old nodes.now world.old graph.new inputs.new world.new) }
{
    inputs.add_copies(world, graph, nodes)?;
    graph.laws();
    let mut plan = Plan::new(alloc, graph, nodes)?;
    scan_all(graph, inputs, &mut plan, world)?;
    Ok(plan)
}

/// Goes over a plan until it rests. Beyond 2^64 - 1 turns, which would take centuries, it says want of memory.
#[tactic(auto, using(crate::proofs::Ending::ending))]
fn scan_all<W: World>(
    graph: &mut Graph,
    inputs: &mut Inputs,
    plan: &mut Plan,
    world: &mut W,
) -> Result<(), ListEnd>
    ensures looks { Looks W.meaning world.old world.new }
    ensures cause { HasListCause (W.meaning.counts world.old) (W.meaning.counts world.new) result }
    ensures gone { inputs.new.gone ≡ inputs.old.gone }
    ensures over { StaysOver W.meaning graph.old inputs.old plan.old world.old graph.new inputs.new plan.new world.new result }
    ensures idle { OnOk result (IsIdle plan.new) }
    ensures still { OnOk result (plan.new.halted ≡ false → IsComplete plan.new → IsStill plan.new) }
{
    for _turn in 0..u64::MAX {
        match plan.next() {
            Want::Scan(rule, file) => scan(graph, inputs, plan, world, rule, file)?,
            Want::Decide(rule) => settle(graph, plan, rule)?,
            Want::Wait | Want::Rest => return Ok(()),
        }
    }
    Err(ListEnd::Memory)
}

/// Scans a file for a rule.
#[tactic(auto, using(crate::proofs::Ending::ending))]
fn scan<W: World>(
    graph: &mut Graph,
    inputs: &mut Inputs,
    plan: &mut Plan,
    world: &mut W,
    rule: RuleId,
    file: NodeId,
) -> Result<(), ListEnd>
    ensures looks { Looks W.meaning world.old world.new }
    ensures cause { HasListCause (W.meaning.counts world.old) (W.meaning.counts world.new) result }
    ensures gone { inputs.new.gone ≡ inputs.old.gone }
    ensures over { IsScannedNext plan.old rule.0 file
        → StaysOver W.meaning graph.old inputs.old plan.old world.old graph.new inputs.new plan.new world.new result }
{
    let found = inputs.scanned(world, graph, rule, file)?;
    graph.laws();
    plan.step(graph, PlanEvent::Scanned(rule, found))?;
    Ok(())
}

/// A rule counts as made.
fn settle(graph: &Graph, plan: &mut Plan, rule: RuleId) -> Result<(), Memory>
    ensures over { IsDecidedNext plan.old rule.0 → (b : Begun) (requested : List NodeId) (t : Tree) (inputs : Inputs) (around : Around)
        → IsOver b requested t graph.now inputs plan.old around → OnOk result (IsOver b requested t graph.now inputs plan.new around) }
{
    plan.step(graph, PlanEvent::Fresh(rule))
}
