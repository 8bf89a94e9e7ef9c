//! What is looked up for the words of a run: the targets below directories, and the records of former builds.
ghost use Rattle.std.specs.Prelude.{◌≡◌, None, IfErr, IfOk, IsSome, OnOk, option_copied};
ghost use Rattle.build_files.specs.Causes.{HasLookCause};
ghost use Rattle.build_files.specs.Leftovers.{AtRest};
ghost use Rattle.rule_graph.specs.Graphs.{RuleGraph};
ghost use Rattle.scons_top.specs.Asked.{NamesNone, StopsFor};
ghost use Rattle.scons_top.specs.Foreign.{StepByBytes};
ghost use Rattle.scons_top.specs.Below.{KnowsTargets};
ghost use Rattle.scons_top.specs.Finding.{HasLeft, KnowsRecords, record_in, Tells};
ghost use Rattle.scons_top.specs.Naming.{IsLeftOver};
ghost use Rattle.scons_top.specs.Requested.{KnowsNodes};
ghost use Rattle.scons_top.specs.Stops.{WorldStep};
ghost use Rattle.scons_top.specs.Watching.{Watches};
ghost use Rattle.sign_store.specs.Ends.{image_in};

use crate::below::Below;
use crate::dry_step::view_of;
use crate::stop::Stop;
use build_files::{ListEnd, is_copied, is_leftover};
use deciders::Rec;
use rule_graph::Graph;
use scons_base::PathText;
use sign_store::View;
use std::alloc::Global;
use world_api::World;

/// What was looked up so far.
#[derive(Drop)]
pub(crate) struct Lookups {
    pub(crate) below: Below,
    /// The records of former builds, once they were asked for.
    pub(crate) view: Option<View>,
}

impl Lookups {
    pub(crate) fn new() -> Lookups
        ensures knows { (graph : RuleGraph) → KnowsNodes graph result.below }
        ensures lists { (graph : RuleGraph) → KnowsTargets graph result.below }
        ensures none { result.view ≡ None }
    {
        Lookups {
            below: Below::new(),
            view: None,
        }
    }
}

/// Whether a file without a rule is a leftover copy. The records are read for one in a variant directory with copies alone.
#[tactic(auto, using(crate::proofs::Watching::standing))]
pub(crate) fn is_left_over<W: World>(
    alloc: Global,
    world: &mut W,
    graph: &Graph,
    view: &mut Option<View>,
    path: &PathText,
) -> Result<bool, Stop>
    ensures watches { Watches W.meaning world.old world.new }
    ensures step { WorldStep (W.meaning.counts world.old) (W.meaning.counts world.new) result }
    ensures stops { IfErr result (StopsFor NamesNone) }
    ensures bytes { StepByBytes W.meaning world.old world.new result }
    ensures records { KnowsRecords W.meaning world.old view.old → KnowsRecords W.meaning world.new view.new }
    ensures left { KnowsRecords W.meaning world.old view.old → AtRest W.meaning world.new →
        IfOk result (λ is. Tells (IsLeftOver graph.now (W.meaning.around world.new) (image_in (W.meaning.seen world.new)) path.now) is) }
{
    if !is_copied(graph, path) {
        return Ok(false);
    }
    read_records(alloc, world, view)?;
    Ok(has_leftover(world, graph, view, path)?)
}

/// Reads the records, unless they were read before.
#[tactic(auto, using(crate::proofs::Causing::causing))]
fn read_records<W: World>(alloc: Global, world: &mut W, view: &mut Option<View>) -> Result<(), Stop>
    ensures watches { Watches W.meaning world.old world.new }
    ensures step { WorldStep (W.meaning.counts world.old) (W.meaning.counts world.new) result }
    ensures stops { IfErr result (StopsFor NamesNone) }
    ensures bytes { StepByBytes W.meaning world.old world.new result }
    ensures records { KnowsRecords W.meaning world.old view.old → KnowsRecords W.meaning world.new view.new }
    ensures some { OnOk result (IsSome view.new) }
{
    if view.is_some() {
        return Ok(());
    }
    match view_of(alloc, world) {
        Ok(read) => {
            *view = Some(read);
            Ok(())
        }
        Err(refusal) => Err(Stop::from(refusal)),
    }
}

/// Whether the record of a path is of a leftover copy.
#[tactic(auto, using(crate::proofs::Causing::causing))]
fn has_leftover<W: World>(
    world: &mut W,
    graph: &Graph,
    view: &Option<View>,
    path: &PathText,
) -> Result<bool, ListEnd>
    requires { IsSome view.now }
    ensures watches { Watches W.meaning world.old world.new }
    ensures cause { HasLookCause (W.meaning.counts world.old) (W.meaning.counts world.new) result }
    ensures left { KnowsRecords W.meaning world.old view.now → AtRest W.meaning world.new →
        IfOk result (λ is. Tells (HasLeft graph.now (W.meaning.around world.new) (image_in (W.meaning.seen world.new)) path.now) is) }
{
    match recorded(view, path) {
        Some(rec) => is_leftover(world, graph, rec),
        None => Ok(false),
    }
}

/// The record of a path.
fn recorded<'a>(view: &'a Option<View>, path: &PathText) -> Option<&'a Rec>
    ensures { option_copied result ≡ record_in view.now path.now }
{
    match view {
        Some(view) => view.get(path),
        None => None,
    }
}
