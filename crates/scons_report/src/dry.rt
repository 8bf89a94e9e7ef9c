//! The rules that a dry run lists.
ghost use Rattle.std.specs.Prelude.{◌≡◌, ◌≤◌, ◌<◌, ◌||◌, ℕ, List, ◌++◌, ◌∷◌, [], true, length, slice_set, IfOk, IfSome, IfNone, OnOk};
ghost use Rattle.world_api.specs.Looks.{Looks};
ghost use Rattle.scons_report.specs.Causes.{HasListCause, IsInside};
ghost use Rattle.rule_graph.specs.Rules.{rule_of};
ghost use Rattle.scons_report.specs.Dry.{AreGone, DryLists};
ghost use Rattle.scons_report.specs.Rings.{AreFirstTargets, IsPlaceOfLeast, IsRingTold, IsTurned, TellsRing};
ghost use Rattle.scons_report.specs.Overs.{among_paths, is_fed_by, makes_listed, AreTargetsOf, Judges, Lists, ListsAll, ListsNext, StaysReady};
ghost use Rattle.sign_store.specs.Stores.{map_of_view};
ghost use Rattle.task_plan.specs.Cycles.{HasNoCycle};

use crate::order::build_order;
use crate::over::plan_over;
use build_files::{Inputs, ListEnd, Present, first_target, is_stale, leftover_copies, path_of};
use deciders::Rec;
use indexmap::IndexSet;
use rule_graph::{BuildFault, Graph, What};
use scons_base::limits::DEP_LIMIT;
use scons_base::{Listing, Memory, NodeId, PathText, Paths, RuleId};
use sign_store::View;
use std::alloc::Global;
use task_plan::Plan;
use world_api::{Hash, World};

/// The rules that were listed so far.
#[derive(Drop)]
pub(crate) struct Listed {
    pub(crate) rules: Vec<RuleId>,
    /// By the numbers of the rules.
    pub(crate) is_listed: Vec<bool>,
}

/// The rules that would be started over the files as they are, in the order of a build at one job: those that are always
/// built, lack a target, depend on a listed rule, or have another record than the one of now.
#[tactic(auto, using(crate::proofs::Ending::ending))]
pub fn dry_list<W: World>(
    alloc: Global,
    graph: &mut Graph,
    requested: &[NodeId],
    view: &View,
    hash: Hash,
    world: &mut W,
) -> Result<Listing<RuleId>, ListEnd>
    ensures looks { Looks W.meaning world.old world.new }
    ensures cause { HasListCause (W.meaning.counts world.old) (W.meaning.counts world.new) result }
    ensures ok { DryLists W.meaning graph.old graph.new hash (map_of_view view.now) requested.now world.old world.new result }
{
    graph.laws();
    let gone = paths_gone(alloc, graph, view, world)?;
    let mut inputs = Inputs::past(alloc, hash, graph, gone);
    let plan = plan_over(alloc, graph, &mut inputs, requested, world)?;
    let order = build_order(alloc, graph, &plan, requested)?;
    let rules = list_all(
        alloc,
        world,
        graph,
        &mut inputs,
        view,
        &plan,
        order.as_slice(),
    )?;
    plan.finishes(graph);
    match cycle_of(alloc, graph, &plan) {
        Some(end) => Err(end),
        None => Ok(rules),
    }
}

/// The leftover copies, which a build would take away before it looks at anything.
#[tactic(auto, using(crate::proofs::Ending::ending))]
fn paths_gone<W: World>(
    alloc: Global,
    graph: &Graph,
    view: &View,
    world: &mut W,
) -> Result<IndexSet<PathText>, ListEnd>
    ensures looks { Looks W.meaning world.old world.new }
    ensures cause { HasListCause (W.meaning.counts world.old) (W.meaning.counts world.new) result }
    ensures gone { W.meaning.tells world.new → (W.meaning.around world.old).running ≡ []
        → IfOk result (λ gone. AreGone graph.now (map_of_view view.now) (W.meaning.around world.old) gone.keys) }
{
    let left = leftover_copies(alloc, world, graph, view)?;
    Ok(targets_of(alloc, left.as_slice())?)
}

/// The targets of these records.
fn targets_of(alloc: Global, recs: &[Rec]) -> Result<IndexSet<PathText>, Memory>
    ensures { IfOk result (λ paths. AreTargetsOf recs.now paths.keys) }
{
    let mut paths = IndexSet::new(alloc);
    for rec in recs {
        add_targets(rec, &mut paths)?;
    }
    Ok(paths)
}

fn add_targets(rec: &Rec, paths: &mut IndexSet<PathText>) -> Result<(), Memory>
    ensures { OnOk result ((path : List ℕ) → among_paths paths.new.keys path ≡ (among_paths paths.old.keys path || among_paths rec.now.targets path)) }
{
    for target in rec.targets.as_slice() {
        let _ = paths.insert(target.copy()?)?;
    }
    Ok(())
}

/// Of these rules those that are listed.
#[tactic(auto, using(crate::proofs::Ending::ending))]
fn list_all<W: World>(
    alloc: Global,
    world: &mut W,
    graph: &Graph,
    inputs: &mut Inputs,
    view: &View,
    plan: &Plan,
    order: &[RuleId],
) -> Result<Listing<RuleId>, ListEnd>
    ensures looks { Looks W.meaning world.old world.new }
    ensures cause { HasListCause (W.meaning.counts world.old) (W.meaning.counts world.new) result }
    ensures lists { ListsAll W.meaning graph.now (map_of_view view.now) inputs.old plan.now world.old world.new order.now result }
{
    let mut listed = Listed {
        rules: Vec::new(alloc),
        is_listed: Vec::from_elem(alloc, false, graph.rules() as usize)?,
    };
    for rule in order {
        look_at(world, graph, inputs, view, plan, *rule, &mut listed)?;
    }
    let Listed { rules, .. } = listed;
    Ok(Listing::new(rules))
}

/// Lists a rule where it would be started.
#[tactic(auto, using(crate::proofs::Ending::ending))]
fn look_at<W: World>(
    world: &mut W,
    graph: &Graph,
    inputs: &mut Inputs,
    view: &View,
    plan: &Plan,
    rule: RuleId,
    listed: &mut Listed,
) -> Result<(), ListEnd>
    ensures looks { Looks W.meaning world.old world.new }
    ensures cause { HasListCause (W.meaning.counts world.old) (W.meaning.counts world.new) result }
    ensures ready { StaysReady W.meaning graph.now inputs.old plan.now world.old inputs.new world.new }
    ensures lists { ListsNext W.meaning graph.now (map_of_view view.now) inputs.old plan.now world.old world.new rule listed.old listed.new result }
{
    let deps = plan.deps(rule);
    if deps.len() > DEP_LIMIT as usize {
        return Err(too_many_deps());
    }
    match inputs.present(world, graph, rule, deps)? {
        Present::Record(now) => list_stale(world, graph, view, deps, rule, &now, listed),
        Present::Lacks(node) => Err(missing(graph, rule, node)),
    }
}

/// The fault that a rule has too many dependencies.
#[tactic(auto, using(crate::proofs::Ending::ending))]
fn too_many_deps() -> ListEnd
    ensures { IsInside result }
{
    ListEnd::Fault(BuildFault::TooMany(What::Deps, DEP_LIMIT as u64 + 1))
}

/// Lists a rule with this record where it depends on a listed one or is stale.
#[tactic(auto, using(crate::proofs::Ending::ending))]
fn list_stale<W: World>(
    world: &mut W,
    graph: &Graph,
    view: &View,
    deps: &[NodeId],
    rule: RuleId,
    now: &Rec,
    listed: &mut Listed,
) -> Result<(), ListEnd>
    ensures looks { Looks W.meaning world.old world.new }
    ensures cause { HasListCause (W.meaning.counts world.old) (W.meaning.counts world.new) result }
    ensures lists { Judges W.meaning graph.now (map_of_view view.now) world.old world.new rule now.now (is_fed_by graph.now listed.old deps.now)
        (λ due. OnOk result (Lists listed.old rule listed.new due)) }
{
    if is_due(world, graph, view, deps, rule, now, listed)? {
        list(listed, rule)?;
    }
    Ok(())
}

/// Whether a rule depends on a listed one or is stale.
#[tactic(auto, using(crate::proofs::Ending::ending))]
fn is_due<W: World>(
    world: &mut W,
    graph: &Graph,
    view: &View,
    deps: &[NodeId],
    rule: RuleId,
    now: &Rec,
    listed: &Listed,
) -> Result<bool, ListEnd>
    ensures looks { Looks W.meaning world.old world.new }
    ensures cause { HasListCause (W.meaning.counts world.old) (W.meaning.counts world.new) result }
    ensures due { Judges W.meaning graph.now (map_of_view view.now) world.old world.new rule now.now (is_fed_by graph.now listed.now deps.now)
        (λ due. IfOk result (λ is. is ≡ due)) }
{
    if depends_on_listed(graph, deps, listed) {
        return Ok(true);
    }
    Ok(is_stale(world, graph, view, rule, now)?)
}

/// Whether the rule of some dependency is listed.
fn depends_on_listed(graph: &Graph, deps: &[NodeId], listed: &Listed) -> bool
    ensures { result ≡ is_fed_by graph.now listed.now deps.now }
{
    deps.iter().any(|node| makes_listed(graph, listed, *node))
}

/// Whether the rule of a file is listed.
fn makes_listed(graph: &Graph, listed: &Listed, node: NodeId) -> bool
    ensures { result ≡ makes_listed listed.now (rule_of graph.now.rules node.0) }
{
    match graph.rule_of(node) {
        Some(rule) => listed.is_listed.get(rule.0 as usize) == Some(&true),
        None => false,
    }
}

/// Puts a rule behind those that are listed.
fn list(listed: &mut Listed, rule: RuleId) -> Result<(), Memory>
    ensures marks { OnOk result (listed.new.is_listed.items ≡ slice_set listed.old.is_listed.items rule.0 true) }
    ensures rules { OnOk result (listed.new.rules.items ≡ listed.old.rules.items ++ rule ∷ []) }
{
    let number = rule.0 as usize;
    if number < listed.is_listed.len() {
        listed.is_listed[number] = true;
    }
    listed.rules.push(rule)?;
    Ok(())
}

/// The fault that a dependency of a rule has no rule and is no file.
#[tactic(auto, using(crate::proofs::Ending::ending))]
fn missing(graph: &Graph, rule: RuleId, node: NodeId) -> ListEnd
    ensures { IsInside result }
{
    match (path_copied(graph, node), first_target(graph, rule)) {
        (Ok(node), Ok(target)) => ListEnd::Fault(BuildFault::Missing { node, target }),
        _ => ListEnd::Memory,
    }
}

fn path_copied(graph: &Graph, node: NodeId) -> Result<PathText, Memory> {
    path_of(graph, node)?.copy()
}

/// Whether rules wait for themselves, as a fault.
#[tactic(auto, using(crate::proofs::Ending::ending))]
pub(crate) fn cycle_of(alloc: Global, graph: &Graph, plan: &Plan) -> Option<ListEnd>
    ensures some { IfSome result IsInside }
    ensures none { IfNone result (HasNoCycle plan.now.states plan.now.rules plan.now.origins) }
{
    match plan.cycle() {
        Ok(Some(rules)) => Some(cycle_end(alloc, graph, rules.as_slice())),
        Ok(None) => None,
        Err(_) => Some(ListEnd::Memory),
    }
}

#[tactic(auto, using(crate::proofs::Ending::ending))]
fn cycle_end(alloc: Global, graph: &Graph, rules: &[RuleId]) -> ListEnd
    ensures { IsInside result }
{
    match cycle_paths(alloc, graph, rules) {
        Ok(paths) => ListEnd::Fault(BuildFault::Cycle(paths)),
        Err(_) => ListEnd::Memory,
    }
}

/// The fault of rules that wait for themselves: their first targets, from the least on.
pub fn cycle_fault(alloc: Global, graph: &Graph, rules: &[RuleId]) -> Result<BuildFault, Memory>
    ensures { IfOk result (TellsRing graph.now rules.now) }
{
    Ok(BuildFault::Cycle(cycle_paths(alloc, graph, rules)?))
}

#[tactic(auto, using(crate::proofs::Ringing::told))]
fn cycle_paths(alloc: Global, graph: &Graph, rules: &[RuleId]) -> Result<Paths, Memory>
    ensures { IfOk result (IsRingTold graph.now rules.now) }
{
    let paths = first_targets(alloc, graph, rules)?;
    Ok(Paths::new(from_least(paths)?))
}

/// The first targets of some rules.
fn first_targets(alloc: Global, graph: &Graph, rules: &[RuleId]) -> Result<Vec<PathText>, Memory>
    ensures { IfOk result (λ paths. AreFirstTargets graph.now rules.now paths.items) }
{
    let mut paths: Vec<PathText> = Vec::new(alloc);
    for rule in rules {
        paths.push(first_target(graph, *rule)?)?;
    }
    Ok(paths)
}

/// A ring of paths, turned so that it begins with the least.
#[tactic(auto, using(crate::proofs::Ringing::turns))]
fn from_least(mut paths: Vec<PathText>) -> Result<Vec<PathText>, Memory>
    ensures { IfOk result (λ turned. IsTurned paths.items turned.items) }
{
    let least = place_of_least(paths.as_slice());
    let mut turned = paths.split_off(least)?;
    turned.append(&mut paths)?;
    Ok(turned)
}

/// The place of the least of some paths.
fn place_of_least(paths: &[PathText]) -> usize
    ensures within { result ≤ length paths.now }
    ensures some { 0 < length paths.now → result < length paths.now }
    ensures least { IsPlaceOfLeast paths.now result }
{
    let mut least = 0;
    for (place, path) in paths.iter().enumerate() {
        match paths.get(least) {
            Some(found) if path < found => least = place,
            _ => {}
        }
    }
    least
}
