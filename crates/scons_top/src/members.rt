//! The members of an alias: there has to be something at the path of each.
ghost use Rattle.std.specs.Prelude.{◌≡◌, ◌<◌, length, true, IfErr};
ghost use Rattle.rule_graph.specs.Rules.{are_below};
ghost use Rattle.scons_top.specs.Asked.{IsMissing, IsNoPath, NamesNone, StopsFor};
ghost use Rattle.scons_top.specs.Finding.{AreOf, FindsMember, FindsMembers, KnowsRecords, MissesFirst, MissesMember, TellsStanding, TellsKept, TellsThere};
ghost use Rattle.scons_top.specs.Foreign.{StepByBytes, StopsByBytes};
ghost use Rattle.scons_top.specs.Requested.{KnowsNodes};
ghost use Rattle.scons_top.specs.Stops.{WorldStep, IsInside};
ghost use Rattle.scons_top.specs.Watching.{Watches};
ghost use Rattle.world_api.specs.Banks.{Banks};

use crate::lookups::{Lookups, is_left_over};
use crate::requests::{has_rule, kind_of, path_in, unknown};
use crate::stop::Stop;
use rule_graph::{BuildFault, Graph};
use scons_base::{NodeId, PathText, Text};
use sign_store::View;
use std::alloc::Global;
use world_api::{Kind, World};

/// The fault of the first member that isn't there. Where targets are to be removed that is no fault.
#[tactic(auto, using(crate::proofs::Watching::standing))]
pub(crate) fn check_members<W: World>(
    alloc: Global,
    world: &mut W,
    graph: &Graph,
    lookups: &mut Lookups,
    is_cleaning: bool,
    word: &Text,
    members: &[NodeId],
) -> Result<(), Stop>
    requires { are_below (length graph.now.nodes) members.now ≡ true }
    ensures watches { Watches W.meaning world.old world.new }
    ensures step { WorldStep (W.meaning.counts world.old) (W.meaning.counts world.new) result }
    ensures stops { IfErr result (StopsFor (IsNoPath word.now)) }
    ensures bytes { StepByBytes W.meaning world.old world.new result }
    ensures knows { KnowsNodes graph.now lookups.old.below → KnowsNodes graph.now lookups.new.below }
    ensures of { AreOf W.meaning graph.now world.old lookups.old → AreOf W.meaning graph.now world.new lookups.new }
    ensures finds { AreOf W.meaning graph.now world.old lookups.old → FindsMembers W.meaning is_cleaning graph.now members.now world.new result }
    ensures misses { AreOf W.meaning graph.now world.old lookups.old → MissesFirst W.meaning graph.now members.now world.new result }
{
    if is_cleaning {
        return Ok(());
    }
    for member in members {
        check_member(alloc, world, graph, lookups, word, *member)?;
    }
    Ok(())
}

#[tactic(auto, using(crate::proofs::Watching::standing))]
fn check_member<W: World>(
    alloc: Global,
    world: &mut W,
    graph: &Graph,
    lookups: &mut Lookups,
    word: &Text,
    member: NodeId,
) -> Result<(), Stop>
    requires { member.0 < length graph.now.nodes }
    ensures watches { Watches W.meaning world.old world.new }
    ensures step { WorldStep (W.meaning.counts world.old) (W.meaning.counts world.new) result }
    ensures stops { IfErr result (StopsFor (IsNoPath word.now)) }
    ensures bytes { StepByBytes W.meaning world.old world.new result }
    ensures knows { KnowsNodes graph.now lookups.old.below → KnowsNodes graph.now lookups.new.below }
    ensures of { AreOf W.meaning graph.now world.old lookups.old → AreOf W.meaning graph.now world.new lookups.new }
    ensures finds { AreOf W.meaning graph.now world.old lookups.old → FindsMember W.meaning graph.now member world.new result }
    ensures misses { AreOf W.meaning graph.now world.old lookups.old → MissesMember W.meaning graph.now member world.new result }
{
    let path = graph.path(member);
    let has = is_there(alloc, world, graph, lookups, path)?;
    if has {
        return Ok(());
    }
    Err(missing(alloc, word, path))
}

/// Whether there is anything at a path, as where a word names it.
#[tactic(auto, using(crate::proofs::Watching::standing))]
fn is_there<W: World>(
    alloc: Global,
    world: &mut W,
    graph: &Graph,
    lookups: &mut Lookups,
    path: &PathText,
) -> Result<bool, Stop>
    ensures watches { Watches W.meaning world.old world.new }
    ensures step { WorldStep (W.meaning.counts world.old) (W.meaning.counts world.new) result }
    ensures stops { IfErr result (StopsFor NamesNone) }
    ensures bytes { StepByBytes W.meaning world.old world.new result }
    ensures knows { KnowsNodes graph.now lookups.old.below → KnowsNodes graph.now lookups.new.below }
    ensures of { AreOf W.meaning graph.now world.old lookups.old → AreOf W.meaning graph.now world.new lookups.new }
    ensures there { AreOf W.meaning graph.now world.old lookups.old → TellsThere W.meaning graph.now path.now world.new result }
{
    let is_made = has_rule(world, graph, path)?;
    if is_made {
        return Ok(true);
    }
    let is_above = lookups.below.has_below(alloc, graph, path)?;
    if is_above {
        return Ok(true);
    }
    stands(alloc, world, graph, &mut lookups.view, path)
}

/// Whether a directory stands at a path, or a file that is no leftover copy.
#[tactic(auto, using(crate::proofs::Watching::standing))]
fn stands<W: World>(
    alloc: Global,
    world: &mut W,
    graph: &Graph,
    view: &mut Option<View>,
    path: &PathText,
) -> Result<bool, Stop>
    ensures watches { Watches W.meaning world.old world.new }
    ensures step { WorldStep (W.meaning.counts world.old) (W.meaning.counts world.new) result }
    ensures stops { IfErr result (StopsFor NamesNone) }
    ensures bytes { StepByBytes W.meaning world.old world.new result }
    ensures records { KnowsRecords W.meaning world.old view.old → KnowsRecords W.meaning world.new view.new }
    ensures stands { KnowsRecords W.meaning world.old view.old → TellsStanding W.meaning graph.now path.now world.new result }
{
    match kind_of(world, path)? {
        Kind::File => is_kept(alloc, world, graph, view, path),
        Kind::Dir => Ok(true),
        Kind::Absent => Ok(false),
    }
}

/// Whether a file is no leftover copy.
fn is_kept<W: World>(
    alloc: Global,
    world: &mut W,
    graph: &Graph,
    view: &mut Option<View>,
    path: &PathText,
) -> Result<bool, Stop>
    ensures watches { Watches W.meaning world.old world.new }
    ensures step { WorldStep (W.meaning.counts world.old) (W.meaning.counts world.new) result }
    ensures stops { IfErr result (StopsFor NamesNone) }
    ensures bytes { StepByBytes W.meaning world.old world.new result }
    ensures records { KnowsRecords W.meaning world.old view.old → KnowsRecords W.meaning world.new view.new }
    ensures kept { KnowsRecords W.meaning world.old view.old → TellsKept W.meaning graph.now path.now world.new result }
{
    Ok(!is_left_over(alloc, world, graph, view, path)?)
}

/// The fault that a member of an alias isn't there. An alias may have a name that is no path.
fn missing(alloc: Global, word: &Text, path: &PathText) -> Stop
    ensures stops { StopsFor (IsMissing word.now path.now) result }
    ensures bytes { (banks : Banks) → StopsByBytes banks result }
    ensures inside { IsInside result }
{
    let target = match path_in(alloc, word) {
        Ok(Some(target)) => target,
        Ok(None) => return unknown(word),
        Err(_) => return Stop::Memory,
    };
    match path.copy() {
        Ok(node) => Stop::Build(BuildFault::Missing { node, target }),
        Err(_) => Stop::Memory,
    }
}
