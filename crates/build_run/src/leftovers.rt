//! Leftover copies, and how a build takes them away before it looks at anything else.
ghost use Rattle.std.specs.Prelude.{◌≡◌, ℕ, List, [], true, Contains, OnOk};
ghost use Rattle.build_files.specs.Causes.{HasLookCause};
ghost use Rattle.build_run.specs.Goings.{ClearsAt, Goes, Stays, AreUnused};
ghost use Rattle.build_run.specs.Outs.{IsTicketFor};
ghost use Rattle.build_run.specs.Outsets.{Leaves, LeavesCopies};
ghost use Rattle.build_run.specs.Safe.{GoesSafely, TakesSafely};
ghost use Rattle.build_run.specs.Takes.{HasTakeCause, AreTaken, Takes, IsLeftAt, IsTargetOf};
ghost use Rattle.build_run.specs.Withdrawals.{AreWithdrawn};
ghost use Rattle.sign_store.specs.Stores.{IsKept, is_live, map_of};

use crate::clear::remove_all;
use crate::start::prepare;
use crate::tickets::Busy;
use build_files::{ListEnd, leftover_copies};
use deciders::Rec;
use rule_graph::{BuildFault, Graph};
use scons_base::{PathText, Paths};
use sign_store::{Store, Ticket};
use std::alloc::Global;
use world_api::World;

/// Takes the leftover copies away: the record of each is withdrawn, and then the file removed. A stop between the two leaves
/// a file without a record, which is a source.
pub(crate) fn take_leftovers<W: World>(
    alloc: Global,
    graph: &Graph,
    store: &mut Store,
    world: &mut W,
) -> Result<(), ListEnd>
    requires idle { W.meaning.tells world.old → (W.meaning.around world.old).running ≡ [] }
    requires live { is_live store.old ≡ true }
    requires kept { IsKept W.meaning world.old store.old }
    ensures goes { Goes W.meaning world.old world.new }
    ensures cause { HasTakeCause (W.meaning.counts world.old) (W.meaning.counts world.new) result }
    ensures live { OnOk result (is_live store.new ≡ true) }
    ensures kept { OnOk result (IsKept W.meaning world.new store.new) }
    ensures gone { AreTaken W.meaning world.new (IsLeftAt graph.now (W.meaning.around world.old) (map_of store.old)) result }
    ensures only { Takes W.meaning world.old world.new (IsLeftAt graph.now (W.meaning.around world.old) (map_of store.old)) }
    ensures rest { LeavesCopies W.meaning graph.now world.old store.old world.new store.new }
    ensures safe { TakesSafely W.meaning (IsLeftAt graph.now (W.meaning.around world.old) (map_of store.old)) world.old world.new }
{
    let left = leftover_copies(alloc, world, graph, store)?;
    take_each(alloc, store, world, left.as_slice())
}

/// Takes away the copies of these records.
fn take_each<W: World>(
    alloc: Global,
    store: &mut Store,
    world: &mut W,
    left: &[Rec],
) -> Result<(), ListEnd>
    requires idle { W.meaning.tells world.old → (W.meaning.around world.old).running ≡ [] }
    requires live { is_live store.old ≡ true }
    requires kept { IsKept W.meaning world.old store.old }
    ensures goes { Goes W.meaning world.old world.new }
    ensures cause { HasTakeCause (W.meaning.counts world.old) (W.meaning.counts world.new) result }
    ensures live { OnOk result (is_live store.new ≡ true) }
    ensures kept { OnOk result (IsKept W.meaning world.new store.new) }
    ensures gone { AreTaken W.meaning world.new (IsTargetOf left.now) result }
    ensures only { Takes W.meaning world.old world.new (IsTargetOf left.now) }
    ensures rest { Leaves W.meaning world.old store.old world.new store.new (IsTargetOf left.now) }
    ensures safe { TakesSafely W.meaning (IsTargetOf left.now) world.old world.new }
{
    for rec in left {
        take_away(alloc, store, world, rec.copy()?)?;
    }
    Ok(())
}

/// Withdraws a record, and then removes its targets.
fn take_away<W: World>(
    alloc: Global,
    store: &mut Store,
    world: &mut W,
    rec: Rec,
) -> Result<(), ListEnd>
    requires idle { W.meaning.tells world.old → (W.meaning.around world.old).running ≡ [] }
    requires live { is_live store.old ≡ true }
    requires kept { IsKept W.meaning world.old store.old }
    ensures goes { Goes W.meaning world.old world.new }
    ensures cause { HasTakeCause (W.meaning.counts world.old) (W.meaning.counts world.new) result }
    ensures live { OnOk result (is_live store.new ≡ true) }
    ensures kept { OnOk result (IsKept W.meaning world.new store.new) }
    ensures gone { AreTaken W.meaning world.new (Contains rec.targets) result }
    ensures only { Takes W.meaning world.old world.new (Contains rec.targets) }
    ensures rest { Leaves W.meaning world.old store.old world.new store.new (Contains rec.targets) }
    ensures safe { TakesSafely W.meaning (Contains rec.targets) world.old world.new }
{
    let targets = rec.targets.copy()?;
    let ticket = prepare(alloc, store, rec)?;
    withdraw(store, world, &ticket, &targets)?;
    store.give_up(ticket);
    remove_unrecorded(store, world, targets.as_slice())
}

/// Withdraws the record of a ticket, which is for these targets.
fn withdraw<W: World>(
    store: &mut Store,
    world: &mut W,
    ticket: &Ticket,
    targets: &Paths,
) -> Result<(), ListEnd>
    requires live { is_live store.old ≡ true }
    requires kept { IsKept W.meaning world.old store.old }
    requires ticket { IsTicketFor store.old ticket.now targets.now }
    ensures goes { Goes W.meaning world.old world.new }
    ensures cause { HasTakeCause (W.meaning.counts world.old) (W.meaning.counts world.new) result }
    ensures live { OnOk result (is_live store.new ≡ true) }
    ensures kept { OnOk result (IsKept W.meaning world.new store.new) }
    ensures withdrawn { OnOk result (AreWithdrawn W.meaning world.new store.new targets.now) }
    ensures around { W.meaning.tells world.new → W.meaning.around world.new ≡ W.meaning.around world.old }
    ensures map { (path : List ℕ) → (Contains targets.now path → ⊥) → map_of store.new path ≡ map_of store.old path }
    ensures safe { TakesSafely W.meaning (Contains targets.now) world.old world.new }
{
    let none: &[Busy] = &[];
    match store.withdraw(world, none, ticket) {
        Ok(()) => Ok(()),
        Err(_) => Err(ListEnd::Fault(BuildFault::StoreFault)),
    }
}

/// Removes files of which nothing is recorded any more, neither in the store nor in what a stop may leave.
fn remove_unrecorded<W: World>(
    store: &Store,
    world: &mut W,
    targets: &[PathText],
) -> Result<(), ListEnd>
    requires withdrawn { AreWithdrawn W.meaning world.old store.now targets.now }
    requires unused { AreUnused W.meaning world.old targets.now }
    ensures stays { Stays W.meaning world.old world.new }
    ensures cause { HasLookCause (W.meaning.counts world.old) (W.meaning.counts world.new) result }
    ensures gone { AreTaken W.meaning world.new (Contains targets.now) result }
    ensures only { Takes W.meaning world.old world.new (Contains targets.now) }
    ensures clears { ClearsAt W.meaning targets.now world.old world.new }
    ensures safe { GoesSafely W.meaning world.old world.new }
{
    remove_all(world, targets)
}
