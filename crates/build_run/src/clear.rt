//! Clearing the way of an action: the directories of its targets stand, their records are withdrawn, and they are removed.
ghost use Rattle.std.specs.Prelude.{◌≡◌, ◌∷◌, [], None, true, Contains, OnOk, OnErr};
ghost use Rattle.build_run.specs.Along.{KeepsKnown, SameEnds};
ghost use Rattle.build_run.specs.Books.{RefusesSo};
ghost use Rattle.build_run.specs.FaultTexts.{SameTold};
ghost use Rattle.build_run.specs.Faulted.{EndsPlainly};
ghost use Rattle.build_run.specs.Goings.{ClearsAt, Stays, Leaves, AreGone, AreUnused};
ghost use Rattle.build_files.specs.Causes.{HasLookCause};
ghost use Rattle.build_run.specs.Outs.{IsTicketFor, KeepsSome};
ghost use Rattle.build_run.specs.Noted.{SiteKeepsNoted};
ghost use Rattle.build_run.specs.Reasons.{EndsLast, SiteKeepsReason};
ghost use Rattle.build_run.specs.Safe.{GoesSafely, SiteTakesSafely};
ghost use Rattle.build_run.specs.Sites.{IsSound, IsReady, IsCleared, KeepsRecordsBut, SiteEnds, SiteGoes};
ghost use Rattle.build_run.specs.Takes.{Takes};
ghost use Rattle.build_run.specs.Withdrawals.{AreWithdrawn};
ghost use Rattle.sign_store.specs.Stores.{KeepsTickets};
ghost use Rattle.world_api.specs.Around.{IsUnused};

use crate::site::Site;
use build_files::ListEnd;
use indexmap::IndexSet;
use rule_graph::BuildFault;
use scons_base::PathText;
use sign_store::Ticket;
use std::alloc::Global;
use world_api::{AskRefusal, Job, Sink, World};

impl<W: World, O: Sink, E: Sink> Site<'_, '_, W, O, E> {
    /// Makes the directories of a job's targets, withdraws their records, and removes them.
    pub(crate) fn clear(&mut self, job: &Job, ticket: &Ticket) -> Result<(), ListEnd>
        requires sound { IsSound W.meaning self.old }
        requires ready { IsReady self.old job.now ticket.now }
        ensures goes { SiteGoes W.meaning self.old self.new }
        ensures ends { SiteEnds W.meaning O.meaning E.meaning self.old self.new result }
        ensures sound { IsSound W.meaning self.new }
        ensures held { KeepsSome self.old.run.now.held self.new.run.now.held }
        ensures kept { KeepsRecordsBut job.now.targets self.old self.new }
        ensures cleared { OnOk result (IsCleared W.meaning self.new job.now ticket.now) }
        ensures clears { ClearsAt W.meaning job.now.targets self.old.world.now self.new.world.now }
        ensures same { OnOk result (W.meaning.counts self.new.world.now ≡ W.meaning.counts self.old.world.now) }
        ensures known { KeepsKnown self.old self.new }
        ensures account { SameEnds self.old.account.now self.new.account.now }
        ensures well { OnOk result (self.new.account.now ≡ self.old.account.now) }
        ensures tickets { KeepsTickets self.old.store.now self.new.store.now }
        ensures refused { RefusesSo W.meaning job.now.targets self.old self.new result }
        ensures safe { SiteTakesSafely W.meaning job.now.targets self.old self.new }
        ensures reason { SiteKeepsReason self.old self.new }
        ensures texts { SameTold self.old.account.now self.new.account.now }
        ensures last { EndsLast result }
        ensures noted { SiteKeepsNoted self.old self.new }
        ensures plain { EndsPlainly result }
    {
        let targets = job.targets.as_slice();
        make_dirs(self.account.alloc, self.world, &mut self.run.dirs, targets)?;
        self.withdraw(job, ticket)?;
        remove_all(self.world, targets)
    }

    /// Withdraws the records of a job's targets, of which this is the ticket, and puts those that are held with it. Where
    /// there is none to withdraw they stay held. A store that refuses is noted.
    fn withdraw(&mut self, job: &Job, ticket: &Ticket) -> Result<(), ListEnd>
        requires sound { IsSound W.meaning self.old }
        requires ready { IsReady self.old job.now ticket.now }
        ensures goes { SiteGoes W.meaning self.old self.new }
        ensures ends { SiteEnds W.meaning O.meaning E.meaning self.old self.new result }
        ensures sound { IsSound W.meaning self.new }
        ensures held { KeepsSome self.old.run.now.held self.new.run.now.held }
        ensures kept { KeepsRecordsBut job.now.targets self.old self.new }
        ensures withdrawn { OnOk result (AreWithdrawn W.meaning self.new.world.now self.new.store.now job.now.targets) }
        ensures ticket { OnOk result (IsTicketFor self.new.store.now ticket.now job.now.targets) }
        ensures clears { ClearsAt W.meaning [] self.old.world.now self.new.world.now }
        ensures same { OnOk result (W.meaning.counts self.new.world.now ≡ W.meaning.counts self.old.world.now) }
        ensures known { KeepsKnown self.old self.new }
        ensures account { SameEnds self.old.account.now self.new.account.now }
        ensures well { OnOk result (self.new.account.now ≡ self.old.account.now) }
        ensures tickets { KeepsTickets self.old.store.now self.new.store.now }
        ensures shut { OnErr result (self.new.account.now.is_store_shut ≡ true) }
        ensures safe { SiteTakesSafely W.meaning job.now.targets self.old self.new }
        ensures reason { SiteKeepsReason self.old self.new }
        ensures texts { SameTold self.old.account.now self.new.account.now }
        ensures last { EndsLast result }
        ensures noted { SiteKeepsNoted self.old self.new }
        ensures plain { EndsPlainly result }
    {
        if !self.store.has_record(ticket) {
            return Ok(());
        }
        match self
            .store
            .withdraw(self.world, self.run.held.as_slice(), ticket)
        {
            Ok(()) => {
                self.run.held.clear();
                Ok(())
            }
            Err(_) => {
                self.account.is_store_shut = true;
                Err(ListEnd::Fault(BuildFault::StoreFault))
            }
        }
    }
}

/// Removes the targets.
pub(crate) fn remove_all<W: World>(world: &mut W, targets: &[PathText]) -> Result<(), ListEnd>
    requires { AreUnused W.meaning world.old targets.now }
    ensures stays { Stays W.meaning world.old world.new }
    ensures cause { HasLookCause (W.meaning.counts world.old) (W.meaning.counts world.new) result }
    ensures gone { AreGone W.meaning world.new targets.now result }
    ensures only { Takes W.meaning world.old world.new (Contains targets.now) }
    ensures clears { ClearsAt W.meaning targets.now world.old world.new }
    ensures safe { GoesSafely W.meaning world.old world.new }
{
    for target in targets {
        remove(world, target)?;
    }
    Ok(())
}

fn remove<W: World>(world: &mut W, target: &PathText) -> Result<(), ListEnd>
    requires { W.meaning.tells world.old → IsUnused (W.meaning.around world.old).running target.now }
    ensures stays { Stays W.meaning world.old world.new }
    ensures cause { HasLookCause (W.meaning.counts world.old) (W.meaning.counts world.new) result }
    ensures gone { W.meaning.tells world.new → OnOk result ((W.meaning.around world.new).tree target.now ≡ None) }
    ensures others { W.meaning.tells world.new → Leaves target.now (W.meaning.around world.old) (W.meaning.around world.new) }
    ensures only { Takes W.meaning world.old world.new (λ path. path ≡ target.now) }
    ensures clears { ClearsAt W.meaning (target.now ∷ []) world.old world.new }
    ensures safe { GoesSafely W.meaning world.old world.new }
{
    match world.remove(target) {
        Ok(()) => Ok(()),
        Err(_) => Err(ListEnd::tree(target)),
    }
}

/// Makes the directories of some targets.
fn make_dirs<W: World>(
    alloc: Global,
    world: &mut W,
    dirs: &mut IndexSet<PathText>,
    targets: &[PathText],
) -> Result<(), ListEnd>
    requires { W.meaning.closed world.old ≡ [] }
    ensures stays { Stays W.meaning world.old world.new }
    ensures cause { HasLookCause (W.meaning.counts world.old) (W.meaning.counts world.new) result }
    ensures clears { ClearsAt W.meaning [] world.old world.new }
    ensures safe { GoesSafely W.meaning world.old world.new }
{
    for target in targets {
        make_dir(alloc, world, dirs, target)?;
    }
    Ok(())
}

/// Makes the directory of a target, unless that was done before.
fn make_dir<W: World>(
    alloc: Global,
    world: &mut W,
    dirs: &mut IndexSet<PathText>,
    target: &PathText,
) -> Result<(), ListEnd>
    requires { W.meaning.closed world.old ≡ [] }
    ensures stays { Stays W.meaning world.old world.new }
    ensures cause { HasLookCause (W.meaning.counts world.old) (W.meaning.counts world.new) result }
    ensures clears { ClearsAt W.meaning [] world.old world.new }
    ensures safe { GoesSafely W.meaning world.old world.new }
{
    let Ok(dir) = PathText::read(alloc, target.dir()) else {
        return Err(ListEnd::Memory);
    };
    if dirs.contains(&dir) {
        return Ok(());
    }
    raise_dir(world, &dir)?;
    let _ = dirs.insert(dir)?;
    Ok(())
}

fn raise_dir<W: World>(world: &mut W, dir: &PathText) -> Result<(), ListEnd>
    requires { W.meaning.closed world.old ≡ [] }
    ensures stays { Stays W.meaning world.old world.new }
    ensures cause { HasLookCause (W.meaning.counts world.old) (W.meaning.counts world.new) result }
    ensures clears { ClearsAt W.meaning [] world.old world.new }
    ensures safe { GoesSafely W.meaning world.old world.new }
{
    match world.make_dir(dir) {
        Ok(()) => Ok(()),
        Err(AskRefusal::Fault) => Err(ListEnd::tree(dir)),
        Err(AskRefusal::Memory) => Err(ListEnd::Memory),
    }
}
