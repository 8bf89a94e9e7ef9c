//! Starting a job.
ghost use Rattle.std.specs.Prelude.{◌≡◌, ◌≤◌, ◌++◌, ◌∷◌, [], length, Contains, OnOk, OnErr};
ghost use Rattle.build_run.specs.Causes.{HasPrintCause, HasStartCause, IsUnstarted};
ghost use Rattle.build_run.specs.Along.{IsWellStill, KeepsKnown, SameEnds};
ghost use Rattle.build_run.specs.Books.{RefusesSo};
ghost use Rattle.build_run.specs.Endings.{KeepsWant};
ghost use Rattle.build_run.specs.FaultTexts.{SameTold, SiteKeepsTold};
ghost use Rattle.build_run.specs.Faulted.{EndsAtStart, IsStartEnd};
ghost use Rattle.build_run.specs.Goings.{Passes, ClearsAt, LaunchesAt, IsJoined, AreAbsent};
ghost use Rattle.world_api.specs.Laws.{StartsJob};
ghost use Rattle.world_api.specs.Printing.{Cuts, Prints};
ghost use Rattle.build_run.specs.Ledgers.{ledger_of};
ghost use Rattle.build_run.specs.Holds.{Busy, hold_for, holds_in, KeepsApart};
ghost use Rattle.build_run.specs.Output.{PrintsLast};
ghost use Rattle.build_run.specs.Outs.{IsTicketFor, KeepsSome, ShareNone};
ghost use Rattle.build_run.specs.Noted.{KeepsNoted, SiteKeepsNoted};
ghost use Rattle.build_run.specs.Reasons.{EndsLast, SiteKeepsReason, StaysReasoned};
ghost use Rattle.build_run.specs.Safe.{GoesSafely, SiteTakesSafely};
ghost use Rattle.build_run.specs.Sites.{IsReady, IsSound, IsSoundWith, KeepsRecordsBut, SiteEnds, SitePasses, holds_after};
ghost use Rattle.build_run.specs.declared.tickets.Hold.{Hold};
ghost use Rattle.build_run.specs.Withdrawals.{AreWithdrawn, HasNone};
ghost use Rattle.sign_store.specs.Stores.{KeepsTickets, map_of};
ghost use Rattle.world_api.specs.Meaning.{BanksKept};

use crate::account::Account;
use crate::site::{Run, Site};
use build_files::{ListEnd, first_target};
use rule_graph::{BuildFault, Graph};
use scons_base::RuleId;
use sign_store::{Store, Ticket};
use world_api::{AskRefusal, Job, Sink, World, print};

impl<W: World, O: Sink, E: Sink> Site<'_, '_, W, O, E> {
    /// Clears the way of a job, prints its text and starts it.
    pub(crate) fn launch(&mut self, text: &str, job: Job, ticket: &Ticket) -> Result<(), ListEnd>
        requires sound { IsSound W.meaning self.old }
        requires ready { IsReady self.old job ticket.now }
        ensures passes { SitePasses W.meaning self.old self.new }
        ensures ends { SiteEnds W.meaning O.meaning E.meaning self.old self.new result }
        ensures sound { IsSoundWith W.meaning (holds_after result job self.old) (self.new.run.now.held ++ self.new.run.now.tickets) self.new }
        ensures tickets { self.new.run.now.tickets ≡ self.old.run.now.tickets }
        ensures held { KeepsSome self.old.run.now.held self.new.run.now.held }
        ensures kept { KeepsRecordsBut job.targets self.old self.new }
        ensures ticket { OnOk result (IsTicketFor self.new.store.now ticket.now job.targets) }
        ensures none { OnOk result (HasNone (map_of self.new.store.now) job.targets) }
        ensures err { self.new.err.now ≡ self.old.err.now }
        ensures starts { OnOk result (LaunchesAt W.meaning job self.old.world.now self.new.world.now) }
        ensures clears { OnErr result (ClearsAt W.meaning job.targets self.old.world.now self.new.world.now) }
        ensures known { KeepsKnown self.old self.new }
        ensures account { SameEnds self.old.account.now self.new.account.now }
        ensures well { OnOk result (IsWellStill W.meaning self.old self.new) }
        ensures outs { KeepsTickets self.old.store.now self.new.store.now }
        ensures refused { RefusesSo W.meaning job.targets self.old self.new result }
        ensures safe { SiteTakesSafely W.meaning job.targets self.old self.new }
        ensures reason { SiteKeepsReason self.old self.new }
        ensures texts { SiteKeepsTold E.meaning self.old self.new }
        ensures last { EndsLast result }
        ensures prints { OnOk result (Prints O.meaning self.old.out.now self.new.out.now text.now) }
        ensures cuts { OnErr result (PrintsLast O.meaning self.old.out.now self.new.out.now text.now) }
        ensures noted { SiteKeepsNoted self.old self.new }
        ensures want { KeepsWant self.old.account.now self.new.account.now }
        ensures told { SameTold self.old.account.now self.new.account.now }
        ensures faulted { EndsAtStart self.old.graph.now job.id result }
    {
        self.clear(&job, ticket)?;
        show(self.account, self.out, text)?;
        begin(self.graph, self.world, job, self.run, self.store)
    }
}

/// Prints the text of a rule. A sink that refuses is noted.
fn show<O: Sink>(account: &mut Account, out: &mut O, text: &str) -> Result<(), ListEnd>
    ensures account { ledger_of account.new ≡ ledger_of account.old }
    ensures ended { account.new.is_ended ≡ account.old.is_ended }
    ensures cause { HasPrintCause (O.meaning.faults out.old) (O.meaning.faults out.new) result }
    ensures reason { StaysReasoned account.old account.new }
    ensures texts { SameTold account.old account.new }
    ensures prints { OnOk result (Prints O.meaning out.old out.new text.now) }
    ensures cuts { OnErr result (Cuts O.meaning out.old out.new text.now) }
    ensures noted { KeepsNoted account.old account.new }
{
    match print(out, text) {
        Ok(()) => Ok(()),
        Err(_) => {
            account.is_out_shut = true;
            Err(ListEnd::Fault(BuildFault::OutFault))
        }
    }
}

/// Starts a job, of whose targets nothing is recorded any more, neither in the store nor in what a stop may leave, and
/// nothing is held.
fn begin<W: World>(
    graph: &Graph,
    world: &mut W,
    job: Job,
    run: &Run,
    store: &Store,
) -> Result<(), ListEnd>
    requires unclosed { W.meaning.closed world.old ≡ [] }
    requires joined { IsJoined W.meaning world.old (holds_in run.now.tickets) }
    requires apart { (hold : Hold) → Contains (holds_in run.now.tickets) hold → KeepsApart job hold }
    requires clear { AreAbsent W.meaning world.old job.targets }
    requires withdrawn { AreWithdrawn W.meaning world.old store.now job.targets }
    requires unheld { (busy : Busy) → Contains run.now.held busy → ShareNone job.targets busy.hold.targets }
    ensures passes { Passes W.meaning world.old world.new }
    ensures banks { W.meaning.tells world.new → BanksKept W.meaning world.old world.new }
    ensures cause { HasStartCause (W.meaning.counts world.old) (W.meaning.counts world.new) result }
    ensures started { OnOk result (IsJoined W.meaning world.new (holds_in run.now.tickets ++ hold_for job ∷ [])) }
    ensures refused { OnErr result (IsJoined W.meaning world.new (holds_in run.now.tickets)) }
    ensures starts { W.meaning.tells world.new → OnOk result (StartsJob W.meaning job world.old world.new) }
    ensures asks { OnErr result (ClearsAt W.meaning [] world.old world.new) }
    ensures safe { GoesSafely W.meaning world.old world.new }
    ensures faulted { EndsAtStart graph.now job.id result }
{
    let rule = RuleId(job.id);
    match world.start(job) {
        Ok(()) => Ok(()),
        Err(AskRefusal::Fault) => Err(unstarted(graph, rule)),
        Err(AskRefusal::Memory) => Err(ListEnd::Memory),
    }
}

/// The fault that the action of a rule wasn't started.
fn unstarted(graph: &Graph, rule: RuleId) -> ListEnd
    ensures unstarted { IsUnstarted result }
    ensures named { IsStartEnd graph.now rule.0 result }
{
    match first_target(graph, rule) {
        Ok(target) => ListEnd::Fault(BuildFault::StartFault(target)),
        Err(_) => ListEnd::Memory,
    }
}
