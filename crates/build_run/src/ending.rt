//! What follows from the ending of an action.
ghost use Rattle.std.specs.Prelude.{◌≡◌, ◌<◌, ◌+◌, ◌++◌, ◌∷◌, [], List, ℕ, length, true};
ghost use Rattle.build_run.specs.Along.{is_faulted, EndsAlong, GoesOnAfter, HoldsFewer, KeepsEnds, KeepsKnown, StandsPut, TakesAlong};
ghost use Rattle.build_run.specs.Endings.{KeepsWant, SiteCounts};
ghost use Rattle.build_run.specs.FaultTexts.{KeepsTold, SiteKeepsTold};
ghost use Rattle.build_run.specs.Faulted.{AddsOutcome, SiteKeepsFaulted};
ghost use Rattle.build_run.specs.Goings.{Passes, IsJoined};
ghost use Rattle.build_run.specs.Holds.{holds_in, without};
ghost use Rattle.build_run.specs.Ledgers.{ledger_of, with_outcome, Reports};
ghost use Rattle.build_run.specs.Output.{IsQuiet};
ghost use Rattle.build_run.specs.Outs.{LogsEnding};
ghost use Rattle.build_run.specs.Noted.{IsNotedIn, KeepsNoted, NotesEvent, SiteKeepsNoted};
ghost use Rattle.build_run.specs.Reasons.{KeepsReason, SiteKeepsReason};
ghost use Rattle.build_run.specs.Safe.{GoesSafely, HoldsSafely, SiteGoesSafely};
ghost use Rattle.build_run.specs.Sites.{IsSound, IsSoundWith, IsStoredFor, KeepsRecords, PutsRecord, SiteAccounts, SitePasses, SitePuts, TakesEnding, most_jobs};
ghost use Rattle.sign_store.specs.Stores.{KeepsTickets};
ghost use Rattle.world_api.specs.Causes.{HasOutcomeCause};
ghost use Rattle.world_api.specs.Laws.{EndsJob};
ghost use Rattle.world_api.specs.Meaning.{BanksKept};

use crate::account::Account;
use crate::building::Options;
use crate::site::{Run, Site};
use crate::start::give_up;
use crate::tickets::Busy;
use build_files::{ListEnd, first_target};
use rule_graph::{BuildFault, Graph};
use scons_base::RuleId;
use sign_store::Ticketed;
use task_plan::PlanEvent;
use world_api::{Ended, Outcome, Sink, World};

impl<W: World, O: Sink, E: Sink> Site<'_, '_, W, O, E> {
    /// Waits for an action to end. Where fewer run than may, the records that are held are put before: so a build that waits
    /// for one long action has all of them on the disk.
    pub(crate) fn take_ending(&mut self) -> PlanEvent
        requires sound { IsSound W.meaning self.old }
        requires some { 0 < length self.old.run.now.tickets }
        ensures passes { SitePasses W.meaning self.old self.new }
        ensures accounts { SiteAccounts W.meaning O.meaning E.meaning self.old self.new }
        ensures sound { IsSound W.meaning self.new }
        ensures takes { TakesEnding W.meaning self.old self.new result }
        ensures along { EndsAlong W.meaning self.old self.new result }
        ensures quiet { IsQuiet W.meaning self.old self.new }
        ensures halted { self.new.run.now.plan ≡ self.old.run.now.plan }
        ensures safe { SiteGoesSafely W.meaning self.old self.new }
        ensures reason { SiteKeepsReason self.old self.new }
        ensures texts { SiteKeepsTold E.meaning self.old self.new }
        ensures noted { SiteKeepsNoted self.old self.new }
        ensures counts { SiteCounts W.meaning self.old self.new }
        ensures faulted { SiteKeepsFaulted W.meaning self.old self.new }
        ensures fails { NotesEvent self.new.graph.now self.new.account.now result }
    {
        self.put_if_few();
        self.take_ended()
    }

    /// Puts the records that are held where fewer jobs run than may.
    fn put_if_few(&mut self)
        requires { IsSound W.meaning self.old }
        ensures puts { SitePuts W.meaning self.old self.new }
        ensures accounts { SiteAccounts W.meaning O.meaning E.meaning self.old self.new }
        ensures sound { IsSound W.meaning self.new }
        ensures kept { KeepsRecords self.old self.new }
        ensures waits { length self.old.run.now.tickets < most_jobs self.old.options → self.new.run.now.held ≡ [] }
        ensures tickets { KeepsTickets self.old.store.now self.new.store.now }
        ensures known { KeepsKnown self.old self.new }
        ensures held { HoldsFewer self.old.run.now.held self.new.run.now.held }
        ensures stands { StandsPut W.meaning self.old self.new }
        ensures safe { SiteGoesSafely W.meaning self.old self.new }
        ensures reason { SiteKeepsReason self.old self.new }
        ensures texts { SiteKeepsTold E.meaning self.old self.new }
        ensures noted { SiteKeepsNoted self.old self.new }
        ensures want { KeepsWant self.old.account.now self.new.account.now }
        ensures faulted { SiteKeepsFaulted W.meaning self.old self.new }
    {
        if self.run.tickets.len() >= self.options.most_jobs() {
            return;
        }
        self.put_held();
    }

    /// Waits for an action to end. The record of a rule whose action ended well is held, and one whose action didn't is
    /// reported. An ending that is no running rule's, of which nothing can be told, is answered as want of memory is.
    fn take_ended(&mut self) -> PlanEvent
        requires sound { IsSound W.meaning self.old }
        requires some { 0 < length self.old.run.now.tickets }
        requires waits { length self.old.run.now.tickets < most_jobs self.old.options → self.old.run.now.held ≡ [] }
        ensures passes { SitePasses W.meaning self.old self.new }
        ensures accounts { SiteAccounts W.meaning O.meaning E.meaning self.old self.new }
        ensures sound { IsSound W.meaning self.new }
        ensures takes { TakesEnding W.meaning self.old self.new result }
        ensures along { TakesAlong W.meaning self.old self.new result }
        ensures quiet { IsQuiet W.meaning self.old self.new }
        ensures halted { self.new.run.now.plan ≡ self.old.run.now.plan }
        ensures safe { SiteGoesSafely W.meaning self.old self.new }
        ensures reason { SiteKeepsReason self.old self.new }
        ensures texts { SiteKeepsTold E.meaning self.old self.new }
        ensures noted { SiteKeepsNoted self.old self.new }
        ensures counts { SiteCounts W.meaning self.old self.new }
        ensures faulted { SiteKeepsFaulted W.meaning self.old self.new }
        ensures fails { NotesEvent self.new.graph.now self.new.account.now result }
    {
        let ended = wait(self.world, self.run, &self.options);
        let Some(busy) = self.run.tickets.take(ended.id) else {
            self.account.want_memory();
            return PlanEvent::Halt;
        };
        let rule = busy.hold.rule;
        match ended.outcome {
            Outcome::Done => {
                self.hold(busy);
                PlanEvent::DoneOk(rule)
            }
            outcome => {
                give_up(self.account.is_store_shut, self.store, busy.ticket);
                not_done(
                    self.graph,
                    self.account,
                    self.err,
                    &self.options,
                    rule,
                    outcome,
                );
                PlanEvent::DoneFailed(rule)
            }
        }
    }

    /// Holds a record behind those that are held. Once there are as many as jobs may run they are put.
    fn hold(&mut self, busy: Busy)
        requires { IsSoundWith W.meaning (holds_in self.old.run.now.tickets)
            (self.old.run.now.held ++ busy ∷ self.old.run.now.tickets) self.old }
        ensures puts { SitePuts W.meaning self.old self.new }
        ensures accounts { SiteAccounts W.meaning O.meaning E.meaning self.old self.new }
        ensures sound { IsSound W.meaning self.new }
        ensures record { PutsRecord busy.ticket self.old self.new }
        ensures tickets { KeepsTickets self.old.store.now self.new.store.now }
        ensures known { KeepsKnown self.old self.new }
        ensures held { HoldsFewer (self.old.run.now.held ++ busy ∷ []) self.new.run.now.held }
        ensures stands { StandsPut W.meaning self.old self.new }
        ensures safe { HoldsSafely W.meaning busy self.old self.new }
        ensures reason { SiteKeepsReason self.old self.new }
        ensures texts { SiteKeepsTold E.meaning self.old self.new }
        ensures noted { SiteKeepsNoted self.old self.new }
        ensures want { KeepsWant self.old.account.now self.new.account.now }
        ensures faulted { SiteKeepsFaulted W.meaning self.old self.new }
    {
        let Ticketed { hold, ticket } = busy;
        self.run.held.add(hold, ticket);
        if self.run.held.len() < self.options.most_jobs() {
            return;
        }
        self.put_held();
    }

    /// Puts the records that are held, unless the store has refused before. None is held then.
    pub(crate) fn put_held(&mut self)
        requires { IsStoredFor W.meaning (self.old.run.now.held ++ self.old.run.now.tickets) self.old }
        ensures puts { SitePuts W.meaning self.old self.new }
        ensures accounts { SiteAccounts W.meaning O.meaning E.meaning self.old self.new }
        ensures stored { IsStoredFor W.meaning self.new.run.now.tickets self.new }
        ensures none { self.new.run.now.held ≡ [] }
        ensures kept { KeepsRecords self.old self.new }
        ensures tickets { KeepsTickets self.old.store.now self.new.store.now }
        ensures known { KeepsKnown self.old self.new }
        ensures held { HoldsFewer self.old.run.now.held self.new.run.now.held }
        ensures stands { StandsPut W.meaning self.old self.new }
        ensures safe { SiteGoesSafely W.meaning self.old self.new }
        ensures reason { SiteKeepsReason self.old self.new }
        ensures texts { SiteKeepsTold E.meaning self.old self.new }
        ensures noted { SiteKeepsNoted self.old self.new }
        ensures want { KeepsWant self.old.account.now self.new.account.now }
        ensures faulted { SiteKeepsFaulted W.meaning self.old self.new }
    {
        if self.account.is_store_shut {
            self.run.held.clear();
            return;
        }
        match self.store.put(self.world, self.run.held.as_slice()) {
            Ok(()) => self.run.held.clear(),
            Err(_) => {
                self.run.held.clear();
                self.account.is_store_shut = true;
                let fault = ListEnd::Fault(BuildFault::StoreFault);
                self.account.end(self.err, fault);
            }
        }
    }
}

/// Waits until a job ends. Where fewer run than may no record is held.
fn wait<W: World>(world: &mut W, run: &Run, options: &Options) -> Ended
    requires some { 0 < length run.now.tickets }
    requires joined { IsJoined W.meaning world.old (holds_in run.now.tickets) }
    requires waits { length run.now.tickets < most_jobs options.now → run.now.held ≡ [] }
    ensures passes { Passes W.meaning world.old world.new }
    ensures joined { IsJoined W.meaning world.new (without result.id (holds_in run.now.tickets)) }
    ensures fewer { W.meaning.tells world.new → length (without result.id (holds_in run.now.tickets)) + 1 ≡ length run.now.tickets }
    ensures log { LogsEnding W.meaning world.old world.new result }
    ensures cause { HasOutcomeCause result.outcome (W.meaning.counts world.old) (W.meaning.counts world.new) }
    ensures banks { W.meaning.tells world.new → BanksKept W.meaning world.old world.new }
    ensures ends { W.meaning.tells world.new → EndsJob W.meaning result world.old world.new }
    ensures safe { GoesSafely W.meaning world.old world.new }
{
    world.wait()
}

/// Reports an action that wasn't done.
fn not_done<E: Sink>(
    graph: &Graph,
    account: &mut Account,
    err: &mut E,
    options: &Options,
    rule: RuleId,
    outcome: Outcome,
)
    ensures ends { KeepsEnds account.old account.new }
    ensures faulted { is_faulted account.new ≡ true }
    ensures goes { GoesOnAfter outcome options.now account.new }
    ensures reports { (target : List ℕ)
        × Reports E.meaning err.old account.old (with_outcome (ledger_of account.old) target outcome) err.new account.new }
    ensures reason { KeepsReason options.now.keep account.old account.new }
    ensures texts { KeepsTold E.meaning err.old account.old err.new account.new }
    ensures noted { KeepsNoted account.old account.new }
    ensures notes { IsNotedIn graph.now account.new rule.0 }
    ensures want { KeepsWant account.old account.new }
    ensures wants { outcome ≡ Outcome.NoMemory → account.new.memory ≡ true }
    ensures lists { AddsOutcome graph.now rule.0 outcome account.old account.new }
{
    let Ok(target) = first_target(graph, rule) else {
        account.want_memory();
        return;
    };
    match outcome {
        Outcome::Failed(code) => {
            let failed = BuildFault::ActionFailed { target, code };
            account.fail(err, rule, failed, options.keep);
        }
        Outcome::Broken => account.end(err, ListEnd::Fault(BuildFault::StartFault(target))),
        Outcome::NoMemory | Outcome::Done => account.want_memory(),
    }
}
