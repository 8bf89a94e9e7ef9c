//! The turns of a build: what the plan wants is done, and the plan is told what came of it.
ghost use Rattle.std.specs.Prelude.{◌≡◌, ◌≢◌, ◌⊎◌, ◌≤◌, ◌<◌, [], true, false, length, Err, OnErr};
ghost use Rattle.build_run.specs.Along.{ComesOn, GoesAlong, IsReliable, IsSpent, IsWantedOf, RestsAlong, StaysAlong, StepsOr, Tells, TellsAlong};
ghost use Rattle.build_run.specs.Endings.{KeepsWant, SiteCounts};
ghost use Rattle.build_run.specs.FaultTexts.{KeepsTold, SameTold, SiteKeepsTold};
ghost use Rattle.build_run.specs.Faulted.{AddsDone, GoesFaulted, SiteKeepsFaulted, TellsFaulted, TurnsFaulted};
ghost use Rattle.build_run.specs.Outsets.{StaysKept};
ghost use Rattle.build_run.specs.Ledgers.{ledger_of, with_done, Accounts, Keeps, Reports};
ghost use Rattle.build_run.specs.Output.{IsQuiet, PrintsAlong, TurnsPrinting};
ghost use Rattle.build_run.specs.Noted.{KeepsNoted, NotesDone, SiteKeepsNoted, SiteStaysNoting};
ghost use Rattle.build_run.specs.Reasons.{EndsLast, SiteKeepsReason, StaysReasoned};
ghost use Rattle.build_run.specs.Safe.{SiteGoesSafely, TurnsSafely, TurnsSafelyAs};
ghost use Rattle.build_run.specs.Sites.{IsSound, SiteAccounts, SiteEnds, SitePasses, most_jobs, outside_of};
ghost use Rattle.scons_base.specs.declared.ids.RuleId.{RuleId};
ghost use Rattle.task_plan.specs.Plans.{IsIdle};
ghost use Rattle.task_plan.specs.Watched.{IsStill};

use crate::account::Account;
use crate::building::Options;
use crate::site::{Run, Site};
use build_files::ListEnd;
use rule_graph::Graph;
use scons_base::{NodeId, RuleId};
use task_plan::{Plan, PlanEvent, Want};
use world_api::{Sink, World};

impl<W: World, O: Sink, E: Sink> Site<'_, '_, W, O, E> {
    /// Does what the plan wants until it rests, and waits for what runs still. No record is held at the end.
    pub(crate) fn go_on(&mut self)
        requires sound { IsSound W.meaning self.old }
        ensures passes { SitePasses W.meaning self.old self.new }
        ensures accounts { SiteAccounts W.meaning O.meaning E.meaning self.old self.new }
        ensures put { self.new.run.now.held ≡ [] }
        ensures stored { StaysKept W.meaning self.new.world.now self.new.store.now self.new.account.now }
        ensures idle { W.meaning.tells self.new.world.now → (W.meaning.around self.new.world.now).running ≡ [] }
        ensures on { ComesOn W.meaning self.old self.new }
        ensures printing { PrintsAlong W.meaning O.meaning self.old self.new }
        ensures still { RestsAlong W.meaning self.old self.new }
        ensures safe { TurnsSafely W.meaning self.old self.new }
        ensures reason { SiteKeepsReason self.old self.new }
        ensures texts { SiteKeepsTold E.meaning self.old self.new }
        ensures noting { SiteStaysNoting self.old self.new }
        ensures counts { SiteCounts W.meaning self.old self.new }
        ensures faulted { GoesFaulted W.meaning self.old self.new }
    {
        self.take_turns();
        self.wait_for_all();
        self.put_held();
    }

    /// Does what the plan wants until it rests and nothing runs. Beyond 2^64 - 1 turns, which would take centuries, it says
    /// want of memory.
    fn take_turns(&mut self)
        requires sound { IsSound W.meaning self.old }
        ensures passes { SitePasses W.meaning self.old self.new }
        ensures accounts { SiteAccounts W.meaning O.meaning E.meaning self.old self.new }
        ensures sound { IsSound W.meaning self.new }
        ensures rests { self.new.account.now.memory ≡ false → IsIdle self.new.run.now.plan × (length self.new.run.now.tickets ≡ 0) }
        ensures along { StaysAlong W.meaning self.old self.new }
        ensures still { RestsAlong W.meaning self.old self.new }
        ensures halts { IsSpent self.new }
        ensures printing { PrintsAlong W.meaning O.meaning self.old self.new }
        ensures safe { TurnsSafely W.meaning self.old self.new }
        ensures reason { SiteKeepsReason self.old self.new }
        ensures texts { SiteKeepsTold E.meaning self.old self.new }
        ensures noting { SiteStaysNoting self.old self.new }
        ensures counts { SiteCounts W.meaning self.old self.new }
        ensures faulted { GoesFaulted W.meaning self.old self.new }
    {
        for _turn in 0..u64::MAX {
            let wanted = want(self.run, &self.options);
            if wanted == Want::Rest {
                return;
            }
            let done = self.take_turn(wanted);
            self.tell(done);
        }
        self.tell(Err(ListEnd::Memory));
    }

    /// Waits for the jobs that run still.
    fn wait_for_all(&mut self)
        requires sound { IsSound W.meaning self.old }
        ensures passes { SitePasses W.meaning self.old self.new }
        ensures accounts { SiteAccounts W.meaning O.meaning E.meaning self.old self.new }
        ensures sound { IsSound W.meaning self.new }
        ensures idle { W.meaning.tells self.new.world.now → (W.meaning.around self.new.world.now).running ≡ [] }
        ensures along { IsSpent self.old → StaysAlong W.meaning self.old self.new }
        ensures quiet { IsQuiet W.meaning self.old self.new }
        ensures none { length self.old.run.now.tickets ≡ 0 → self.new ≡ self.old }
        ensures halted { self.old.run.now.plan.halted ≡ true → self.new.run.now.plan.halted ≡ true }
        ensures safe { SiteGoesSafely W.meaning self.old self.new }
        ensures reason { SiteKeepsReason self.old self.new }
        ensures texts { SiteKeepsTold E.meaning self.old self.new }
        ensures noting { SiteStaysNoting self.old self.new }
        ensures counts { SiteCounts W.meaning self.old self.new }
        ensures faulted { SiteKeepsFaulted W.meaning self.old self.new }
    {
        let running = self.run.tickets.len();
        for _turn in 0..running {
            if self.run.tickets.len() == 0 {
                break;
            }
            let event = self.take_ending();
            self.tell(Ok(event));
        }
    }

    /// Tells the plan what came of its want, or the account an end. Nothing new is wanted of a plan once an end has come.
    fn tell(&mut self, done: Result<PlanEvent, ListEnd>)
        ensures passes { SitePasses W.meaning self.old self.new }
        ensures accounts { Accounts (outside_of W.meaning O.meaning E.meaning self.old) (with_done (ledger_of self.old.account.now) done)
            (outside_of W.meaning O.meaning E.meaning self.new) (ledger_of self.new.account.now) }
        ensures sound { IsSound W.meaning self.old → IsSound W.meaning self.new }
        ensures tickets { self.new.run.now.tickets ≡ self.old.run.now.tickets }
        ensures along { TellsAlong W.meaning self.old self.new done }
        ensures quiet { IsQuiet W.meaning self.old self.new }
        ensures still { self.new.world.now ≡ self.old.world.now }
        ensures ends { OnErr done (self.new.account.now.is_ended ≡ true) }
        ensures halted { self.old.run.now.plan.halted ≡ true → self.new.run.now.plan.halted ≡ true }
        ensures memory { done ≡ Err ListEnd.Memory → self.new.account.now.memory ≡ true }
        ensures halts { done ≡ Err ListEnd.Memory → self.new.run.now.plan.halted ≡ true }
        ensures safe { SiteGoesSafely W.meaning self.old self.new }
        ensures reason { EndsLast done → SiteKeepsReason self.old self.new }
        ensures texts { SiteKeepsTold E.meaning self.old self.new }
        ensures noting { NotesDone self.old.graph.now self.old.account.now done → SiteStaysNoting self.old self.new }
        ensures want { KeepsWant self.old.account.now self.new.account.now }
        ensures faulted { TellsFaulted W.meaning self.old self.new done }
    {
        tell(self.graph, &mut self.run.plan, self.account, self.err, done);
        halt(self.graph, &mut self.run.plan, self.account);
    }

    /// Does what is wanted.
    fn take_turn(&mut self, wanted: Want) -> Result<PlanEvent, ListEnd>
        requires sound { IsSound W.meaning self.old }
        requires some { wanted ≡ Want.Wait → 0 < length self.old.run.now.tickets }
        requires room { (rule : RuleId) → wanted ≡ Want.Decide rule → length self.old.run.now.tickets < 64 }
        ensures passes { SitePasses W.meaning self.old self.new }
        ensures ends { SiteEnds W.meaning O.meaning E.meaning self.old self.new result }
        ensures along { GoesAlong W.meaning self.old self.new wanted result }
        ensures printing { TurnsPrinting W.meaning O.meaning self.old self.new wanted result }
        ensures safe { TurnsSafelyAs W.meaning self.old self.new wanted }
        ensures sound { IsSound W.meaning self.new }
        ensures reason { SiteKeepsReason self.old self.new }
        ensures texts { SiteKeepsTold E.meaning self.old self.new }
        ensures last { EndsLast result }
        ensures noted { SiteKeepsNoted self.old self.new }
        ensures counts { SiteCounts W.meaning self.old self.new }
        ensures fails { NotesDone self.new.graph.now self.new.account.now result }
        ensures plan { self.new.run.now.plan ≡ self.old.run.now.plan }
        ensures faulted { TurnsFaulted W.meaning self.old self.new wanted result }
    {
        match wanted {
            Want::Scan(rule, file) => self.scan(rule, file),
            Want::Decide(rule) => self.decide(rule),
            Want::Wait => Ok(self.take_ending()),
            Want::Rest => Ok(PlanEvent::Halt),
        }
    }

    /// Scans a file for a rule.
    fn scan(&mut self, rule: RuleId, file: NodeId) -> Result<PlanEvent, ListEnd>
        ensures passes { SitePasses W.meaning self.old self.new }
        ensures ends { SiteEnds W.meaning O.meaning E.meaning self.old self.new result }
        ensures sound { IsSound W.meaning self.old → IsSound W.meaning self.new }
        ensures along { GoesAlong W.meaning self.old self.new (Want.Scan rule file) result }
        ensures quiet { IsQuiet W.meaning self.old self.new }
        ensures safe { SiteGoesSafely W.meaning self.old self.new }
        ensures reason { SiteKeepsReason self.old self.new }
        ensures texts { SiteKeepsTold E.meaning self.old self.new }
        ensures last { EndsLast result }
        ensures noted { SiteKeepsNoted self.old self.new }
        ensures counts { SiteCounts W.meaning self.old self.new }
        ensures fails { NotesDone self.new.graph.now self.new.account.now result }
        ensures plan { self.new.run.now.plan ≡ self.old.run.now.plan }
        ensures faulted { TurnsFaulted W.meaning self.old self.new (Want.Scan rule file) result }
    {
        let found = self.run.inputs.scanned(self.world, self.graph, rule, file)?;
        self.graph.laws();
        let _ = self.graph.len();
        Ok(PlanEvent::Scanned(rule, found))
    }
}

/// What is to be done next: where all jobs are taken, to wait.
fn want(run: &Run, options: &Options) -> Want
    ensures some { result ≡ Want.Wait → 0 < length run.now.tickets }
    ensures room { (rule : RuleId) → result ≡ Want.Decide rule → length run.now.tickets ≤ 64 → length run.now.tickets < 64 }
    ensures jobs { (rule : RuleId) → result ≡ Want.Decide rule → length run.now.tickets < most_jobs options.now }
    ensures rests { result ≡ Want.Rest → IsIdle run.now.plan × (length run.now.tickets ≡ 0) }
    ensures wanted { result ≢ Want.Rest → (run.now.plan.halted ≡ false → IsReliable run.now.plan)
        → IsWantedOf (length run.now.tickets) (most_jobs options.now) run.now.plan result }
    ensures still { result ≡ Want.Rest → (run.now.plan.halted ≡ false → IsReliable run.now.plan)
        → run.now.plan.halted ≡ false → IsStill run.now.plan }
{
    let running = run.tickets.len();
    if running >= options.most_jobs() {
        return Want::Wait;
    }
    match run.plan.next() {
        Want::Wait | Want::Rest if running == 0 => Want::Rest,
        Want::Wait | Want::Rest => Want::Wait,
        wanted => wanted,
    }
}

/// Nothing new is wanted of a plan once an end has come.
fn halt(graph: &Graph, plan: &mut Plan, account: &Account)
    ensures halts { account.now.is_ended ≡ true → plan.new.halted ≡ true }
    ensures goes { account.now.is_ended ≡ false → plan.new ≡ plan.old }
    ensures stays { plan.old.halted ≡ true → plan.new.halted ≡ true }
{
    if account.is_ended {
        let _ = plan.step(graph, PlanEvent::Halt);
    }
}

/// Tells the plan what came of its want, or the account an end.
fn tell<E: Sink>(
    graph: &Graph,
    plan: &mut Plan,
    account: &mut Account,
    err: &mut E,
    done: Result<PlanEvent, ListEnd>,
)
    ensures reports { Reports E.meaning err.old account.old (with_done (ledger_of account.old) done) err.new account.new }
    ensures tells { Tells graph.now plan.old account.old done plan.new account.new }
    ensures memory { done ≡ Err ListEnd.Memory → account.new.memory ≡ true }
    ensures stays { plan.old.halted ≡ true → plan.new.halted ≡ true }
    ensures reason { EndsLast done → StaysReasoned account.old account.new }
    ensures texts { KeepsTold E.meaning err.old account.old err.new account.new }
    ensures noted { KeepsNoted account.old account.new }
    ensures want { KeepsWant account.old account.new }
    ensures lists { AddsDone account.old done account.new }
{
    match done {
        Ok(event) => step(graph, plan, account, event),
        Err(end) => account.end(err, end),
    }
}

fn step(graph: &Graph, plan: &mut Plan, account: &mut Account, event: PlanEvent)
    ensures keeps { Keeps account.old (ledger_of account.old) account.new }
    ensures steps { StepsOr graph.now plan.old event plan.new account.old account.new }
    ensures stays { plan.old.halted ≡ true → plan.new.halted ≡ true }
    ensures reason { StaysReasoned account.old account.new }
    ensures texts { SameTold account.old account.new }
    ensures noted { KeepsNoted account.old account.new }
{
    match plan.step(graph, event) {
        Ok(()) => {}
        Err(_) => account.want_memory(),
    }
}
