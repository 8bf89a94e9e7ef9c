//! How the action of a stale rule starts.
ghost use Rattle.std.specs.Prelude.{◌≡◌, ◌<◌, ◌≤◌, [], length, true, IfOk, Some, slice_get, string_bytes, OnOk};
ghost use Rattle.rule_graph.specs.declared.rule.Rule.{Rule as DeclaredRule};
ghost use Rattle.build_files.specs.Causes.{IsQuiet};
ghost use Rattle.build_run.specs.Along.{StartsAlong};
ghost use Rattle.build_run.specs.Output.{StartsPrinting};
ghost use Rattle.build_run.specs.Endings.{SiteCounts};
ghost use Rattle.build_run.specs.FaultTexts.{SiteKeepsTold};
ghost use Rattle.build_run.specs.Faulted.{StartsFaulted};
ghost use Rattle.build_run.specs.Noted.{SiteKeepsNoted};
ghost use Rattle.build_run.specs.Reasons.{EndsLast, SiteKeepsReason};
ghost use Rattle.build_run.specs.Safe.{StartsSafely};
ghost use Rattle.build_run.specs.Sites.{IsSound, KeepsHeld, SiteEnds, SitePasses};
ghost use Rattle.build_run.specs.Shown.{PrintsStart};
ghost use Rattle.build_run.specs.Whys.{started_text};
ghost use Rattle.turn_means.specs.Laws.{IsJobFrom};
ghost use Rattle.sign_store.specs.Stores.{IsOut, IsFresh, KeepsBanks, KeepsOthers, KeepsOut, KeepsTickets, is_live, map_of};

use crate::building::Options;
use crate::site::Site;
use crate::tickets::Hold;
use build_files::{ListEnd, rule_at};
use deciders::{Rec, is_valid};
use rule_graph::{BuildFault, Graph, What};
use scons_base::{Memory, Paths, RuleId};
use scons_report::rule_text;
use sign_store::{PrepareRefusal, Store, Ticket};
use std::alloc::Global;
use world_api::{Job, Sink, World, copy_lines};

impl<W: World, O: Sink, E: Sink> Site<'_, '_, W, O, E> {
    /// Starts the action of a rule with this record, for which it has been told why. All memory is taken before anything of the
    /// rule is touched.
    ///
    /// A plan gives each rule once, and after those that make what it reads. So no job comes up that gets in the way of one
    /// that runs, or makes what one has made whose record is held; such a one would be answered as want of memory is. After
    /// a fault of the store nothing starts.
    pub(crate) fn start(&mut self, rule: RuleId, now: Rec, why: String) -> Result<(), ListEnd>
        requires sound { IsSound W.meaning self.old }
        requires room { length self.old.run.now.tickets < 64 }
        ensures passes { SitePasses W.meaning self.old self.new }
        ensures ends { SiteEnds W.meaning O.meaning E.meaning self.old self.new result }
        ensures sound { IsSound W.meaning self.new }
        ensures few { length self.new.run.now.held ≤ length self.old.run.now.held }
        ensures kept { KeepsHeld self.old self.new }
        ensures err { self.new.err.now ≡ self.old.err.now }
        ensures along { StartsAlong W.meaning self.old self.new rule now result }
        ensures safe { StartsSafely W.meaning self.old self.new now }
        ensures reason { SiteKeepsReason self.old self.new }
        ensures texts { SiteKeepsTold E.meaning self.old self.new }
        ensures last { EndsLast result }
        ensures prints { OnOk result (PrintsStart O.meaning self.old self.new rule (string_bytes why)) }
        ensures printing { StartsPrinting W.meaning O.meaning self.old self.new rule now (string_bytes why) result }
        ensures noted { SiteKeepsNoted self.old self.new }
        ensures counts { SiteCounts W.meaning self.old self.new }
        ensures faulted { StartsFaulted W.meaning self.old self.new rule now result }
        ensures plan { self.new.run.now.plan ≡ self.old.run.now.plan }
    {
        if self.account.is_store_shut {
            return Err(ListEnd::Fault(BuildFault::StoreFault));
        }
        let text = shown_text(self.account.alloc, self.graph, &self.options, rule, why)?;
        let job = job_of(self.account.alloc, self.graph, rule, &now)?;
        let hold = Hold::of(&job)?;
        if !self.run.tickets.are_apart(&job) {
            return Err(ListEnd::Memory);
        }
        if !self.run.held.make_none_of(&job) {
            return Err(ListEnd::Memory);
        }
        let ticket = prepare(self.account.alloc, self.store, now)?;
        match self.launch(text.as_str(), job, &ticket) {
            Ok(()) => {
                self.run.tickets.add(hold, ticket);
                Ok(())
            }
            Err(end) => {
                give_up(self.account.is_store_shut, self.store, ticket);
                Err(end)
            }
        }
    }
}

/// What is printed of a rule as it starts: why it does, where that is asked for, and its lines.
fn shown_text(
    alloc: Global,
    graph: &Graph,
    options: &Options,
    rule: RuleId,
    why: String,
) -> Result<String, Memory>
    ensures { IfOk result (λ text. (x : DeclaredRule) → slice_get graph.now.rules rule.0 ≡ Some x
        → string_bytes text ≡ started_text graph.now options.now x (string_bytes why)) }
{
    if options.silent {
        return Ok(String::new(alloc));
    }
    if rule.0 >= graph.rules() {
        return Err(Memory);
    }
    let mut text = why;
    text.push_str(rule_text(alloc, graph, rule)?.as_str())?;
    Ok(text)
}

/// A ticket is given up, unless the store has refused: then it isn't called again.
pub(crate) fn give_up(is_store_shut: bool, store: &mut Store, ticket: Ticket)
    ensures map { map_of store.new ≡ map_of store.old }
    ensures banks { KeepsBanks store.old store.new }
    ensures live { is_live store.new ≡ is_live store.old }
    ensures outs { KeepsOthers ticket store.old store.new }
    ensures tickets { KeepsTickets store.old store.new }
{
    if !is_store_shut {
        store.give_up(ticket);
    }
}

/// The ticket for a record. Each rule has a target, and names none and no dependency twice; a record that does would be
/// answered as want of memory is.
pub(crate) fn prepare(alloc: Global, store: &mut Store, now: Rec) -> Result<Ticket, ListEnd>
    requires { is_live store.old ≡ true }
    ensures out { IfOk result (IsOut store.new now) }
    ensures fresh { IfOk result (IsFresh store.old) }
    ensures outs { KeepsOut store.old store.new }
    ensures tickets { KeepsTickets store.old store.new }
    ensures map { map_of store.new ≡ map_of store.old }
    ensures banks { KeepsBanks store.old store.new }
    ensures live { is_live store.new ≡ is_live store.old }
    ensures quiet { IsQuiet result }
{
    if !is_valid(alloc, &now)? {
        return Err(ListEnd::Memory);
    }
    match store.prepare(now) {
        Ok(ticket) => Ok(ticket),
        Err(PrepareRefusal::Full(count)) => Err(ListEnd::too_many(What::StoreBytes, count)),
        Err(PrepareRefusal::Memory) => Err(ListEnd::Memory),
    }
}

/// The job of a rule. Its number is the rule's.
fn job_of(alloc: Global, graph: &Graph, rule: RuleId, now: &Rec) -> Result<Job, Memory>
    ensures { IfOk result (IsJobFrom graph.now rule now.now) }
{
    let mut deps = Vec::with_capacity(alloc, now.deps.len())?;
    for dep in now.deps.as_slice() {
        deps.push(dep.name.copy()?)?;
    }
    Ok(Job {
        id: rule.0,
        work: now.work,
        targets: now.targets.copy()?,
        lines: copy_lines(alloc, &rule_at(graph, rule)?.lines)?,
        signed: now.signed.copy()?,
        deps: Paths::new(deps),
    })
}
