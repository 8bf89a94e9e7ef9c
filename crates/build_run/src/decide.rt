//! Whether a rule is stale.
ghost use Rattle.std.specs.Prelude.{◌≡◌, ◌≤◌, ◌<◌, [], length, IfOk};
ghost use Rattle.build_files.specs.Causes.{HasLookCause, IsQuiet};
ghost use Rattle.build_run.specs.Causes.{IsInner};
ghost use Rattle.build_run.specs.Along.{GoesAlong, MakesAlong, Presents};
ghost use Rattle.build_run.specs.Endings.{SiteCounts};
ghost use Rattle.build_run.specs.FaultTexts.{SiteKeepsTold};
ghost use Rattle.build_run.specs.Faulted.{IsMissingFor, MakesFaulted, TurnsFaulted};
ghost use Rattle.build_run.specs.Goings.{Stays};
ghost use Rattle.world_api.specs.Looks.{Looks};
ghost use Rattle.build_run.specs.Output.{MakesPrinting, TurnsPrinting};
ghost use Rattle.build_run.specs.Noted.{IsFaultOf, NotesDone, SiteKeepsNoted};
ghost use Rattle.build_run.specs.Reasons.{EndsLast, SiteKeepsReason};
ghost use Rattle.build_run.specs.Safe.{DecidesSafely, TurnsSafelyAs};
ghost use Rattle.build_run.specs.Shown.{ShowsMade};
ghost use Rattle.build_run.specs.Sites.{IsSound, KeepsHeld, SiteEnds, SitePasses};

use crate::explain::why_text;
use crate::site::{Run, Site};
use build_files::{ListEnd, Present, first_target, is_stale, path_of};
use deciders::Rec;
use explain_report::least_is_reason;
use rule_graph::{BuildFault, Graph, What};
use scons_base::limits::DEP_LIMIT;
use scons_base::{NodeId, RuleId};
use task_plan::{PlanEvent, Want};
use world_api::{Sink, World};

impl<W: World, O: Sink, E: Sink> Site<'_, '_, W, O, E> {
    /// Decides a rule: it is fresh, its action is started, or one of its dependencies is missing.
    pub(crate) fn decide(&mut self, rule: RuleId) -> Result<PlanEvent, ListEnd>
        requires sound { IsSound W.meaning self.old }
        requires room { length self.old.run.now.tickets < 64 }
        ensures passes { SitePasses W.meaning self.old self.new }
        ensures ends { SiteEnds W.meaning O.meaning E.meaning self.old self.new result }
        ensures sound { IsSound W.meaning self.new }
        ensures few { length self.new.run.now.held ≤ length self.old.run.now.held }
        ensures kept { KeepsHeld self.old self.new }
        ensures along { GoesAlong W.meaning self.old self.new (Want.Decide rule) result }
        ensures printing { TurnsPrinting W.meaning O.meaning self.old self.new (Want.Decide rule) result }
        ensures safe { TurnsSafelyAs W.meaning self.old self.new (Want.Decide rule) }
        ensures reason { SiteKeepsReason self.old self.new }
        ensures texts { SiteKeepsTold E.meaning self.old self.new }
        ensures last { EndsLast result }
        ensures noted { SiteKeepsNoted self.old self.new }
        ensures counts { SiteCounts W.meaning self.old self.new }
        ensures fails { NotesDone self.new.graph.now self.new.account.now result }
        ensures plan { self.new.run.now.plan ≡ self.old.run.now.plan }
        ensures faulted { TurnsFaulted W.meaning self.old self.new (Want.Decide rule) result }
    {
        match present(self.run, self.world, self.graph, rule)? {
            Present::Record(now) => self.make(rule, now),
            Present::Lacks(node) => {
                let missing = missing_fault(self.graph, rule, node)?;
                self.account
                    .fail(self.err, rule, missing, self.options.keep);
                Ok(PlanEvent::Absent(rule, node))
            }
        }
    }

    /// Starts the action of a rule with this record where it is stale.
    fn make(&mut self, rule: RuleId, now: Rec) -> Result<PlanEvent, ListEnd>
        requires sound { IsSound W.meaning self.old }
        requires room { length self.old.run.now.tickets < 64 }
        ensures passes { SitePasses W.meaning self.old self.new }
        ensures ends { SiteEnds W.meaning O.meaning E.meaning self.old self.new result }
        ensures sound { IsSound W.meaning self.new }
        ensures few { length self.new.run.now.held ≤ length self.old.run.now.held }
        ensures kept { KeepsHeld self.old self.new }
        ensures along { MakesAlong W.meaning self.old self.new rule now result }
        ensures printing { MakesPrinting W.meaning O.meaning self.old self.new rule now result }
        ensures safe { DecidesSafely W.meaning self.old self.new rule now }
        ensures reason { SiteKeepsReason self.old self.new }
        ensures texts { SiteKeepsTold E.meaning self.old self.new }
        ensures last { EndsLast result }
        ensures shows { ShowsMade W.meaning O.meaning self.old self.new rule now result }
        ensures noted { SiteKeepsNoted self.old self.new }
        ensures counts { SiteCounts W.meaning self.old self.new }
        ensures fails { NotesDone self.new.graph.now self.new.account.now result }
        ensures plan { self.new.run.now.plan ≡ self.old.run.now.plan }
        ensures faulted { MakesFaulted W.meaning self.old self.new rule now result }
    {
        least_is_reason();
        if !is_stale(self.world, self.graph, self.store, rule, &now)? {
            return Ok(PlanEvent::Fresh(rule));
        }
        let why = why_text(
            self.account.alloc,
            self.world,
            self.graph,
            self.store,
            &self.options,
            rule,
            &now,
        )?;
        self.start(rule, now, why)?;
        self.account.note_start(rule);
        Ok(PlanEvent::Started(rule))
    }
}

/// The record of a rule over its dependencies as they are now, or one of them that isn't there.
fn present<W: World>(
    run: &mut Run,
    world: &mut W,
    graph: &Graph,
    rule: RuleId,
) -> Result<Present, ListEnd>
    ensures stays { Stays W.meaning world.old world.new }
    ensures cause { HasLookCause (W.meaning.counts world.old) (W.meaning.counts world.new) result }
    ensures tickets { run.new.tickets ≡ run.old.tickets }
    ensures held { run.new.held ≡ run.old.held }
    ensures looks { Looks W.meaning world.old world.new }
    ensures rest { run.new ≡ record run.old { inputs = run.new.inputs } }
    ensures presents { Presents W.meaning graph.now run.old world.old rule run.new world.new result }
{
    let deps = run.plan.deps(rule);
    if deps.len() > DEP_LIMIT as usize {
        return Err(ListEnd::too_many(What::Deps, DEP_LIMIT as u64 + 1));
    }
    run.inputs.present(world, graph, rule, deps)
}

/// The fault that a dependency of a rule has no rule and is no file.
fn missing_fault(graph: &Graph, rule: RuleId, node: NodeId) -> Result<BuildFault, ListEnd>
    ensures inner { IfOk result IsInner }
    ensures quiet { IsQuiet result }
    ensures of { IfOk result (IsFaultOf graph.now rule.0) }
    ensures missing { IfOk result (IsMissingFor graph.now rule.0 node.0) }
{
    Ok(BuildFault::Missing {
        node: path_of(graph, node)?.copy()?,
        target: first_target(graph, rule)?,
    })
}
