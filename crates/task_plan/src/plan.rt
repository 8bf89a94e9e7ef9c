//! The plan of a build.

ghost use Rattle.std.specs.Prelude.{◌≡◌, ◌≢◌, ◌<◌, ◌||◌, ◌⊎◌, ◌++◌, [], ℕ, false, true, IfOk, OnOk, IfSome, IfNone, if◌then◌else◌, nat_lt, is_err, length, get_or, List};
ghost use Rattle.std.specs.List.{count_by};
ghost use Rattle.scons_base.specs.declared.ids.RuleId.{RuleId};
ghost use Rattle.scons_base.specs.declared.ids.NodeId.{NodeId};
ghost use Rattle.task_plan.specs.States.{is_faulty as is_faulty_of, is_running, state_of};
ghost use Rattle.task_plan.specs.Settled.{deps_of};
ghost use Rattle.task_plan.specs.Plans.{AreMet, Meets, IsDecidedNext, IsScannedNext, IsReadyToScan, IsIdle, Goes, GoesOn, is_scan, is_halt};
ghost use Rattle.task_plan.specs.Cycles.{HasNoCycle, IsCycle};
ghost use Rattle.task_plan.specs.Held.{AreHeld, HasAllHeld, HasEachOnce, HaveFirstFaults, WaitOnNeeds, HoldWhatNeeds};
ghost use Rattle.task_plan.specs.Watched.{IsComplete, AreTargets, IsNoneReady, IsStill, AreGoingOn, IsFinished};
ghost use Rattle.task_plan.specs.Met.{are_met, AllMet, AllReached, AreFrom, AreNodes, Finds, FindsBy};
ghost use Rattle.task_plan.specs.Orders.{IsOrder};
ghost use Rattle.task_plan.specs.Rooted.{makers_in, news_of, AreReached, AreSought, KeepsSought, NeedsNoOthers};
ghost use Rattle.task_plan.specs.Ordered.{BeginsOrder, IsFirstOf, KeepsOrder, LeavesQueue, TakesBy};
ghost use Rattle.rule_graph.specs.Rules.{are_below};
ghost use Rattle.task_plan.specs.Admits.{Admits, Fits, AllFollow, IsFirstAt, Knows, none};

use crate::cycles::cycle_of;
use crate::files::Files;
use crate::held::held_by;
use crate::marks::Marks;
use crate::queue::Queue;
use crate::states::{RuleState, States};
use crate::task::Task;
use crate::walk::rule_of_number;
use crate::want::{PlanEvent, Want};
use rule_graph::Graph;
use scons_base::{Listing, Memory, NodeId, RuleId};
use std::alloc::Global;
use std::marker::Model;

/// What a build has done, and what it may do next.
#[derive(Drop)]
pub struct Plan {
    pub(crate) states: States,
    /// The needed rules depth first, each after those that it needs. Open are those that can be decided now.
    pub(crate) queue: Queue,
    /// Whether that order fits the files scanned so far.
    pub(crate) is_ordered: bool,
    /// The rules by their numbers in the graph.
    pub(crate) tasks: Vec<Task>,
    pub(crate) files: Files,
    /// The rules of the requested nodes, in order.
    pub(crate) roots: Vec<RuleId>,
    /// Rules that have a file to be scanned now.
    pub(crate) scannable: Marks,
    pub(crate) halted: bool,
    pub(crate) alloc: Global,
}

impl Model for Plan {
    ghost use Rattle.std.specs.Prelude.{map};
    ghost use Rattle.task_plan.specs.Tracked.{AreTracked};
    ghost use Rattle.task_plan.specs.Plans.{Planned};
    ghost use Rattle.task_plan.specs.Settled.{kept_of, next_of};
    ghost use Rattle.task_plan.specs.Noted.{notes_of};

    ghost Value = { Planned };

    ghost view = { λ p. record {
      states = p.states;
      queue = p.queue;
      halted = p.halted;
      rules = map kept_of p.tasks.items;
      origins = p.files.origins.items;
      marks = p.scannable;
      nexts = map next_of p.tasks.items;
      notes = notes_of p.tasks.items p.files.waiters.items p.is_ordered p.roots.items;
    } };

    ghost invariant = { λ p. AreTracked p.states p.queue p.tasks.items p.files.origins.items p.scannable };
}

impl Plan {
    /// The plan that makes the requested nodes.
    pub fn new(alloc: Global, graph: &Graph, requested: &[NodeId]) -> Result<Plan, Memory>
        ensures states { IfOk result (λ plan. AreMet [] plan.states) }
        ensures halted { IfOk result (λ plan. plan.halted ≡ false) }
        ensures knows { IfOk result (λ plan. (rule : ℕ) → state_of plan.states rule ≢ RuleState.Unneeded
            → IsFirstAt graph.now plan.rules rule) }
        ensures fits { IfOk result (λ plan. Fits graph.now plan) }
        ensures follow { IfOk result AllFollow }
        ensures origins { IfOk result (AreFrom graph.now) }
        ensures met { IfOk result (λ plan. are_below (length graph.now.nodes) requested.now ≡ true
            → are_met plan.origins requested.now ≡ true) }
        ensures needs { IfOk result AllMet }
        ensures reached { IfOk result (λ plan. AllReached graph.now requested.now plan.states) }
        ensures only { IfOk result AreReached }
        ensures sought { IfOk result (AreSought requested.now) }
        ensures complete { IfOk result IsComplete }
        ensures roots { IfOk result (λ plan. plan.notes.roots ≡ makers_in graph.now requested.now) }
        ensures order { IfOk result KeepsOrder }
    {
        let mut plan = Plan::empty(alloc)?;
        plan.begin(graph, requested)?;
        plan.follows();
        Ok(plan)
    }

    /// A plan that knows of nothing.
    #[tactic(auto, using(crate::proofs::TrackLemmas::tracked_nothing))]
    fn empty(alloc: Global) -> Result<Plan, Memory>
        ensures states { IfOk result (λ plan. plan.states ≡ []) }
        ensures halted { IfOk result (λ plan. plan.halted ≡ false) }
        ensures origins { IfOk result (λ plan. plan.origins ≡ []) }
        ensures ordered { IfOk result (λ plan. plan.notes.is_ordered ≡ false) }
        ensures roots { IfOk result (λ plan. plan.notes.roots ≡ []) }
    {
        Ok(Plan {
            states: States::new(alloc),
            queue: Queue::new(alloc, 0, Vec::new(alloc))?,
            is_ordered: false,
            tasks: Vec::new(alloc),
            files: Files::new(alloc),
            roots: Vec::new(alloc),
            scannable: Marks::new(alloc, 0)?,
            halted: false,
            alloc,
        })
    }

    /// Meets what is requested, and takes in what it needs.
    #[tactic(auto, using(crate::proofs::AdmitLemmas::beginning))]
    fn begin(&mut self, graph: &Graph, requested: &[NodeId]) -> Result<(), Memory>
        ensures meets { Meets self.old self.new }
        ensures admits { OnOk result (Admits graph.now self.old self.new none []) }
        ensures finds { OnOk result (Finds graph.now self.old self.new requested.now) }
        ensures roots { OnOk result (self.new.notes.roots ≡ self.old.notes.roots ++ makers_in graph.now requested.now) }
        ensures only { OnOk result (self.old.states ≡ [] → self.old.origins ≡ [] → self.old.notes.roots ≡ []
            → AreReached self.new) }
        ensures sought { OnOk result (self.old.states ≡ [] → self.old.origins ≡ [] → self.old.notes.roots ≡ []
            → AreSought requested.now self.new) }
        ensures complete { OnOk result (self.old.states ≡ [] → self.old.origins ≡ [] → self.old.notes.roots ≡ []
            → self.old.notes.is_ordered ≡ false → IsComplete self.new) }
        ensures order { OnOk result (self.old.notes.roots ≡ [] → self.old.notes.is_ordered ≡ false
            → BeginsOrder graph.now self.new) }
    {
        self.make_room(graph)?;
        self.meet_roots(graph, requested)?;
        self.put_in_order()?;
        Ok(())
    }

    /// The lists of each rule follow from its scans, at all times.
    fn follows(&self)
        ensures { AllFollow self.now }
    {
        // What the plan keeps is known of its fields alone.
        let _halted = self.halted;
    }

    /// What is to be done next.
    pub fn next(&self) -> Want
        ensures decide { (rule : RuleId) → result ≡ Want.Decide rule → IsDecidedNext self.now rule.0 }
        ensures scan { (rule : RuleId) (node : NodeId) → result ≡ Want.Scan rule node → IsScannedNext self.now rule.0 node }
        ensures scanned { (rule : RuleId) → result ≡ Want.Decide rule → IsComplete self.now → IsNoneReady self.now }
        ensures still { (result ≡ Want.Wait) ⊎ (result ≡ Want.Rest) → self.now.halted ≡ false → IsComplete self.now
            → IsStill self.now }
        ensures first { (rule : RuleId) → result ≡ Want.Decide rule → KeepsOrder self.now → IsComplete self.now
            → (order : List RuleId) → IsOrder self.now.rules self.now.origins self.now.notes.roots order
            → IsFirstOf self.now order rule }
        ensures wait { result ≡ Want.Wait → IsIdle self.now × (0 < count_by is_running self.now.states) }
        ensures rest { result ≡ Want.Rest → IsIdle self.now × (count_by is_running self.now.states ≡ 0) }
    {
        if self.halted {
            return self.rest();
        }
        if let Some((rule, node)) = self.scan_wanted() {
            return Want::Scan(rule, node);
        }
        match self.queue.first() {
            Some(rule) => Want::Decide(rule),
            None => self.rest(),
        }
    }

    /// Where nothing can be scanned or decided.
    fn rest(&self) -> Want
        ensures { result ≡ (if nat_lt 0 (count_by is_running self.now.states) then Want.Wait else Want.Rest) }
    {
        match self.states.running() {
            0 => Want::Rest,
            _ => Want::Wait,
        }
    }

    /// A rule and a file of it that can be scanned now.
    fn scan_wanted(&self) -> Option<(RuleId, NodeId)>
        ensures some { IfSome result (λ r. IsReadyToScan self.now r.0.0 r.1) }
        ensures none { IfNone result ((rule : ℕ) → get_or self.now.marks rule false ≡ false) }
    {
        let number = self.scannable.first()?;
        let rule = rule_of_number(number)?;
        let task = self.tasks.get(number)?;
        let node = task.reach.files.get_index(task.reach.next)?;
        Some((rule, *node))
    }

    /// Where no rule can go on, none runs, none failed, and none waits for itself, each needed rule is settled.
    pub fn finishes(&self, _graph: &Graph)
        ensures { IsStill self.now → AreGoingOn self.now
            → HasNoCycle self.now.states self.now.rules self.now.origins
            → AllMet self.now → AreFrom _graph.now self.now → Fits _graph.now self.now → IsFinished self.now }
    {}

    /// The dependencies of a rule, in order, by the files scanned so far.
    pub fn deps(&self, rule: RuleId) -> &[NodeId]
        ensures { result.now ≡ deps_of self.now.rules rule.0 }
    {
        match self.tasks.get(rule.0 as usize) {
            Some(task) => task.deps.as_slice(),
            None => &[],
        }
    }

    /// Takes in what came of a want or of a running rule. An event that is neither changes nothing.
    ///
    /// Where memory is wanting the plan halts.
    pub fn step(&mut self, graph: &Graph, event: PlanEvent) -> Result<(), Memory>
        ensures states { Goes self.old event self.new.states }
        ensures onward { GoesOn self.old.states self.new.states }
        ensures halted { self.new.halted ≡ (self.old.halted || (is_halt event || is_err result)) }
        ensures memory { is_scan event ≡ false → is_err result ≡ false }
        ensures knows { OnOk result (Knows graph.now self.old event self.new) }
        ensures fits { OnOk result (Fits graph.now self.old → Fits graph.now self.new) }
        ensures follow { AllFollow self.new }
        ensures origins { OnOk result (AreFrom graph.now self.old → AreFrom graph.now self.new) }
        ensures needs { OnOk result (AreNodes graph.now event → Fits graph.now self.old
            → AllMet self.old → AllMet self.new) }
        ensures only { OnOk result (AreNodes graph.now event → Fits graph.now self.old → AreFrom graph.now self.old
            → AllMet self.old → AreReached self.old → AreReached self.new) }
        ensures sought { OnOk result (AreNodes graph.now event → Fits graph.now self.old → AreFrom graph.now self.old
            → AllMet self.old → AreReached self.old → KeepsSought self.old self.new) }
        ensures roots { OnOk result (self.new.notes.roots ≡ self.old.notes.roots) }
        ensures complete { OnOk result (AreNodes graph.now event → Fits graph.now self.old → AreFrom graph.now self.old
            → AllMet self.old → AreReached self.old → IsComplete self.old → IsComplete self.new) }
        ensures order { OnOk result (AreNodes graph.now event → Fits graph.now self.old → AreFrom graph.now self.old
            → AllMet self.old → KeepsOrder self.old → KeepsOrder self.new) }
    {
        // What the plan keeps is known of its fields alone.
        let _halted = self.halted;
        self.follows();
        let taken = self.take(graph, event);
        self.follows();
        taken
    }

    fn take(&mut self, graph: &Graph, event: PlanEvent) -> Result<(), Memory>
        ensures states { Goes self.old event self.new.states }
        ensures halted { self.new.halted ≡ (self.old.halted || (is_halt event || is_err result)) }
        ensures memory { is_scan event ≡ false → is_err result ≡ false }
        ensures knows { OnOk result (Knows graph.now self.old event self.new) }
        ensures finds { OnOk result (FindsBy graph.now self.old event self.new) }
        ensures others { OnOk result (is_scan event ≡ true
            → NeedsNoOthers graph.now self.old self.new (news_of self.old event)) }
        ensures roots { OnOk result (self.new.notes.roots ≡ self.old.notes.roots) }
        ensures complete { OnOk result (AreNodes graph.now event → AreTargets self.old → AreReached self.new
            → IsComplete self.old → IsComplete self.new) }
        ensures leaves { is_scan event ≡ false → LeavesQueue self.old self.new }
        ensures order { OnOk result (TakesBy self.old event self.new) }
    {
        match event {
            PlanEvent::Scanned(rule, found) => return self.take_scan(graph, rule, found.into_vec()),
            PlanEvent::Fresh(rule) => self.take_fresh(rule),
            PlanEvent::Started(rule) => self.take_decision(rule, RuleState::Running),
            PlanEvent::DoneOk(rule) => self.take_done(rule),
            PlanEvent::DoneFailed(rule) => self.take_failed(rule),
            PlanEvent::Absent(rule, _) => self.take_decision(rule, RuleState::Lacking),
            PlanEvent::Halt => self.halted = true,
        }
        Ok(())
    }

    /// Rules of which each waits for the next, and the last waits for the first. There are none exactly where no needed
    /// rule waits for itself, by the files scanned so far.
    pub fn cycle(&self) -> Result<Option<Listing<RuleId>>, Memory>
        ensures real { IfOk result (λ found. IfSome found (λ cycle.
            IsCycle self.now.states self.now.rules self.now.origins cycle)) }
        ensures none { IfOk result (λ found. IfNone found
            (HasNoCycle self.now.states self.now.rules self.now.origins)) }
    {
        match cycle_of(
            self.alloc,
            &self.states,
            &self.tasks,
            &self.files,
            self.roots.as_slice(),
        )? {
            Some(cycle) => Ok(Some(Listing::new(cycle))),
            None => Ok(None),
        }
    }

    /// Whether a rule failed, or lacks a dependency.
    pub fn is_faulty(&self, rule: RuleId) -> bool
        ensures { result ≡ is_faulty_of (state_of self.now.states rule.0) }
    {
        self.states.is_faulty(rule)
    }

    /// For each rule that waits, directly or through others, for one of these rules at fault, and is none of them: itself
    /// and the first of these, in their order, for which it does.
    pub fn held_by(&self, faulty: &[RuleId]) -> Result<Listing<(RuleId, RuleId)>, Memory>
        ensures real { IfOk result (AreHeld self.now.states self.now.rules self.now.notes.waiters faulty.now) }
        ensures all { IfOk result (HasAllHeld self.now.states self.now.rules self.now.notes.waiters faulty.now) }
        ensures once { IfOk result HasEachOnce }
        ensures first { IfOk result (HaveFirstFaults self.now.states self.now.rules self.now.notes.waiters faulty.now) }
    {
        let held = held_by(self.alloc, &self.states, &self.tasks, &self.files, faulty)?;
        Ok(Listing::new(held))
    }

    /// A rule that waits, and needs one that isn't settled, waits on it. So where that one is at fault it holds the rule, and
    /// whatever else needs it through rules that wait.
    pub fn holds(&self, _graph: &Graph)
        ensures waits { IsComplete self.now → AreFrom _graph.now self.now → Fits _graph.now self.now
            → WaitOnNeeds self.now }
        ensures held { IsComplete self.now → AreFrom _graph.now self.now → Fits _graph.now self.now
            → HoldWhatNeeds self.now }
    {
        // What the plan keeps is known of its fields alone.
        let _halted = self.halted;
    }
}
