//! What the events change.

ghost use Rattle.std.specs.Prelude.{◌≡◌, ◌≢◌, ◌<◌, ◌||◌, ◌++◌, ◌∷◌, [], ℕ, true, false, Some, is_err, length, nat_eq, slice_get, slice_set, OnOk, IfOk, IfSome, IfNone, MatchOption};
ghost use Rattle.rule_graph.specs.Rules.{are_below};
ghost use Rattle.task_plan.specs.Queues.{is_placed};
ghost use Rattle.task_plan.specs.Settled.{Kept, is_settled};
ghost use Rattle.task_plan.specs.Noted.{Places, waiters_of};
ghost use Rattle.task_plan.specs.Watched.{every, targets_at, IsHeard, AreWatched, IsOffered, AreQueued, HasNotes, IsComplete, AreTargets};
ghost use Rattle.task_plan.specs.Watching.{KeepsWatch, BringsWatch, Hears, LeavesRules, Offers, Decides, Tells, StartsBefore, Releases, NotesWatch, GrowsWatch, Orders};
ghost use Rattle.task_plan.specs.Ordered.{AreNeedsDone, AreReady, ComesBefore, GrowsInOrder, IsInPlace, KeepsDeps, LeavesOrder, LeavesQueue, PutsInOrder, TakesFiles, TakesOrder};
ghost use Rattle.task_plan.specs.Plans.{AreMet, Meets, Stays, GoesNow, decided as decided_of, ended};
ghost use Rattle.task_plan.specs.Met.{is_met, AreNews, Finds, FindsFile, HasRoom};
ghost use Rattle.task_plan.specs.Rooted.{news_in, AreReached, BringsNoOthers, NeedsNoOthers};
ghost use Rattle.task_plan.specs.Admits.{Admits, Brings, NotesFile, NotesNone, Scans, none, queues};

use crate::order::depth_first;
use crate::plan::Plan;
use crate::queue::Queue;
use crate::reach::Growth;
use crate::states::RuleState;
use rule_graph::Graph;
use scons_base::{Memory, NodeId, RuleId};

impl Plan {
    /// Takes in what a file includes. Where memory is wanting the plan halts.
    pub(crate) fn take_scan(
        &mut self,
        graph: &Graph,
        rule: RuleId,
        found: Vec<NodeId>,
    ) -> Result<(), Memory>
        ensures states { AreMet self.old.states self.new.states }
        ensures halted { self.new.halted ≡ (self.old.halted || is_err result) }
        ensures scans { OnOk result (Scans graph.now self.old rule.0 found.items self.new) }
        ensures finds { OnOk result (FindsFile graph.now self.old self.new rule.0 found.items) }
        ensures others { OnOk result (NeedsNoOthers graph.now self.old self.new
            (news_in (slice_get self.old.rules rule.0) found.items)) }
        ensures roots { OnOk result (self.new.notes.roots ≡ self.old.notes.roots) }
        ensures complete { OnOk result (are_below (length graph.now.nodes) found.items ≡ true → AreReached self.new
            → IsComplete self.old → IsComplete self.new) }
        ensures order { OnOk result (KeepsDeps self.old self.new rule.0 → TakesOrder self.old self.new rule.0) }
    {
        if !self.scannable.contains(rule.0 as usize) {
            return Ok(());
        }
        let taken = self.scanned(graph, rule, found);
        self.halt_where(taken.is_err());
        taken
    }

    /// Nothing further is done where this is so.
    fn halt_where(&mut self, fails: bool)
        ensures states { self.new.states ≡ self.old.states }
        ensures halted { self.new.halted ≡ (self.old.halted || fails) }
        ensures rules { self.new.rules ≡ self.old.rules }
        ensures origins { self.new.origins ≡ self.old.origins }
        ensures rest { self.new ≡ record self.old { halted = self.new.halted } }
    {
        if fails {
            self.halted = true;
        }
    }

    /// A rule that could be decided is fresh.
    pub(crate) fn take_fresh(&mut self, rule: RuleId)
        ensures states { self.new.states ≡ decided_of self.old rule.0 RuleState.Settled }
        ensures halted { self.new.halted ≡ self.old.halted }
        ensures rules { self.new.rules ≡ self.old.rules }
        ensures origins { self.new.origins ≡ self.old.origins }
        ensures complete { AreTargets self.old → IsComplete self.old → IsComplete self.new }
        ensures leaves { LeavesQueue self.old self.new }
    {
        if self.queue.is_open(rule) {
            self.settle(rule);
        }
    }

    /// A rule that could be decided is in this state, and nothing waits for that.
    pub(crate) fn take_decision(&mut self, rule: RuleId, state: RuleState)
        ensures states { self.new.states ≡ decided_of self.old rule.0 state }
        ensures halted { self.new.halted ≡ self.old.halted }
        ensures rules { self.new.rules ≡ self.old.rules }
        ensures origins { self.new.origins ≡ self.old.origins }
        ensures complete { is_settled state ≡ false → state ≢ RuleState.Waiting
            → IsComplete self.old → IsComplete self.new }
        ensures leaves { LeavesQueue self.old self.new }
    {
        if self.queue.is_open(rule) {
            self.decided(rule, state);
        }
    }

    /// A running rule has ended well.
    pub(crate) fn take_done(&mut self, rule: RuleId)
        ensures states { self.new.states ≡ ended self.old rule.0 RuleState.Settled }
        ensures halted { self.new.halted ≡ self.old.halted }
        ensures rules { self.new.rules ≡ self.old.rules }
        ensures origins { self.new.origins ≡ self.old.origins }
        ensures complete { AreTargets self.old → IsComplete self.old → IsComplete self.new }
        ensures leaves { LeavesQueue self.old self.new }
    {
        if self.states.of(rule) == RuleState::Running {
            self.settle(rule);
        }
    }

    /// A running rule has ended otherwise.
    pub(crate) fn take_failed(&mut self, rule: RuleId)
        ensures states { self.new.states ≡ ended self.old rule.0 RuleState.Failed }
        ensures halted { self.new.halted ≡ self.old.halted }
        ensures rules { self.new.rules ≡ self.old.rules }
        ensures origins { self.new.origins ≡ self.old.origins }
        ensures complete { IsComplete self.old → IsComplete self.new }
        ensures leaves { LeavesQueue self.old self.new }
    {
        if self.states.of(rule) == RuleState::Running {
            self.decided(rule, RuleState::Failed);
        }
    }

    /// Notes what the file whose scan is wanted includes.
    fn scanned(&mut self, graph: &Graph, rule: RuleId, found: Vec<NodeId>) -> Result<(), Memory>
        ensures meets { Meets self.old self.new }
        ensures scans { OnOk result (Scans graph.now self.old rule.0 found.items self.new) }
        ensures finds { OnOk result (FindsFile graph.now self.old self.new rule.0 found.items) }
        ensures others { OnOk result (NeedsNoOthers graph.now self.old self.new
            (news_in (slice_get self.old.rules rule.0) found.items)) }
        ensures roots { OnOk result (self.new.notes.roots ≡ self.old.notes.roots) }
        ensures complete { OnOk result (are_below (length graph.now.nodes) found.items ≡ true → AreReached self.new
            → IsComplete self.old → IsComplete self.new) }
        ensures order { OnOk result (KeepsDeps self.old self.new rule.0 → TakesOrder self.old self.new rule.0) }
    {
        let noted = self.note_found(rule, found)?;
        self.take_noted(graph, rule, &noted)?;
        self.look_on(rule)?;
        Ok(())
    }

    /// Takes in what was noted, where something was.
    fn take_noted(
        &mut self,
        graph: &Graph,
        rule: RuleId,
        noted: &Option<Growth>,
    ) -> Result<(), Memory>
        ensures meets { Meets self.old self.new }
        ensures admits { OnOk result (MatchOption noted.now (self.new ≡ self.old)
            (λ _. Admits graph.now self.old self.new none [])) }
        ensures finds { OnOk result (IfSome noted.now (λ growth. Finds graph.now self.old self.new growth.new.items)) }
        ensures watch { OnOk result (IfSome noted.now (λ growth.
            GrowsWatch graph.now self.old self.new rule.0 growth.new.items)) }
        ensures grows { OnOk result (IfSome noted.now (λ growth.
            GrowsInOrder self.old self.new rule.0 growth.in_order growth.new.items)) }
        ensures others { OnOk result (IfSome noted.now (λ growth.
            NeedsNoOthers graph.now self.old self.new growth.new.items)) }
    {
        match noted {
            Some(growth) => self.take_growth(graph, rule, growth),
            None => Ok(()),
        }
    }

    /// Sees to the order, and whether a rule can be decided.
    fn look_on(&mut self, rule: RuleId) -> Result<(), Memory>
        ensures stays { Stays self.old self.new }
        ensures complete { OnOk result (AreReached self.new → HasNotes self.old → AreWatched self.old every none
            → AreQueued self.old (nat_eq rule.0) → IsComplete self.new) }
        ensures puts { OnOk result (PutsInOrder self.old self.new) }
    {
        self.put_in_order()?;
        self.note_decidable(rule);
        Ok(())
    }

    /// Notes what the next file of a rule includes, where that one can be scanned.
    fn note_found(&mut self, rule: RuleId, found: Vec<NodeId>) -> Result<Option<Growth>, Memory>
        ensures meets { Meets self.old self.new }
        ensures states { self.new.states ≡ self.old.states }
        ensures origins { self.new.origins ≡ self.old.origins }
        ensures notes { IfOk result (λ growth. MatchOption growth (NotesNone self.old self.new rule.0)
            (λ _. NotesFile self.old self.new rule.0 found.items)) }
        ensures news { IfOk result (λ growth. IfSome growth (λ g. AreNews self.old rule.0 found.items g.new.items)) }
        ensures none { IfOk result (λ growth. IfNone growth (self.new ≡ self.old)) }
        ensures watch { IfOk result (λ growth. IfSome growth (λ g. NotesWatch self.old self.new rule.0 g.new.items)) }
        ensures files { IfOk result (λ growth. IfSome growth (λ g.
            TakesFiles self.old self.new rule.0 g.in_order g.new.items)) }
    {
        let number = rule.0 as usize;
        if !self.scannable.contains(number) {
            return Ok(None);
        }
        if number >= self.tasks.len() {
            return Ok(None);
        }
        match self.tasks[number].next_file() {
            Some(node) => {
                self.scannable.put(number, false);
                Ok(Some(self.tasks[number].take(node, found)?))
            }
            None => Ok(None),
        }
    }

    /// Takes in what a scan of a rule's file has found.
    #[tactic(auto, using(crate::proofs::AdmitLemmas::scanning))]
    fn take_growth(&mut self, graph: &Graph, rule: RuleId, growth: &Growth) -> Result<(), Memory>
        ensures meets { Meets self.old self.new }
        ensures admits { OnOk result (Admits graph.now self.old self.new none []) }
        ensures finds { OnOk result (Finds graph.now self.old self.new growth.now.new.items) }
        ensures watch { OnOk result (GrowsWatch graph.now self.old self.new rule.0 growth.now.new.items) }
        ensures grows { OnOk result (GrowsInOrder self.old self.new rule.0 growth.now.in_order growth.now.new.items) }
        ensures others { OnOk result (NeedsNoOthers graph.now self.old self.new growth.now.new.items) }
    {
        self.make_room(graph)?;
        let mut needed = Vec::new(self.alloc);
        self.meet_found(graph, rule, growth, &mut needed)?;
        self.pass(rule);
        let start = self.scan_start(rule);
        self.find_ready(rule, start);
        self.note_growth(rule, growth);
        self.admit(graph, needed)?;
        Ok(())
    }

    /// Meets what a scan of a rule's file has found.
    #[tactic(auto, using(crate::proofs::AdmitLemmas::meeting))]
    fn meet_found(
        &mut self,
        graph: &Graph,
        rule: RuleId,
        growth: &Growth,
        needed: &mut Vec<RuleId>,
    ) -> Result<(), Memory>
        requires { HasRoom graph.now self.old }
        ensures meets { Meets self.old self.new }
        ensures brings { OnOk result (Brings graph.now self.old self.new none needed.old.items needed.new.items) }
        ensures finds { OnOk result (Finds graph.now self.old self.new growth.now.new.items) }
        ensures leaves { LeavesRules self.old self.new }
        ensures watch { OnOk result (BringsWatch self.old self.new needed.old.items needed.new.items) }
        ensures hears { OnOk result (Hears graph.now self.old self.new rule.0 growth.now.new.items) }
        ensures order { OnOk result (LeavesOrder self.old self.new) }
        ensures ready { OnOk result (AreReady self.new rule.0 growth.now.new.items) }
        ensures others { OnOk result (BringsNoOthers graph.now self.old self.new growth.now.new.items
            needed.old.items needed.new.items) }
    {
        for node in &growth.new {
            self.meet_one_found(graph, rule, *node, needed)?;
        }
        Ok(())
    }

    /// Meets a file that came by a scan, and waits for it where its rule isn't settled.
    #[tactic(auto, using(crate::proofs::AdmitLemmas::meeting))]
    fn meet_one_found(
        &mut self,
        graph: &Graph,
        rule: RuleId,
        node: NodeId,
        needed: &mut Vec<RuleId>,
    ) -> Result<(), Memory>
        requires { HasRoom graph.now self.old }
        ensures meets { Meets self.old self.new }
        ensures brings { OnOk result (Brings graph.now self.old self.new none needed.old.items needed.new.items) }
        ensures finds { OnOk result (Finds graph.now self.old self.new (node ∷ [])) }
        ensures leaves { LeavesRules self.old self.new }
        ensures watch { OnOk result (BringsWatch self.old self.new needed.old.items needed.new.items) }
        ensures hears { OnOk result (Hears graph.now self.old self.new rule.0 (node ∷ [])) }
        ensures order { OnOk result (LeavesOrder self.old self.new) }
        ensures ready { OnOk result (AreReady self.new rule.0 (node ∷ [])) }
        ensures others { OnOk result (BringsNoOthers graph.now self.old self.new (node ∷ [])
            needed.old.items needed.new.items) }
    {
        self.meet(graph, node, needed)?;
        self.need_also(rule, node)?;
        Ok(())
    }

    /// Where a rule has needs that aren't settled, and a file stands before others now, the order may not fit.
    fn note_growth(&mut self, rule: RuleId, growth: &Growth)
        ensures stays { Stays self.old self.new }
        ensures rest { self.new ≡ record self.old { notes = record self.old.notes { is_ordered = self.new.notes.is_ordered } } }
        ensures fewer { self.new.notes.is_ordered ≡ true → self.old.notes.is_ordered ≡ true }
        ensures place { self.new.notes.is_ordered ≡ true
            → IsInPlace self.old self.old.rules rule.0 growth.now.in_order }
    {
        if !growth.in_order && self.has_unsettled(rule) {
            self.is_ordered = false;
        }
    }

    /// The place from which on a file of a rule may be one to be scanned.
    fn scan_start(&self, rule: RuleId) -> usize
        ensures { (at : Places) → slice_get self.now.notes.places rule.0 ≡ Some at → result ≡ at.next }
    {
        match self.tasks.get(rule.0 as usize) {
            Some(task) => task.reach.next,
            None => 0,
        }
    }

    fn has_unsettled(&self, rule: RuleId) -> bool
        ensures { result ≡ false → (kept : Kept) → slice_get self.now.rules rule.0 ≡ Some kept → AreNeedsDone self.now kept }
    {
        match self.tasks.get(rule.0 as usize) {
            Some(task) => task.passed < task.needs(),
            None => false,
        }
    }

    /// A rule needs one file more, behind all others.
    fn need_also(&mut self, rule: RuleId, node: NodeId) -> Result<(), Memory>
        ensures stays { Stays self.old self.new }
        ensures leaves { LeavesRules self.old self.new }
        ensures watch { OnOk result (KeepsWatch self.old self.new []) }
        ensures hears { OnOk result (HasNotes self.old → is_met self.old.origins node ≡ true
            → IsHeard self.new every rule.0 node) }
        ensures order { OnOk result (LeavesOrder self.old self.new) }
        ensures ready { OnOk result (AreReady self.new rule.0 (node ∷ [])) }
    {
        if self.is_ready(node) {
            return Ok(());
        }
        self.note_need(rule, node);
        self.wait_for(node, rule)
    }

    /// The order may not fit where the rule of a file that a rule needs doesn't stand before this one.
    fn note_need(&mut self, rule: RuleId, node: NodeId)
        ensures stays { Stays self.old self.new }
        ensures rest { self.new ≡ record self.old { notes = record self.old.notes { is_ordered = self.new.notes.is_ordered } } }
        ensures fewer { self.new.notes.is_ordered ≡ true → self.old.notes.is_ordered ≡ true }
        ensures before { self.new.notes.is_ordered ≡ true → ComesBefore self.old rule.0 node }
    {
        if !self.comes_before(node, rule) {
            self.is_ordered = false;
        }
    }

    /// Whether the rule of a file stands before another one.
    fn comes_before(&self, node: NodeId, rule: RuleId) -> bool
        ensures { result ≡ true → ComesBefore self.now rule.0 node }
    {
        match self.files.rule_of(node) {
            Some(needed) => self.queue.precedes(needed, rule),
            None => false,
        }
    }

    /// A decision about a rule was made: it is no longer among those to be decided.
    #[tactic(auto, using(crate::proofs::TrackLemmas::tracked_decided))]
    pub(crate) fn decided(&mut self, rule: RuleId, state: RuleState)
        requires { GoesNow self.old rule.0 }
        ensures states { self.new.states ≡ slice_set self.old.states rule.0 state }
        ensures halted { self.new.halted ≡ self.old.halted }
        ensures rules { self.new.rules ≡ self.old.rules }
        ensures origins { self.new.origins ≡ self.old.origins }
        ensures decides { Decides self.old self.new rule.0 }
        ensures leaves { LeavesQueue self.old self.new }
    {
        self.queue.put(rule, false);
        self.states.set(rule, state);
    }

    /// A rule is settled: what waits for its targets waits no longer.
    pub(crate) fn settle(&mut self, rule: RuleId)
        requires { GoesNow self.old rule.0 }
        ensures states { self.new.states ≡ slice_set self.old.states rule.0 RuleState.Settled }
        ensures halted { self.new.halted ≡ self.old.halted }
        ensures rules { self.new.rules ≡ self.old.rules }
        ensures origins { self.new.origins ≡ self.old.origins }
        ensures complete { AreTargets self.old → IsComplete self.old → IsComplete self.new }
        ensures leaves { LeavesQueue self.old self.new }
    {
        self.decided(rule, RuleState::Settled);
        for place in 0..self.target_count(rule) {
            if let Some(target) = self.target(rule, place) {
                self.release(target);
            }
        }
    }

    fn target_count(&self, rule: RuleId) -> usize
        ensures { result ≡ length (targets_at self.now.rules rule.0) }
    {
        match self.tasks.get(rule.0 as usize) {
            Some(task) => task.targets.len(),
            None => 0,
        }
    }

    fn target(&self, rule: RuleId, place: usize) -> Option<NodeId>
        ensures { result ≡ slice_get (targets_at self.now.rules rule.0) place }
    {
        match self.tasks.get(rule.0 as usize) {
            Some(task) => task.targets.get(place).copied(),
            None => None,
        }
    }

    /// The rules that wait for a file have one need less.
    fn release(&mut self, node: NodeId)
        ensures stays { Stays self.old self.new }
        ensures releases { Releases self.old self.new node }
        ensures leaves { LeavesQueue self.old self.new }
    {
        for place in 0..self.waiter_count(node) {
            if let Some(rule) = self.waiter(node, place) {
                self.has_need_less(rule, node);
            }
        }
    }

    /// How many rules wait for a file.
    fn waiter_count(&self, node: NodeId) -> usize
        ensures { result ≡ length (waiters_of self.now.notes.waiters node.0) }
    {
        self.files.waiters(node).len()
    }

    /// The rule at this place among those that wait for a file.
    fn waiter(&self, node: NodeId, place: usize) -> Option<RuleId>
        ensures { result ≡ slice_get (waiters_of self.now.notes.waiters node.0) place }
    {
        self.files.waiters(node).get(place).copied()
    }

    fn has_need_less(&mut self, rule: RuleId, node: NodeId)
        ensures stays { Stays self.old self.new }
        ensures tells { Tells self.old self.new rule.0 node }
        ensures leaves { LeavesQueue self.old self.new }
    {
        self.pass(rule);
        let start = self.scan_start_with(rule, node);
        self.find_ready(rule, start);
        self.note_decidable(rule);
    }

    /// The same, where this file is one that can be scanned now.
    fn scan_start_with(&self, rule: RuleId, node: NodeId) -> usize
        ensures { StartsBefore self.now rule.0 node result }
    {
        match self.tasks.get(rule.0 as usize) {
            Some(task) => match task.reach.files.get_index_of(&node) {
                Some(place) => place.min(task.reach.next),
                None => task.reach.next,
            },
            None => 0,
        }
    }

    /// Puts a rule among those to be decided where it can be.
    #[tactic(auto, using(crate::proofs::TrackLemmas::tracked_open))]
    fn note_decidable(&mut self, rule: RuleId)
        ensures stays { Stays self.old self.new }
        ensures offers { Offers self.old self.new rule.0 }
    {
        let number = rule.0 as usize;
        if number < self.tasks.len() && self.states.waits(rule) && self.tasks[number].is_ready() {
            self.queue.put(rule, true);
        }
    }

    /// Orders the needed rules anew where the order doesn't fit and every file that can be scanned was.
    pub(crate) fn put_in_order(&mut self) -> Result<(), Memory>
        ensures stays { Stays self.old self.new }
        ensures orders { OnOk result (AreReached self.old → Orders self.old self.new) }
        ensures puts { OnOk result (PutsInOrder self.old self.new) }
    {
        if !self.is_ordered && self.scannable.first().is_none() {
            let order = depth_first(self.alloc, &self.tasks, &self.files, self.roots.as_slice())?;
            self.take_order(order)?;
            self.note_all();
            self.is_ordered = true;
        }
        Ok(())
    }

    /// The rules stand in this order from now on, and none is open.
    #[tactic(auto, using(crate::proofs::TrackLemmas::tracked_closed))]
    fn take_order(&mut self, order: Vec<RuleId>) -> Result<(), Memory>
        ensures stays { Stays self.old self.new }
        ensures rest { self.new ≡ record self.old { queue = self.new.queue } }
        ensures order { OnOk result (self.new.queue.order ≡ order.items) }
        ensures placed { OnOk result ((r : ℕ) → r < length self.old.rules → queues order.items r ≡ true
            → is_placed self.new.queue r ≡ true) }
    {
        self.queue = Queue::new(self.alloc, self.tasks.len(), order)?;
        Ok(())
    }

    /// Puts all rules among those to be decided that can be.
    fn note_all(&mut self)
        ensures stays { Stays self.old self.new }
        ensures rest { self.new ≡ record self.old { queue = self.new.queue } }
        ensures placed { (r : ℕ) → is_placed self.new.queue r ≡ is_placed self.old.queue r }
        ensures offers { (r : ℕ) → is_placed self.old.queue r ≡ true → IsOffered self.new r }
        ensures order { self.new.queue.order ≡ self.old.queue.order }
    {
        for place in 0..self.queue.len() {
            if let Some(rule) = self.queue.at(place) {
                self.note_decidable(rule);
            }
        }
    }
}
