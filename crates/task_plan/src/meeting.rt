//! How the plan meets files, and with them the rules that are needed.

ghost use Rattle.std.specs.Prelude.{◌≡◌, ◌<◌, ◌≤◌, [], ℕ, Some, false, true, length, slice_get, slice_set, nat_eq, OnOk, ◌≢◌, ◌+◌, ◌∷◌, ◌++◌};
ghost use Rattle.scons_base.specs.declared.ids.NodeId.{NodeId};
ghost use Rattle.rule_graph.specs.Rules.{rule_of};
ghost use Rattle.task_plan.specs.States.{state_of};
ghost use Rattle.task_plan.specs.Settled.{CanScan, is_done, kept_of, origin_of};
ghost use Rattle.task_plan.specs.Plans.{Meets, Stays};
ghost use Rattle.task_plan.specs.Listed.{IsListing};
ghost use Rattle.task_plan.specs.Noted.{waiters_of};
ghost use Rattle.task_plan.specs.Tracked.{IsUnreadyAt, AreUnreadyTo};
ghost use Rattle.task_plan.specs.Ordered.{LeavesOrder, MeetsRoots};
ghost use Rattle.task_plan.specs.Watching.{WidensWatch, BringsWatch, Hears, LeavesRules, PutsTask, Passes, Readies, AdmitsWatch, EndsWatch};
ghost use Rattle.task_plan.specs.Met.{Finds, HasRoom, needs_at};
ghost use Rattle.task_plan.specs.Admits.{Widens, Admits, Brings, IsBegun, are_rules, queues, none};
ghost use Rattle.task_plan.specs.Rooted.{makers_in, NeedsNoOthers, BringsNoOthers, AdmitsNoOthers, EndsNoOthers};

use crate::files::{Files, Origin};
use crate::naming::task_of;
use crate::plan::Plan;
use crate::reach::Reach;
use crate::states::{RuleState, States};
use crate::task::Task;
use rule_graph::Graph;
use scons_base::{Memory, NodeId, RuleId};

impl Plan {
    /// Makes room for the nodes and rules of the graph.
    #[tactic(auto, using(crate::proofs::AdmitLemmas::scanning))]
    pub(crate) fn make_room(&mut self, graph: &Graph) -> Result<(), Memory>
        ensures meets { Meets self.old self.new }
        ensures widens { Widens self.old self.new }
        ensures room { OnOk result (HasRoom graph.now self.new) }
        ensures watch { WidensWatch self.old self.new }
        ensures marks { OnOk result (length self.new.rules ≤ length self.new.marks) }
        ensures roots { self.new.notes.roots ≡ self.old.notes.roots }
    {
        self.make_node_room(graph.len())?;
        self.make_rule_room(graph.rules())?;
        self.make_mark_room()?;
        Ok(())
    }

    #[tactic(auto, using(crate::proofs::TrackLemmas::tracked_origins))]
    fn make_node_room(&mut self, nodes: u32) -> Result<(), Memory>
        ensures meets { Meets self.old self.new }
        ensures widens { Widens self.old self.new }
        ensures room { OnOk result (nodes ≤ length self.new.origins) }
        ensures watch { WidensWatch self.old self.new }
        ensures roots { self.new.notes.roots ≡ self.old.notes.roots }
    {
        self.files.reach(nodes)
    }

    /// Makes room for this many rules.
    #[tactic(auto, using(crate::proofs::AdmitLemmas::scanning))]
    fn make_rule_room(&mut self, rules: u32) -> Result<(), Memory>
        ensures meets { Meets self.old self.new }
        ensures widens { Widens self.old self.new }
        ensures room { OnOk result (rules ≤ length self.new.states) }
        ensures watch { WidensWatch self.old self.new }
        ensures roots { self.new.notes.roots ≡ self.old.notes.roots }
    {
        while self.rule_count() < rules as usize {
            self.push_task()?;
        }
        self.make_state_room()?;
        Ok(())
    }

    /// Rules that have room aren't needed.
    #[tactic(auto, using(crate::proofs::AdmitLemmas::scanning))]
    fn make_state_room(&mut self) -> Result<(), Memory>
        ensures meets { Meets self.old self.new }
        ensures widens { Widens self.old self.new }
        ensures room { OnOk result (length self.old.rules ≤ length self.new.states) }
        ensures watch { WidensWatch self.old self.new }
        ensures roots { self.new.notes.roots ≡ self.old.notes.roots }
    {
        while self.state_count() < self.rule_count() {
            self.add_state()?;
        }
        Ok(())
    }

    fn rule_count(&self) -> usize
        ensures { result ≡ length self.now.rules }
    {
        self.tasks.len()
    }

    fn state_count(&self) -> usize
        ensures { result ≡ length self.now.states }
    {
        self.states.len()
    }

    #[tactic(auto, using(crate::proofs::TrackLemmas::pushing))]
    fn push_task(&mut self) -> Result<(), Memory>
        ensures meets { Meets self.old self.new }
        ensures widens { Widens self.old self.new }
        ensures more { OnOk result (length self.new.rules ≡ length self.old.rules + 1) }
        ensures watch { WidensWatch self.old self.new }
        ensures roots { self.new.notes.roots ≡ self.old.notes.roots }
    {
        self.tasks.push(Task::new(self.alloc))?;
        Ok(())
    }

    /// A rule that has room isn't needed.
    fn add_state(&mut self) -> Result<(), Memory>
        requires { length self.old.states < length self.old.rules }
        ensures meets { Meets self.old self.new }
        ensures widens { Widens self.old self.new }
        ensures rules { self.new.rules ≡ self.old.rules }
        ensures more { OnOk result (length self.new.states ≡ length self.old.states + 1) }
        ensures watch { WidensWatch self.old self.new }
        ensures roots { self.new.notes.roots ≡ self.old.notes.roots }
    {
        self.states.add()
    }

    /// Makes room for marks of twice as many rules as there are, where it doesn't do for these.
    #[tactic(auto, using(crate::proofs::TrackLemmas::tracked_marks))]
    fn make_mark_room(&mut self) -> Result<(), Memory>
        ensures stays { Stays self.old self.new }
        ensures watch { WidensWatch self.old self.new }
        ensures marks { OnOk result (length self.new.rules ≤ length self.new.marks) }
        ensures roots { self.new.notes.roots ≡ self.old.notes.roots }
    {
        if self.tasks.len() > self.scannable.room() {
            let size = self.tasks.len().saturating_mul(2);
            let marks = self.scannable.widened(self.alloc, size)?;
            self.scannable = marks;
        }
        Ok(())
    }

    /// Meets the requested nodes. Their rules become the roots, in the order of the nodes.
    #[tactic(auto, using(crate::proofs::AdmitLemmas::scanning))]
    pub(crate) fn meet_roots(&mut self, graph: &Graph, requested: &[NodeId]) -> Result<(), Memory>
        requires { HasRoom graph.now self.old }
        ensures meets { Meets self.old self.new }
        ensures admits { OnOk result (Admits graph.now self.old self.new none []) }
        ensures finds { OnOk result (Finds graph.now self.old self.new requested.now) }
        ensures watch { OnOk result (EndsWatch self.old self.new [] []) }
        ensures roots { OnOk result (self.new.notes.roots ≡ self.old.notes.roots ++ makers_in graph.now requested.now) }
        ensures order { OnOk result (MeetsRoots graph.now self.old self.new) }
        ensures others { OnOk result (NeedsNoOthers graph.now self.old self.new requested.now) }
    {
        let mut needed = Vec::new(self.alloc);
        self.meet_requested(graph, requested, &mut needed)?;
        self.admit(graph, needed)?;
        Ok(())
    }

    #[tactic(auto, using(crate::proofs::AdmitLemmas::meeting))]
    fn meet_requested(
        &mut self,
        graph: &Graph,
        requested: &[NodeId],
        needed: &mut Vec<RuleId>,
    ) -> Result<(), Memory>
        requires { HasRoom graph.now self.old }
        ensures meets { Meets self.old self.new }
        ensures brings { OnOk result (Brings graph.now self.old self.new none needed.old.items needed.new.items) }
        ensures finds { OnOk result (Finds graph.now self.old self.new requested.now) }
        ensures watch { OnOk result (BringsWatch self.old self.new needed.old.items needed.new.items) }
        ensures roots { OnOk result (self.new.notes.roots ≡ self.old.notes.roots ++ makers_in graph.now requested.now) }
        ensures order { OnOk result (MeetsRoots graph.now self.old self.new) }
        ensures others { OnOk result (BringsNoOthers graph.now self.old self.new requested.now
            needed.old.items needed.new.items) }
    {
        for node in requested {
            self.meet(graph, *node, needed)?;
            self.add_root(graph, *node)?;
        }
        Ok(())
    }

    /// The rule that the graph has for a node becomes the last root.
    #[tactic(auto, using(crate::proofs::BeginLemmas::makers_one))]
    fn add_root(&mut self, graph: &Graph, node: NodeId) -> Result<(), Memory>
        ensures stays { Stays self.old self.new }
        ensures rest { self.new ≡ record self.old { notes = record self.old.notes { roots = self.new.notes.roots } } }
        ensures roots { OnOk result (self.new.notes.roots ≡ self.old.notes.roots ++ makers_in graph.now (node ∷ [])) }
        ensures below { (rule : ℕ) → rule_of graph.now.rules node.0 ≡ Some rule → node.0 < length graph.now.nodes }
    {
        if let Some(rule) = graph.rule_of(node) {
            self.roots.push(rule)?;
        }
        Ok(())
    }

    /// Meets a file. Its rule is put behind those that are needed, unless it stands there.
    #[tactic(auto, using(crate::proofs::AdmitLemmas::meeting))]
    pub(crate) fn meet(
        &mut self,
        graph: &Graph,
        node: NodeId,
        needed: &mut Vec<RuleId>,
    ) -> Result<(), Memory>
        requires { HasRoom graph.now self.old }
        ensures meets { Meets self.old self.new }
        ensures brings { OnOk result (Brings graph.now self.old self.new none needed.old.items needed.new.items) }
        ensures rules { self.new.rules ≡ self.old.rules }
        ensures finds { OnOk result (Finds graph.now self.old self.new (node ∷ [])) }
        ensures leaves { LeavesRules self.old self.new }
        ensures watch { OnOk result (BringsWatch self.old self.new needed.old.items needed.new.items) }
        ensures order { OnOk result (LeavesOrder self.old self.new) }
        ensures others { OnOk result (BringsNoOthers graph.now self.old self.new (node ∷ [])
            needed.old.items needed.new.items) }
    {
        if !self.files.is_unmet(node) {
            return Ok(());
        }
        match graph.rule_of(node) {
            Some(rule) => {
                self.note_origin(node, Origin::Made(rule));
                self.need_rule(graph, rule, needed)
            }
            None => {
                self.note_origin(node, Origin::Source);
                Ok(())
            }
        }
    }

    /// A rule is needed. It is put behind those that are needed, unless it was.
    #[tactic(auto, using(crate::proofs::AdmitLemmas::meeting))]
    fn need_rule(
        &mut self,
        graph: &Graph,
        rule: RuleId,
        needed: &mut Vec<RuleId>,
    ) -> Result<(), Memory>
        requires rule { rule.0 < length graph.now.rules }
        requires room { length graph.now.rules ≤ length self.old.states }
        ensures meets { Meets self.old self.new }
        ensures brings { OnOk result (Brings graph.now self.old self.new none needed.old.items needed.new.items) }
        ensures rules { self.new.rules ≡ self.old.rules }
        ensures origins { self.new.origins ≡ self.old.origins }
        ensures needed { state_of self.new.states rule.0 ≢ RuleState.Unneeded }
        ensures leaves { LeavesRules self.old self.new }
        ensures watch { OnOk result (BringsWatch self.old self.new needed.old.items needed.new.items) }
        ensures order { OnOk result (LeavesOrder self.old self.new) }
        ensures others { OnOk result (AdmitsNoOthers graph.now self.old self.new rule.0
            needed.old.items needed.new.items) }
    {
        if self.begins_need(rule) {
            needed.push(rule)?;
        }
        Ok(())
    }

    /// Notes where a file that wasn't met comes from.
    #[tactic(auto, using(crate::proofs::TrackLemmas::tracked_origin))]
    fn note_origin(&mut self, node: NodeId, origin: Origin)
        requires { origin_of self.old.origins node.0 ≡ Origin.Unmet }
        ensures { self.new ≡ record self.old { origins = slice_set self.old.origins node.0 origin } }
    {
        self.files.set_origin(node, origin);
    }

    /// A rule is needed: whether it wasn't before. It has no place in the order yet.
    fn begins_need(&mut self, rule: RuleId) -> bool
        requires { rule.0 < length self.old.states }
        ensures meets { Meets self.old self.new }
        ensures begun { result ≡ true → IsBegun self.old self.new rule.0 }
        ensures same { result ≡ false → self.new ≡ self.old }
        ensures begins { result ≡ true → self.new ≡ record self.old {
          states = slice_set self.old.states rule.0 RuleState.Waiting;
          notes = record self.old.notes { is_ordered = false };
        } }
        ensures rules { self.new.rules ≡ self.old.rules }
        ensures origins { self.new.origins ≡ self.old.origins }
        ensures needed { state_of self.new.states rule.0 ≢ RuleState.Unneeded }
    {
        if !self.states.is_unneeded(rule) {
            return false;
        }
        self.states.set(rule, RuleState::Waiting);
        self.is_ordered = false;
        true
    }

    /// Takes the needed rules in, with those that they need in turn. There are never as many as there are numbers.
    pub(crate) fn admit(&mut self, graph: &Graph, mut needed: Vec<RuleId>) -> Result<(), Memory>
        requires rules { are_rules graph.now needed.items ≡ true }
        requires room { HasRoom graph.now self.old }
        ensures meets { Meets self.old self.new }
        ensures admits { OnOk result (Admits graph.now self.old self.new (queues needed.items) []) }
        ensures finds { OnOk result (Finds graph.now self.old self.new []) }
        ensures watch { OnOk result (EndsWatch self.old self.new needed.items []) }
        ensures order { OnOk result (LeavesOrder self.old self.new) }
        ensures others { OnOk result (EndsNoOthers graph.now self.old self.new needed.items) }
    {
        for place in 0..usize::MAX {
            let Some(rule) = rule_at(&needed, place) else {
                return Ok(());
            };
            self.admit_one(graph, rule, &mut needed)?;
        }
        Err(Memory)
    }

    fn admit_one(
        &mut self,
        graph: &Graph,
        rule: RuleId,
        needed: &mut Vec<RuleId>,
    ) -> Result<(), Memory>
        requires rule { rule.0 < length graph.now.rules }
        requires room { HasRoom graph.now self.old }
        ensures meets { Meets self.old self.new }
        ensures brings { OnOk result (Brings graph.now self.old self.new (nat_eq rule.0) needed.old.items needed.new.items) }
        ensures finds { OnOk result (Finds graph.now self.old self.new []) }
        ensures watch { OnOk result (AdmitsWatch self.old self.new rule.0 needed.old.items needed.new.items) }
        ensures order { OnOk result (LeavesOrder self.old self.new) }
        ensures others { OnOk result (AdmitsNoOthers graph.now self.old self.new rule.0
            needed.old.items needed.new.items) }
    {
        let task = task_of(self.alloc, graph, graph.rule(rule))?;
        self.put_task(rule, task);
        self.meet_needs(graph, rule, needed)?;
        self.pass(rule);
        self.find_ready(rule, 0);
        Ok(())
    }

    /// A rule begins anew with this task, which the order doesn't know.
    #[tactic(auto, using(crate::proofs::TrackLemmas::tasking))]
    fn put_task(&mut self, rule: RuleId, task: Task)
        requires passed { task.passed ≡ 0 }
        requires whole { task.reach.whole ≡ 0 }
        requires listing { IsListing task }
        ensures meets { Meets self.old self.new }
        ensures states { self.new.states ≡ self.old.states }
        ensures rules { self.new.rules ≡ slice_set self.old.rules rule.0 (kept_of task) }
        ensures origins { self.new.origins ≡ self.old.origins }
        ensures room { length self.old.states ≤ length self.old.rules }
        ensures puts { PutsTask self.old self.new rule.0 task }
        ensures order { LeavesOrder self.old self.new }
    {
        self.is_ordered = false;
        let number = rule.0 as usize;
        if number < self.tasks.len() {
            self.queue.put(rule, false);
            self.scannable.put(number, false);
            self.tasks[number] = task;
        }
    }

    /// Meets the files that a rule needs, and waits for those whose rule isn't settled.
    #[tactic(auto, using(crate::proofs::AdmitLemmas::meeting))]
    fn meet_needs(
        &mut self,
        graph: &Graph,
        rule: RuleId,
        needed: &mut Vec<RuleId>,
    ) -> Result<(), Memory>
        requires { HasRoom graph.now self.old }
        ensures meets { Meets self.old self.new }
        ensures brings { OnOk result (Brings graph.now self.old self.new none needed.old.items needed.new.items) }
        ensures rules { self.new.rules ≡ self.old.rules }
        ensures finds { OnOk result (Finds graph.now self.old self.new (needs_at self.old.rules rule.0)) }
        ensures leaves { LeavesRules self.old self.new }
        ensures watch { OnOk result (BringsWatch self.old self.new needed.old.items needed.new.items) }
        ensures hears { OnOk result (Hears graph.now self.old self.new rule.0 (needs_at self.old.rules rule.0)) }
        ensures order { OnOk result (LeavesOrder self.old self.new) }
        ensures others { OnOk result (BringsNoOthers graph.now self.old self.new (needs_at self.old.rules rule.0)
            needed.old.items needed.new.items) }
    {
        for place in 0..self.need_count(rule) {
            let Some(node) = self.need(rule, place) else {
                return Ok(());
            };
            self.meet_need(graph, node, rule, needed)?;
        }
        Ok(())
    }

    /// Meets a file that a rule needs, and waits for it where its rule isn't settled.
    #[tactic(auto, using(crate::proofs::AdmitLemmas::meeting))]
    fn meet_need(
        &mut self,
        graph: &Graph,
        node: NodeId,
        rule: RuleId,
        needed: &mut Vec<RuleId>,
    ) -> Result<(), Memory>
        requires { HasRoom graph.now self.old }
        ensures meets { Meets self.old self.new }
        ensures brings { OnOk result (Brings graph.now self.old self.new none needed.old.items needed.new.items) }
        ensures rules { self.new.rules ≡ self.old.rules }
        ensures finds { OnOk result (Finds graph.now self.old self.new (node ∷ [])) }
        ensures leaves { LeavesRules self.old self.new }
        ensures watch { OnOk result (BringsWatch self.old self.new needed.old.items needed.new.items) }
        ensures hears { OnOk result (Hears graph.now self.old self.new rule.0 (node ∷ [])) }
        ensures order { OnOk result (LeavesOrder self.old self.new) }
        ensures others { OnOk result (BringsNoOthers graph.now self.old self.new (node ∷ [])
            needed.old.items needed.new.items) }
    {
        self.meet(graph, node, needed)?;
        if self.is_ready(node) {
            return Ok(());
        }
        self.wait_for(node, rule)?;
        Ok(())
    }

    /// How many files a rule needs.
    fn need_count(&self, rule: RuleId) -> usize
        ensures { result ≡ length (needs_at self.now.rules rule.0) }
    {
        match self.tasks.get(rule.0 as usize) {
            Some(task) => task.needs(),
            None => 0,
        }
    }

    /// The file that a rule needs at this place.
    fn need(&self, rule: RuleId, place: usize) -> Option<NodeId>
        ensures { result ≡ slice_get (needs_at self.now.rules rule.0) place }
    {
        match self.tasks.get(rule.0 as usize) {
            Some(task) => task.need(place),
            None => None,
        }
    }

    /// Lets a rule wait for a file.
    pub(crate) fn wait_for(&mut self, node: NodeId, rule: RuleId) -> Result<(), Memory>
        ensures stays { Stays self.old self.new }
        ensures rest { self.new ≡ record self.old { notes = record self.old.notes { waiters = self.new.notes.waiters } } }
        ensures waits { OnOk result (self.new.notes.waiters ≡ slice_set self.old.notes.waiters node.0
            (waiters_of self.old.notes.waiters node.0 ++ rule ∷ [])) }
    {
        self.files.add_waiter(node, rule)
    }

    /// Whether a file was met, and has no rule or a settled one.
    pub(crate) fn is_ready(&self, node: NodeId) -> bool
        ensures { result ≡ is_done self.now.states self.now.origins node }
    {
        self.files.is_done(&self.states, node)
    }

    /// Passes the needs of a rule that are done, up to one that isn't.
    #[tactic(auto, using(crate::proofs::TrackLemmas::tracked_pass))]
    pub(crate) fn pass(&mut self, rule: RuleId)
        ensures stays { Stays self.old self.new }
        ensures passes { Passes self.old self.new rule.0 }
    {
        let number = rule.0 as usize;
        if number < self.tasks.len() {
            let place = self.tasks[number].first_undone(&self.files, &self.states);
            self.tasks[number].passed = place;
        }
    }

    /// Looks for the next file of a waiting rule, from this place on, that can be scanned now.
    #[tactic(auto, using(crate::proofs::TrackLemmas::tracked_next))]
    pub(crate) fn find_ready(&mut self, rule: RuleId, start: usize)
        ensures stays { Stays self.old self.new }
        ensures readies { Readies self.old self.new rule.0 start }
    {
        let number = rule.0 as usize;
        if number < self.tasks.len() && self.states.waits(rule) {
            let place = next_ready(&self.tasks[number].reach, &self.files, &self.states, start);
            let is_there = is_place(&self.tasks[number].reach, place);
            self.tasks[number].reach.next = place;
            self.scannable.put(number, is_there);
        }
    }
}

/// The rule at this place.
fn rule_at(rules: &Vec<RuleId>, place: usize) -> Option<RuleId>
    ensures { result ≡ slice_get rules.now.items place }
{
    rules.get(place).copied()
}

/// Whether a file of a rule stands at this place.
fn is_place(reach: &Reach, place: usize) -> bool
    ensures there { result ≡ true → place < length reach.now.files.keys }
    ensures not { result ≡ false → length reach.now.files.keys ≤ place }
{
    place < reach.files.len()
}

/// The place of the first file of a rule, from this one on, that can be scanned now; the end where there is none.
fn next_ready(reach: &Reach, files: &Files, states: &States, start: usize) -> usize
    ensures ready { (n : NodeId) → slice_get reach.now.files.keys result ≡ Some n
        → CanScan states.now files.now.origins.items reach.now.found.entries n }
    ensures first { AreUnreadyTo states.now files.now.origins.items reach.now start result }
{
    for place in start..reach.files.len() {
        if can_scan(reach, files, states, place) {
            return place;
        }
    }
    reach.files.len()
}

/// Whether the file at this place can be scanned now.
fn can_scan(reach: &Reach, files: &Files, states: &States, place: usize) -> bool
    ensures ready { result ≡ true → (n : NodeId) → slice_get reach.now.files.keys place ≡ Some n
        → CanScan states.now files.now.origins.items reach.now.found.entries n }
    ensures not { result ≡ false → IsUnreadyAt states.now files.now.origins.items reach.now place }
{
    match reach.files.get_index(place) {
        Some(node) => !reach.has_scanned(*node) && files.is_done(states, *node),
        None => false,
    }
}
