//! What the plan keeps of a rule.
ghost use Rattle.std.specs.Prelude.{◌≡◌, ◌≤◌, ◌<◌, true, false, length, slice_get, OnOk, ◌++◌, IfOk, []};
ghost use Rattle.task_plan.specs.Named.{stands, put_all as put_all_of};
ghost use Rattle.task_plan.specs.Settled.{needs_of, next_of, AreDoneTo, AreScannedTo, IsDoneAt, IsUndoneAt, IsUnscannedAt, KeepsNeeds, IsThrough};
ghost use Rattle.task_plan.specs.Loaded.{IsBlank};
ghost use Rattle.task_plan.specs.Listed.{AreDeps, IsGrown, IsListing, KeepsNamed, KeepsNames, KeepsSeen, Takes};

use crate::files::Files;
use crate::reach::{Growth, Reach};
use crate::sets::add_all;
use crate::states::States;
use indexmap::IndexSet;
use scons_base::{Memory, NodeId};
use std::alloc::Global;

#[derive(Drop)]
pub(crate) struct Task {
    pub(crate) targets: Vec<NodeId>,
    /// What has to be settled before it, and is no dependency.
    pub(crate) required: Vec<NodeId>,
    /// The dependencies, in order, by the files scanned so far.
    pub(crate) deps: IndexSet<NodeId>,
    /// How many of the dependencies the rule itself names.
    pub(crate) named: usize,
    pub(crate) reach: Reach,
    /// Whether its files and dependencies are those that follow from the scans. They aren't where memory was wanting.
    pub(crate) is_listed: bool,
    /// The needs before this place are done.
    pub(crate) passed: usize,
}

impl Task {
    pub(crate) fn new(alloc: Global) -> Task
        ensures { IsBlank result }
    {
        Task {
            targets: Vec::new(alloc),
            required: Vec::new(alloc),
            deps: IndexSet::new(alloc),
            named: 0,
            reach: Reach::new(alloc),
            is_listed: true,
            passed: 0,
        }
    }

    /// Whether all that it needs is settled, and all its files are scanned.
    pub(crate) fn is_ready(&self) -> bool
        ensures through { result ≡ true → IsThrough self.now }
        ensures not { result ≡ false → IsThrough self.now → ⊥ }
    {
        self.passed >= self.needs() && self.reach.is_scanned()
    }

    /// How many files it needs, the required ones first.
    pub(crate) fn needs(&self) -> usize
        ensures { result ≡ length (needs_of self.now) }
    {
        self.required.len() + self.deps.len()
    }

    /// The needed file at this place.
    #[tactic(auto, using(crate::proofs::NeedLemmas::at_place))]
    pub(crate) fn need(&self, place: usize) -> Option<NodeId>
        ensures { result ≡ slice_get (needs_of self.now) place }
    {
        if place < self.required.len() {
            self.required.get(place).copied()
        } else {
            self.deps.get_index(place - self.required.len()).copied()
        }
    }

    /// Whether it requires or depends on this file.
    pub(crate) fn has_need(&self, node: NodeId) -> bool
        ensures { result ≡ stands (needs_of self.now) node }
    {
        self.required.contains(&node) || self.deps.contains(&node)
    }

    /// The file that is looked at next.
    pub(crate) fn next_file(&self) -> Option<NodeId>
        ensures { result ≡ next_of self.now }
    {
        self.reach.files.get_index(self.reach.next).copied()
    }

    /// The place of the first need that isn't done, from where the rule stands on.
    #[tactic(auto, using(crate::proofs::NeedLemmas::done_more))]
    pub(crate) fn first_undone(&self, files: &Files, states: &States) -> usize
        requires { AreDoneTo states.now files.now.origins.items self.now self.now.passed }
        ensures done { AreDoneTo states.now files.now.origins.items self.now result }
        ensures further { self.now.passed ≤ result }
        ensures undone { IsUndoneAt states.now files.now.origins.items self.now result }
    {
        let mut place = self.passed;
        while place < self.needs() && self.is_done_at(files, states, place) {
            place += 1;
        }
        place
    }

    fn is_done_at(&self, files: &Files, states: &States, place: usize) -> bool
        ensures done { result ≡ true → IsDoneAt states.now files.now.origins.items self.now place }
        ensures undone { result ≡ false → IsUndoneAt states.now files.now.origins.items self.now place }
    {
        match self.need(place) {
            Some(node) => files.is_done(states, node),
            None => false,
        }
    }

    /// Notes what a file includes, and gives what that changed.
    #[tactic(auto, using(crate::proofs::NeedLemmas::keeps_same))]
    pub(crate) fn take(&mut self, node: NodeId, found: Vec<NodeId>) -> Result<Growth, Memory>
        requires scanned { AreScannedTo self.old self.old.reach.whole }
        requires within { self.old.passed ≤ length (needs_of self.old) }
        requires listing { IsListing self.old }
        ensures scanned { AreScannedTo self.new self.new.reach.whole }
        ensures needs { KeepsNeeds self.old self.new }
        ensures listing { IsListing self.new }
        ensures names { KeepsNames self.old self.new }
        ensures takes { OnOk result (Takes self.old node found.items self.new) }
        ensures unscanned { OnOk result (IsUnscannedAt self.new.reach.found.entries self.new.reach.files.keys
            self.new.reach.whole) }
        ensures seen { OnOk result (KeepsSeen self.old.reach self.new.reach) }
        ensures news { IfOk result (λ growth. put_all_of self.old.reach.excluded.keys self.old.reach.files.keys
            found.items ≡ self.old.reach.files.keys ++ growth.new.items) }
        ensures behind { IfOk result (λ growth. growth.in_order ≡ true
            → self.new.deps.keys ≡ put_all_of [] self.old.deps.keys growth.new.items) }
    {
        let is_listed = self.is_listed;
        self.is_listed = false;
        let growth = self.reach.scanned(node, found, is_listed)?;
        self.grow(&growth)?;
        self.is_listed = true;
        Ok(growth)
    }

    /// Takes over what a scan changed.
    #[tactic(auto, using(crate::proofs::ListedLemmas::growing))]
    fn grow(&mut self, growth: &Growth) -> Result<(), Memory>
        requires within { self.old.passed ≤ length (needs_of self.old) }
        requires named { self.old.named ≤ length self.old.deps.keys }
        requires grown { growth.now.in_order ≡ true → IsGrown self.old growth.now.new.items }
        ensures rest { self.new ≡ record self.old { deps = self.new.deps; passed = self.new.passed } }
        ensures needs { KeepsNeeds self.old self.new }
        ensures named { KeepsNamed self.old self.new }
        ensures deps { OnOk result (AreDeps self.new self.new.reach.files.keys) }
        ensures behind { OnOk result (growth.now.in_order ≡ true
            → self.new.deps.keys ≡ put_all_of [] self.old.deps.keys growth.now.new.items) }
    {
        if growth.in_order {
            add_all(&mut self.deps, growth.new.as_slice())
        } else {
            self.list_anew()
        }
    }

    /// Lists the dependencies anew: those that the rule names, and then its files.
    #[tactic(auto, using(crate::proofs::ListedLemmas::listing_anew))]
    fn list_anew(&mut self) -> Result<(), Memory>
        requires { self.old.named ≤ length self.old.deps.keys }
        ensures rest { self.new ≡ record self.old { deps = self.new.deps; passed = self.new.passed } }
        ensures needs { KeepsNeeds self.old self.new }
        ensures named { KeepsNamed self.old self.new }
        ensures deps { OnOk result (AreDeps self.new self.new.reach.files.keys) }
    {
        self.passed = 0;
        self.deps.truncate(self.named);
        add_all(&mut self.deps, self.reach.files.as_slice())
    }
}
