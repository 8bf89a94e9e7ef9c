//! What the plan keeps of a file.
ghost use Rattle.std.specs.Prelude.{◌≡◌, ◌≤◌, ◌+◌, ◌++◌, ◌∷◌, ℕ, true, false, [], length, slice_set, OnOk};
ghost use Rattle.task_plan.specs.Settled.{origin_of, is_done as is_done_of};
ghost use Rattle.task_plan.specs.Met.{is_met};
ghost use Rattle.task_plan.specs.Noted.{lists_of, waiters_of};
ghost use Rattle.task_plan.specs.Orders.{maker_of};

use crate::states::{RuleState, States};
use scons_base::{Memory, NodeId, RuleId};
use std::alloc::Global;

/// Where a file comes from.
#[derive(Clone, Copy, Debug, PartialEq, Eq)]
pub enum Origin {
    /// The plan hasn't met it.
    Unmet,
    /// No rule makes it.
    Source,
    Made(RuleId),
}

/// The files by their nodes.
#[derive(Drop)]
pub(crate) struct Files {
    pub(crate) origins: Vec<Origin>,
    /// For each file the rules for which it, once its rule is settled, is one need less.
    pub(crate) waiters: Vec<Vec<RuleId>>,
    alloc: Global,
}

impl Files {
    pub(crate) fn new(alloc: Global) -> Files
        ensures { result.origins.items ≡ [] }
    {
        Files {
            origins: Vec::new(alloc),
            waiters: Vec::new(alloc),
            alloc,
        }
    }

    /// Makes room for nodes below this number.
    pub(crate) fn reach(&mut self, nodes: u32) -> Result<(), Memory>
        ensures same { (n : ℕ) → origin_of self.new.origins.items n ≡ origin_of self.old.origins.items n }
        ensures longer { length self.old.origins.items ≤ length self.new.origins.items }
        ensures room { OnOk result (nodes ≤ length self.new.origins.items) }
        ensures told { (n : ℕ) → waiters_of (lists_of self.new.waiters.items) n ≡ waiters_of (lists_of self.old.waiters.items) n }
        ensures lists { length self.old.origins.items ≤ length self.old.waiters.items
            → length self.new.origins.items ≤ length self.new.waiters.items }
    {
        while self.origins.len() < nodes as usize {
            self.add()?;
        }
        Ok(())
    }

    fn add(&mut self) -> Result<(), Memory>
        ensures same { (n : ℕ) → origin_of self.new.origins.items n ≡ origin_of self.old.origins.items n }
        ensures longer { length self.old.origins.items ≤ length self.new.origins.items }
        ensures more { OnOk result (length self.new.origins.items ≡ length self.old.origins.items + 1) }
        ensures told { (n : ℕ) → waiters_of (lists_of self.new.waiters.items) n ≡ waiters_of (lists_of self.old.waiters.items) n }
        ensures lists { length self.old.origins.items ≤ length self.old.waiters.items
            → length self.new.origins.items ≤ length self.new.waiters.items }
    {
        self.waiters.push(Vec::new(self.alloc))?;
        self.origins.push(Origin::Unmet)?;
        Ok(())
    }

    /// Where a file comes from.
    pub(crate) fn origin(&self, node: NodeId) -> Origin
        ensures { result ≡ origin_of self.now.origins.items node.0 }
    {
        match self.origins.get(node.0 as usize) {
            Some(origin) => *origin,
            None => Origin::Unmet,
        }
    }

    /// Whether a file wasn't met.
    pub(crate) fn is_unmet(&self, node: NodeId) -> bool
        ensures unmet { result ≡ true → origin_of self.now.origins.items node.0 ≡ Origin.Unmet }
        ensures met { result ≡ false → is_met self.now.origins.items node ≡ true }
    {
        match self.origin(node) {
            Origin::Unmet => true,
            Origin::Source | Origin::Made(_) => false,
        }
    }

    /// The rule of a file that was met.
    pub(crate) fn rule_of(&self, node: NodeId) -> Option<RuleId>
        ensures { result ≡ maker_of (origin_of self.now.origins.items node.0) }
    {
        match self.origin(node) {
            Origin::Made(rule) => Some(rule),
            Origin::Unmet | Origin::Source => None,
        }
    }

    /// Whether a file was met, and no rule makes it or a settled one.
    pub(crate) fn is_done(&self, states: &States, node: NodeId) -> bool
        ensures { result ≡ is_done_of states.now self.now.origins.items node }
    {
        match self.origin(node) {
            Origin::Unmet => false,
            Origin::Source => true,
            Origin::Made(rule) => states.of(rule) == RuleState::Settled,
        }
    }

    /// Notes where a file comes from.
    pub(crate) fn set_origin(&mut self, node: NodeId, origin: Origin)
        ensures origins { self.new.origins.items ≡ slice_set self.old.origins.items node.0 origin }
        ensures rest { self.new ≡ record self.old { origins = self.new.origins } }
    {
        let number = node.0 as usize;
        if number < self.origins.len() {
            self.origins[number] = origin;
        }
    }

    /// The rules that wait for a file.
    pub(crate) fn waiters(&self, node: NodeId) -> &[RuleId]
        ensures { result.now ≡ waiters_of (lists_of self.now.waiters.items) node.0 }
    {
        match self.waiters.get(node.0 as usize) {
            Some(waiters) => waiters.as_slice(),
            None => &[],
        }
    }

    /// A rule is to be told when a file is done.
    pub(crate) fn add_waiter(&mut self, node: NodeId, rule: RuleId) -> Result<(), Memory>
        ensures rest { self.new ≡ record self.old { waiters = self.new.waiters } }
        ensures waiters { OnOk result (lists_of self.new.waiters.items ≡ slice_set (lists_of self.old.waiters.items) node.0
            (waiters_of (lists_of self.old.waiters.items) node.0 ++ rule ∷ [])) }
    {
        let number = node.0 as usize;
        if number < self.waiters.len() {
            self.waiters[number].push(rule)?;
        }
        Ok(())
    }
}
