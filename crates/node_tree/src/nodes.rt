//! A number for each path.
ghost use Rattle.std.specs.Prelude.{◌≡◌, ◌≢◌, ◌==◌, ◌<◌, ◌≤◌, ◌+◌, [], List, ℕ, Some, None, IfOk, IfErr, OnErr, OnOk, length, slice_get};
ghost use Rattle.std.specs.Option.{option_map};
ghost use Rattle.node_tree.specs.Nodes.{number_of, with_path, AreApart, Interns};

use indexmap::IndexSet;
use scons_base::limits::NODE_LIMIT;
use scons_base::{Memory, NodeId, PathText};
use std::alloc::{AllocFailed, Global};
use std::marker::Model;

/// Why a path gets no number.
#[derive(Clone, Copy, Debug, PartialEq, Eq)]
pub enum NodeRefusal {
    /// It would be the node of this count, one more than there may be.
    Full(u64),
    Memory,
}

impl From<Memory> for NodeRefusal {
    ghost use Rattle.node_tree.specs.declared.nodes.NodeRefusal.TheVariants as refusal;

    ghost from_gives = { λ _ e. e ≡ refusal.Memory };

    fn from(_: Memory) -> Self {
        NodeRefusal::Memory
    }
}

impl<T: Drop> From<AllocFailed<T>> for NodeRefusal {
    ghost use Rattle.node_tree.specs.declared.nodes.NodeRefusal.TheVariants as refusal;

    ghost from_gives = { λ _ e. e ≡ refusal.Memory };

    fn from(_: AllocFailed<T>) -> Self {
        NodeRefusal::Memory
    }
}

/// A number for each path, from 0 on. A number once given stays.
#[derive(Drop)]
pub struct Nodes {
    paths: IndexSet<PathText>,
}

impl Model for Nodes {
    ghost use Rattle.std.specs.Prelude.{List, ℕ, ◌≤◌, length};

    ghost Value = { List (List ℕ) };

    ghost view = { λ n. n.paths.keys };

    ghost use Rattle.scons_base.specs.declared.limits.TheConstants.{NODE_LIMIT};

    ghost invariant = { λ n. length n.paths.keys ≤ NODE_LIMIT };
}

impl Nodes {
    pub fn new(alloc: Global) -> Nodes
        ensures { result ≡ [] }
    {
        Nodes {
            paths: IndexSet::new(alloc),
        }
    }

    /// The number of a path, which is the next one for a path that had none.
    pub fn intern(&mut self, path: &PathText) -> Result<NodeId, NodeRefusal>
        ensures ok { IfOk result (λ id. Interns self.old path.now id.0 self.new) }
        ensures paths { OnOk result (self.new ≡ with_path self.old path.now) }
        ensures at { IfOk result (λ id. slice_get self.new id.0 ≡ Some path.now) }
        ensures limit { OnOk result (length self.new ≤ NODE_LIMIT) }
        ensures full { IfErr result (λ e. e ≢ NodeRefusal.Memory → (e ≡ NodeRefusal.Full (NODE_LIMIT + 1))
            × (length self.old ≡ NODE_LIMIT) × (number_of self.old path.now ≡ None)) }
        ensures err { OnErr result (self.new ≡ self.old) }
    {
        if self.len() == NODE_LIMIT {
            return self
                .find(path)
                .ok_or(NodeRefusal::Full(NODE_LIMIT as u64 + 1));
        }
        let (number, _) = self.paths.insert_full(path.copy()?)?;
        Ok(NodeId(number as u32))
    }

    /// The number that a path has.
    pub fn find(&self, path: &PathText) -> Option<NodeId>
        ensures { option_map (λ id. id.0) result ≡ number_of self.now path.now }
    {
        let number = self.paths.get_index_of(path)?;
        Some(NodeId(number as u32))
    }

    /// The path of a number.
    pub fn path(&self, id: NodeId) -> &PathText
        requires { id.0 < length self.now }
        ensures at { slice_get self.now id.0 ≡ Some result.now }
        ensures back { number_of self.now result.now ≡ Some id.0 }
    {
        &self.paths.as_slice()[id.0 as usize]
    }

    /// What holds of all nodes.
    pub fn laws(&self)
        ensures { AreApart self.now }
    {
        let _paths = self.paths.as_slice();
    }

    /// How many paths have a number.
    pub fn len(&self) -> u32
        ensures len { result ≡ length self.now }
        ensures limit { length self.now ≤ NODE_LIMIT }
    {
        self.paths.len() as u32
    }

    pub fn is_empty(&self) -> bool
        ensures { result ≡ (length self.now == 0) }
    {
        self.len() == 0
    }
}
