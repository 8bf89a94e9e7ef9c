//! Aliases and their members.
ghost use Rattle.std.specs.Prelude.{◌≡◌, [], OnOk, OnErr, IfOk, option_copied, unwrap_or, string_bytes};
ghost use Rattle.rule_graph.specs.Aliases.{members_of, put, with_members};

use indexmap::IndexMap;
use scons_base::{Memory, NodeId};
use std::alloc::Global;
use std::marker::Model;

/// Aliases by their names, in the order in which they came. A look-up is one by hash.
#[derive(Drop)]
pub(crate) struct Aliases {
    aliases: IndexMap<String, Vec<NodeId>>,
}

impl Model for Aliases {
    ghost use Rattle.std.specs.Prelude.{List};
    ghost use Rattle.rule_graph.specs.Aliases.{Alias, aliases_of};

    ghost Value = { List Alias };

    ghost view = { λ a. aliases_of a.aliases.entries };
}

impl Aliases {
    pub(crate) fn new(alloc: Global) -> Aliases
        ensures { result ≡ [] }
    {
        Aliases {
            aliases: IndexMap::new(alloc),
        }
    }

    pub(crate) fn get(&self, name: &str) -> Option<&[NodeId]>
        ensures { option_copied result ≡ members_of self.now name.now }
    {
        match self.aliases.get(name) {
            Some(members) => Some(members.as_slice()),
            None => None,
        }
    }

    /// A copy of the members of an alias, none where there is no such alias.
    fn copied(&self, alloc: Global, name: &str) -> Result<Vec<NodeId>, Memory>
        ensures { IfOk result (λ v. v.items ≡ unwrap_or (members_of self.now name.now) []) }
    {
        match self.get(name) {
            Some(members) => Ok(Vec::from_slice(alloc, members)?),
            None => Ok(Vec::new(alloc)),
        }
    }

    /// Puts members behind those there.
    pub(crate) fn add(&mut self, alloc: Global, name: &str, more: &[NodeId]) -> Result<(), Memory>
        ensures ok { OnOk result (self.new ≡ with_members self.old name.now more.now) }
        ensures err { OnErr result (self.new ≡ self.old) }
    {
        let mut members = self.copied(alloc, name)?;
        members.extend_from_slice(more)?;
        self.put(String::from_str(alloc, name)?, members)
    }

    fn put(&mut self, name: String, members: Vec<NodeId>) -> Result<(), Memory>
        ensures ok { OnOk result (self.new ≡ put self.old (string_bytes name, members.items)) }
        ensures err { OnErr result (self.new ≡ self.old) }
    {
        self.aliases.insert(name, members)?;
        Ok(())
    }
}
