//! Aliases, with what they stand for.
ghost use Rattle.std.specs.Prelude.{◌≡◌, ◌++◌, [], None, OnOk, length, option_copied, string_bytes, slice_get, position};
ghost use Rattle.std.specs.Option.{option_map};
ghost use Rattle.std.specs.Str.{bytes_eq};
ghost use Rattle.scons_decls.specs.Tables.{has, value_at, put};
ghost use Rattle.scons_decls.specs.Aliased.{no_parts, with_role, with_nodes};

use crate::given::{Given, Nodes};
use indexmap::IndexMap;
use scons_base::{Listing, Memory, Text};
use std::alloc::Global;
use std::marker::Model;

/// What nodes are to an alias.
#[derive(Clone, Copy, Debug, PartialEq, Eq)]
pub enum Role {
    Member,
    Required,
    Ignored,
}

/// What an alias stands for: what it requires, and behind that its members but those that are ignored.
#[derive(Drop)]
pub struct AliasParts {
    pub required: Nodes,
    pub members: Nodes,
    pub ignored: Nodes,
}

impl AliasParts {
    fn none(alloc: Global) -> AliasParts
        ensures { result ≡ no_parts }
    {
        AliasParts {
            required: Listing::empty(alloc),
            members: Listing::empty(alloc),
            ignored: Listing::empty(alloc),
        }
    }

    fn add(&mut self, role: Role, nodes: &[Given]) -> Result<(), Memory>
        ensures { OnOk result (self.new ≡ with_role role nodes.now self.old) }
    {
        match role {
            Role::Member => push_copies(&mut self.members, nodes),
            Role::Required => push_copies(&mut self.required, nodes),
            Role::Ignored => push_copies(&mut self.ignored, nodes),
        }
    }
}

/// Aliases by their names, in the order in which they were first named.
#[derive(Drop)]
pub struct Aliases {
    aliases: IndexMap<String, AliasParts>,
}

impl Model for Aliases {
    ghost use Rattle.scons_decls.specs.Tables.{Table, rows_of};
    ghost use Rattle.scons_decls.specs.declared.aliases.AliasParts.{AliasParts};

    ghost Value = { Table AliasParts };

    ghost view = { λ a. rows_of a.aliases.entries };
}

impl Aliases {
    pub(crate) fn new(alloc: Global) -> Aliases
        ensures { result ≡ [] }
    {
        Aliases {
            aliases: IndexMap::new(alloc),
        }
    }

    pub fn len(&self) -> usize
        ensures { result ≡ length self.now }
    {
        self.aliases.len()
    }

    pub fn contains_key(&self, name: &str) -> bool
        ensures { result ≡ has self.now name.now }
    {
        self.aliases.contains_key(name)
    }

    /// The alias at a place.
    pub fn get_index(&self, place: usize) -> Option<(&String, &AliasParts)>
        ensures { option_map (λ a. (string_bytes a.0.now, a.1.now)) result ≡ slice_get self.now place }
    {
        self.aliases.get_index(place)
    }

    /// The place of the alias of this name.
    pub fn get_index_of(&self, name: &str) -> Option<usize>
        ensures { result ≡ position (λ a. bytes_eq name.now a.0) self.now }
    {
        self.aliases.get_index_of(name)
    }

    /// Puts nodes behind those that an alias has; the alias is made where there is none of the name.
    pub fn add(
        &mut self,
        alloc: Global,
        name: &Text,
        role: Role,
        nodes: &[Given],
    ) -> Result<(), Memory>
        ensures { OnOk result (self.new ≡ with_nodes self.old name.now role nodes.now) }
    {
        match self.aliases.get_mut(name.as_str()) {
            Some(parts) => parts.add(role, nodes),
            None => self.add_first(alloc, name, role, nodes),
        }
    }

    fn add_first(
        &mut self,
        alloc: Global,
        name: &Text,
        role: Role,
        nodes: &[Given],
    ) -> Result<(), Memory>
        requires { value_at self.old name.now ≡ None }
        ensures { OnOk result (self.new ≡ with_nodes self.old name.now role nodes.now) }
    {
        let mut parts = AliasParts::none(alloc);
        parts.add(role, nodes)?;
        let name = String::from_str(alloc, name.as_str())?;
        self.aliases.insert(name, parts)?;
        Ok(())
    }
}

fn push_copies(there: &mut Nodes, nodes: &[Given]) -> Result<(), Memory>
    ensures { OnOk result (there.new ≡ there.old ++ nodes.now) }
{
    for node in nodes {
        there.push(node.copy()?)?;
    }
    Ok(())
}
