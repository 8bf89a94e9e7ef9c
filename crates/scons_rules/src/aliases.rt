//! The members of aliases, with those of aliases among them.
ghost use Rattle.std.specs.Prelude.{◌≡◌, ◌++◌, [], ℕ, List, Some, true, map, position, slice_get, option_copied, IfOk, OnOk};
ghost use Rattle.std.specs.List.{filter_map, flat_map};
ghost use Rattle.std.specs.Str.{bytes_eq};
ghost use Rattle.scons_decls.specs.State.{declared_of};
ghost use Rattle.scons_rules.specs.AliasTable.{names_in, parts_in};
ghost use Rattle.scons_rules.specs.Aliased.{Leaves, lists_of, steps_of, step_of, path_in, paths_in, file_in};
ghost use Rattle.scons_rules.specs.Orders.{flattened};

use crate::ignored::Ignored;
use crate::orders::{Step, flattened};
use crate::sources::settled;
use scons_base::{Listing, Memory, PathText, Paths, Text};
use scons_decls::{AliasParts, Declarations, Given};
use std::alloc::Global;
use std::marker::Model;

/// What aliases stand for. Where an alias is a member its members stand in its place, depth first, and one that was met before
/// is passed over.
#[derive(Drop)]
pub(crate) struct Aliases {
    /// The members of each alias, by its place among the declared ones.
    lists: Vec<Listing<Step>>,
}

impl Model for Aliases {
    ghost use Rattle.scons_rules.specs.Orders.{Lists};

    ghost Value = { Lists };

    ghost view = { λ a. a.lists.items };
}

impl Aliases {
    pub(crate) fn new(alloc: Global, state: &Declarations) -> Result<Aliases, Memory>
        ensures { IfOk result (λ a. a ≡ lists_of (names_in state.now.aliases) (parts_in state.now.aliases)) }
    {
        let mut lists = Vec::with_capacity(alloc, state.aliases.len())?;
        'aliases: for place in 0..state.aliases.len() {
            if let Some(parts) = parts_at(state, place) {
                lists.push(steps_of(alloc, state, parts)?)?;
            }
        }
        Ok(Aliases { lists })
    }

    /// The files and directories that the alias at a place stands for.
    pub(crate) fn files_at(
        &self,
        alloc: Global,
        state: &Declarations,
        place: usize,
    ) -> Result<Paths, Memory>
        ensures { IfOk result (λ p. p ≡ flat_map (file_in (declared_of state.now)) (flattened self.now place)) }
    {
        let mut files = Paths::new(Vec::new(alloc));
        let members = flattened(alloc, self.lists.as_slice(), place)?;
        for member in members.as_slice() {
            push_file(state, &mut files, member)?;
        }
        Ok(files)
    }

    /// The paths of these nodes, with the members of each alias in its place.
    pub(crate) fn paths_of(
        &self,
        alloc: Global,
        state: &Declarations,
        nodes: &[Given],
    ) -> Result<Paths, Memory>
        ensures { IfOk result (λ p. p ≡ flat_map (paths_in (names_in state.now.aliases) self.now) nodes.now) }
    {
        let mut paths = Paths::new(Vec::new(alloc));
        for node in nodes {
            self.push_paths(alloc, state, &mut paths, node)?;
        }
        Ok(paths)
    }

    fn push_paths(
        &self,
        alloc: Global,
        state: &Declarations,
        paths: &mut Paths,
        node: &Given,
    ) -> Result<(), Memory>
        ensures { OnOk result (paths.new ≡ paths.old ++ paths_in (names_in state.now.aliases) self.now node.now) }
    {
        let Given::Alias(name) = node else {
            return push_path(paths, node);
        };
        match place_of(state, name) {
            Some(place) => self.push_members(alloc, paths, place),
            None => Ok(()),
        }
    }

    fn push_members(&self, alloc: Global, paths: &mut Paths, place: usize) -> Result<(), Memory>
        ensures { OnOk result (paths.new ≡ paths.old ++ flat_map path_in (flattened self.now place)) }
    {
        let members = flattened(alloc, self.lists.as_slice(), place)?;
        for member in members.as_slice() {
            push_path(paths, member)?;
        }
        Ok(())
    }
}

/// The place of an alias among the declared ones.
fn place_of(state: &Declarations, name: &Text) -> Option<usize>
    ensures { result ≡ position (bytes_eq name.now) (names_in state.now.aliases) }
{
    state.aliases.get_index_of(name.as_str())
}

/// What the alias at a place stands for.
fn parts_at(state: &Declarations, place: usize) -> Option<&AliasParts>
    ensures { option_copied result ≡ slice_get (parts_in state.now.aliases) place }
{
    match state.aliases.get_index(place) {
        Some((_, parts)) => Some(parts),
        None => None,
    }
}

/// Puts the file that a member stands for behind others, or the directory.
fn push_file(state: &Declarations, files: &mut Paths, member: &Given) -> Result<(), Memory>
    ensures { OnOk result (files.new ≡ files.old ++ file_in (declared_of state.now) member.now) }
{
    match member {
        Given::File(path) => files.push(settled(state, path)?),
        Given::Dir(path) => files.push(path.copy()?),
        Given::Text(_) | Given::Alias(_) => Ok(()),
    }
}

fn push_path(paths: &mut Paths, node: &Given) -> Result<(), Memory>
    ensures { OnOk result (paths.new ≡ paths.old ++ path_in node.now) }
{
    match node {
        Given::File(path) | Given::Dir(path) => paths.push(path.copy()?),
        Given::Text(_) | Given::Alias(_) => Ok(()),
    }
}

/// The steps of an alias: what it requires, and then its members but those that it ignores.
fn steps_of(
    alloc: Global,
    state: &Declarations,
    parts: &AliasParts,
) -> Result<Listing<Step>, Memory>
    ensures { IfOk result (λ s. s ≡ steps_of (names_in state.now.aliases) parts.now) }
{
    let none = Ignored::new(alloc);
    let ignored = Ignored::of(alloc, parts.ignored.as_slice())?;
    let mut steps = Listing::empty(alloc);
    push_steps(state, &none, &mut steps, parts.required.as_slice())?;
    push_steps(state, &ignored, &mut steps, parts.members.as_slice())?;
    Ok(steps)
}

fn push_steps(
    state: &Declarations,
    ignored: &Ignored,
    steps: &mut Listing<Step>,
    nodes: &[Given],
) -> Result<(), Memory>
    ensures { OnOk result ((left : List Given) → Leaves left ignored.now
        → steps.new ≡ steps.old ++ filter_map (step_of (names_in state.now.aliases) left) nodes.now) }
{
    for node in nodes {
        if let Some(step) = step_of(state, ignored, node)? {
            steps.push(step)?;
        }
    }
    Ok(())
}

/// The step of a node, unless it is ignored. An alias that isn't declared has no members.
fn step_of(state: &Declarations, ignored: &Ignored, node: &Given) -> Result<Option<Step>, Memory>
    ensures { IfOk result (λ s. (left : List Given) → Leaves left ignored.now → s ≡ step_of (names_in state.now.aliases) left node.now) }
{
    if ignored.has(node) {
        return Ok(None);
    }
    match node {
        Given::Alias(name) => match place_of(state, name) {
            Some(place) => Ok(Some(Step::Inner(place))),
            None => Ok(None),
        },
        _ => Ok(Some(Step::Member(node.copy()?))),
    }
}
