//! The variables whose values are being read.
ghost use Rattle.std.specs.Prelude.{◌≡◌, ◌++◌, ◌∷◌, [], ◌≤◌, length, false, OnOk};
ghost use Rattle.env_subst.specs.Expansions.{is_open};
ghost use Rattle.env_subst.specs.Desks.{outer_names};

use crate::variable_name::VariableName;
use indexmap::IndexSet;
use scons_base::Memory;
use std::alloc::Global;
use std::marker::Model;

/// So many names, the outermost, are looked through one by one. Those further in are found by their hashes.
const FEW: usize = 8;

/// The variables whose values are being read, the outermost first.
#[derive(Drop)]
pub(crate) struct Names {
    outer: Vec<VariableName>,
    inner: IndexSet<VariableName>,
}

impl Model for Names {
    ghost use Rattle.std.specs.Prelude.{List, ℕ, length, ◌≤◌, ◌++◌};
    ghost use Rattle.env_subst.specs.declared.names.TheConstants.{FEW};

    ghost Value = { List (List ℕ) };

    ghost view = { λ n. n.outer.items ++ n.inner.keys };

    ghost invariant = { λ n. length n.outer.items ≤ FEW };
}

impl Names {
    pub(crate) fn new(alloc: Global) -> Names
        ensures { result ≡ [] }
    {
        Names {
            outer: Vec::new(alloc),
            inner: IndexSet::new(alloc),
        }
    }

    pub(crate) fn len(&self) -> usize
        ensures { result ≡ length self.now }
    {
        self.outer.len() + self.inner.len()
    }

    pub(crate) fn is_open(&self, name: &VariableName) -> bool
        ensures { result ≡ is_open name.now self.now }
    {
        is_among(self.outer.as_slice(), name) || is_further_in(&self.inner, name)
    }

    pub(crate) fn enter(&mut self, name: VariableName) -> Result<(), Memory>
        requires { is_open name self.old ≡ false }
        ensures ok { OnOk result (self.new ≡ self.old ++ name ∷ []) }
    {
        if self.inner.is_empty() && self.outer.len() < FEW {
            self.outer.push(name)?;
        } else {
            self.inner.insert(name)?;
        }
        Ok(())
    }

    pub(crate) fn leave(&mut self)
        ensures { self.new ≡ outer_names self.old }
    {
        if self.inner.is_empty() {
            self.outer.truncate(self.outer.len().saturating_sub(1));
        } else {
            self.inner.truncate(self.inner.len().saturating_sub(1));
        }
    }
}

fn is_further_in(names: &IndexSet<VariableName>, name: &VariableName) -> bool
    ensures { result ≡ is_open name.now names.now.keys }
{
    !names.is_empty() && names.contains(name)
}

fn is_among(names: &[VariableName], name: &VariableName) -> bool
    ensures { result ≡ is_open name.now names.now }
{
    names.iter().any(|there| name == there)
}
