//! The names of variables, which are shared.
ghost use Rattle.std.specs.Prelude.{◌≡◌, List, ℕ, IfOk, nat_eq};
ghost use Rattle.std.specs.Rc.{rc_str_bytes};
ghost use Rattle.std.specs.Hash as fed;
ghost use Rattle.std.specs.Cmp.{partial_equiv_from_equiv};
ghost use Rattle.std.specs.Cmp.Rules.{hashing};
ghost use Rattle.std.specs.Cmp.Lexicographic.{pointwise, nat_list_eq_equiv};
ghost use Rattle.std.proofs.Common.{rules};

use scons_base::{Memory, Text};
use std::alloc::Global;
use std::hash::{Hash, Hasher};
use std::marker::Model;
use std::rc::RcStr;

/// The name of a variable, seen as its UTF-8 bytes. Its copies share it, so that a copy costs the same for every length.
#[derive(Drop)]
pub(crate) struct VariableName {
    name: RcStr,
}

impl Model for VariableName {
    ghost Value = { List ℕ };

    ghost view = { λ n. rc_str_bytes n.name };
}

impl VariableName {
    pub(crate) fn of(alloc: Global, name: &str) -> Result<VariableName, Memory>
        ensures { IfOk result (λ n. n ≡ name.now) }
    {
        Ok(VariableName {
            name: RcStr::from_str(alloc, name)?,
        })
    }

    pub(crate) fn as_str(&self) -> &str
        ensures { result.now ≡ self.now }
    {
        self.name.as_str()
    }

    pub(crate) fn copy(&self) -> Result<VariableName, Memory>
        ensures { IfOk result (λ n. n ≡ self.now) }
    {
        Ok(VariableName {
            name: self.name.clone()?,
        })
    }

    /// The name as a text of its own, which a fault takes with it.
    pub(crate) fn text(&self, alloc: Global) -> Result<Text, Memory>
        ensures { IfOk result (λ t. t ≡ self.now) }
    {
        Text::of(alloc, self.as_str())
    }
}

impl PartialEq for VariableName {
    ghost eq = { pointwise nat_eq };

    ghost laws = { partial_equiv_from_equiv nat_list_eq_equiv };

    fn eq(&self, other: &Self) -> bool {
        self.as_str() == other.as_str()
    }
}

impl Eq for VariableName {
    ghost laws = { nat_list_eq_equiv };
}

impl Hash for VariableName {
    ghost hash_input = { fed.str };

    ghost respects_eq = { Prim.search (hashing, rules) };

    fn hash<H: Hasher>(&self, state: &mut H) {
        self.as_str().hash(state);
    }
}
