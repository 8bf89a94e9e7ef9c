//! The names that a list of parameters or named arguments has so far.
ghost use Rattle.std.specs.Prelude.{◌≡◌, ◌-◌, ◌<◌, ℕ, false, Some, None, Ok, MatchOption, Option, List, [], ◌∷◌};
ghost use Rattle.std.specs.Prelude.{◌++◌, OnOk, nat_eq};
ghost use Rattle.std.specs.Cmp.Lexicographic.{pointwise};
ghost use Rattle.std.specs.HashSet.{contains};
ghost use Rattle.py_parse.specs.Terminals.{one, heads, has, fresh};
ghost use Rattle.py_parse.specs.Agrees.{FreshAt};

use crate::names::take_name;
use py_token::Token;
use scons_base::{Memory, Text};
use std::alloc::Global;
use std::collections::HashSet;
use std::marker::Model;

/// The names so far, as they came. Whether a name is one of them is looked up by hash.
#[derive(Debug, Drop)]
pub struct Seen {
    names: Vec<Text>,
    known: HashSet<Text>,
}

impl Model for Seen {
    ghost Value = { List (List ℕ) };

    ghost view = { λ s. s.names.items };

    ghost invariant = { λ s. (q : List ℕ) → contains (pointwise nat_eq) s.known q ≡ has s.names.items q };
}

impl Seen {
    pub fn new(alloc: Global) -> Seen
        ensures { result ≡ [] }
    {
        Seen {
            names: Vec::new(alloc),
            known: HashSet::new(alloc),
        }
    }

    pub fn insert(&mut self, name: Text) -> Result<(), Memory>
        ensures { OnOk result (self.new ≡ self.old ++ name ∷ []) }
    {
        let key = name.copy()?;
        self.names.reserve(1)?;
        self.known.insert(key)?;
        self.names.push(name)?;
        Ok(())
    }

    pub fn contains(&self, name: &Text) -> bool
        ensures { result ≡ has self.now name.now }
    {
        self.known.contains(name)
    }

    /// The name that is the next token, where it isn't one of these.
    pub fn take_fresh<'a>(&self, tokens: &'a [Token]) -> Option<(u32, &'a Text, &'a [Token])>
        ensures { MatchOption result (heads (fresh self.now) tokens.now ≡ false)
            (λ p. FreshAt self.now tokens.now p.0 p.1.now p.2.now) }
    {
        let (line, name, rest) = take_name(tokens)?;
        if self.contains(name) {
            None
        } else {
            Some((line, name, rest))
        }
    }
}
