//! The words `NAME=value`.
ghost use Rattle.std.specs.Prelude.{◌≡◌, [], OnOk, position};
ghost use Rattle.std.specs.Str.{bytes_eq};
ghost use Rattle.scons_words.specs.Arguments.{with_argument};

use scons_base::{Listing, Memory, Text};
use std::alloc::Global;
use std::marker::Model;

/// Names with their values, in the order in which the names came first.
#[derive(Drop)]
pub(crate) struct Arguments {
    pairs: Vec<(Text, Text)>,
}

impl Model for Arguments {
    ghost use Rattle.std.specs.Prelude.{List, ℕ};

    ghost Value = { List (List ℕ × List ℕ) };

    ghost view = { λ a. a.pairs.items };
}

impl Arguments {
    pub(crate) fn new(alloc: Global) -> Arguments
        ensures { result ≡ [] }
    {
        Arguments {
            pairs: Vec::new(alloc),
        }
    }

    /// Puts a value in the place of the one of its name, or last.
    pub(crate) fn put(&mut self, name: Text, value: Text) -> Result<(), Memory>
        ensures { OnOk result (self.new ≡ with_argument self.old (name, value)) }
    {
        match place_of(self.pairs.as_slice(), &name) {
            Some(place) => self.pairs[place] = (name, value),
            None => self.pairs.push((name, value))?,
        }
        Ok(())
    }

    pub(crate) fn into_listing(self) -> Listing<(Text, Text)>
        ensures { result ≡ self }
    {
        let Arguments { pairs } = self;
        Listing::new(pairs)
    }
}

fn place_of(pairs: &[(Text, Text)], name: &Text) -> Option<usize>
    ensures { result ≡ position (λ a. bytes_eq name.now a.0) pairs.now }
{
    pairs.iter().position(|(there, _)| name == there)
}
