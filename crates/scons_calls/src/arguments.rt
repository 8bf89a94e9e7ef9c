//! The arguments of a call, in the order of its parameters.
ghost use Rattle.std.specs.Prelude.{◌≡◌, ◌++◌, ◌∷◌, [], OnOk};
ghost use Rattle.scons_calls.specs.Requests.{front, behind};

use crate::argument::Argument;
use scons_base::Memory;
use std::alloc::Global;
use std::collections::VecDeque;
use std::marker::Model;

/// The arguments of a call in the order of its parameters: None where none is given.
#[derive(Drop)]
pub struct Arguments {
    arguments: VecDeque<Option<Argument>>,
}

impl Model for Arguments {
    ghost use Rattle.scons_calls.specs.Requests.{Bound};

    ghost Value = { Bound };

    ghost view = { λ a. a.arguments.items };
}

impl Arguments {
    pub fn new(alloc: Global) -> Arguments
        ensures { result ≡ [] }
    {
        Arguments {
            arguments: VecDeque::new(alloc),
        }
    }

    pub fn push(&mut self, argument: Option<Argument>) -> Result<(), Memory>
        ensures { OnOk result (self.new ≡ self.old ++ argument ∷ []) }
    {
        self.arguments.push_back(argument)?;
        Ok(())
    }

    /// The next argument, if it is given.
    pub fn take(&mut self) -> Option<Argument>
        ensures argument { result ≡ front self.old }
        ensures rest { self.new ≡ behind self.old }
    {
        self.arguments.pop_front().flatten()
    }
}
