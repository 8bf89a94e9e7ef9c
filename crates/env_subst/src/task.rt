//! What is left to do while a text is read.
use crate::place::Place;
use crate::saying::{Saying, Sayings};
use crate::variable_name::VariableName;
use env_pieces::Pieces;
use scons_base::{Paths, Text};

/// A call of `_concat`, by the names of its variables.
#[derive(Drop)]
pub(crate) struct Call {
    pub(crate) prefix: VariableName,
    pub(crate) list: VariableName,
    pub(crate) suffix: VariableName,
    pub(crate) directories: bool,
    /// How many bytes might still come when the call began.
    pub(crate) room: usize,
}

/// Something that is left to do while a text is read.
#[derive(Drop)]
pub(crate) enum Task<'a> {
    /// A text as it stands.
    Put(Text),
    /// What is left from a place of a text, which is the value of a variable, or an item of it.
    Read {
        owner: VariableName,
        place: Place,
    },
    /// Further things that the innermost variable says, a space in front of each.
    Say {
        name: VariableName,
        rest: Sayings<'a>,
    },
    /// One thing that a variable says.
    Inside {
        name: VariableName,
        saying: Saying,
    },
    /// All that a variable says.
    Expand(VariableName),
    /// Pieces as they stand.
    PutAll(Pieces),
    /// Further items of a call.
    Items {
        call: Call,
        rest: Sayings<'a>,
    },
    /// Further directories of an item, from this one on.
    Dirs {
        call: Call,
        found: Paths,
        next: usize,
    },
    /// What was read apart is an item of a call; or, where it stands alone, all that a further call gave. These are the pieces
    /// that were read before.
    Apart {
        outer: Pieces,
        call: Call,
        alone: bool,
    },
    /// The innermost variable is read.
    Close,
}
