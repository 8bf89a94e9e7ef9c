//! The parts that a text is read as.

/// A place in a list or a text.
#[derive(Clone, Copy, Debug, PartialEq, Eq)]
pub enum Index {
    /// Counted from the front, from 0 on.
    FromFront(usize),
    /// Counted from the back, from 1 on.
    FromBack(usize),
}

/// What is taken of a variable's value.
#[derive(Clone, Copy, Debug, PartialEq, Eq)]
pub enum Selection {
    Whole,
    Item(Index),
    /// From a place on, or from the front, and up to a place, or to the end.
    Slice(Option<Index>, Option<Index>),
}

/// A part of a text. Neighbours may both be texts.
#[derive(Clone, Copy, Debug)]
pub enum Part<'a> {
    /// Characters that stand for themselves.
    Text(&'a str),
    /// The mark `$(`.
    Begin,
    /// The mark `$)`.
    End,
    Variable {
        name: &'a str,
        selection: Selection,
        attribute: Option<&'a str>,
    },
    /// `_concat` of three variables.
    Concat {
        prefix: &'a str,
        list: &'a str,
        suffix: &'a str,
        /// Whether the items are directories to be looked up.
        directories: bool,
    },
}
