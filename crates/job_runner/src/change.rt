//! The four changes of a board, with their replies.
use world_api::Outcome;

/// A change of a board. A slip is spoken of by its number, an ending by its number and outcome.
#[derive(Clone, Copy, Debug, PartialEq, Eq)]
pub enum Change {
    /// A slip was handed in, and was given this number.
    HandedIn(u64),
    /// The slip of this number was taken.
    Taken(u64),
    /// An ending took the place of its slip.
    Ended(u64, Outcome),
    /// This ending was picked.
    Picked(u64, Outcome),
}
