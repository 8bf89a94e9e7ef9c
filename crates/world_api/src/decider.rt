//! What decides whether a dependency has changed.

/// Its content; a time later than the target's; another time than the recorded one; or another time and another
/// content.
#[derive(Clone, Copy, Debug, PartialEq, Eq)]
pub enum Decider {
    Content,
    Newer,
    Match,
    ContentMatch,
}
