//! The pieces that a text gives.
use scons_base::Text;

/// What stands round a part that isn't signed: `$(` in front of it and `$)` behind it.
#[derive(Clone, Copy, Debug, PartialEq, Eq)]
pub enum Mark {
    Begin,
    End,
}

/// A piece of what was read.
#[derive(Debug, Drop)]
pub enum Piece {
    Text(Text),
    Mark(Mark),
}
