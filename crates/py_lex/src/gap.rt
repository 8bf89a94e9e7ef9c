//! What stands between the parts of a script: blanks, comments, joined lines.
ghost use Rattle.std.specs.Prelude.{◌≡◌, ◌≢◌, ◌<◌, length};
ghost use Rattle.py_lex.specs.Gaps.{gap_at};

use crate::bytes::{after_comment, after_line_end, cut_blanks, is_blank};

/// What stands in front of a part of a script.
#[derive(Clone, Copy)]
pub enum Gap {
    Blanks,
    Comment,
    LineEnd,
    /// A backslash and a line end.
    Joined,
    /// Something else.
    Nothing,
}

/// The gap in front, and what follows it.
pub fn next_gap(bytes: &[u8]) -> (Gap, &[u8])
    ensures gap { result.0 ≡ (gap_at bytes.now).0 }
    ensures rest { result.1.now ≡ (gap_at bytes.now).1 }
    ensures shorter { result.0 ≢ Gap.Nothing → length result.1.now < length bytes.now }
{
    let Some((byte, rest)) = bytes.split_first() else {
        return (Gap::Nothing, bytes);
    };
    if is_blank(*byte) {
        return (Gap::Blanks, cut_blanks(rest).1);
    }
    if *byte == b'#' {
        return (Gap::Comment, after_comment(rest));
    }
    if *byte == b'\\' {
        return match after_line_end(rest) {
            Some(joined) if !joined.is_empty() => (Gap::Joined, joined),
            _ => (Gap::Nothing, bytes),
        };
    }
    match after_line_end(bytes) {
        Some(next) => (Gap::LineEnd, next),
        None => (Gap::Nothing, bytes),
    }
}
