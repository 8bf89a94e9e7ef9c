//! Where a text stands in another one.
ghost use Rattle.std.specs.Prelude.{◌≡◌, ◌+◌, ◌<◌, ◌≤◌, ◌++◌, None, Some, length, take, drop, chars, MatchOption};
ghost use Rattle.py_text.specs.Finding.{starts_with, ends_with, first_place, find_of, contains};

use crate::characters::char_count;
use memchr::memmem;

/// The place, in characters, where the part stands first.
pub fn find(text: &str, part: &str) -> Option<usize>
    ensures { result ≡ find_of text.now part.now }
{
    let (before, _) = cut_at_first(text, part)?;
    Some(char_count(before))
}

pub fn contains(text: &str, part: &str) -> bool
    ensures { result ≡ contains text.now part.now }
{
    cut_at_first(text, part).is_some()
}

pub fn starts_with(text: &str, part: &str) -> bool
    ensures { result ≡ starts_with text.now part.now }
{
    text.as_bytes().starts_with(part.as_bytes())
}

pub fn ends_with(text: &str, part: &str) -> bool
    ensures { result ≡ ends_with text.now part.now }
{
    text.as_bytes().ends_with(part.as_bytes())
}

/// What stands before the first place of the part, and what behind the part there.
pub(crate) fn cut_at_first<'a>(text: &'a str, part: &str) -> Option<(&'a str, &'a str)>
    ensures { MatchOption result (first_place (chars part.now) (chars text.now) ≡ None)
        (λ parts. (first_place (chars part.now) (chars text.now) ≡ Some (length (chars parts.0.now)))
        × (text.now ≡ parts.0.now ++ part.now ++ parts.1.now)
        × (chars text.now ≡ chars parts.0.now ++ chars part.now ++ chars parts.1.now)) }
{
    let place = memmem::find(text.as_bytes(), part.as_bytes())?;
    Some((&text[..place], &text[place + part.len()..]))
}
