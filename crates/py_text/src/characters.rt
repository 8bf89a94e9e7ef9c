//! A text by its characters.
ghost use Rattle.std.specs.Prelude.{◌≡◌, ◌++◌, ◌∷◌, [], None, Some, take, drop, chars, encode_utf8, encode_utf8_all, MatchOption};
ghost use Rattle.py_text.specs.Characters.{char_count, char_at, slice_of};

/// How many characters the text has.
pub fn char_count(text: &str) -> usize
    ensures { result ≡ char_count text.now }
{
    text.chars().count()
}

/// The character at a place, as a text.
pub fn char_at(text: &str, place: usize) -> Option<&str>
    ensures { MatchOption result (char_at text.now place ≡ None) (λ c. char_at text.now place ≡ Some c.now) }
{
    let (first, _) = first_char(behind(text, place))?;
    Some(first)
}

/// The characters from place `from` on and before place `to`, as many as there are.
pub fn slice(text: &str, from: usize, to: usize) -> &str
    ensures { result.now ≡ slice_of text.now from to }
{
    before(behind(text, from), to.saturating_sub(from))
}

/// The first character and what follows it: a loop over a text's characters takes them so.
pub fn first_char(text: &str) -> Option<(&str, &str)>
    ensures { MatchOption result (char_at text.now 0 ≡ None)
        (λ parts. (char_at text.now 0 ≡ Some parts.0.now) × (text.now ≡ parts.0.now ++ parts.1.now)) }
{
    let first = text.chars().next()?;
    Some(text.split_at(first.len_utf8()))
}

/// The first character as such, and what follows it.
pub(crate) fn next_char(text: &str) -> Option<(char, &str)>
    ensures { MatchOption result (chars text.now ≡ [])
        (λ parts. (text.now ≡ encode_utf8 parts.0 ++ parts.1.now) × (chars text.now ≡ parts.0 ∷ chars parts.1.now)) }
{
    let mut rest = text.chars();
    let first = rest.next()?;
    Some((first, rest.as_str()))
}

/// What stands before the last character, and that one.
pub(crate) fn last_char(text: &str) -> Option<(&str, char)>
    ensures { MatchOption result (chars text.now ≡ [])
        (λ parts. (text.now ≡ parts.0.now ++ encode_utf8 parts.1) × (chars text.now ≡ chars parts.0.now ++ parts.1 ∷ [])) }
{
    let mut rest = text.chars();
    let last = rest.next_back()?;
    Some((rest.as_str(), last))
}

/// What follows the first `count` characters.
fn behind(text: &str, count: usize) -> &str
    ensures follows { text.now ≡ encode_utf8_all (take count (chars text.now)) ++ result.now }
    ensures chars { chars result.now ≡ drop count (chars text.now) }
{
    let mut rest = text.chars();
    let mut left = count;
    'characters: while left > 0 {
        match rest.next() {
            Some(_) => left -= 1,
            None => break,
        }
    }
    rest.as_str()
}

/// The first `count` characters.
fn before(text: &str, count: usize) -> &str
    ensures { result.now ≡ encode_utf8_all (take count (chars text.now)) }
{
    let rest = behind(text, count);
    &text[..text.len() - rest.len()]
}
