//! The words of a reference, and what follows them.
ghost use Rattle.std.specs.Prelude.{◌≡◌, ◌<◌, ◌≤◌, ◌∷◌, [], ⊤, length, drop, None, Some, MatchOption};
ghost use Rattle.env_text.specs.Words.{words_of, word_at};
ghost use Rattle.env_text.specs.References.{behind};
ghost use Rattle.env_text.specs.Views.{plain_word};

use crate::bytes::{after_white, cut_digits, is_name_first};
use crate::number::number_of;
use crate::part::Index;
use scons_base::{cut_name, name_text};

/// A word of a reference's content.
#[derive(Clone, Copy)]
pub enum Word<'a> {
    Name(&'a str),
    Number(Index),
    /// Any other byte.
    Sign(u8),
    /// Digits that are no number.
    NoNumber,
}

/// The word in front and what follows it; none where nothing but white space is left.
pub fn next_word(bytes: &[u8]) -> Option<(Word<'_>, &[u8])>
    ensures words { MatchOption result (words_of bytes.now ≡ []) (λ p. words_of bytes.now ≡ plain_word p.0 ∷ words_of p.1.now) }
    ensures shorter { MatchOption result ⊤ (λ p. length p.1.now < length bytes.now) }
{
    let bytes = after_white(bytes);
    let Some((first, rest)) = bytes.split_first() else {
        return None;
    };
    Some(word_at(*first, rest, bytes))
}

/// The word that the first of these bytes begins, and what follows it.
fn word_at<'a>(first: u8, rest: &'a [u8], bytes: &'a [u8]) -> (Word<'a>, &'a [u8])
    requires { bytes.now ≡ first ∷ rest.now }
    ensures word { plain_word result.0 ≡ (word_at first rest.now).0 }
    ensures rest { result.1.now ≡ drop (word_at first rest.now).1 rest.now }
    ensures fits { length result.1.now ≤ length rest.now }
{
    if is_name_first(first) {
        let (name, rest) = cut_name(bytes);
        return (Word::Name(name_text(name)), rest);
    }
    if first.is_ascii_digit() {
        let (digits, rest) = cut_digits(bytes);
        return (number_of(false, digits), rest);
    }
    if first == b'-' {
        let (digits, rest) = cut_digits(rest);
        return (number_of(true, digits), rest);
    }
    (Word::Sign(first), rest)
}

/// What follows this sign, where it is the word in front.
pub fn behind(sign: u8, bytes: &[u8]) -> Option<&[u8]>
    ensures words { MatchOption result (behind sign (words_of bytes.now) ≡ None) (λ rest. behind sign (words_of bytes.now) ≡ Some (words_of rest.now)) }
    ensures shorter { MatchOption result ⊤ (λ rest. length rest.now < length bytes.now) }
{
    let (word, rest) = next_word(bytes)?;
    match word {
        Word::Sign(byte) if byte == sign => Some(rest),
        _ => None,
    }
}
