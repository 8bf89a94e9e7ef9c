//! How a text is cut into parts and words.
ghost use Rattle.std.specs.Prelude.{◌≡◌, ◌<◌, ◌++◌, ◌∷◌, [], length, map, filter, chars, encode_utf8_all, IfOk, OnOk, MatchOption};
ghost use Rattle.std.specs.List.{position_or_len, before_first, after_first};
ghost use Rattle.py_text.specs.Splitting.{split_of, is_word, words_of};
ghost use Rattle.py_text.specs.Sizes.{saturated};
ghost use Rattle.py_text.specs.White.{is_white};

use crate::characters::next_char;
use crate::finding::cut_at_first;
use crate::white::is_white;
use scons_base::Memory;
use std::alloc::Global;

/// The parts between the places of the separator.
pub fn split<'a>(alloc: Global, text: &'a str, separator: &str) -> Result<Vec<&'a str>, Memory>
    requires { 0 < length separator.now }
    ensures { IfOk result (λ parts. map (λ part. part.now) parts.items ≡ split_of text.now separator.now) }
{
    let mut parts = Vec::new(alloc);
    let mut rest = text;
    'cuts: while let Some((part, after)) = cut_at_first(rest, separator) {
        parts.push(part)?;
        rest = after;
    }
    parts.push(rest)?;
    Ok(parts)
}

/// How many parts `split` makes.
pub fn split_count(text: &str, separator: &str) -> u64
    requires { 0 < length separator.now }
    ensures { result ≡ saturated (length (split_of text.now separator.now)) }
{
    let mut count: u64 = 1;
    let mut rest = text;
    'cuts: while let Some((_, after)) = cut_at_first(rest, separator) {
        count = count.saturating_add(1);
        rest = after;
    }
    count
}

/// The words between runs of white space.
pub fn words(alloc: Global, text: &str) -> Result<Vec<&str>, Memory>
    ensures { IfOk result (λ words. map (λ word. word.now) words.items ≡ words_of text.now) }
{
    let mut words = Vec::new(alloc);
    let mut rest = text;
    'parts: while let Some((part, after)) = cut_at_white(rest) {
        push_word(&mut words, part)?;
        rest = after;
    }
    push_word(&mut words, rest)?;
    Ok(words)
}

/// How many words there are.
pub fn word_count(text: &str) -> u64
    ensures { result ≡ saturated (length (words_of text.now)) }
{
    let mut count: u64 = 0;
    let mut rest = text;
    'parts: while let Some((part, after)) = cut_at_white(rest) {
        count = count.saturating_add(words_in(part));
        rest = after;
    }
    count.saturating_add(words_in(rest))
}

/// One, or none where the part is empty.
fn words_in(part: &str) -> u64
    ensures { result ≡ length (filter is_word (part.now ∷ [])) }
{
    if part.is_empty() { 0 } else { 1 }
}

fn push_word<'a>(words: &mut Vec<&'a str>, part: &'a str) -> Result<(), Memory>
    ensures { OnOk result (map (λ word. word.now) words.new.items ≡ map (λ word. word.now) words.old.items ++ filter is_word (part.now ∷ [])) }
{
    if !part.is_empty() {
        words.push(part)?;
    }
    Ok(())
}

/// What stands before the first white space, and what behind it.
fn cut_at_white(text: &str) -> Option<(&str, &str)>
    ensures { MatchOption result (position_or_len is_white (chars text.now) ≡ length (chars text.now))
        (λ parts. (position_or_len is_white (chars text.now) < length (chars text.now))
        × (chars parts.0.now ≡ before_first is_white (chars text.now))
        × (chars parts.1.now ≡ after_first is_white (chars text.now))
        × (length parts.1.now < length text.now)) }
{
    let mut rest = text;
    'characters: while let Some((c, after)) = next_char(rest) {
        if is_white(c) {
            return Some((&text[..text.len() - rest.len()], after));
        }
        rest = after;
    }
    None
}
