//! A text with another one in place of a part.
ghost use Rattle.std.specs.Prelude.{◌≡◌, ◌<◌, length, string_bytes, IfOk};
ghost use Rattle.py_text.specs.Replacing.{interspersed, replaced};
ghost use Rattle.py_text.specs.Splitting.{split_of};
ghost use Rattle.py_text.specs.Joining.{joined};
ghost use Rattle.py_text.specs.Sizes.{saturated};

use crate::characters::char_count;
use crate::finding::cut_at_first;
use scons_base::Memory;
use std::alloc::Global;

/// The text with the new text at each place of the old one.
pub fn replaced(alloc: Global, text: &str, old: &str, new: &str) -> Result<String, Memory>
    ensures { IfOk result (λ made. string_bytes made ≡ replaced text.now old.now new.now) }
{
    if old.is_empty() {
        interspersed(alloc, text, new)
    } else {
        exchanged(alloc, text, old, new)
    }
}

/// The length of what `replaced` makes.
pub fn replaced_length(text: &str, old: &str, new: &str) -> u64
    ensures { result ≡ saturated (length (replaced text.now old.now new.now)) }
{
    if old.is_empty() {
        interspersed_length(text, new)
    } else {
        exchanged_length(text, old, new)
    }
}

fn interspersed(alloc: Global, text: &str, new: &str) -> Result<String, Memory>
    ensures { IfOk result (λ made. string_bytes made ≡ interspersed text.now new.now) }
{
    let mut made = String::new(alloc);
    for c in text.chars() {
        made.push_str(new)?;
        made.push(c)?;
    }
    made.push_str(new)?;
    Ok(made)
}

fn interspersed_length(text: &str, new: &str) -> u64
    ensures { result ≡ saturated (length (interspersed text.now new.now)) }
{
    (char_count(text) as u64)
        .saturating_mul(new.len() as u64)
        .saturating_add(text.len() as u64)
        .saturating_add(new.len() as u64)
}

fn exchanged(alloc: Global, text: &str, old: &str, new: &str) -> Result<String, Memory>
    requires { 0 < length old.now }
    ensures { IfOk result (λ made. string_bytes made ≡ joined new.now (split_of text.now old.now)) }
{
    let mut made = String::new(alloc);
    let mut rest = text;
    'places: while let Some((before, after)) = cut_at_first(rest, old) {
        made.push_str(before)?;
        made.push_str(new)?;
        rest = after;
    }
    made.push_str(rest)?;
    Ok(made)
}

fn exchanged_length(text: &str, old: &str, new: &str) -> u64
    requires { 0 < length old.now }
    ensures { result ≡ saturated (length (joined new.now (split_of text.now old.now))) }
{
    let mut length: u64 = 0;
    let mut rest = text;
    'places: while let Some((before, after)) = cut_at_first(rest, old) {
        length = length
            .saturating_add(before.len() as u64)
            .saturating_add(new.len() as u64);
        rest = after;
    }
    length.saturating_add(rest.len() as u64)
}
