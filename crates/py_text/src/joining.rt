//! Texts one behind another.
ghost use Rattle.std.specs.Prelude.{◌≡◌, ◌++◌, map, flat_map, length, string_bytes, IfOk};
ghost use Rattle.py_text.specs.Joining.{joined, repeated};
ghost use Rattle.py_text.specs.Sizes.{saturated};

use scons_base::Memory;
use std::alloc::Global;

/// The parts in a row, with the separator between each two.
pub fn joined(alloc: Global, separator: &str, parts: &[&str]) -> Result<String, Memory>
    ensures { IfOk result (λ text. string_bytes text ≡ joined separator.now (map (λ part. part.now) parts.now)) }
{
    Ok(parts.join(alloc, separator)?)
}

/// The length of what `joined` makes.
pub fn joined_length(separator: &str, parts: &[&str]) -> u64
    ensures { result ≡ saturated (length (joined separator.now (map (λ part. part.now) parts.now))) }
{
    match parts.split_first() {
        None => 0,
        Some((first, others)) => length_from(separator, first, others),
    }
}

/// The length of a text with further parts behind it, each behind a separator.
fn length_from(separator: &str, first: &str, others: &[&str]) -> u64
    ensures { result ≡ saturated (length (first.now ++ flat_map (λ part. separator.now ++ part) (map (λ part. part.now) others.now))) }
{
    let mut length = first.len() as u64;
    for part in others.iter().copied() {
        length = length
            .saturating_add(separator.len() as u64)
            .saturating_add(part.len() as u64);
    }
    length
}

/// The text so many times in a row.
pub fn repeated(alloc: Global, text: &str, times: usize) -> Result<String, Memory>
    ensures { IfOk result (λ made. string_bytes made ≡ repeated text.now times) }
{
    Ok(text.repeat(alloc, times)?)
}

/// The length of what `repeated` makes.
pub fn repeated_length(text: &str, times: usize) -> u64
    ensures { result ≡ saturated (length (repeated text.now times)) }
{
    (text.len() as u64).saturating_mul(times as u64)
}
