//! What the signed texts of a write say: a number, and keys with their values.
ghost use Rattle.std.specs.Prelude.{◌≡◌, ◌++◌, ◌==◌, length, IfOk, OnOk};
ghost use Rattle.world_api.specs.Writing.{number_in, pairs_in, with_digit, with_digits};

use scons_base::{Blob, Listing, Memory, Text};
use std::alloc::Global;

/// The number of 32 bits that a text spells in decimal digits.
pub(crate) fn number_in(text: &str) -> Option<u32>
    ensures { result ≡ number_in text.now }
{
    let bytes = text.as_bytes();
    if bytes.is_empty() {
        return None;
    }
    with_digits(bytes)
}

fn with_digits(bytes: &[u8]) -> Option<u32>
    ensures { result ≡ with_digits 0 bytes.now }
{
    let mut number: u32 = 0;
    for byte in bytes {
        number = with_digit(number, *byte)?;
    }
    Some(number)
}

fn with_digit(number: u32, byte: u8) -> Option<u32>
    ensures { result ≡ with_digit number byte }
{
    if !matches!(byte, b'0'..=b'9') {
        return None;
    }
    let more = u64::from(number) * 10 + u64::from(byte - b'0');
    if more <= u64::from(u32::MAX) {
        Some(more as u32)
    } else {
        None
    }
}

/// Keys with their values, where each key has a value and none is empty.
pub(crate) fn pairs_in(
    alloc: Global,
    texts: &[Text],
) -> Result<Option<Listing<(Blob, Blob)>>, Memory>
    ensures { IfOk result (λ pairs. pairs ≡ pairs_in texts.now) }
{
    let mut pairs = Listing::empty(alloc);
    let mut rest = texts;
    while let [key, value, behind @ ..] = rest {
        if key.as_str().is_empty() {
            return Ok(None);
        }
        pairs.push(pair_of(alloc, key, value)?)?;
        rest = behind;
    }
    if rest.is_empty() {
        Ok(Some(pairs))
    } else {
        Ok(None)
    }
}

fn pair_of(alloc: Global, key: &Text, value: &Text) -> Result<(Blob, Blob), Memory>
    ensures { IfOk result (λ pair. pair ≡ (key.now, value.now)) }
{
    let key = Blob::of(alloc, key.as_str().as_bytes())?;
    let value = Blob::of(alloc, value.as_str().as_bytes())?;
    Ok((key, value))
}
