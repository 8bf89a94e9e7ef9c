//! Keys replaced by values, one after the other.
ghost use Rattle.std.specs.Prelude.{◌≡◌, ◌≢◌, ◌-◌, ◌^◌, ◌++◌, All, length, min, None, IfOk, OnOk, MatchOption};
ghost use Rattle.world_api.specs.Replacing.{replaced, replaced_all};
ghost use Rattle.text_files.specs.Refusals.{Makes, MakesUpTo, told, too_long};

use crate::refusal::TextRefusal;
use memchr::memmem::Finder;
use scons_base::{Blob, Memory};
use std::alloc::Global;

/// The bytes with the key of each pair replaced by its value, the pairs in order, each on what the one before made.
pub fn replace_all(
    alloc: Global,
    bytes: &[u8],
    pairs: &[(Blob, Blob)],
    limit: u64,
) -> Result<Blob, TextRefusal>
    requires { All (λ pair. length pair.0 ≢ 0) pairs.now }
    ensures { Makes result (too_long limit bytes.now pairs.now) (replaced_all bytes.now pairs.now) }
{
    let mut made = Blob::of(alloc, bytes)?;
    for (key, value) in pairs {
        made = replaced_within(
            alloc,
            made.as_slice(),
            key.as_slice(),
            value.as_slice(),
            limit,
        )?;
    }
    Ok(made)
}

/// The same for one pair.
fn replaced_within(
    alloc: Global,
    bytes: &[u8],
    key: &[u8],
    value: &[u8],
    limit: u64,
) -> Result<Blob, TextRefusal>
    requires { length key.now ≢ 0 }
    ensures { MakesUpTo limit (replaced key.now value.now bytes.now) result }
{
    let len = replaced_len(bytes, key, value);
    if len > limit {
        return Err(TextRefusal::TooLarge(len));
    }
    let mut made = Vec::new(alloc);
    push_replaced(&mut made, bytes, key, value)?;
    Ok(Blob::new(made))
}

/// How long the bytes are then, or the greatest number of 64 bits where that is more.
fn replaced_len(bytes: &[u8], key: &[u8], value: &[u8]) -> u64
    requires { length key.now ≢ 0 }
    ensures { result ≡ told (length (replaced key.now value.now bytes.now)) }
{
    let finder = Finder::new(key);
    let mut len: u64 = 0;
    let mut rest = bytes;
    while let Some(place) = finder.find(rest) {
        len = len
            .saturating_add(place as u64)
            .saturating_add(value.len() as u64);
        rest = &rest[place + key.len()..];
    }
    len.saturating_add(rest.len() as u64)
}

fn push_replaced(made: &mut Vec<u8>, bytes: &[u8], key: &[u8], value: &[u8]) -> Result<(), Memory>
    requires { length key.now ≢ 0 }
    ensures { OnOk result (made.new.items ≡ made.old.items ++ replaced key.now value.now bytes.now) }
{
    let finder = Finder::new(key);
    let mut rest = bytes;
    while let Some(place) = finder.find(rest) {
        made.extend_from_slice(&rest[..place])?;
        made.extend_from_slice(value)?;
        rest = &rest[place + key.len()..];
    }
    made.extend_from_slice(rest)?;
    Ok(())
}
