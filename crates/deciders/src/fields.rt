//! Fields of a record, read from the front of bytes: each with the bytes behind it.
ghost use Rattle.std.specs.Prelude.{◌≡◌, true, false, MatchOption};
ghost use Rattle.std.specs.Str.{is_utf8};
ghost use Rattle.std.specs.Int.{w32, w64};
ghost use Rattle.deciders.specs.Reading.{Gives, number_at, bytes_at, text_of, path_of, digest_bytes, text_at, path_at, work_at, hash_byte_at, hash_at, digest_at, stamp_at, dep_at};

use crate::content::{Digest, as_digest, digest_len};
use crate::recorded::Dep;
use crate::unread::Unread;
use crate::version::Version;
use scons_base::{PathFault, PathText, Text};
use std::alloc::Global;
use world_api::{Hash, Work};

pub(crate) fn u32_at(bytes: &[u8]) -> Result<(u32, &[u8]), Unread>
    ensures { Gives (λ x. (x.0, x.1.now)) result (number_at w32 bytes.now) }
{
    if bytes.len() < 4 {
        return Err(Unread::Malformed);
    }
    let (front, rest) = bytes.split_at(4);
    let number = u32::from_be_bytes([front[0], front[1], front[2], front[3]]);
    Ok((number, rest))
}

fn u64_at(bytes: &[u8]) -> Result<(u64, &[u8]), Unread>
    ensures { Gives (λ x. (x.0, x.1.now)) result (number_at w64 bytes.now) }
{
    if bytes.len() < 8 {
        return Err(Unread::Malformed);
    }
    let (front, rest) = bytes.split_at(8);
    let number = u64::from_be_bytes([
        front[0], front[1], front[2], front[3], front[4], front[5], front[6], front[7],
    ]);
    Ok((number, rest))
}

/// Four bytes of length, and that many bytes.
#[tactic(auto, unfolding(crate::specs::Reading::bytes_at))]
fn bytes_at(bytes: &[u8]) -> Result<(&[u8], &[u8]), Unread>
    ensures { Gives (λ x. (x.0.now, x.1.now)) result (bytes_at bytes.now) }
{
    let (len, rest) = u32_at(bytes)?;
    let len = len as usize;
    if rest.len() < len {
        return Err(Unread::Malformed);
    }
    Ok(rest.split_at(len))
}

fn as_text(bytes: &[u8]) -> Result<&str, Unread>
    ensures { Gives (λ text. text.now) result (text_of bytes.now) }
{
    match str::from_utf8(bytes) {
        Ok(text) => Ok(text),
        Err(_) => Err(Unread::Malformed),
    }
}

#[tactic(auto, unfolding(crate::specs::Reading::text_at))]
pub(crate) fn text_at(alloc: Global, bytes: &[u8]) -> Result<(Text, &[u8]), Unread>
    ensures { Gives (λ x. (x.0, x.1.now)) result (text_at bytes.now) }
{
    let (bytes, rest) = bytes_at(bytes)?;
    let text = as_text(bytes)?;
    Ok((Text::of(alloc, text)?, rest))
}

fn as_path(alloc: Global, text: &str) -> Result<PathText, Unread>
    ensures { Gives (λ path. path) result (path_of text.now) }
{
    match PathText::read(alloc, text) {
        Ok(path) => Ok(path),
        Err(PathFault::Memory) => Err(Unread::Memory),
        Err(_) => Err(Unread::Malformed),
    }
}

#[tactic(auto, unfolding(crate::specs::Reading::path_at))]
pub(crate) fn path_at(alloc: Global, bytes: &[u8]) -> Result<(PathText, &[u8]), Unread>
    ensures { Gives (λ x. (x.0, x.1.now)) result (path_at bytes.now) }
{
    let (bytes, rest) = bytes_at(bytes)?;
    let text = as_text(bytes)?;
    Ok((as_path(alloc, text)?, rest))
}

#[tactic(auto, unfolding(crate::specs::Reading::work_at))]
pub(crate) fn work_at(bytes: &[u8]) -> Result<(Work, &[u8]), Unread>
    ensures { Gives (λ x. (x.0, x.1.now)) result (work_at bytes.now) }
{
    match bytes {
        [0, rest @ ..] => Ok((Work::Shell, rest)),
        [1, rest @ ..] => Ok((Work::Copy, rest)),
        [2, rest @ ..] => Ok((Work::Write, rest)),
        _ => Err(Unread::Malformed),
    }
}

/// What the digests of a record are made by. Version 1 doesn't say it.
pub(crate) fn hash_at(version: Version, bytes: &[u8]) -> Result<(Hash, &[u8]), Unread>
    ensures { Gives (λ x. (x.0, x.1.now)) result (hash_at version bytes.now) }
{
    match version {
        Version::One => Ok((Hash::Md5, bytes)),
        Version::Two => hash_byte_at(bytes),
    }
}

#[tactic(auto, unfolding(crate::specs::Reading::hash_byte_at))]
fn hash_byte_at(bytes: &[u8]) -> Result<(Hash, &[u8]), Unread>
    ensures { Gives (λ x. (x.0, x.1.now)) result (hash_byte_at bytes.now) }
{
    match bytes {
        [0, rest @ ..] => Ok((Hash::Md5, rest)),
        [1, rest @ ..] => Ok((Hash::Sha1, rest)),
        [2, rest @ ..] => Ok((Hash::Sha256, rest)),
        _ => Err(Unread::Malformed),
    }
}

#[tactic(auto, unfolding(crate::specs::Reading::digest_at))]
fn digest_at(hash: Hash, bytes: &[u8]) -> Result<(Option<Digest>, &[u8]), Unread>
    ensures { Gives (λ x. (x.0, x.1.now)) result (digest_at hash bytes.now) }
{
    match bytes {
        [0, rest @ ..] => Ok((None, rest)),
        [1, rest @ ..] => {
            let (digest, rest) = digest_bytes(hash, rest)?;
            Ok((Some(digest), rest))
        }
        _ => Err(Unread::Malformed),
    }
}

fn digest_bytes(hash: Hash, bytes: &[u8]) -> Result<(Digest, &[u8]), Unread>
    ensures { Gives (λ x. (x.0, x.1.now)) result (digest_bytes hash bytes.now) }
{
    let len = digest_len(hash);
    if bytes.len() < len {
        return Err(Unread::Malformed);
    }
    let (front, rest) = bytes.split_at(len);
    Ok((as_digest(hash, front), rest))
}

#[tactic(auto, unfolding(crate::specs::Reading::stamp_at))]
fn stamp_at(bytes: &[u8]) -> Result<(Option<u64>, &[u8]), Unread>
    ensures { Gives (λ x. (x.0, x.1.now)) result (stamp_at bytes.now) }
{
    match bytes {
        [0, rest @ ..] => Ok((None, rest)),
        [1, rest @ ..] => {
            let (stamp, rest) = u64_at(rest)?;
            Ok((Some(stamp), rest))
        }
        _ => Err(Unread::Malformed),
    }
}

#[tactic(auto, unfolding(crate::specs::Reading::dep_at))]
pub(crate) fn dep_at(alloc: Global, hash: Hash, bytes: &[u8]) -> Result<(Dep, &[u8]), Unread>
    ensures { Gives (λ x. (x.0, x.1.now)) result (dep_at hash bytes.now) }
{
    let (name, rest) = path_at(alloc, bytes)?;
    let (digest, rest) = digest_at(hash, rest)?;
    let (stamp, rest) = stamp_at(rest)?;
    let dep = Dep {
        name,
        digest,
        stamp,
    };
    Ok((dep, rest))
}
