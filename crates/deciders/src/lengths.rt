//! How long a spelling is.
ghost use Rattle.std.specs.Prelude.{◌≡◌, ◌≤◌, ◌+◌, ◌-◌, ◌^◌, min, length};
ghost use Rattle.deciders.specs.Spelling.{sized, listed, digest_spelling, stamp_spelling, dep_spelling, lists_spelling, hash_spelling, spelling};

use crate::content::Digest;
use crate::recorded::{Dep, Rec};
use crate::version::Version;
use scons_base::{PathText, Text};
use world_api::Hash;

/// The length of a record's spelling, or the greatest number of 64 bits where it is more.
pub fn spelled_len(version: Version, rec: &Rec) -> u64
    ensures { result ≡ min (length (spelling version rec.now)) (2 ^ 64 - 1) }
{
    lists_len(rec).saturating_add(front_len(version, rec.hash))
}

/// What stands in front of the lists: the byte of the work, and that of the digests' function where there is one.
fn front_len(version: Version, _hash: Hash) -> u64
    ensures value { result ≡ length (hash_spelling version _hash) + 1 }
    ensures small { result ≤ 2 }
{
    match version {
        Version::One => 1,
        Version::Two => 2,
    }
}

fn lists_len(rec: &Rec) -> u64
    ensures { result ≡ min (length (lists_spelling rec.now)) (2 ^ 64 - 1) }
{
    let targets = paths_len(rec.targets.as_slice());
    let signed = texts_len(rec.signed.as_slice());
    let deps = deps_len(rec.deps.as_slice());
    targets.saturating_add(signed).saturating_add(deps)
}

/// The same of a list of paths.
pub fn paths_len(paths: &[PathText]) -> u64
    ensures { result ≡ min (length (listed sized paths.now)) (2 ^ 64 - 1) }
{
    let mut len: u64 = 4;
    for path in paths {
        len = len
            .saturating_add(path.as_str().len() as u64)
            .saturating_add(4);
    }
    len
}

fn texts_len(texts: &[Text]) -> u64
    ensures { result ≡ min (length (listed sized texts.now)) (2 ^ 64 - 1) }
{
    let mut len: u64 = 4;
    for text in texts {
        len = len
            .saturating_add(text.as_str().len() as u64)
            .saturating_add(4);
    }
    len
}

fn deps_len(deps: &[Dep]) -> u64
    ensures { result ≡ min (length (listed dep_spelling deps.now)) (2 ^ 64 - 1) }
{
    let mut len: u64 = 4;
    for dep in deps {
        len = len
            .saturating_add(dep.name.as_str().len() as u64)
            .saturating_add(dep_rest_len(dep));
    }
    len
}

/// What a dependency's spelling has beside the bytes of its name.
fn dep_rest_len(dep: &Dep) -> u64
    ensures { result + length dep.now.name ≡ length (dep_spelling dep.now) }
{
    4 + digest_len(dep.digest) + stamp_len(dep.stamp)
}

fn digest_len(digest: Option<Digest>) -> u64
    ensures value { result ≡ length (digest_spelling digest) }
    ensures small { result ≤ 33 }
{
    match digest {
        None => 1,
        Some(digest) => digest.as_bytes().len() as u64 + 1,
    }
}

fn stamp_len(stamp: Option<u64>) -> u64
    ensures value { result ≡ length (stamp_spelling stamp) }
    ensures small { result ≤ 9 }
{
    if stamp.is_some() { 9 } else { 1 }
}
