//! The spelling of a record.
ghost use Rattle.std.specs.Prelude.{◌≡◌, ◌<◌, ◌≤◌, ◌^◌, ◌++◌, All, length, IfOk, IfSome, OnOk};
ghost use Rattle.std.specs.Int.{w32, to_be_bytes};
ghost use Rattle.deciders.specs.Records.{IsValid};
ghost use Rattle.deciders.specs.Spelling.{work_byte, hash_byte, hash_spelling, sized, listed, digest_spelling, stamp_spelling, dep_spelling, lists_spelling, spelling};
ghost use Rattle.deciders.specs.Spelling.{HasHash, IsText, IsPathText, IsDigest, IsDep, IsListOf, IsSpellable, Spells};

use crate::content::Digest;
use crate::recorded::{Dep, Rec};
use crate::version::Version;
use scons_base::{Memory, PathText, Text};
use std::alloc::Global;
use world_api::{Hash, Work};

fn work_byte(work: Work) -> u8
    ensures { result ≡ work_byte work }
{
    match work {
        Work::Shell => 0,
        Work::Copy => 1,
        Work::Write => 2,
    }
}

fn hash_byte(hash: Hash) -> u8
    ensures { result ≡ hash_byte hash }
{
    match hash {
        Hash::Md5 => 0,
        Hash::Sha1 => 1,
        Hash::Sha256 => 2,
    }
}

fn push_count(out: &mut Vec<u8>, count: usize) -> Result<(), Memory>
    requires { count < 2 ^ 32 }
    ensures { OnOk result (out.new.items ≡ out.old.items ++ to_be_bytes w32 count) }
{
    out.extend_from_slice(&(count as u32).to_be_bytes())?;
    Ok(())
}

/// Its length, and the bytes.
fn push_sized(out: &mut Vec<u8>, bytes: &[u8]) -> Result<(), Memory>
    requires { length bytes.now < 2 ^ 32 }
    ensures { OnOk result (out.new.items ≡ out.old.items ++ sized bytes.now) }
{
    push_count(out, bytes.len())?;
    out.extend_from_slice(bytes)?;
    Ok(())
}

/// A path is one that has a spelling.
fn push_path(out: &mut Vec<u8>, path: &PathText) -> Result<(), Memory>
    requires { length path.now < 2 ^ 32 }
    ensures spelt { OnOk result (out.new.items ≡ out.old.items ++ sized path.now) }
    ensures is { IsPathText path.now }
{
    push_sized(out, path.normal_text().as_bytes())
}

/// And so is a text.
fn push_text(out: &mut Vec<u8>, text: &Text) -> Result<(), Memory>
    requires { length text.now < 2 ^ 32 }
    ensures spelt { OnOk result (out.new.items ≡ out.old.items ++ sized text.now) }
    ensures is { IsText text.now }
{
    push_sized(out, text.as_str().as_bytes())
}

/// Adds the spelling of a list of paths.
pub fn push_paths(out: &mut Vec<u8>, paths: &[PathText]) -> Result<(), Memory>
    requires count { length paths.now < 2 ^ 32 }
    requires each { All (λ path. length path < 2 ^ 32) paths.now }
    ensures spelt { OnOk result (out.new.items ≡ out.old.items ++ listed sized paths.now) }
    ensures are { OnOk result (IsListOf IsPathText paths.now) }
{
    push_count(out, paths.len())?;
    for path in paths {
        push_path(out, path)?;
    }
    Ok(())
}

fn push_texts(out: &mut Vec<u8>, texts: &[Text]) -> Result<(), Memory>
    requires count { length texts.now < 2 ^ 32 }
    requires each { All (λ text. length text < 2 ^ 32) texts.now }
    ensures spelt { OnOk result (out.new.items ≡ out.old.items ++ listed sized texts.now) }
    ensures are { OnOk result (IsListOf IsText texts.now) }
{
    push_count(out, texts.len())?;
    for text in texts {
        push_text(out, text)?;
    }
    Ok(())
}

fn push_digest(out: &mut Vec<u8>, digest: Option<Digest>) -> Result<(), Memory>
    ensures spelt { OnOk result (out.new.items ≡ out.old.items ++ digest_spelling digest) }
    ensures is { IfSome digest IsDigest }
{
    match digest {
        None => out.push(0)?,
        Some(digest) => {
            out.push(1)?;
            out.extend_from_slice(digest.as_bytes())?;
        }
    }
    Ok(())
}

fn push_stamp(out: &mut Vec<u8>, stamp: Option<u64>) -> Result<(), Memory>
    ensures spelt { OnOk result (out.new.items ≡ out.old.items ++ stamp_spelling stamp) }
    ensures is { IfSome stamp (λ stamp. stamp < 2 ^ 64) }
{
    match stamp {
        None => out.push(0)?,
        Some(stamp) => {
            out.push(1)?;
            out.extend_from_slice(&stamp.to_be_bytes())?;
        }
    }
    Ok(())
}

fn push_dep(out: &mut Vec<u8>, dep: &Dep) -> Result<(), Memory>
    requires { length dep.now.name < 2 ^ 32 }
    ensures spelt { OnOk result (out.new.items ≡ out.old.items ++ dep_spelling dep.now) }
    ensures is { OnOk result (IsDep dep.now) }
{
    push_path(out, &dep.name)?;
    push_digest(out, dep.digest)?;
    push_stamp(out, dep.stamp)
}

fn push_deps(out: &mut Vec<u8>, deps: &[Dep]) -> Result<(), Memory>
    requires count { length deps.now < 2 ^ 32 }
    requires each { All (λ dep. length dep.name < 2 ^ 32) deps.now }
    ensures spelt { OnOk result (out.new.items ≡ out.old.items ++ listed dep_spelling deps.now) }
    ensures are { OnOk result (IsListOf IsDep deps.now) }
{
    push_count(out, deps.len())?;
    for dep in deps {
        push_dep(out, dep)?;
    }
    Ok(())
}

/// Adds the one spelling of a record in a version. Each of its parts has one.
pub fn push_record(out: &mut Vec<u8>, version: Version, rec: &Rec) -> Result<(), Memory>
    requires { length (spelling version rec.now) < 2 ^ 32 }
    ensures spelt { OnOk result (out.new.items ≡ out.old.items ++ spelling version rec.now) }
    ensures parts { OnOk result (IsSpellable rec.now) }
{
    out.push(work_byte(rec.work))?;
    push_hash(out, version, rec.hash)?;
    push_lists(out, rec)
}

fn push_hash(out: &mut Vec<u8>, version: Version, hash: Hash) -> Result<(), Memory>
    ensures { OnOk result (out.new.items ≡ out.old.items ++ hash_spelling version hash) }
{
    match version {
        Version::One => {}
        Version::Two => out.push(hash_byte(hash))?,
    }
    Ok(())
}

fn push_lists(out: &mut Vec<u8>, rec: &Rec) -> Result<(), Memory>
    requires { length (lists_spelling rec.now) < 2 ^ 32 }
    ensures spelt { OnOk result (out.new.items ≡ out.old.items ++ lists_spelling rec.now) }
    ensures parts { OnOk result (IsSpellable rec.now) }
{
    push_paths(out, rec.targets.as_slice())?;
    push_texts(out, rec.signed.as_slice())?;
    push_deps(out, rec.deps.as_slice())
}

/// The one spelling of a record in a version that has its digests.
pub fn encode(alloc: Global, version: Version, rec: &Rec) -> Result<Vec<u8>, Memory>
    requires valid { IsValid rec.now }
    requires hash { HasHash version rec.now.hash }
    requires fits { length (spelling version rec.now) ≤ 4294967294 }
    ensures { IfOk result (λ bytes. Spells version bytes.items rec.now) }
{
    let mut out = Vec::new(alloc);
    push_record(&mut out, version, rec)?;
    Ok(out)
}
