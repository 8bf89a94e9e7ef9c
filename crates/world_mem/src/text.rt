//! What the shell makes where no row fits.
ghost use Rattle.std.specs.Prelude.{◌≡◌, ◌++◌, ◌∷◌, [], codes, IfOk, OnOk, string_bytes};
ghost use Rattle.std.specs.List.{flat_map};
ghost use Rattle.world_mem.specs.Default.{line, digest_text, dependency_line};

use act_table::Contents;
use md5::{Digest, Md5};
use scons_base::{Blob, Memory, PathText, Texts};
use std::alloc::Global;
use world_api::Content;

/// The signed lines, each with its line feed.
pub fn signed_lines(alloc: Global, signed: &Texts) -> Result<Vec<u8>, Memory>
    ensures { IfOk result (λ text. text.items ≡ flat_map line signed.now) }
{
    let mut text = Vec::new(alloc);
    for part in signed.as_slice() {
        text.extend_from_slice(part.as_str().as_bytes())?;
        text.push(b'\n')?;
    }
    Ok(text)
}

/// A line for each dependency: its name, and the digest of what it holds.
pub fn dependency_lines(alloc: Global, given: &Contents) -> Result<Vec<u8>, Memory>
    ensures { IfOk result (λ text. text.items ≡ flat_map dependency_line given.now) }
{
    let mut text = Vec::new(alloc);
    for (path, content) in given.as_slice() {
        push_dependency(&mut text, path, content)?;
    }
    Ok(text)
}

fn push_dependency(text: &mut Vec<u8>, path: &PathText, content: &Content) -> Result<(), Memory>
    ensures { OnOk result (text.new.items ≡ text.old.items ++ dependency_line (path.now, content.now)) }
{
    let digest = digest_text(*text.allocator(), content)?;
    text.extend_from_slice(path.as_str().as_bytes())?;
    text.push(b' ')?;
    text.extend_from_slice(digest.as_bytes())?;
    text.push(b'\n')?;
    Ok(())
}

fn digest_text(alloc: Global, content: &Content) -> Result<String, Memory>
    ensures { IfOk result (λ text. string_bytes text ≡ digest_text content.now) }
{
    match content {
        Some(bytes) => Ok(hex::encode(alloc, Md5::digest(bytes.as_slice()))?),
        None => Ok(String::from_str(alloc, "absent")?),
    }
}

/// The lines of a target between those of its action and those of its dependencies.
pub fn framed(alloc: Global, front: &[u8], target: &PathText, back: &[u8]) -> Result<Blob, Memory>
    ensures { IfOk result (λ bytes. bytes ≡ front.now ++ line (codes "-> " ++ target.now) ++ back.now) }
{
    let mut bytes = Vec::from_slice(alloc, front)?;
    bytes.extend_from_slice(b"-> ")?;
    bytes.extend_from_slice(target.as_str().as_bytes())?;
    bytes.push(b'\n')?;
    bytes.extend_from_slice(back)?;
    Ok(Blob::new(bytes))
}
