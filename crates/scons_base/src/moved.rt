//! A path, taken from one directory to another.
ghost use Rattle.std.specs.Prelude.{◌≡◌, ◌+◌, true, length, IfOk, string_bytes, if◌then◌else◌};
ghost use Rattle.scons_base.specs.Normal.{is_top, is_root};
ghost use Rattle.scons_base.specs.Parts.{is_below, rest_below, joined, moved_path};

use crate::limits::PATH_LIMIT;
use crate::memory::Memory;
use crate::path::PathText;
use std::alloc::Global;

impl PathText {
    /// The path that lies in `to` as this one lies in `from`. There is none where this one isn't `from` and isn't
    /// below it, or where that path would be too long.
    pub fn moved(&self, from: &PathText, to: &PathText) -> Result<Option<PathText>, Memory>
        ensures { IfOk result (λ p. p ≡ moved_path self.now from.now to.now) }
    {
        if self == from {
            return Ok(Some(to.copy()?));
        }
        if !self.is_below(from) {
            return Ok(None);
        }
        let rest = rest_below(self.normal_text(), from.normal_text());
        let text = joined(self.allocator(), to.normal_text(), rest)?;
        if text.len() > PATH_LIMIT {
            return Ok(None);
        }
        Ok(Some(PathText::normal(text)))
    }
}

/// What stands behind a directory in a path below it.
fn rest_below<'a>(path: &'a str, dir: &str) -> &'a str
    requires { is_below path.now dir.now ≡ true }
    ensures { result.now ≡ rest_below path.now dir.now }
{
    &path[lead_len(dir)..]
}

/// How many bytes stand in front of that.
fn lead_len(dir: &str) -> usize
    ensures { result ≡ (if is_top dir.now then 0
        else (if is_root dir.now then 1 else length dir.now + 1)) }
{
    match dir.as_bytes() {
        b"." => 0,
        b"/" => 1,
        dir => dir.len() + 1,
    }
}

/// The text of what lies below a directory, by what stands behind the directory.
pub fn joined(alloc: Global, dir: &str, rest: &str) -> Result<String, Memory>
    ensures { IfOk result (λ s. string_bytes s ≡ joined dir.now rest.now) }
{
    let mut text = String::new(alloc);
    match dir.as_bytes() {
        b"." => {}
        b"/" => text.push('/')?,
        _ => {
            text.push_str(dir)?;
            text.push('/')?;
        }
    }
    text.push_str(rest)?;
    Ok(text)
}
