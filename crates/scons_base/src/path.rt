//! Path texts in normal form.
ghost use Rattle.std.specs.Prelude.{nat_eq, position, ◌≡◌, ◌≢◌, ◌==◌, List, ℕ, None, Some, IfOk, IfErr, IsTrue, string_bytes};
ghost use Rattle.std.specs.List.{slice_split, list_all};
ghost use Rattle.std.specs.Hash as fed;
ghost use Rattle.std.specs.Cmp.{partial_equiv_from_equiv};
ghost use Rattle.std.specs.Cmp.Rules.{hashing};
ghost use Rattle.std.specs.Cmp.Lexicographic.{pointwise, slice_cmp, nat_list_eq_equiv, nat_list_cmp_total, texts_ties, texts_po};
ghost use Rattle.std.specs.Ordering.{nat_cmp};
ghost use Rattle.std.proofs.Common.{refl, rules};
ghost use Rattle.scons_base.specs.Normal.{is_name, is_normal, slash};
ghost use Rattle.scons_base.specs.PathFaults.{fault_in, is_path};

use crate::fault::PathFault;
use crate::limits::PATH_LIMIT;
use crate::memory::Memory;
use std::alloc::Global;
use std::cmp::Ordering;
use std::hash::{Hash, Hasher};
use std::marker::Model;

/// A path in normal form, so that each path has one spelling: `.` for the top directory, names joined by single
/// slashes below it, and a slash in front of an absolute path.
#[derive(Debug, Drop)]
pub struct PathText {
    text: String,
}

impl Model for PathText {
    ghost use Rattle.std.specs.Prelude.{List, ℕ, IsTrue, string_bytes};
    ghost use Rattle.scons_base.specs.PathFaults.{is_path};

    ghost Value = { List ℕ };

    ghost view = { λ p. string_bytes p.text };

    ghost invariant = { λ p. IsTrue (is_path (string_bytes p.text)) };
}

impl PathText {
    /// Takes a text that is a path in normal form already. A text of more than 4,096 bytes is too long, whatever it
    /// would fold to.
    pub fn read(alloc: Global, text: &str) -> Result<PathText, PathFault>
        ensures path { IfOk result (λ p. p ≡ text.now) }
        ensures no_fault { IfOk result (λ _. fault_in text.now ≡ None) }
        ensures fault { IfErr result (λ e. e ≢ PathFault.Memory → fault_in text.now ≡ Some e) }
    {
        if let Some(fault) = fault_of(text.as_bytes()) {
            return Err(fault);
        }
        Ok(PathText {
            text: String::from_str(alloc, text)?,
        })
    }

    pub(crate) fn normal(text: String) -> PathText
        requires { IsTrue (is_path (string_bytes text)) }
        ensures { result ≡ string_bytes text }
    {
        PathText { text }
    }

    pub fn as_str(&self) -> &str
        ensures { result.now ≡ self.now }
    {
        self.text.as_str()
    }

    /// The text, with what is known of each path.
    pub fn normal_text(&self) -> &str
        ensures value { result.now ≡ self.now }
        ensures valid { IsTrue (is_path self.now) }
    {
        self.text.as_str()
    }

    pub(crate) fn allocator(&self) -> Global {
        *self.text.allocator()
    }

    pub fn copy(&self) -> Result<PathText, Memory>
        ensures { IfOk result (λ p. p ≡ self.now) }
    {
        Ok(PathText {
            text: self.text.clone()?,
        })
    }
}

impl PartialEq for PathText {
    ghost eq = { pointwise nat_eq };

    ghost laws = { partial_equiv_from_equiv nat_list_eq_equiv };

    fn eq(&self, other: &Self) -> bool {
        self.as_str() == other.as_str()
    }
}

impl Eq for PathText {
    ghost laws = { nat_list_eq_equiv };
}

impl PartialOrd for PathText {
    ghost partial_cmp = { λ x y. Some (slice_cmp nat_cmp x y) };

    ghost laws = { texts_po };

    fn partial_cmp(&self, other: &Self) -> Option<Ordering> {
        Some(self.cmp(other))
    }
}

impl Ord for PathText {
    ghost cmp = { slice_cmp nat_cmp };

    ghost total = { nat_list_cmp_total };

    ghost matches_partial_cmp = { λ x y. refl };

    ghost matches_eq = { texts_ties };

    fn cmp(&self, other: &Self) -> Ordering {
        self.as_str().cmp(other.as_str())
    }
}

impl Hash for PathText {
    ghost hash_input = { fed.str };

    ghost respects_eq = { Prim.search (hashing, rules) };

    fn hash<H: Hasher>(&self, state: &mut H) {
        self.as_str().hash(state);
    }
}

/// The first reason for which the bytes are no path.
fn fault_of(text: &[u8]) -> Option<PathFault>
    ensures { result ≡ fault_in text.now }
{
    if text.is_empty() {
        return Some(PathFault::Empty);
    }
    if let Some(place) = zero_in(text) {
        return Some(PathFault::BadByte(place));
    }
    if text.len() > PATH_LIMIT {
        return Some(PathFault::TooLong(text.len()));
    }
    if is_normal(text) {
        None
    } else {
        Some(PathFault::NotNormal)
    }
}

pub(crate) fn zero_in(text: &[u8]) -> Option<usize>
    ensures { result ≡ position (λ b. b == 0) text.now }
{
    text.iter().position(|b| *b == 0)
}

fn is_normal(path: &[u8]) -> bool
    ensures { result ≡ is_normal path.now }
{
    match path {
        b"." | b"/" => true,
        [b'/', rest @ ..] => names(rest),
        _ => names(path),
    }
}

/// Whether each part between slashes names something.
fn names(path: &[u8]) -> bool
    ensures { result ≡ list_all is_name (slice_split (λ b. b == slash) path.now) }
{
    path.split(|b| *b == b'/').all(is_name)
}

fn is_name(part: &[u8]) -> bool
    ensures { result ≡ is_name part.now }
{
    !matches!(part, b"" | b"." | b"..")
}
