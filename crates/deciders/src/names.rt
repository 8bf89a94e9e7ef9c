//! Whether paths are named once, and whether digests are by one function.
ghost use Rattle.std.specs.Prelude.{◌≡◌, ◌++◌, ◌∷◌, [], List, ℕ, not, map, IfOk, if◌then◌else◌};
ghost use Rattle.std.specs.List.{list_any, list_all};
ghost use Rattle.std.specs.Str.{bytes_eq};
ghost use Rattle.deciders.specs.Records.{is_by, named_once, name_of};

use crate::content::is_same;
use crate::recorded::Dep;
use indexmap::IndexSet;
use scons_base::{Memory, PathText};
use std::alloc::Global;
use std::marker::Model;
use world_api::Hash;

/// The names that were met, in order, as they stand elsewhere.
#[derive(Drop)]
struct Names<'a> {
    paths: IndexSet<&'a str>,
}

impl<'a> Model for Names<'a> {
    ghost use Rattle.std.specs.Prelude.{List, ℕ, map};

    ghost Value = { List (List ℕ) };

    ghost view = { λ n. map (λ path. path.now) n.paths.keys };
}

impl<'a> Names<'a> {
    fn new(alloc: Global) -> Names<'a>
        ensures { result ≡ [] }
    {
        Names {
            paths: IndexSet::new(alloc),
        }
    }

    /// Adds a name, and says whether it wasn't there.
    fn add(&mut self, path: &'a PathText) -> Result<bool, Memory>
        ensures new { IfOk result (λ new. new ≡ not (list_any (bytes_eq path.now) self.old)) }
        ensures names { IfOk result (λ new. self.new ≡ (if new then self.old ++ path.now ∷ [] else self.old)) }
    {
        let (_, new) = self.paths.insert_full(path.as_str())?;
        Ok(new)
    }
}

/// Whether each path is named once.
pub(crate) fn are_once(alloc: Global, paths: &[PathText]) -> Result<bool, Memory>
    ensures { IfOk result (λ once. once ≡ named_once [] paths.now) }
{
    let mut names = Names::new(alloc);
    for path in paths {
        if !names.add(path)? {
            return Ok(false);
        }
    }
    Ok(true)
}

/// Whether each dependency is named once.
pub(crate) fn deps_are_once(alloc: Global, deps: &[Dep]) -> Result<bool, Memory>
    ensures { IfOk result (λ once. once ≡ named_once [] (map name_of deps.now)) }
{
    let mut names = Names::new(alloc);
    for dep in deps {
        if !names.add(&dep.name)? {
            return Ok(false);
        }
    }
    Ok(true)
}

/// Whether all digests are by this function.
pub(crate) fn are_by(hash: Hash, deps: &[Dep]) -> bool
    ensures { result ≡ list_all (is_by hash) deps.now }
{
    deps.iter().all(|dep| is_by(hash, dep))
}

fn is_by(hash: Hash, dep: &Dep) -> bool
    ensures { result ≡ is_by hash dep.now }
{
    match &dep.digest {
        Some(digest) => is_same(digest.hash(), hash),
        None => true,
    }
}
