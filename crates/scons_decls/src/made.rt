//! The targets declared so far, by their directories, and the directories above them.
ghost use Rattle.std.specs.Prelude.{◌≡◌, ◌<◌, [], length, take, None, OnOk, OnErr, IfOk, option_copied};
ghost use Rattle.scons_base.specs.Parts.{dir_of};
ghost use Rattle.scons_decls.specs.Tables.{value_at, put, rows_of};
ghost use Rattle.scons_decls.specs.Targets.{is_made, with_target, has_below, is_end, AreClosed, NamesAbove};

use crate::targets::Targets;
use indexmap::{IndexMap, IndexSet};
use scons_base::{Memory, PathText};
use std::alloc::Global;
use std::marker::Model;

/// The targets declared so far, each once, found by their directories.
#[derive(Drop)]
pub struct Made {
    by_dir: IndexMap<String, Targets>,
    /// The directories that have a target below them.
    dirs: IndexSet<String>,
}

impl Model for Made {
    ghost use Rattle.scons_decls.specs.Tables.{rows_of};
    ghost use Rattle.scons_decls.specs.Targets.{Declared, AreAbove};

    ghost Value = { Declared };

    ghost view = { λ m. rows_of m.by_dir.entries };

    ghost invariant = { λ m. AreAbove m.dirs.keys (rows_of m.by_dir.entries) };
}

impl Made {
    pub(crate) fn new(alloc: Global) -> Made
        ensures { result ≡ [] }
    {
        Made {
            by_dir: IndexMap::new(alloc),
            dirs: IndexSet::new(alloc),
        }
    }

    /// Whether a rule was declared for the path.
    pub fn contains(&self, path: &PathText) -> bool
        ensures { result ≡ is_made self.now path.now }
    {
        match self.by_dir.get(path.dir()) {
            Some(targets) => targets.contains(path),
            None => false,
        }
    }

    /// Whether a target was declared below the path.
    pub fn has_below(&self, path: &PathText) -> bool
        ensures { result ≡ has_below self.now path.now }
    {
        self.dirs.contains(path.normal_text())
    }

    /// The targets that stand directly in a directory.
    pub(crate) fn in_dir(&self, dir: &PathText) -> Option<&Targets>
        ensures { option_copied result ≡ value_at self.now dir.now }
    {
        self.by_dir.get(dir.as_str())
    }

    /// Notes a target.
    pub fn add(&mut self, alloc: Global, path: &PathText) -> Result<(), Memory>
        ensures { OnOk result (self.new ≡ with_target self.old path.now) }
    {
        let copy = path.copy()?;
        match self.by_dir.get_mut(path.dir()) {
            Some(targets) => targets.add(copy),
            None => self.add_first(alloc, path, copy),
        }
    }

    /// Notes the first target of a directory.
    fn add_first(&mut self, alloc: Global, path: &PathText, copy: PathText) -> Result<(), Memory>
        requires none { value_at self.old (dir_of path.now) ≡ None }
        requires copy { copy ≡ path.now }
        ensures { OnOk result (self.new ≡ with_target self.old path.now) }
    {
        let mut targets = Targets::new(alloc);
        targets.add(copy)?;
        let noted_before = self.dirs.len();
        let noted = note(alloc, &mut self.dirs, &mut self.by_dir, path, targets);
        if noted.is_err() {
            self.dirs.truncate(noted_before);
        }
        noted
    }
}

/// Notes the targets of a directory that has none yet, and the directories above them. Where memory is short, the directories
/// that were noted before still stand in front.
fn note(
    alloc: Global,
    dirs: &mut IndexSet<String>,
    by_dir: &mut IndexMap<String, Targets>,
    path: &PathText,
    targets: Targets,
) -> Result<(), Memory>
    requires { AreClosed dirs.old.keys }
    ensures rows { OnOk result (rows_of by_dir.new.entries ≡ put (rows_of by_dir.old.entries) (dir_of path.now) targets) }
    ensures above { OnOk result (NamesAbove dirs.old.keys (dir_of path.now) dirs.new.keys) }
    ensures front { take (length dirs.old.keys) dirs.new.keys ≡ dirs.old.keys }
    ensures err { OnErr result (by_dir.new.entries ≡ by_dir.old.entries) }
{
    let dir = dir_of(alloc, path)?;
    let name = String::from_str(alloc, path.dir())?;
    add_dirs(alloc, dirs, dir)?;
    by_dir.insert(name, targets)?;
    Ok(())
}

/// Notes a directory and those above it, up to one that was noted before.
fn add_dirs(alloc: Global, dirs: &mut IndexSet<String>, dir: PathText) -> Result<(), Memory>
    requires closed { AreClosed dirs.old.keys }
    requires filled { 0 < length dir }
    ensures above { OnOk result (NamesAbove dirs.old.keys dir dirs.new.keys) }
    ensures front { take (length dirs.old.keys) dirs.new.keys ≡ dirs.old.keys }
{
    let mut dir = dir;
    'dirs: loop {
        let is_new = dirs.insert(String::from_str(alloc, dir.as_str())?)?;
        if !is_new || is_end(dir.as_str()) {
            return Ok(());
        }
        dir = dir_of(alloc, &dir)?;
    }
}

/// The top directory or the root, which no directory is above.
fn is_end(dir: &str) -> bool
    ensures { result ≡ is_end dir.now }
{
    matches!(dir.as_bytes(), b"." | b"/")
}

/// The directory of a path.
fn dir_of(alloc: Global, path: &PathText) -> Result<PathText, Memory>
    ensures { IfOk result (λ d. d ≡ dir_of path.now) }
{
    match PathText::read(alloc, path.dir()) {
        Ok(dir) => Ok(dir),
        Err(_) => Err(Memory),
    }
}
