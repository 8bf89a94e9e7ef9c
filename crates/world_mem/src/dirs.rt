//! Which directories stand.
ghost use Rattle.std.specs.Prelude.{◌≡◌, ◌⊎◌, ◌||◌, ◌↔◌, IsTrue, List, ℕ, IfOk, OnOk};
ghost use Rattle.world_mem.specs.Blocked.{LiesBelow};
ghost use Rattle.world_mem.specs.Raises.{Adds, Gains};
ghost use Rattle.world_mem.specs.Settles.{HavePlaces};
ghost use Rattle.world_mem.specs.Standing.{is_dir, is_in, is_always};
ghost use Rattle.world_mem.specs.declared.slots.Slot.{Slot};

use crate::slots::{Slot, Slots};
use scons_base::{Memory, PathText, Paths};
use std::alloc::Global;
use std::str;

/// The directories, as targets of the job 0. The top directory and the root stand always. A place that was made and not
/// raised is none.
#[derive(Drop)]
pub struct Dirs {
    slots: Slots,
}

impl Dirs {
    pub fn new(alloc: Global) -> Dirs
        ensures { (dir : List ℕ) → is_dir result dir ≡ is_always dir }
    {
        Dirs {
            slots: Slots::new(alloc),
        }
    }

    pub fn stands(&self, path: &[u8]) -> bool
        ensures { result ≡ is_dir self.now path.now }
    {
        is_always(path) || self.slots.stands(path)
    }

    /// Adds those above a path that don't stand.
    pub fn missing_above(
        &self,
        alloc: Global,
        path: &PathText,
        fresh: &mut Paths,
    ) -> Result<(), Memory>
        ensures { OnOk result (Adds self.now (LiesBelow path.now) fresh.old fresh.new) }
    {
        let bytes = path.as_str().as_bytes();
        for (place, byte) in bytes.iter().enumerate() {
            if *byte == b'/' {
                self.note(alloc, &bytes[..place], fresh)?;
            }
        }
        Ok(())
    }

    /// Adds a path and those above it that don't stand.
    pub fn missing(&self, alloc: Global, path: &PathText, fresh: &mut Paths) -> Result<(), Memory>
        ensures { OnOk result (Adds self.now (λ dir. (path.now ≡ dir) ⊎ LiesBelow path.now dir) fresh.old fresh.new) }
    {
        self.missing_above(alloc, path, fresh)?;
        self.note(alloc, path.as_str().as_bytes(), fresh)
    }

    /// Adds a directory that doesn't stand.
    fn note(&self, alloc: Global, dir: &[u8], fresh: &mut Paths) -> Result<(), Memory>
        ensures { OnOk result (Adds self.now (λ other. dir.now ≡ other) fresh.old fresh.new) }
    {
        if self.stands(dir) {
            return Ok(());
        }
        fresh.push(path_of(alloc, dir)?)
    }

    /// Lets those above a path stand.
    pub fn raise_above(&mut self, alloc: Global, path: &PathText) -> Result<(), Memory>
        ensures { OnOk result (Gains (LiesBelow path.now) self.old self.new) }
    {
        let mut fresh = Paths::new(Vec::new(alloc));
        self.missing_above(alloc, path, &mut fresh)?;
        self.make_places(alloc, &fresh)?;
        self.raise(&fresh);
        Ok(())
    }

    /// Makes a place for each of these.
    pub fn make_places(&mut self, alloc: Global, fresh: &Paths) -> Result<(), Memory>
        ensures same { (dir : List ℕ) → is_dir self.new dir ≡ is_dir self.old dir }
        ensures places { OnOk result (HavePlaces fresh.now self.new.slots) }
    {
        self.slots.make_places(alloc, fresh)
    }

    /// Lets these stand, which have their places.
    pub fn raise(&mut self, fresh: &Paths)
        requires { HavePlaces fresh.now self.old.slots }
        ensures { (dir : List ℕ) → is_dir self.new dir ≡ (is_in fresh.now dir || is_dir self.old dir) }
    {
        self.slots.mark(fresh, 0);
    }
}

/// The top directory, the root, and the empty text in front of it.
fn is_always(path: &[u8]) -> bool
    ensures { result ≡ is_always path.now }
{
    matches!(path, b"." | b"/" | b"")
}

/// The path of these bytes, which are a part of one.
fn path_of(alloc: Global, bytes: &[u8]) -> Result<PathText, Memory>
    ensures { IfOk result (λ path. path ≡ bytes.now) }
{
    match str::from_utf8(bytes) {
        Ok(text) => match PathText::read(alloc, text) {
            Ok(path) => Ok(path),
            Err(_) => Err(Memory),
        },
        Err(_) => Err(Memory),
    }
}
