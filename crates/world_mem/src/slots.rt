//! The tree as it is kept: a slot for each path that was ever a file or a target.
ghost use Rattle.std.specs.Prelude.{◌≡◌, ◌≢◌, ◌↔◌, ◌++◌, AllPairs, List, ℕ, None, Some, IsTrue, Contains, IsSome};
ghost use Rattle.std.specs.Prelude.{IfOk, IfErr, OnOk, OnErr, if◌then◌else◌};
ghost use Rattle.std.specs.Option.{option_copied, is_some};
ghost use Rattle.std.specs.Str.{bytes_eq};
ghost use Rattle.scons_base.specs.Parts.{dir_of};
ghost use Rattle.world_mem.specs.Blocked.{LiesBelow, HasAbove, HasBelow, IsBlocked, IsRefused, NamesFirst};
ghost use Rattle.world_mem.specs.Files.{AreFiles, file_in};
ghost use Rattle.world_mem.specs.InSlots.{slot_at, file_of, file_with, content_of, mark_of, stamp_at, file_at, name_in};
ghost use Rattle.world_mem.specs.InSlots.{written, emptied, taken, marked, settled, Stands, is_live, holds_live};
ghost use Rattle.world_mem.specs.Settles.{HavePlaces};
ghost use Rattle.world_mem.specs.Slotwise.{AreFilesIn, AreMarked, AreNamed, IsPut, IsWritten, SlotsStay};
ghost use Rattle.world_mem.specs.declared.refusal.NewRefusal.{NewRefusal};
ghost use Rattle.world_mem.specs.declared.slots.File.{File};
ghost use Rattle.world_mem.specs.declared.slots.Slot.{Slot};

use crate::refusal::NewRefusal;
use act_table::Contents;
use scons_base::{Blob, Listing, Memory, PathText, Paths};
use std::alloc::Global;
use std::collections::BTreeMap;
use world_api::Content;

/// A file: its path, its bytes and when it last changed.
#[derive(Drop)]
pub struct File {
    pub name: PathText,
    pub bytes: Blob,
    pub stamp: u64,
}

/// What stands at a path: a target of the running job of this id, or what is settled.
#[derive(Drop)]
pub enum Slot {
    Running(u32),
    Settled(Option<File>),
}

/// A slot for each path that was ever a file or a target.
#[derive(Drop)]
pub struct Slots {
    slots: BTreeMap<Vec<u8>, Slot>,
}

impl Slots {
    pub fn new(alloc: Global) -> Slots
        ensures { (path : List ℕ) → slot_at result path ≡ None }
    {
        Slots {
            slots: BTreeMap::new(alloc),
        }
    }

    /// The file at a path.
    pub fn file(&self, path: &PathText) -> Option<&File>
        ensures { option_copied result ≡ file_of (slot_at self.now path.now) }
    {
        match self.slots.get(path.as_str().as_bytes()) {
            Some(Slot::Settled(file)) => file.as_ref(),
            _ => None,
        }
    }

    /// The bytes of the file, or `None`.
    pub fn content(&self, path: &PathText) -> Option<&Blob>
        ensures { option_copied result ≡ content_of (slot_at self.now path.now) }
    {
        match self.file(path) {
            Some(file) => Some(&file.bytes),
            None => None,
        }
    }

    /// Takes away the file at a path.
    pub fn take(&mut self, path: &PathText) -> Option<File>
        ensures file { result ≡ file_of (slot_at self.old path.now) }
        ensures slots { (other : List ℕ) → slot_at self.new other ≡ taken path.now other (slot_at self.old other) }
    {
        if let Some(place) = self.slots.get_mut(path.as_str().as_bytes()) {
            return emptied(place);
        }
        None
    }

    /// The files directly in a directory.
    pub fn list(&self, alloc: Global, dir: &PathText) -> Result<Paths, Memory>
        requires { (path : List ℕ) (file : File) → file_of (slot_at self.now path) ≡ Some file → file.name ≡ path }
        ensures each { IfOk result (AreFilesIn self.now dir.now) }
        ensures once { IfOk result (λ paths. AllPairs (λ one other. one ≢ other) paths) }
    {
        let mut paths = Paths::new(Vec::new(alloc));
        for (_, slot) in &self.slots {
            add_name(slot, dir, &mut paths)?;
        }
        Ok(paths)
    }

    /// All files.
    pub fn files(&self, alloc: Global) -> Result<Listing<(PathText, Blob)>, Memory>
        requires { (path : List ℕ) (file : File) → file_of (slot_at self.now path) ≡ Some file → file.name ≡ path }
        ensures { IfOk result (AreFiles (λ path. content_of (slot_at self.now path))) }
    {
        let mut files = Listing::empty(alloc);
        for (_, slot) in &self.slots {
            add_file(slot, &mut files)?;
        }
        Ok(files)
    }

    /// A copy of what the path holds.
    pub fn copy_content(&self, path: &PathText) -> Result<Content, Memory>
        ensures { IfOk result (λ content. content ≡ content_of (slot_at self.now path.now)) }
    {
        match self.content(path) {
            Some(bytes) => Ok(Some(bytes.copy()?)),
            None => Ok(None),
        }
    }

    fn has_file(&self, path: &PathText) -> bool
        ensures { result ≡ is_some (content_of (slot_at self.now path.now)) }
    {
        self.content(path).is_some()
    }

    /// Whether the path is kept for a running job.
    pub fn is_kept(&self, path: &PathText) -> bool
        ensures { result ≡ is_some (mark_of (slot_at self.now path.now)) }
    {
        match self.slots.get(path.as_str().as_bytes()) {
            Some(slot) => is_running(slot),
            None => false,
        }
    }

    pub fn stands(&self, path: &[u8]) -> bool
        ensures { result ≡ holds_live (slot_at self.now path.now) }
    {
        match self.slots.get(path) {
            Some(slot) => is_live(slot),
            None => false,
        }
    }

    pub fn stands_above(&self, path: &[u8]) -> bool
        ensures { IsTrue result ↔ HasAbove (Stands self.now) path.now }
    {
        for (place, byte) in path.iter().enumerate() {
            if *byte == b'/' && self.stands(&path[..place]) {
                return true;
            }
        }
        false
    }

    fn stands_below(&self, alloc: Global, path: &[u8]) -> Result<bool, Memory>
        ensures { IfOk result (λ found. IsTrue found ↔ HasBelow (Stands self.now) path.now) }
    {
        let mut from = Vec::from_slice(alloc, path)?;
        from.push(b'/')?;
        for (key, slot) in self.slots.range(from..) {
            if !is_below(key.as_slice(), path) {
                return Ok(false);
            }
            if is_live(slot) {
                return Ok(true);
            }
        }
        Ok(false)
    }

    /// Whether a file or a running target stands above or below the path.
    pub fn is_blocked(&self, alloc: Global, path: &PathText) -> Result<bool, Memory>
        ensures { IfOk result (λ blocked. IsTrue blocked ↔ IsBlocked (Stands self.now) path.now) }
    {
        let bytes = path.as_str().as_bytes();
        Ok(self.stands_above(bytes) || self.stands_below(alloc, bytes)?)
    }

    /// Puts the files of a list. A file that is listed twice, or lies below or above an earlier one, is refused by its
    /// place.
    pub fn fill(&mut self, alloc: Global, files: &[(PathText, Blob)]) -> Result<(), NewRefusal>
        requires { (path : List ℕ) → slot_at self.old path ≡ None }
        ensures files { OnOk result ((path : List ℕ) → content_of (slot_at self.new path) ≡ file_at files.now path) }
        ensures unmarked { OnOk result ((path : List ℕ) → mark_of (slot_at self.new path) ≡ None) }
        ensures stamps { OnOk result ((path : List ℕ) → stamp_at (slot_at self.new path) ≡ 0) }
        ensures named { OnOk result (AreNamed self.new) }
        ensures stand { OnOk result ((place : ℕ) → IsRefused files.now place → ⊥) }
        ensures place { IfErr result (NamesFirst files.now) }
    {
        for (place, (path, bytes)) in files.iter().enumerate() {
            if self.has_file(path) || self.is_blocked(alloc, path)? {
                return Err(NewRefusal::Place(place));
            }
            let file = copied(path, bytes)?;
            self.put(alloc, path, Slot::Settled(Some(file)))?;
        }
        Ok(())
    }

    /// Puts a slot at a path.
    pub fn put(&mut self, alloc: Global, path: &PathText, slot: Slot) -> Result<(), Memory>
        ensures ok { OnOk result (IsPut path.now slot self.old self.new) }
        ensures err { OnErr result ((other : List ℕ) → slot_at self.new other ≡ slot_at self.old other) }
    {
        let key = Vec::from_slice(alloc, path.as_str().as_bytes())?;
        self.slots.insert(key, slot)?;
        Ok(())
    }

    /// Writes the slot of a path, where there is one.
    pub fn write(&mut self, path: &PathText, slot: Slot)
        ensures { (other : List ℕ) → slot_at self.new other ≡ written path.now slot other (slot_at self.old other) }
    {
        if let Some(place) = self.slots.get_mut(path.as_str().as_bytes()) {
            *place = slot;
        }
    }

    /// Makes a slot at a path that has none.
    pub fn make_place(&mut self, alloc: Global, path: &PathText) -> Result<(), Memory>
        ensures kept { SlotsStay self.old self.new }
        ensures same { (other : List ℕ) → content_of (slot_at self.new other) ≡ content_of (slot_at self.old other) }
        ensures files { (other : List ℕ) → file_of (slot_at self.new other) ≡ file_of (slot_at self.old other) }
        ensures live { (other : List ℕ) → holds_live (slot_at self.new other) ≡ holds_live (slot_at self.old other) }
        ensures marks { (other : List ℕ) → mark_of (slot_at self.new other) ≡ mark_of (slot_at self.old other) }
        ensures stands { OnOk result (IsSome (slot_at self.new path.now)) }
    {
        if self.slots.contains_key(path.as_str().as_bytes()) {
            return Ok(());
        }
        self.put(alloc, path, Slot::Settled(None))
    }

    /// Makes a slot at each path that has none.
    pub fn make_places(&mut self, alloc: Global, paths: &Paths) -> Result<(), Memory>
        ensures kept { SlotsStay self.old self.new }
        ensures same { (other : List ℕ) → content_of (slot_at self.new other) ≡ content_of (slot_at self.old other) }
        ensures files { (other : List ℕ) → file_of (slot_at self.new other) ≡ file_of (slot_at self.old other) }
        ensures live { (other : List ℕ) → holds_live (slot_at self.new other) ≡ holds_live (slot_at self.old other) }
        ensures marks { (other : List ℕ) → mark_of (slot_at self.new other) ≡ mark_of (slot_at self.old other) }
        ensures stand { OnOk result (HavePlaces paths.now self.new) }
    {
        for path in paths.as_slice() {
            self.make_place(alloc, path)?;
        }
        Ok(())
    }

    /// Marks the slots of a job's targets.
    pub fn mark(&mut self, targets: &Paths, id: u32)
        ensures { AreMarked targets.now (Slot.Running id) self.old self.new }
    {
        for target in targets.as_slice() {
            self.write(target, Slot::Running(id));
        }
    }

    /// Leaves no file at these paths.
    pub fn clear(&mut self, targets: &Paths)
        ensures { AreMarked targets.now (Slot.Settled None) self.old self.new }
    {
        for target in targets.as_slice() {
            self.write(target, Slot::Settled(None));
        }
    }

    /// Settles the slots of these paths.
    pub fn settle(&mut self, made: Contents, stamp: u64)
        ensures { (path : List ℕ) → slot_at self.new path ≡ settled stamp made path (slot_at self.old path) }
    {
        let mut made = made.into_vec();
        while let Some((path, content)) = made.pop() {
            self.settle_one(path, content, stamp);
        }
    }

    fn settle_one(&mut self, path: PathText, content: Content, stamp: u64)
        ensures { IsWritten path (Slot.Settled (file_with stamp path content)) self.old self.new }
    {
        if let Some(place) = self.slots.get_mut(path.as_str().as_bytes()) {
            *place = Slot::Settled(file_with(path, content, stamp));
        }
    }
}

/// Takes the file out of a slot.
fn emptied(place: &mut Slot) -> Option<File>
    ensures file { result ≡ file_of (Some place.old) }
    ensures slot { Some place.new ≡ emptied (Some place.old) }
{
    match place {
        Slot::Settled(file) => file.take(),
        Slot::Running(_) => None,
    }
}

/// Adds the path of the file in a slot, where it lies directly in a directory.
fn add_name(slot: &Slot, dir: &PathText, paths: &mut Paths) -> Result<(), Memory>
    ensures { OnOk result (paths.new ≡ paths.old ++ name_in dir.now (file_of (Some slot.now))) }
{
    let Slot::Settled(Some(file)) = slot else {
        return Ok(());
    };
    if file.name.dir() != dir.as_str() {
        return Ok(());
    }
    paths.push(file.name.copy()?)
}

/// Adds the file in a slot.
fn add_file(slot: &Slot, files: &mut Listing<(PathText, Blob)>) -> Result<(), Memory>
    ensures { OnOk result (files.new ≡ files.old ++ file_in (file_of (Some slot.now))) }
{
    let Slot::Settled(Some(file)) = slot else {
        return Ok(());
    };
    files.push((file.name.copy()?, file.bytes.copy()?))
}

/// A file with these bytes.
pub fn file_of(alloc: Global, path: &PathText, bytes: &[u8], stamp: u64) -> Result<File, Memory>
    ensures { IfOk result (λ file. file ≡ record { name = path.now; bytes = bytes.now; stamp = stamp }) }
{
    Ok(File {
        name: path.copy()?,
        bytes: Blob::of(alloc, bytes)?,
        stamp,
    })
}

/// A file that never changed.
fn copied(path: &PathText, bytes: &Blob) -> Result<File, Memory>
    ensures { IfOk result (λ file. file ≡ record { name = path.now; bytes = bytes.now; stamp = 0 }) }
{
    Ok(File {
        name: path.copy()?,
        bytes: bytes.copy()?,
        stamp: 0,
    })
}

/// The file of this content.
fn file_with(name: PathText, content: Content, stamp: u64) -> Option<File>
    ensures { result ≡ file_with stamp name content }
{
    match content {
        Some(bytes) => Some(File { name, bytes, stamp }),
        None => None,
    }
}

/// Whether a file stands, or is to.
fn is_live(slot: &Slot) -> bool
    ensures { result ≡ is_live slot.now }
{
    !matches!(slot, Slot::Settled(None))
}

/// Whether a running job makes what stands there.
fn is_running(slot: &Slot) -> bool
    ensures { result ≡ is_some (mark_of (Some slot.now)) }
{
    matches!(slot, Slot::Running(_))
}

fn is_below(path: &[u8], dir: &[u8]) -> bool
    ensures { IsTrue result ↔ LiesBelow path.now dir.now }
{
    match path.strip_prefix(dir) {
        Some(rest) => rest.starts_with(b"/"),
        None => false,
    }
}
