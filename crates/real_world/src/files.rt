//! The file tree, one call of the system for each kind of call.
ghost use Rattle.std.specs.Prelude.{◌≡◌, ◌≢◌, ◌<◌, ◌≤◌, ℕ, length, IfOk, IfErr, IfSome};

use crate::errors::{TRIES, is_absent, is_crowded, pause};
use crate::opening::open;
use scons_base::{Blob, PathFault, PathText, Paths};
use std::alloc::Global;
use std::fs::{File, Metadata, ReadDir};
use std::io::{ErrorKind, Read};
use std::os::unix::fs::MetadataExt;
use std::rt::Files;
use std::time::Clock;
use std::{fs, io};
use world_api::{AskRefusal, Content, Kind, ReadRefusal};

/// How many there are in a second.
const NANOSECONDS: u64 = 1_000_000_000;

/// What the system says of a path; nothing where nothing stands there, or a link that leads nowhere.
pub fn metadata_of<R: Files>(rt: &R, path: &PathText) -> io::Result<Option<Metadata>> {
    match fs::metadata(rt, path.as_str()) {
        Ok(metadata) => Ok(Some(metadata)),
        Err(error) if is_absent(error.kind()) => Ok(None),
        Err(error) => Err(error),
    }
}

/// A pipe, a socket or a device is neither a file nor a directory, and counts as nothing.
pub fn kind_of<R: Files>(rt: &R, path: &PathText) -> io::Result<Kind> {
    Ok(match metadata_of(rt, path)? {
        Some(metadata) if metadata.is_file() => Kind::File,
        Some(metadata) if metadata.is_dir() => Kind::Dir,
        _ => Kind::Absent,
    })
}

/// When a file last changed, in nanoseconds since 1970. A time before that counts as 0.
pub fn stamp_of<R: Files>(rt: &R, path: &PathText) -> io::Result<Option<u64>> {
    match metadata_of(rt, path)? {
        Some(metadata) if metadata.is_file() => Ok(Some(nanoseconds(&metadata))),
        _ => Ok(None),
    }
}

fn nanoseconds(metadata: &Metadata) -> u64 {
    let Ok(seconds) = u64::try_from(metadata.mtime()) else {
        return 0;
    };
    let rest = u64::try_from(metadata.mtime_nsec()).unwrap_or(0);
    seconds.saturating_mul(NANOSECONDS).saturating_add(rest)
}

/// The bytes of a file that is there and isn't too large. No more than one byte over the limit is read, whatever size the system tells.
pub fn content_of<R: Files<File = File> + Clock>(
    rt: &R,
    alloc: Global,
    path: &PathText,
    limit: u64,
) -> Result<Content, ReadRefusal>
    ensures within { IfOk result (λ content. IfSome content (λ bytes. length bytes ≤ limit)) }
    ensures over { IfErr result (λ refusal. (size : ℕ) → refusal ≡ ReadRefusal.TooLarge size → limit < size) }
{
    let size = match metadata_of(rt, path) {
        Ok(Some(metadata)) if metadata.is_file() => metadata.len(),
        Ok(_) => return Ok(None),
        Err(error) => return Err(refusal_of(error.kind())),
    };
    if size > limit {
        return Err(ReadRefusal::TooLarge(size));
    }
    match bytes_of(rt, alloc, path, size, limit) {
        Ok(bytes) if bytes.len() as u64 > limit => Err(ReadRefusal::TooLarge(bytes.len() as u64)),
        Ok(bytes) => Ok(Some(Blob::new(bytes))),
        Err(error) if is_absent(error.kind()) => Ok(None),
        Err(error) => Err(refusal_of(error.kind())),
    }
}

/// The bytes of a file that is said to have so many. There is room for one more, so that the read that finds the end needs none.
fn bytes_of<R: Files<File = File> + Clock>(
    rt: &R,
    alloc: Global,
    path: &PathText,
    size: u64,
    limit: u64,
) -> io::Result<Vec<u8>> {
    let file = open(rt, path.as_str())?;
    let mut bytes = Vec::with_capacity(alloc, size.saturating_add(1) as usize)?;
    file.take(limit.saturating_add(1)).read_to_end(&mut bytes)?;
    Ok(bytes)
}

fn refusal_of(kind: ErrorKind) -> ReadRefusal
    ensures { (size : ℕ) → result ≢ ReadRefusal.TooLarge size }
{
    match kind {
        ErrorKind::OutOfMemory => ReadRefusal::Memory,
        _ => ReadRefusal::Fault,
    }
}

pub fn ask_refusal(kind: ErrorKind) -> AskRefusal {
    match kind {
        ErrorKind::OutOfMemory => AskRefusal::Memory,
        _ => AskRefusal::Fault,
    }
}

/// The files directly in a directory. A name that isn't UTF-8, or that no path can have, isn't listed.
pub fn files_in<R: Files + AllocGlobal + Clock + Clone + Drop>(
    rt: &R,
    dir: &PathText,
) -> Result<Paths, AskRefusal> {
    let alloc = rt.alloc();
    let entries = match entries_in(rt, dir.as_str()) {
        Ok(entries) => entries,
        Err(error) if is_absent(error.kind()) => return Ok(Paths::new(Vec::new(alloc))),
        Err(error) => return Err(ask_refusal(error.kind())),
    };
    let mut paths = Paths::new(Vec::new(alloc));
    for entry in entries {
        match entry {
            Ok(entry) => add_file(rt, alloc, dir, entry.file_name(), &mut paths)?,
            Err(error) if error.kind() == ErrorKind::InvalidFilename => {}
            Err(error) => return Err(ask_refusal(error.kind())),
        }
    }
    Ok(paths)
}

/// Opens a directory. Where too many files are open it waits a little and tries again.
fn entries_in<R: Files + AllocGlobal + Clock + Clone + Drop>(
    rt: &R,
    dir: &str,
) -> io::Result<ReadDir<R, Global>> {
    for _ in 0..TRIES {
        match fs::read_dir(rt, dir) {
            Err(error) if is_crowded(&error) => pause(rt),
            opened => return opened,
        }
    }
    fs::read_dir(rt, dir)
}

fn add_file<R: Files>(
    rt: &R,
    alloc: Global,
    dir: &PathText,
    name: &str,
    paths: &mut Paths,
) -> Result<(), AskRefusal> {
    let Some(path) = path_in(alloc, dir, name)? else {
        return Ok(());
    };
    match kind_of(rt, &path) {
        Ok(Kind::File) => Ok(paths.push(path)?),
        Ok(Kind::Dir | Kind::Absent) => Ok(()),
        Err(error) => Err(ask_refusal(error.kind())),
    }
}

/// The path of a name in a directory, where it has one.
fn path_in(alloc: Global, dir: &PathText, name: &str) -> Result<Option<PathText>, AskRefusal> {
    let text = match dir.as_str() {
        "." => String::from_str(alloc, name)?,
        "/" => format!(in alloc; "/{name}")?,
        dir => format!(in alloc; "{dir}/{name}")?,
    };
    match PathText::read(alloc, text.as_str()) {
        Ok(path) => Ok(Some(path)),
        Err(PathFault::Memory) => Err(AskRefusal::Memory),
        Err(_) => Ok(None),
    }
}

/// Removes a file. Where none stands it is well too.
pub fn remove<R: Files>(rt: &R, path: &PathText) -> io::Result<()> {
    match fs::remove_file(rt, path.as_str()) {
        Err(error) if is_absent(error.kind()) => Ok(()),
        removed => removed,
    }
}
