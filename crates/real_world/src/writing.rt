//! A write: what its signed texts make of the first of what it depends on, put into its targets whole.
use crate::files::content_of;
use crate::opening::open_with;
use crate::syncing::broken;
use scons_base::limits::FILE_LIMIT;
use scons_base::{Blob, PathText};
use std::alloc::Global;
use std::fs::{File, OpenOptions};
use std::io;
use std::io::Write;
use std::rt::Files;
use std::time::Clock;
use text_files::{TextRefusal, files_named, write_bytes};
use world_api::{Content, Job, Outcome, ReadRefusal};

/// The status of a write that would be too large.
const TOO_LARGE: i32 = 1;

/// Why nothing can be written.
#[derive(Clone, Copy)]
enum Unwritten {
    TooLarge,
    Memory,
    /// A file can't be read, or isn't there.
    Unread,
}

impl From<TextRefusal> for Unwritten {
    fn from(refusal: TextRefusal) -> Self {
        match refusal {
            TextRefusal::TooLarge(_) => Unwritten::TooLarge,
            TextRefusal::Memory => Unwritten::Memory,
        }
    }
}

impl From<ReadRefusal> for Unwritten {
    fn from(refusal: ReadRefusal) -> Self {
        match refusal {
            ReadRefusal::TooLarge(_) => Unwritten::TooLarge,
            ReadRefusal::Memory => Unwritten::Memory,
            ReadRefusal::Fault => Unwritten::Unread,
        }
    }
}

/// Writes the targets of a job.
pub fn write<R: Files<File = File> + AllocGlobal + Clock + Eprint>(rt: &R, job: &Job) -> Outcome {
    match written(rt, rt.alloc(), job) {
        Ok(Some(bytes)) => write_targets(rt, job.targets.as_slice(), bytes.as_slice()),
        Ok(None) | Err(Unwritten::Unread) => Outcome::Broken,
        Err(Unwritten::TooLarge) => Outcome::Failed(TOO_LARGE),
        Err(Unwritten::Memory) => Outcome::NoMemory,
    }
}

/// What a job writes.
fn written<R: Files<File = File> + Clock>(
    rt: &R,
    alloc: Global,
    job: &Job,
) -> Result<Content, Unwritten> {
    let signed = job.signed.as_slice();
    let mut given = Vec::new(alloc);
    for path in job
        .deps
        .as_slice()
        .iter()
        .take(files_named(signed) as usize)
    {
        let content = content_of(rt, alloc, path, FILE_LIMIT)?;
        given.push(content).map_err(|_| Unwritten::Memory)?;
    }
    Ok(write_bytes(alloc, signed, given.as_slice(), FILE_LIMIT)?)
}

fn write_targets<R: Files<File = File> + Clock + Eprint>(
    rt: &R,
    targets: &[PathText],
    bytes: &[u8],
) -> Outcome {
    for target in targets {
        if let Err(error) = write_file(rt, target.as_str(), bytes) {
            return broken(rt, target.as_str(), error);
        }
    }
    Outcome::Done
}

fn write_file<R: Files<File = File> + Clock>(rt: &R, path: &str, bytes: &[u8]) -> io::Result<()> {
    let mut how = OpenOptions::new();
    how.write(true).create(true).truncate(true);
    let mut file = open_with(rt, &how, path)?;
    file.write_all(bytes)
}
