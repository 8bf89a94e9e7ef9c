//! Targets that outlive a loss of power: what a job made is on the disk before its ending is told, since its record is synced then.
use crate::errors::{is_absent, is_forbidden};
use crate::holding::say;
use crate::opening::{open, open_with};
use scons_base::PathText;
use std::fs::{File, OpenOptions};
use std::io::ErrorKind;
use std::rt::Files;
use std::time::Clock;
use std::{fs, io};
use world_api::Outcome;

/// Makes the disk keep each target that is a file, and its name. A refusal is said, and the job hasn't run to its end.
pub fn sync_targets<R: Files<File = File> + Clock + Eprint>(
    rt: &R,
    targets: &[PathText],
) -> Outcome {
    let mut last = "";
    for target in targets {
        let path = target.as_str();
        if let Err(error) = sync_file(rt, path) {
            return broken(rt, path, error);
        }
        let dir = dir_of(path);
        if dir == last {
            continue;
        }
        if let Err(error) = sync_dir(rt, dir) {
            return broken(rt, dir, error);
        }
        last = dir;
    }
    Outcome::Done
}

/// The outcome of a job that the system refused at this path, with a line that says so.
pub fn broken<R: Eprint>(rt: &R, path: &str, error: io::Error) -> Outcome {
    if error.kind() == ErrorKind::OutOfMemory {
        return Outcome::NoMemory;
    }
    say(rt, path, error);
    Outcome::Broken
}

/// Syncs what stands at a path, if it is a file that may be opened.
fn sync_file<R: Files<File = File> + Clock>(rt: &R, path: &str) -> io::Result<()> {
    match fs::metadata(rt, path) {
        Ok(metadata) if metadata.is_file() => {}
        Ok(_) => return Ok(()),
        Err(error) if is_absent(error.kind()) => return Ok(()),
        Err(error) => return Err(error),
    }
    match opened(rt, path) {
        Ok(file) => file.sync_all(),
        Err(error) if is_forbidden(error.kind()) => Ok(()),
        Err(error) => Err(error),
    }
}

/// Opens a file for reading, or for writing where it may not be read.
fn opened<R: Files<File = File> + Clock>(rt: &R, path: &str) -> io::Result<File> {
    match open(rt, path) {
        Err(error) if is_forbidden(error.kind()) => {
            let mut how = OpenOptions::new();
            how.write(true);
            open_with(rt, &how, path)
        }
        opened => opened,
    }
}

/// Syncs the names in a directory. Some file systems know no such sync, and then the file's own has to do.
fn sync_dir<R: Files<File = File> + Clock>(rt: &R, dir: &str) -> io::Result<()> {
    let synced = match open(rt, dir) {
        Ok(file) => file.sync_all(),
        Err(error) => Err(error),
    };
    match synced {
        Err(error) if is_needless(error.kind()) => Ok(()),
        synced => synced,
    }
}

/// Whether a directory that can't be synced may stay so: it is gone or may not be read, or the file system has no such sync.
fn is_needless(kind: ErrorKind) -> bool {
    is_absent(kind)
        || is_forbidden(kind)
        || matches!(kind, ErrorKind::InvalidInput | ErrorKind::Unsupported)
}

/// The directory that holds a path's last name.
fn dir_of(path: &str) -> &str {
    match path.rsplit_once('/') {
        Some(("", _)) => "/",
        Some((dir, _)) => dir,
        None => ".",
    }
}
