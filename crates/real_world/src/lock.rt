//! One build at a time: the lock that a build and each of its children hold until the last of them has ended, or the build has ended
//! by itself.
use crate::errors::{is_absent, is_forbidden, is_unwritable, is_without_locks};
use crate::opening::{open, open_with};
use std::fs::{File, OpenOptions, TryLockError};
use std::io::ErrorKind;
use std::os::unix::fs::MetadataExt;
use std::rt::Files;
use std::sync::Wait;
use std::time::Clock;
use std::{fs, io};

/// The file whose lock a build holds. It is always empty.
pub const LOCK_NAME: &str = ".sconsign.lock";

/// Which lock a run wants.
#[derive(Clone, Copy, Debug, PartialEq, Eq)]
pub enum LockWish {
    /// None: it looks at scripts alone.
    Never,
    /// That of a build that runs, so that it sees what this one leaves. It makes no file.
    IfThere,
    /// The lock, since it writes.
    Always,
}

/// What came of a wish.
#[derive(Drop)]
pub enum Taken {
    /// The file, whose lock is held, and whether it was made now.
    Held(File, bool),
    /// There is no lock's file, and none was to be made.
    Absent,
    /// This user may not open the lock's file or make it.
    Forbidden(io::Error),
}

/// Takes the lock that is wished for. Where another build has it, says so once and waits until that one and its children have ended.
pub fn take_for<R: Files<File = File> + Wait + Clock + Eprint>(
    rt: &R,
    wish: LockWish,
) -> io::Result<Taken> {
    let mut is_told = false;
    for _ in rt.forever() {
        let (file, is_made) = match file_for(rt, wish) {
            Ok(Some(found)) => found,
            Ok(None) => return Ok(Taken::Absent),
            Err(error) if is_forbidden(error.kind()) => return Ok(Taken::Forbidden(error)),
            Err(error) => return Err(error),
        };
        let file = locked(rt, file, &mut is_told)?;
        if is_at_path(rt, &file)? {
            return Ok(Taken::Held(file, is_made));
        }
    }
    unreachable!()
}

/// The lock's file, opened for reading, and whether it was made now. Nothing is ever written to it, and children get it as it is.
fn file_for<R: Files<File = File> + Clock>(
    rt: &R,
    wish: LockWish,
) -> io::Result<Option<(File, bool)>> {
    if wish == LockWish::Never {
        return Ok(None);
    }
    match fs::metadata(rt, LOCK_NAME) {
        Ok(metadata) if metadata.is_file() => Ok(Some((open(rt, LOCK_NAME)?, false))),
        Ok(_) => Err(io::Error::new(ErrorKind::InvalidInput, "it is no file")),
        Err(error) if !is_absent(error.kind()) => Err(error),
        Err(_) if wish == LockWish::IfThere => Ok(None),
        Err(_) => {
            let is_made = is_made(rt)?;
            Ok(Some((open(rt, LOCK_NAME)?, is_made)))
        }
    }
}

/// Makes the lock's file, and says whether it did: another build may have been quicker.
fn is_made<R: Files<File = File> + Clock>(rt: &R) -> io::Result<bool> {
    let mut how = OpenOptions::new();
    how.write(true).create_new(true);
    match open_with(rt, &how, LOCK_NAME) {
        Ok(_) => Ok(true),
        Err(error) if error.kind() == ErrorKind::AlreadyExists => Ok(false),
        Err(error) => Err(error),
    }
}

/// Takes the lock's file away. This is for whoever holds its lock: a build that waits for it sees then that it is gone.
pub fn remove<R: Files>(rt: &R) {
    let _ = fs::remove_file(rt, LOCK_NAME);
}

/// Locks the file. Where the file system has no locks, says so and goes on.
fn locked<R: Files<File = File> + Clock + Eprint>(
    rt: &R,
    file: File,
    is_told: &mut bool,
) -> io::Result<File> {
    match lock(rt, &file, is_told) {
        Ok(()) => Ok(file),
        Err(error) if is_unwritable(&error) => locked_for_writing(rt, is_told),
        Err(error) => without_lock(rt, file, error),
    }
}

/// Opens the file for writing too and locks it, as some file systems of networks want it.
fn locked_for_writing<R: Files<File = File> + Clock + Eprint>(
    rt: &R,
    is_told: &mut bool,
) -> io::Result<File> {
    let mut how = OpenOptions::new();
    how.read(true).write(true);
    let file = open_with(rt, &how, LOCK_NAME)?;
    match lock(rt, &file, is_told) {
        Ok(()) => Ok(file),
        Err(error) => without_lock(rt, file, error),
    }
}

/// Goes on without a lock where the file system has none.
fn without_lock<R: Eprint>(rt: &R, file: File, error: io::Error) -> io::Result<File> {
    if !is_without_locks(&error) {
        return Err(error);
    }
    let _ = eprintln!(rt;
        "scons: {LOCK_NAME}: {error}: this file system has no locks, so start no second build in this tree."
    );
    Ok(file)
}

/// Takes the lock, and says it once where it has to wait.
fn lock<R: Eprint>(rt: &R, file: &File, is_told: &mut bool) -> io::Result<()> {
    match file.try_lock() {
        Ok(()) => Ok(()),
        Err(TryLockError::WouldBlock) => {
            if !*is_told {
                let _ = eprintln!(rt;
                    "scons: waiting for another build in this tree, or a command that it left, to let go of {LOCK_NAME} (`fuser {LOCK_NAME}' finds it)."
                );
            }
            *is_told = true;
            file.lock()
        }
        Err(TryLockError::Error(error)) => Err(error),
    }
}

/// Whether the file still stands at the path: another one there would be locked by the next build.
fn is_at_path<R: Files>(rt: &R, file: &File) -> io::Result<bool> {
    let held = file.metadata()?;
    match fs::metadata(rt, LOCK_NAME) {
        Ok(standing) => Ok(standing.dev() == held.dev() && standing.ino() == held.ino()),
        Err(error) if is_absent(error.kind()) => Ok(false),
        Err(error) => Err(error),
    }
}
