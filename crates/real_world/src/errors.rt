//! Kinds of errors of the system that more than one call goes by.
use std::io::ErrorKind;
use std::time::{Clock, Duration};
use std::{io, thread};

/// Linux's numbers of errors that have no kind of their own.
const EBADF: i32 = 9;

const ENFILE: i32 = 23;

const EMFILE: i32 = 24;

const ENOLCK: i32 = 37;

/// How long to wait before a call is tried again, in milliseconds.
const PAUSE: u64 = 10;

/// How often a call is tried again while nothing is known that may end.
pub const TRIES: u32 = 200;

/// Whether the error says that nothing stands there: no such name, one that is too long for any file, a file in place of a directory, or
/// links that go in a circle.
pub fn is_absent(kind: ErrorKind) -> bool {
    matches!(
        kind,
        ErrorKind::NotFound
            | ErrorKind::NotADirectory
            | ErrorKind::InvalidFilename
            | ErrorKind::FilesystemLoop
    )
}

/// Whether the error says that this user may not write there.
pub fn is_forbidden(kind: ErrorKind) -> bool {
    matches!(
        kind,
        ErrorKind::PermissionDenied | ErrorKind::ReadOnlyFilesystem
    )
}

/// Whether the error says that the file system has no locks.
pub fn is_without_locks(error: &io::Error) -> bool {
    error.kind() == ErrorKind::Unsupported || error.raw_os_error() == Some(ENOLCK)
}

/// Whether the error says that a file has to be open for writing to be locked, as on a network.
pub fn is_unwritable(error: &io::Error) -> bool {
    error.raw_os_error() == Some(EBADF)
}

/// Whether the error says that there are too many open files: a call may go well a little later.
pub fn is_crowded(error: &io::Error) -> bool {
    matches!(error.raw_os_error(), Some(EMFILE | ENFILE))
}

/// The same, or that there are too many processes.
pub fn is_full(error: &io::Error) -> bool {
    is_crowded(error) || error.kind() == ErrorKind::WouldBlock
}

/// Waits a little.
pub fn pause<R: Clock>(rt: &R) {
    thread::sleep(rt, Duration::from_millis(PAUSE));
}
