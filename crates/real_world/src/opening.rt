//! Opening a file where it may be that too many are open just now.
use crate::errors::{TRIES, is_crowded, pause};
use std::fs::{File, OpenOptions};
use std::io;
use std::rt::Files;
use std::time::Clock;

/// Opens a file for reading.
pub fn open<R: Files<File = File> + Clock>(rt: &R, path: &str) -> io::Result<File> {
    let mut how = OpenOptions::new();
    how.read(true);
    open_with(rt, &how, path)
}

/// Opens a file. Where too many are open it waits a little and tries again, since those of a job that begins or ends are soon closed.
pub fn open_with<R: Files<File = File> + Clock>(
    rt: &R,
    how: &OpenOptions,
    path: &str,
) -> io::Result<File> {
    for _ in 0..TRIES {
        match how.open(rt, path) {
            Err(error) if is_crowded(&error) => pause(rt),
            opened => return opened,
        }
    }
    how.open(rt, path)
}
