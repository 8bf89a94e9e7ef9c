//! Standard streams that the program was started without.
use std::fs::{File, OpenOptions};
use std::mem;
use std::os::fd::AsRawFd;
use std::rt::Files;

/// How many standard streams there are. They have the first numbers.
const STREAMS: i32 = 3;

/// Opens each closed standard stream on the null device, before any other file is opened: else the first files opened would get their
/// numbers, and a text that is printed would go into a signature bank.
pub fn open_closed<R: Files<File = File>>(rt: &R) {
    for _ in 0..STREAMS {
        let Ok(file) = OpenOptions::new()
            .read(true)
            .write(true)
            .open(rt, "/dev/null")
        else {
            return;
        };
        if file.as_raw_fd() >= STREAMS {
            return;
        }
        mem::forget(file);
    }
}
