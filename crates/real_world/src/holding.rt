//! Whether a run may write: what came of the lock that it wishes for.
use crate::lock::{LOCK_NAME, LockWish, Taken, remove, take_for};
use crate::shell::LockHolder;
use std::fs::File;
use std::io;
use std::rt::Files;
use std::sync::Wait;
use std::time::Clock;

/// What came of a wish.
#[derive(Clone, Copy)]
enum Hold {
    /// Nothing yet: no lock was asked for.
    Unasked,
    Held,
    /// There is no lock, and why is said or needn't be.
    Nothing,
    /// This user may not open the lock's file or make it.
    Forbidden(io::Error),
}

/// A wish, and what came of it. Without the lock a run writes nothing.
#[derive(Drop)]
pub struct Holding {
    wish: LockWish,
    hold: Hold,
    /// Whether the lock's file was made by this run, which has written nothing yet.
    is_fresh: bool,
}

impl Holding {
    pub fn new(wish: LockWish) -> Holding {
        Holding {
            wish,
            hold: Hold::Unasked,
            is_fresh: false,
        }
    }

    /// Takes the lock that is wished for, unless that was done, and gives it to the shell. Where it can't be had says why, unless the run
    /// may go on as one that only looks.
    pub fn begin<R, S>(&mut self, rt: &R, shell: &S) -> bool
    where
        R: Files<File = File> + Wait + Clock + Eprint,
        S: LockHolder,
    {
        if !matches!(self.hold, Hold::Unasked) {
            return true;
        }
        match take_for(rt, self.wish) {
            Ok(Taken::Held(file, is_made)) => {
                self.hold = Hold::Held;
                self.is_fresh = is_made;
                shell.take_lock(file)
            }
            Ok(Taken::Absent) => {
                self.hold = Hold::Nothing;
                true
            }
            Ok(Taken::Forbidden(error)) => {
                self.hold = Hold::Forbidden(error);
                true
            }
            Err(error) => {
                say(rt, LOCK_NAME, error);
                false
            }
        }
    }

    /// Whether this run may write. Where it may not for want of the lock it says why, once.
    pub fn may_write<R: Eprint>(&mut self, rt: &R) -> bool {
        match self.hold {
            Hold::Held => {
                self.is_fresh = false;
                true
            }
            Hold::Unasked | Hold::Nothing => false,
            Hold::Forbidden(error) => {
                say(rt, LOCK_NAME, error);
                self.hold = Hold::Nothing;
                false
            }
        }
    }

    /// Lets go of the lock, so that a command which a run has left behind holds no other run up. A run that wrote nothing, as one whose
    /// scripts are at fault, leaves no lock's file that wasn't there.
    pub fn end<R: Files, S: LockHolder>(&mut self, rt: &R, shell: &S) {
        if self.is_fresh {
            remove(rt);
            self.is_fresh = false;
        }
        self.hold = Hold::Nothing;
        shell.unlock();
    }
}

/// Says what the system refused of a file.
pub fn say<R: Eprint>(rt: &R, name: &str, error: io::Error) {
    let _ = eprintln!(rt; "scons: {name}: {error}");
}
