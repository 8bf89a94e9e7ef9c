//! What a worker does with a job: it runs the lines by the shell, copies, or writes.
ghost use Rattle.std.specs.Prelude.{None, true};

use crate::errors::{TRIES, is_full, pause};
use crate::syncing::{broken, sync_targets};
use crate::writing::write;
use job_runner::{Ending, Runner, Slip};
use scons_base::PathText;
use std::alloc::{AllocError, Global};
use std::fs::File;
use std::io;
use std::process::{Child, Command, ExitStatus, Processes};
use std::rt::Files;
use std::sync::atomic::{AtomicUsize, Ordering};
use std::sync::{Arc, OnceLock};
use std::time::Clock;
use world_api::{Line, Outcome, Work};

/// The status that stands for an ending without one, as by a signal.
const NO_CODE: i32 = 255;

/// The one variable of each action.
const PATH: &str = "/usr/local/bin:/bin:/usr/bin";

/// A runner whose children hold the lock of the tree until they have ended, or it lets go of it.
pub trait LockHolder: Runner {
    /// Takes the lock's file, and says whether it has it now.
    fn take_lock(&self, file: File) -> bool;

    /// Lets go of the lock, also for the children that still run.
    fn unlock(&self);
}

/// Runs jobs by the shell. Each child has the locked file as its standard input.
#[derive(Drop)]
pub struct Shell<R> {
    rt: R,
    lock: OnceLock<File>,
    /// How many children run.
    children: AtomicUsize,
}

impl<R> Shell<R> {
    pub fn new(rt: R) -> Shell<R> {
        Shell {
            rt,
            lock: OnceLock::new(),
            children: AtomicUsize::new(0),
        }
    }
}

impl<R: Files<File = File> + AllocGlobal + Processes + Clock + Eprint + Drop> LockHolder
    for Shell<R> {
    fn take_lock(&self, file: File) -> bool {
        self.lock.try_set(file).is_ok()
    }

    fn unlock(&self) {
        if let Some(file) = self.lock.get() {
            let _ = file.unlock();
        }
    }
}

impl<R: Files<File = File> + AllocGlobal + Processes + Clock + Eprint + Drop> Runner for Shell<R> {
    ghost answer = { λ slip. None };

    ghost gave = { λ ending. true };

    fn run(&self, slip: Arc<Slip, Global>) -> Ending {
        let job = &slip.job;
        let outcome = match job.work {
            Work::Shell => self.run_lines(job.lines.as_slice()),
            Work::Copy => self.copy(job.deps.as_slice(), job.targets.as_slice()),
            Work::Write => write(&self.rt, job),
        };
        let outcome = match outcome {
            Outcome::Done => sync_targets(&self.rt, job.targets.as_slice()),
            outcome => outcome,
        };
        Ending {
            slip,
            outcome,
            made: None,
        }
    }
}

impl<R: Files<File = File> + AllocGlobal + Processes + Clock + Eprint> Shell<R> {
    /// Runs the lines in turn, up to the first that fails and isn't to be ignored.
    fn run_lines(&self, lines: &[Line]) -> Outcome {
        for line in lines {
            let text = line.text.as_str();
            if text.is_empty() {
                continue;
            }
            match self.run_program("/bin/sh", &["-c", "--", text]) {
                Outcome::Done => {}
                Outcome::Failed(_) if line.ignore => {}
                outcome => return outcome,
            }
        }
        Outcome::Done
    }

    fn copy(&self, deps: &[PathText], targets: &[PathText]) -> Outcome {
        match (deps.first(), targets.first()) {
            (Some(source), Some(target)) => {
                self.run_program("/bin/cp", &["--", source.as_str(), target.as_str()])
            }
            _ => Outcome::Broken,
        }
    }

    fn run_program(&self, program: &str, words: &[&str]) -> Outcome {
        match self.status_of(program, words) {
            Ok(status) => match status.code() {
                Some(0) => Outcome::Done,
                Some(code) => Outcome::Failed(code),
                None => Outcome::Failed(NO_CODE),
            },
            Err(error) => broken(&self.rt, program, error),
        }
    }

    fn status_of(&self, program: &str, words: &[&str]) -> io::Result<ExitStatus> {
        let mut child = self.started(program, words)?;
        let _ = self.children.fetch_add(1, Ordering::SeqCst);
        let status = child.wait();
        let _ = self.children.fetch_sub(1, Ordering::SeqCst);
        status
    }

    /// Starts a program. Where the system has no room for it, tries again, for as long as others run and a little longer.
    fn started(&self, program: &str, words: &[&str]) -> io::Result<Child<R::Started>> {
        let mut tries = TRIES;
        for _ in 0..u64::MAX {
            match self.spawned(program, words) {
                Err(error) if is_full(&error) && tries > 0 => {
                    if self.children.load(Ordering::SeqCst) == 0 {
                        tries = tries.saturating_sub(1);
                    }
                    pause(&self.rt);
                }
                spawned => return spawned,
            }
        }
        self.spawned(program, words)
    }

    fn spawned(&self, program: &str, words: &[&str]) -> io::Result<Child<R::Started>> {
        let mut command = command_of(self.rt.alloc(), program, words)?;
        if let Some(lock) = self.lock.get() {
            command.stdin(lock.try_clone()?);
        }
        command.spawn(&self.rt)
    }
}

fn command_of(alloc: Global, program: &str, words: &[&str]) -> Result<Command, AllocError> {
    let mut command = Command::new(alloc, program)?;
    command.env_clear();
    command.env("PATH", PATH)?;
    for word in words {
        command.arg(*word)?;
    }
    Ok(command)
}
