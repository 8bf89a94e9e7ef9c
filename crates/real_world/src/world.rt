//! The real world: the traits over files, banks, and a pool of workers.
ghost use Rattle.std.specs.Prelude.{◌≡◌, ◌≢◌, ◌<◌, ◌≤◌, ℕ, List, [], length, IsTrue, IfOk, IfErr, IfSome};
ghost use Rattle.scons_base.specs.Parts.{is_absolute};

use crate::bank::{BankFiles, name_of};
use crate::files;
use crate::holding::{Holding, say};
use crate::lock::LockWish;
use crate::shell::LockHolder;
use job_runner::{NoGate, Pool, Runner, Slip};
use scons_base::{Memory, PathFault, PathText, Paths};
use std::alloc::Global;
use std::env::Env;
use std::fs::File;
use std::rt::Files;
use std::sync::{Arc, Wait};
use std::thread::Threads;
use std::time::Clock;
use std::{env, fs, io};
use world_api::{
    AskRefusal, Bank, Content, Disk, Ended, Fault, Job, Kind, Outcome, ReadRefusal, World,
};

/// The real files, banks and shell. Jobs run on worker threads, as many at once as have started. The first call of a run, which asks for
/// the top directory, takes the lock that is wished for; without it nothing is written.
#[derive(Drop)]
pub struct RealWorld<R, S: Runner> {
    rt: R,
    alloc: Global,
    holding: Holding,
    shell: Arc<S, Global>,
    pool: Pool<R, S, NoGate>,
    banks: BankFiles,
    disk_faults: u64,
    tree_faults: u64,
    start_faults: u64,
    action_failures: u64,
}

impl<R, S> RealWorld<R, S>
where
    R: AllocGlobal + Threads + Wait + Clone + Send + Sync + Drop + 'static,
    S: LockHolder + Send + Sync + Drop + 'static,
{
    pub fn new(rt: R, shell: S, wish: LockWish) -> Result<RealWorld<R, S>, Memory> {
        let alloc = rt.alloc();
        let shell = Arc::new(alloc, shell)?;
        let pool = pool_of(&rt, &shell)?;
        Ok(RealWorld {
            rt,
            alloc,
            holding: Holding::new(wish),
            shell,
            pool,
            banks: BankFiles::new(),
            disk_faults: 0,
            tree_faults: 0,
            start_faults: 0,
            action_failures: 0,
        })
    }
}

/// A pool that runs jobs by the shell.
fn pool_of<R, S>(rt: &R, shell: &Arc<S, Global>) -> Result<Pool<R, S, NoGate>, Memory>
where
    R: AllocGlobal + Threads + Wait + Clone + Send + Sync + Drop + 'static,
    S: LockHolder + Send + Sync + Drop + 'static,
{
    let runner = Arc::try_clone(shell)?;
    Pool::new(rt.alloc(), copied(rt)?, runner, NoGate)
}

impl<R, S> RealWorld<R, S>
where
    R: Files<File = File> + AllocGlobal + Wait + Clock + Env + Eprint + Clone + Drop,
    S: LockHolder + Drop,
{
    /// Ends a run: lets go of the lock.
    pub fn unlock(&mut self) {
        self.holding.end(&self.rt, &*self.shell);
    }

    /// Whether a call on a bank went well. If not says why.
    fn is_well(&self, bank: Bank, done: io::Result<()>) -> bool {
        match done {
            Ok(()) => true,
            Err(error) => {
                say(&self.rt, name_of(bank), error);
                false
            }
        }
    }
}

/// A further handle of the runtime.
fn copied<R: Clone>(rt: &R) -> Result<R, Memory> {
    match rt.clone() {
        Ok(handle) => Ok(handle),
        Err(_) => Err(Memory),
    }
}

impl<R, S> Disk for RealWorld<R, S>
where
    R: Files<File = File> + AllocGlobal + Wait + Clock + Env + Eprint + Clone + Drop,
    S: LockHolder + Drop,
{
    ghost use Rattle.real_world.specs.Silent.{nothing};

    ghost meaning = { record {
      tells = λ w. ⊥;
      sure = λ w. ⊥;
      seen = λ w bank. [];
      image = λ w bank bytes. ⊥;
      around = λ w. nothing;
      clock = λ w. 0;
      left_since = λ w time around banks. ⊥;
      closed = λ w. [];
      counts = λ w. record { disk_faults = w.disk_faults; tree_faults = w.tree_faults; start_faults = w.start_faults; action_failures = w.action_failures };
    } };

    fn size(&mut self, bank: Bank) -> Result<u64, Fault> {
        match self.banks.size(&self.rt, bank) {
            Ok(size) => Ok(size),
            Err(error) => {
                say(&self.rt, name_of(bank), error);
                self.disk_faults = self.disk_faults.saturating_add(1);
                Err(Fault)
            }
        }
    }

    fn read_at(&mut self, bank: Bank, place: u64, into: &mut [u8]) -> Result<(), Fault> {
        let read = self.banks.read_at(&self.rt, bank, place, into);
        if self.is_well(bank, read) {
            return Ok(());
        }
        self.disk_faults = self.disk_faults.saturating_add(1);
        Err(Fault)
    }

    fn write_at(&mut self, bank: Bank, place: u64, bytes: &[u8]) -> Result<(), Fault> {
        if self.holding.may_write(&self.rt) {
            let written = self.banks.write_at(&self.rt, bank, place, bytes);
            if self.is_well(bank, written) {
                return Ok(());
            }
        }
        self.disk_faults = self.disk_faults.saturating_add(1);
        Err(Fault)
    }

    fn sync(&mut self, bank: Bank) -> Result<(), Fault> {
        let synced = self.banks.sync(&self.rt, bank);
        if self.is_well(bank, synced) {
            return Ok(());
        }
        self.disk_faults = self.disk_faults.saturating_add(1);
        Err(Fault)
    }

    ghost reads_as = { λ disk tells. absurd tells };

    ghost counts_now = { λ disk tells time banks. absurd tells };

    ghost only_now = { λ disk tells around banks. absurd tells };
}

impl<R, S> World for RealWorld<R, S>
where
    R: Files<File = File> + AllocGlobal + Wait + Clock + Env + Eprint + Clone + Drop,
    S: LockHolder + Drop,
{
    fn top_path(&mut self) -> Result<PathText, AskRefusal> {
        if !self.holding.begin(&self.rt, &*self.shell) {
            self.tree_faults = self.tree_faults.saturating_add(1);
            return Err(AskRefusal::Fault);
        }
        match top_of(&self.rt) {
            Ok(path) => Ok(path),
            Err(AskRefusal::Memory) => Err(AskRefusal::Memory),
            Err(AskRefusal::Fault) => {
                self.tree_faults = self.tree_faults.saturating_add(1);
                Err(AskRefusal::Fault)
            }
        }
    }

    fn kind(&mut self, path: &PathText) -> Result<Kind, Fault> {
        match files::kind_of(&self.rt, path) {
            Ok(kind) => Ok(kind),
            Err(_) => {
                self.tree_faults = self.tree_faults.saturating_add(1);
                Err(Fault)
            }
        }
    }

    fn read_file(&mut self, path: &PathText, limit: u64) -> Result<Content, ReadRefusal> {
        let read = files::content_of(&self.rt, self.alloc, path, limit);
        if matches!(read, Err(ReadRefusal::Fault)) {
            self.tree_faults = self.tree_faults.saturating_add(1);
        }
        read
    }

    fn list(&mut self, dir: &PathText) -> Result<Paths, AskRefusal> {
        let listed = files::files_in(&self.rt, dir);
        if matches!(listed, Err(AskRefusal::Fault)) {
            self.tree_faults = self.tree_faults.saturating_add(1);
        }
        listed
    }

    fn stamp(&mut self, path: &PathText) -> Result<Option<u64>, Fault> {
        match files::stamp_of(&self.rt, path) {
            Ok(stamp) => Ok(stamp),
            Err(_) => {
                self.tree_faults = self.tree_faults.saturating_add(1);
                Err(Fault)
            }
        }
    }

    fn make_dir(&mut self, path: &PathText) -> Result<(), AskRefusal> {
        if !self.holding.may_write(&self.rt) {
            self.tree_faults = self.tree_faults.saturating_add(1);
            return Err(AskRefusal::Fault);
        }
        match fs::create_dir_all(&self.rt, path.as_str()) {
            Ok(()) => Ok(()),
            Err(error) => {
                let refusal = files::ask_refusal(error.kind());
                if matches!(refusal, AskRefusal::Fault) {
                    self.tree_faults = self.tree_faults.saturating_add(1);
                }
                Err(refusal)
            }
        }
    }

    fn remove(&mut self, path: &PathText) -> Result<(), Fault> {
        if self.holding.may_write(&self.rt) && files::remove(&self.rt, path).is_ok() {
            return Ok(());
        }
        self.tree_faults = self.tree_faults.saturating_add(1);
        Err(Fault)
    }

    fn start(&mut self, job: Job) -> Result<(), AskRefusal> {
        if !self.holding.may_write(&self.rt) {
            self.start_faults = self.start_faults.saturating_add(1);
            return Err(AskRefusal::Fault);
        }
        self.pool.hand_in(Slip {
            job,
            given: None,
            table: None,
        })?;
        Ok(())
    }

    fn wait(&mut self) -> Ended {
        if self.pool.out() == 0 {
            self.start_faults = self.start_faults.saturating_add(1);
            return Ended {
                id: 0,
                outcome: Outcome::Broken,
            };
        }
        let ending = self.pool.next_end();
        let outcome = ending.outcome;
        match outcome {
            Outcome::Failed(_) => self.action_failures = self.action_failures.saturating_add(1),
            Outcome::Broken => self.start_faults = self.start_faults.saturating_add(1),
            Outcome::Done | Outcome::NoMemory => {}
        }
        Ended {
            id: ending.slip.job.id,
            outcome,
        }
    }

    ghost held = { λ world tells path bytes. absurd tells };

    ghost shut = { λ world tells path. absurd tells };
}

/// The current directory, where its path is UTF-8 and in normal form.
fn top_of<R: Env + AllocGlobal>(rt: &R) -> Result<PathText, AskRefusal>
    ensures { IfOk result (λ path. IsTrue (is_absolute path)) }
{
    let dir = match env::current_dir(rt) {
        Ok(dir) => dir,
        Err(error) => return Err(files::ask_refusal(error.kind())),
    };
    match PathText::read(rt.alloc(), dir.as_str()) {
        Ok(path) if path.as_str().starts_with('/') => Ok(path),
        Ok(_) => Err(AskRefusal::Fault),
        Err(PathFault::Memory) => Err(AskRefusal::Memory),
        Err(_) => Err(AskRefusal::Fault),
    }
}
