//! A world in memory in which nothing runs.
ghost use Rattle.std.specs.Prelude.{◌≡◌, ◌≤◌, ◌^◌, [], length};
ghost use Rattle.world_mem.specs.AsAround.{around_of};

use crate::runs::Ran;
use scons_base::limits::BANK_LIMIT;
use scons_base::{Blob, PathText, Text};
use scons_top::scons;
use std::alloc::Global;
use trial_text::Told;
use world_api::{Bank, Disk};
use world_mem::{ActTable, Call, MemSink, MemWorld};

/// A world between two runs of the command.
#[derive(Drop)]
pub(crate) struct IdleWorld {
    pub(crate) inner: MemWorld,
    /// The writes on standard output that the next run is refused.
    pub(crate) refused: Vec<u32>,
    /// The same on standard error.
    pub(crate) refused_errors: Vec<u32>,
    pub(crate) alloc: Global,
    ghost idle: { (around_of inner.state).running ≡ [] },
}

impl IdleWorld {
    /// A world with these files, in which these calls fail.
    pub(crate) fn new(
        alloc: Global,
        files: Vec<(PathText, Blob)>,
        table: ActTable,
        orders: Vec<u32>,
        failing: Vec<(Call, u32)>,
    ) -> Option<IdleWorld> {
        match MemWorld::new(alloc, files, table, orders, failing) {
            Ok(inner) => Some(IdleWorld {
                inner,
                refused: Vec::new(alloc),
                refused_errors: Vec::new(alloc),
                alloc,
            }),
            Err(_) => None,
        }
    }

    /// A world with the same files and banks, in which these calls fail, beside the writes and syncs that fill the banks.
    pub(crate) fn again(&self, failing: Vec<(Call, u32)>) -> Option<IdleWorld> {
        self.anew(self.inner.bank(Bank::A), self.inner.bank(Bank::B), failing)
    }

    /// The same with other banks.
    pub(crate) fn anew(&self, a: &[u8], b: &[u8], failing: Vec<(Call, u32)>) -> Option<IdleWorld> {
        let mut world = self.without_banks(failing)?;
        if world.fill(Bank::A, a) && world.fill(Bank::B, b) {
            return Some(world);
        }
        None
    }

    fn without_banks(&self, failing: Vec<(Call, u32)>) -> Option<IdleWorld> {
        let alloc = self.alloc;
        match self.inner.files() {
            Ok(files) => {
                let table = ActTable::new(Vec::new(alloc));
                IdleWorld::new(alloc, files.into_vec(), table, Vec::new(alloc), failing)
            }
            Err(_) => None,
        }
    }

    /// Puts bytes into an empty bank, by one write and one sync.
    fn fill(&mut self, bank: Bank, bytes: &[u8]) -> bool {
        bytes.len() as u64 <= BANK_LIMIT && self.write(bank, bytes) && self.sync(bank)
    }

    fn write(&mut self, bank: Bank, bytes: &[u8]) -> bool
        requires { length bytes.now ≤ 2 ^ 40 }
    {
        self.inner.write_at(bank, 0, bytes).is_ok()
    }

    fn sync(&mut self, bank: Bank) -> bool {
        self.inner.sync(bank).is_ok()
    }

    /// Gives a file this content.
    pub(crate) fn edit(&mut self, told: &mut Told, path: &str, bytes: &[u8]) {
        let Ok(path) = PathText::read(self.alloc, path) else {
            return told.refuse();
        };
        if self.inner.edit(&path, bytes).is_err() {
            told.refuse();
        }
    }

    pub(crate) fn remove(&mut self, told: &mut Told, path: &str) {
        match PathText::read(self.alloc, path) {
            Ok(path) => self.inner.remove_file(&path),
            Err(_) => told.refuse(),
        }
    }

    /// The command.
    pub(crate) fn run(&mut self, words: &[Text]) -> Option<Ran> {
        let alloc = self.alloc;
        let refused = std::mem::replace(&mut self.refused, Vec::new(alloc));
        let mut out = MemSink::new(alloc, refused).ok()?;
        let refused = std::mem::replace(&mut self.refused_errors, Vec::new(alloc));
        let mut err = MemSink::new(alloc, refused).ok()?;
        let report = scons(alloc, words, &mut self.inner, &mut out, &mut err);
        Some(Ran { report, out, err })
    }

    /// The status of the command.
    pub(crate) fn status(&mut self, words: &[Text]) -> Option<u8> {
        match self.run(words) {
            Some(ran) => Some(ran.report.status),
            None => None,
        }
    }

    /// After so many further calls the world is at fault.
    pub(crate) fn fuse(&mut self, calls: u32) {
        self.inner.fuse(calls);
    }

    /// One outcome of a stop at this moment.
    pub(crate) fn stopped(self, pick: u32) -> Option<IdleWorld> {
        let alloc = self.alloc;
        match self.inner.stop(pick) {
            Ok(inner) => Some(IdleWorld {
                inner,
                refused: Vec::new(alloc),
                refused_errors: Vec::new(alloc),
                alloc,
            }),
            Err(_) => None,
        }
    }
}
