//! One trial: its world on threads, and the steps that are taken over it.
ghost use Rattle.std.specs.Prelude.{◌≡◌, []};
ghost use Rattle.world_mem.specs.AsAround.{around_of};

use crate::runs::{Sinks, put_file, put_report, words_of};
use crate::start::Start;
use job_runner::Gate;
use scons_base::{PathText, Text};
use scons_top::{Report, scons};
use std::alloc::Global;
use std::sync::Wait;
use std::thread::Threads;
use thread_world::ThreadWorld;
use trial_text::Told;
use world_mem::ActTable;

/// A world between two runs of the command: nothing runs in it.
#[derive(Drop)]
pub(crate) struct Trial<T, G> {
    alloc: Global,
    world: ThreadWorld<T, G>,
    ghost idle: { (around_of world.world.state).running ≡ [] },
}

impl<T, G> Trial<T, G>
where
    T: Threads + Wait + Clone + Send + Sync + Drop + 'static,
    G: Gate + Send + Sync + Drop + 'static,
{
    pub(crate) fn new(rt: T, start: Start, gate: G) -> Option<Trial<T, G>> {
        let Start { alloc, files, rows } = start;
        match ThreadWorld::new(alloc, rt, files, ActTable::new(rows), gate) {
            Ok(world) => Some(Trial { alloc, world }),
            Err(_) => None,
        }
    }
}

impl<T: Wait + Drop, G: Gate + Drop> Trial<T, G> {
    /// Edits a file.
    pub(crate) fn edit(&mut self, told: &mut Told, path: &str, content: &str) {
        let Ok(path) = PathText::read(self.alloc, path) else {
            return told.refuse();
        };
        if self.world.edit(&path, content.as_bytes()).is_err() {
            told.refuse();
        }
    }

    /// The command with these words: what it printed, its status, how many jobs have started so far, and what it held back.
    pub(crate) fn run(&mut self, told: &mut Told, words: &str) {
        let words = words_of(self.alloc, told, words);
        match Sinks::new(self.alloc) {
            Some(mut sinks) => self.run_over(told, words.as_slice(), &mut sinks),
            None => told.refuse(),
        }
    }

    fn run_over(&mut self, told: &mut Told, words: &[Text], sinks: &mut Sinks) {
        let report = self.command(words, sinks);
        sinks.put(told);
        put_report(told, &report, self.world.jobs().len());
    }

    fn command(&mut self, words: &[Text], sinks: &mut Sinks) -> Report {
        scons(
            self.alloc,
            words,
            &mut self.world,
            &mut sinks.out,
            &mut sinks.err,
        )
    }

    /// What a file holds.
    pub(crate) fn show(&self, told: &mut Told, path: &str) {
        match self.world.files() {
            Ok(files) => put_file(told, files.as_slice(), path),
            Err(_) => told.refuse(),
        }
    }
}
