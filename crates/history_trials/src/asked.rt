//! What runs of random histories are asked for.
use crate::names::{MOST_RULES, name_of, second, target};
use crate::numbers::Numbers;
use crate::project::{Defaults, Project};
use model_trials::spots::Spot;
use model_trials::stale::{PlainFile, file_at};
use scons_base::Text;
use std::alloc::Global;
use trial_text::Told;

/// What the words name.
#[derive(Clone, Copy)]
enum Named {
    Nothing,
    Everything,
    Alias,
    One(Spot),
    Two(Spot, Spot),
}

/// The words of a run.
#[derive(Clone, Copy)]
pub(crate) struct Asked {
    pub(crate) jobs: u64,
    /// Whether the run goes on behind a fault.
    pub(crate) goes_on: bool,
    named: Named,
}

impl Asked {
    pub(crate) fn new(numbers: &mut Numbers) -> Asked {
        Asked {
            jobs: numbers.below(4).wrapping_add(1),
            goes_on: numbers.is_one_in(3),
            named: named_by(numbers),
        }
    }

    pub(crate) fn words(&self, alloc: Global, told: &mut Told) -> Vec<Text> {
        let mut words = Vec::new(alloc);
        keep_word(alloc, told, &mut words, "-Q");
        let jobs = self.jobs;
        match format!(in alloc; "-j{jobs}") {
            Ok(word) => told.keep(&mut words, Text::new(word)),
            Err(_) => told.refuse(),
        }
        if self.goes_on {
            keep_word(alloc, told, &mut words, "-k");
        }
        match self.named {
            Named::Nothing => {}
            Named::Everything => keep_word(alloc, told, &mut words, "."),
            Named::Alias => keep_word(alloc, told, &mut words, "all"),
            Named::One(spot) => keep_word(alloc, told, &mut words, name_of(&spot)),
            Named::Two(first, last) => {
                keep_word(alloc, told, &mut words, name_of(&first));
                keep_word(alloc, told, &mut words, name_of(&last));
            }
        }
        words
    }

    /// The requested nodes, where each word is a target or a file.
    pub(crate) fn requested(
        &self,
        alloc: Global,
        told: &mut Told,
        project: &Project,
        files: &[PlainFile],
    ) -> Option<Vec<Spot>> {
        match self.named {
            Named::Nothing => Some(defaults_of(alloc, told, project)),
            Named::Everything => Some(targets_of(alloc, told, project)),
            Named::Alias => Some(alias_of(alloc, told, project)),
            Named::One(spot) => {
                let mut spots = Vec::new(alloc);
                put_known(told, project, files, spot, &mut spots)?;
                Some(spots)
            }
            Named::Two(first, last) => {
                let mut spots = Vec::new(alloc);
                put_known(told, project, files, first, &mut spots)?;
                put_known(told, project, files, last, &mut spots)?;
                Some(spots)
            }
        }
    }
}

fn named_by(numbers: &mut Numbers) -> Named {
    match numbers.below(9) {
        0..=3 => Named::Nothing,
        4 => Named::Everything,
        5 => Named::Alias,
        6 => Named::One(second(numbers.place(MOST_RULES))),
        7 => Named::One(target(numbers.place(MOST_RULES))),
        _ => {
            let first = target(numbers.place(MOST_RULES));
            Named::Two(first, target(numbers.place(MOST_RULES)))
        }
    }
}

fn keep_word(alloc: Global, told: &mut Told, words: &mut Vec<Text>, word: &str) {
    match Text::of(alloc, word) {
        Ok(word) => told.keep(words, word),
        Err(_) => told.refuse(),
    }
}

/// Puts a path that is a target or a file; none else.
fn put_known(
    told: &mut Told,
    project: &Project,
    files: &[PlainFile],
    spot: Spot,
    spots: &mut Vec<Spot>,
) -> Option<()> {
    if is_target(project, &spot) || file_at(files, &spot).is_some() {
        told.keep(spots, spot);
        return Some(());
    }
    None
}

fn is_target(project: &Project, spot: &Spot) -> bool {
    for rule in 0..project.rules {
        if spot.is(&target(rule)) || (project.has_second(rule) && spot.is(&second(rule))) {
            return true;
        }
    }
    false
}

/// All declared targets, in byte order.
fn targets_of(alloc: Global, told: &mut Told, project: &Project) -> Vec<Spot> {
    let mut spots = Vec::new(alloc);
    for rule in 0..project.rules {
        told.keep(&mut spots, target(rule));
    }
    for rule in 0..project.rules {
        if project.has_second(rule) {
            told.keep(&mut spots, second(rule));
        }
    }
    spots
}

fn alias_of(alloc: Global, told: &mut Told, project: &Project) -> Vec<Spot> {
    let mut spots = Vec::new(alloc);
    for rule in 0..project.rules {
        if project.is_in_alias(rule) {
            told.keep(&mut spots, target(rule));
        }
    }
    spots
}

fn defaults_of(alloc: Global, told: &mut Told, project: &Project) -> Vec<Spot> {
    match project.defaults() {
        Defaults::Nothing => targets_of(alloc, told, project),
        Defaults::Alias => alias_of(alloc, told, project),
        Defaults::Targets => {
            let mut spots = Vec::new(alloc);
            for rule in 0..project.rules {
                if project.is_default(rule) {
                    told.keep(&mut spots, target(rule));
                }
            }
            spots
        }
    }
}
