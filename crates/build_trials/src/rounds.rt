//! Builds of a small graph, each compared with what the slow functions say of it.
use crate::graph_texts::{first_source, made_text, script_of, source_text};
use crate::idle::IdleWorld;
use crate::looked::{content_at, digest_at, files_of, rules_of, targets_in};
use crate::small::{Small, name_of, source_file, target};
use crate::steps::words_of;
use model_trials::changes::{PlainDependency, PlainRecord};
use model_trials::cycles::has_cycle;
use model_trials::order::{are_numbered, build_order};
use model_trials::reach::{PlainRule, reach};
use model_trials::spots::Spot;
use model_trials::stale::{PlainFile, PlainKept, is_stale};
use scons_base::{Blob, PathText, Text};
use std::alloc::Global;
use trial_text::Told;
use world_mem::ActTable;

/// More than the files that are scanned for a rule.
const LIMIT: usize = 100;

/// More than the steps that a walk over a small graph takes.
const STEPS: usize = 1_000;

/// What is wrong with a build, where something is.
pub(crate) type Wrong = Option<&'static str>;

/// A small graph, the world that it is built in, and what each rule was last carried out over.
#[derive(Drop)]
pub(crate) struct Rounds {
    pub(crate) graph: Small,
    pub(crate) world: IdleWorld,
    pub(crate) jobs: u32,
    kept: Vec<PlainKept>,
    pub(crate) builds: u64,
    pub(crate) is_cyclic: bool,
}

impl Rounds {
    /// A world with the script and the sources of a graph, in which running jobs end as these numbers say.
    pub(crate) fn new(
        alloc: Global,
        told: &mut Told,
        graph: Small,
        jobs: u32,
        endings: Vec<u32>,
    ) -> Option<Rounds> {
        let mut files = Vec::new(alloc);
        let script = script_of(alloc, &graph);
        keep_file(
            alloc,
            told,
            &mut files,
            "SConstruct",
            script.as_str().as_bytes(),
        );
        for rule in 0..graph.shape.rules {
            if let Some((name, bytes)) = first_source(alloc, &graph, rule) {
                keep_file(alloc, told, &mut files, name, bytes.as_slice());
            }
        }
        let table = ActTable::new(Vec::new(alloc));
        let world = IdleWorld::new(alloc, files, table, endings, Vec::new(alloc))?;
        Some(Rounds {
            graph,
            world,
            jobs,
            kept: Vec::new(alloc),
            builds: 0,
            is_cyclic: false,
        })
    }

    /// Builds from nothing, after an edit, after a target went, and after an include line went; and once more each time.
    pub(crate) fn try_all(&mut self, told: &mut Told) -> Wrong {
        let alloc = self.world.alloc;
        let rules = self.graph.shape.rules.max(1) as u64;
        let picked = (self.graph.number % rules) as usize;
        for edit in 0..4 {
            self.change(alloc, told, edit, picked);
            for _again in 0..2 {
                let wrong = self.build(told);
                if wrong.is_some() || self.is_cyclic {
                    return wrong;
                }
            }
        }
        None
    }

    /// Changes what one rule is made of, or takes away what it made.
    pub(crate) fn change(&mut self, alloc: Global, told: &mut Told, edit: u32, rule: usize) {
        let copied = self.graph.shape.copied;
        match edit {
            0 => {}
            2 => self.world.remove(told, name_of(copied, &target(rule))),
            _ => {
                let text = source_text(alloc, &self.graph, rule, edit, edit == 1);
                let name = source_file(copied, rule);
                self.world.edit(told, name, text.as_str().as_bytes());
            }
        }
    }

    /// The words that build a graph: what its last rule makes, and for each second graph what its first one makes.
    pub(crate) fn words(&self, told: &mut Told) -> Vec<Text> {
        let mut words = Told::new(self.world.alloc);
        words.put("-Q -j");
        words.show(self.jobs);
        for spot in self.requested(told) {
            words.put_all(&[" ", name_of(false, &spot)]);
        }
        words_of(self.world.alloc, told, words.as_str())
    }

    fn requested(&self, told: &mut Told) -> Vec<Spot> {
        let mut spots = Vec::new(self.world.alloc);
        told.keep(&mut spots, target(self.graph.shape.rules.saturating_sub(1)));
        if self.graph.number % 2 == 1 {
            told.keep(&mut spots, target(0));
        }
        spots
    }

    /// Builds once, and compares.
    fn build(&mut self, told: &mut Told) -> Wrong {
        self.builds = self.builds.wrapping_add(1);
        let alloc = self.world.alloc;
        let before = files_of(told, &self.world);
        let stood = targets_in(alloc, told, &self.graph, before.as_slice());
        let jobs = self.world.inner.jobs().len();
        let words = self.words(told);
        let status = self.world.status(words.as_slice());
        let files = files_of(told, &self.world);
        let rules = rules_of(alloc, told, &self.graph, files.as_slice());
        let started = self.started(told, jobs);
        self.compare(
            told,
            files.as_slice(),
            stood.as_slice(),
            rules.as_slice(),
            status,
            started,
        )
    }

    /// The targets of the jobs that were started behind so many.
    fn started(&self, told: &mut Told, before: usize) -> Vec<Spot> {
        let mut spots = Vec::new(self.world.alloc);
        for job in self.world.inner.jobs().iter().skip(before) {
            match job.targets.as_slice().first() {
                Some(name) => self.put_named(told, name, &mut spots),
                None => told.refuse(),
            }
        }
        spots
    }

    fn put_named(&self, told: &mut Told, name: &PathText, spots: &mut Vec<Spot>) {
        for letter in b'A'..b'z' {
            let spot = Spot::new(letter);
            if is_path(letter) && name_of(self.graph.shape.copied, &spot) == name.as_str() {
                return told.keep(spots, spot);
            }
        }
        told.refuse();
    }

    fn compare(
        &mut self,
        told: &mut Told,
        files: &[(PathText, Blob)],
        stood: &[PlainFile],
        rules: &[PlainRule],
        status: Option<u8>,
        started: Vec<Spot>,
    ) -> Wrong {
        let alloc = self.world.alloc;
        let requested = self.requested(told);
        if !are_numbered(rules) {
            return Some("the rules aren't numbered");
        }
        match has_cycle(alloc, LIMIT, STEPS, rules, requested.as_slice()) {
            Ok(Some(true)) => {
                self.is_cyclic = true;
                return wrong_unless(status == Some(2), "a cycle has another status");
            }
            Ok(Some(false)) => {}
            _ => return Some("no step is left"),
        }
        match build_order(alloc, LIMIT, rules, requested.as_slice()) {
            Ok(Some(order)) if status == Some(0) => {
                self.compare_order(told, files, stood, rules, order.as_slice(), started)
            }
            Ok(Some(_)) => Some("the status isn't 0"),
            _ => Some("there is no order"),
        }
    }

    /// Compares what the needed rules made, and which of them were started, with what is stale by the definitions.
    fn compare_order(
        &mut self,
        told: &mut Told,
        files: &[(PathText, Blob)],
        stood: &[PlainFile],
        rules: &[PlainRule],
        order: &[usize],
        started: Vec<Spot>,
    ) -> Wrong {
        let alloc = self.world.alloc;
        let mut due = Vec::new(alloc);
        for number in order {
            let Some(rule) = rules.get(*number) else {
                return Some("there is no such rule");
            };
            let given = self.given(told, files, rule);
            if !self.is_made(files, rule, given.as_slice()) {
                return Some("a content isn't clean");
            }
            let now = record_of(alloc, told, rule, given);
            if is_stale(stood, self.kept.as_slice(), rule, &now) {
                told.keep(&mut due, rule_target(rule));
                self.keep(told, rule_target(rule), now);
            }
        }
        wrong_unless(self.are_started(due, started), "other rules were started")
    }

    /// The dependencies of a rule, with the digests of what they hold.
    fn given(
        &self,
        told: &mut Told,
        files: &[(PathText, Blob)],
        rule: &PlainRule,
    ) -> Vec<(Spot, String)> {
        let alloc = self.world.alloc;
        let mut given = Vec::new(alloc);
        let Ok(spots) = reach(alloc, LIMIT, rule) else {
            told.refuse();
            return given;
        };
        for spot in spots {
            let name = name_of(self.graph.shape.copied, &spot);
            let digest = digest_at(alloc, told, files, name);
            told.keep(&mut given, (spot, digest));
        }
        given
    }

    /// Whether the target of a rule holds what the rule makes of this.
    fn is_made(
        &self,
        files: &[(PathText, Blob)],
        rule: &PlainRule,
        given: &[(Spot, String)],
    ) -> bool {
        let copied = self.graph.shape.copied;
        let made = content_at(files, name_of(copied, &rule_target(rule)));
        if let ([source, ..], true) = (rule.sources.as_slice(), rule.keeps_sources) {
            return made.is_some() && made == content_at(files, name_of(copied, source));
        }
        let text = made_text(self.world.alloc, &self.graph, rule.number, given);
        made == Some(text.as_str().as_bytes()) && !text.is_refused()
    }

    /// Keeps the record of a rule in place of what was kept.
    fn keep(&mut self, told: &mut Told, path: Spot, kept: PlainRecord) {
        self.kept.retain(|place| !place.path.is(&path));
        told.keep(&mut self.kept, PlainKept { path, kept });
    }

    /// Whether just the rules that are due were started, each once; one after the other in the build order where one job
    /// runs at a time.
    fn are_started(&self, due: Vec<Spot>, mut started: Vec<Spot>) -> bool {
        if self.jobs == 1 {
            return due.as_slice() == started.as_slice();
        }
        for spot in &due {
            let Some(place) = started.iter().position(|other| other.is(spot)) else {
                return false;
            };
            let _ = started.remove(place);
        }
        started.is_empty()
    }

    /// What a stop after so many calls of a build leaves, in the way of a number, and whether the build was whole before.
    pub(crate) fn stopped(&self, told: &mut Told, calls: u32, pick: u32) -> Option<(Rounds, bool)> {
        let alloc = self.world.alloc;
        let mut world = self.world.again(Vec::new(alloc))?;
        world.fuse(calls);
        let words = self.words(told);
        let status = world.status(words.as_slice())?;
        let rounds = Rounds {
            graph: self.graph,
            world: world.stopped(pick)?,
            jobs: self.jobs,
            kept: Vec::new(alloc),
            builds: 0,
            is_cyclic: false,
        };
        Some((rounds, status == 0))
    }

    /// Whether a build after a stop leaves what is clean and starts nothing once more.
    pub(crate) fn builds_on(&mut self, told: &mut Told) -> Wrong {
        let words = self.words(told);
        if self.world.status(words.as_slice()) != Some(0) {
            return Some("after a stop the status isn't 0");
        }
        let jobs = self.world.inner.jobs().len();
        if self.world.status(words.as_slice()) != Some(0) || self.world.inner.jobs().len() != jobs {
            return Some("after a stop a second build starts something");
        }
        self.are_clean(told)
    }

    /// Whether each needed target holds what it would after a clean build.
    fn are_clean(&mut self, told: &mut Told) -> Wrong {
        let alloc = self.world.alloc;
        let files = files_of(told, &self.world);
        let rules = rules_of(alloc, told, &self.graph, files.as_slice());
        let requested = self.requested(told);
        if !are_numbered(rules.as_slice()) {
            return Some("the rules aren't numbered");
        }
        let Ok(Some(order)) = build_order(alloc, LIMIT, rules.as_slice(), requested.as_slice())
        else {
            return Some("there is no order");
        };
        for number in order {
            let Some(rule) = rules.get(number) else {
                return Some("there is no such rule");
            };
            let given = self.given(told, files.as_slice(), rule);
            if !self.is_made(files.as_slice(), rule, given.as_slice()) {
                return Some("after a stop a content isn't clean");
            }
        }
        None
    }
}

fn wrong_unless(is_right: bool, wrong: &'static str) -> Wrong {
    if is_right { None } else { Some(wrong) }
}

/// Whether a letter names a path of small graphs.
fn is_path(letter: u8) -> bool {
    matches!(letter, b'A'..=b'D' | b'a'..=b'd' | b'p'..=b's')
}

/// What a rule makes.
fn rule_target(rule: &PlainRule) -> Spot {
    match rule.targets.as_slice() {
        [target, ..] => *target,
        [] => Spot::new(0),
    }
}

fn record_of(
    alloc: Global,
    told: &mut Told,
    rule: &PlainRule,
    given: Vec<(Spot, String)>,
) -> PlainRecord {
    let mut targets = Vec::new(alloc);
    told.keep(&mut targets, rule_target(rule));
    let mut dependencies = Vec::new(alloc);
    for (name, digest) in given {
        let digest = Some(Text::new(digest));
        told.keep(
            &mut dependencies,
            PlainDependency {
                name,
                digest,
                stamp: None,
            },
        );
    }
    PlainRecord {
        work: usize::from(rule.keeps_sources),
        hash: 0,
        signed: Vec::new(alloc),
        targets,
        dependencies,
    }
}

fn keep_file(
    alloc: Global,
    told: &mut Told,
    files: &mut Vec<(PathText, Blob)>,
    name: &str,
    bytes: &[u8],
) {
    match (PathText::read(alloc, name), Blob::of(alloc, bytes)) {
        (Ok(path), Ok(content)) => told.keep(files, (path, content)),
        _ => told.refuse(),
    }
}
