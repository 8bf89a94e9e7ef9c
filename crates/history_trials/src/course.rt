//! What a run has to do, slowly: one rule after the other, each decided by the definitions over what stands then.
use crate::kept::{COPY, digest_at, keep, record_of};
use crate::names::{MOST_RULES, copy, origin};
use crate::project::Project;
use crate::texts::{BROKEN, included_in, lines_of, made_text};
use model_trials::needs::{needs, number_of};
use model_trials::order::{are_numbered, build_order};
use model_trials::reach::{PlainRule, Scan, reach};
use model_trials::spots::Spot;
use model_trials::stale::{PlainFile, PlainKept, file_at, is_stale, record_at};
use scons_base::{Listing, Text};
use std::alloc::Global;
use trial_text::Told;

/// More than the files that are scanned for a rule.
const LIMIT: usize = 100;

/// As many rules as a project has at most, with those of copies.
const MOST_STEPS: usize = 10;

/// What has become of a rule.
#[derive(Clone, Copy, PartialEq, Eq)]
enum State {
    Waiting,
    Made,
    /// Its action failed, or a source of it is missing.
    Failed,
    /// A rule that it needs isn't made.
    Held,
}

/// What stands, and which rules were started.
#[derive(Drop)]
pub(crate) struct Course {
    pub(crate) files: Vec<PlainFile>,
    pub(crate) kept: Vec<PlainKept>,
    /// The first targets of the rules that were started, in order.
    pub(crate) started: Vec<Spot>,
    pub(crate) is_failed: bool,
    pub(crate) is_cyclic: bool,
    states: Vec<State>,
    project: Project,
    alloc: Global,
}

impl Course {
    /// A run that sets out over these files and records: leftover copies are taken away.
    pub(crate) fn new(
        alloc: Global,
        told: &mut Told,
        project: Project,
        files: Vec<PlainFile>,
        kept: Vec<PlainKept>,
    ) -> Course {
        let mut states = Vec::new(alloc);
        for _ in 0..MOST_STEPS {
            told.keep(&mut states, State::Waiting);
        }
        let mut course = Course {
            files,
            kept,
            started: Vec::new(alloc),
            is_failed: false,
            is_cyclic: false,
            states,
            project,
            alloc,
        };
        for number in 0..MOST_RULES {
            course.take_leftover(number);
        }
        course
    }

    /// Takes a copy and its record away where its source is gone.
    fn take_leftover(&mut self, number: usize) {
        let (path, source) = (copy(number), origin(number));
        let files = self.files.as_slice();
        let stands_alone = file_at(files, &path).is_some() && file_at(files, &source).is_none();
        if self.project.is_copied && stands_alone && self.was_copied(&path, &source) {
            self.withdraw(&path);
        }
    }

    /// Whether the record of a path says that it was copied from a source.
    fn was_copied(&self, path: &Spot, source: &Spot) -> bool {
        match record_at(self.kept.as_slice(), path) {
            Some(record) => match record.dependencies.as_slice() {
                [dependency] => record.work == COPY && dependency.name.is(source),
                _ => false,
            },
            None => false,
        }
    }

    /// Takes away what its rules make, so that sources alone stand.
    pub(crate) fn clear(&mut self, told: &mut Told) {
        for rule in self
            .project
            .plain_rules(self.alloc, told, self.files.as_slice())
        {
            for path in &rule.targets {
                self.withdraw(path);
            }
        }
    }

    /// Goes as far as the run goes. Where it doesn't go on it ends behind the first rule that fails.
    pub(crate) fn run(&mut self, told: &mut Told, requested: &[Spot], goes_on: bool) {
        for _ in 0..MOST_STEPS {
            let rules = self.rules(told);
            let Some(number) = self.next(told, rules.as_slice(), requested) else {
                return;
            };
            match rules.get(number) {
                Some(rule) => self.settle(told, rules.as_slice(), rule),
                None => told.refuse(),
            }
            if self.is_cyclic || (self.is_failed && !goes_on) {
                return;
            }
        }
    }

    /// The first needed rule in the build order that waits.
    fn next(&self, told: &mut Told, rules: &[PlainRule], requested: &[Spot]) -> Option<usize> {
        if !are_numbered(rules) {
            told.refuse();
            return None;
        }
        match build_order(self.alloc, LIMIT, rules, requested) {
            Ok(Some(order)) => {
                for number in order {
                    if self.state(number) == State::Waiting {
                        return Some(number);
                    }
                }
                None
            }
            _ => {
                told.refuse();
                None
            }
        }
    }

    fn state(&self, number: usize) -> State {
        match self.states.get(number) {
            Some(state) => *state,
            None => State::Made,
        }
    }

    fn set_state(&mut self, number: usize, state: State) {
        if let Some(place) = self.states.get_mut(number) {
            *place = state;
        }
    }

    /// The rules, by what the files include whose rules are made or that have none.
    fn rules(&self, told: &mut Told) -> Vec<PlainRule> {
        let files = self.files.as_slice();
        let bare = self.project.plain_rules(self.alloc, told, files);
        let mut rules = Vec::new(self.alloc);
        for rule in self.project.plain_rules(self.alloc, told, files) {
            let mut rule = rule;
            rule.scans = self.scans(told, bare.as_slice());
            told.keep(&mut rules, rule);
        }
        rules
    }

    fn scans(&self, told: &mut Told, rules: &[PlainRule]) -> Vec<Scan> {
        let mut scans = Vec::new(self.alloc);
        for file in &self.files {
            if self.is_ready(rules, &file.path) {
                let includes = self.included(told, rules, file.bytes.as_slice());
                let file = file.path;
                told.keep(&mut scans, Scan { file, includes });
            }
        }
        scans
    }

    /// Whether a file stands as it will behind the run.
    fn is_ready(&self, rules: &[PlainRule], path: &Spot) -> bool {
        match number_of(rules, path) {
            Some(number) => self.state(number) == State::Made,
            None => true,
        }
    }

    /// What a content includes that has a rule or is a file.
    fn included(&self, told: &mut Told, rules: &[PlainRule], bytes: &[u8]) -> Vec<Spot> {
        let mut found = Vec::new(self.alloc);
        for spot in included_in(self.alloc, told, bytes) {
            if self.is_known(rules, &spot) {
                told.keep(&mut found, spot);
            }
        }
        found
    }

    fn is_known(&self, rules: &[PlainRule], path: &Spot) -> bool {
        number_of(rules, path).is_some() || file_at(self.files.as_slice(), path).is_some()
    }

    /// Decides a rule, and makes what it makes.
    fn settle(&mut self, told: &mut Told, rules: &[PlainRule], rule: &PlainRule) {
        let Ok(needed) = needs(self.alloc, LIMIT, rules, rule) else {
            return told.refuse();
        };
        let Ok(paths) = reach(self.alloc, LIMIT, rule) else {
            return told.refuse();
        };
        if needed
            .iter()
            .any(|number| self.state(*number) == State::Waiting)
        {
            self.is_cyclic = true;
        } else if needed
            .iter()
            .any(|number| self.state(*number) != State::Made)
        {
            self.set_state(rule.number, State::Held);
        } else if paths.iter().any(|path| !self.is_known(rules, path)) {
            self.fail(rule.number);
        } else {
            self.decide(told, rule, paths.as_slice());
        }
    }

    fn fail(&mut self, number: usize) {
        self.is_failed = true;
        self.set_state(number, State::Failed);
    }

    /// Starts a rule where it is stale.
    fn decide(&mut self, told: &mut Told, rule: &PlainRule, paths: &[Spot]) {
        let lines = if rule.keeps_sources {
            Vec::new(self.alloc)
        } else {
            lines_of(self.alloc, told, &self.project, rule.number)
        };
        let given = self.given(told, paths);
        let now = record_of(self.alloc, told, rule, lines.as_slice(), given.as_slice());
        if !is_stale(self.files.as_slice(), self.kept.as_slice(), rule, &now) {
            return self.set_state(rule.number, State::Made);
        }
        told.keep(&mut self.started, first_target(rule));
        for path in &rule.targets {
            self.withdraw(path);
        }
        if self.breaks(rule, lines.as_slice(), given.as_slice()) {
            return self.fail(rule.number);
        }
        for path in &rule.targets {
            let bytes = self.made(told, rule, lines.as_slice(), path, given.as_slice());
            self.put(told, path, bytes);
            let record = record_of(self.alloc, told, rule, lines.as_slice(), given.as_slice());
            keep(told, &mut self.kept, *path, record);
        }
        self.set_state(rule.number, State::Made);
    }

    /// Paths, each with the digest of what it holds.
    fn given(&self, told: &mut Told, paths: &[Spot]) -> Vec<(Spot, Option<Text>)> {
        let mut given = Vec::new(self.alloc);
        for path in paths {
            let digest = digest_at(self.alloc, told, self.files.as_slice(), path);
            told.keep(&mut given, (*path, digest));
        }
        given
    }

    /// Takes a file and its record away.
    fn withdraw(&mut self, path: &Spot) {
        self.files.retain(|file| !file.path.is(path));
        self.kept.retain(|place| !place.path.is(path));
    }

    /// Whether the action of a rule fails: by its line, or since it is given a broken source alone.
    fn breaks(&self, rule: &PlainRule, lines: &[Text], given: &[(Spot, Option<Text>)]) -> bool {
        if rule.keeps_sources {
            return false;
        }
        if self.project.broken == rule.number {
            return true;
        }
        match (lines, given) {
            ([_], [(source, _)]) => {
                self.project.changed != rule.number
                    && source.is(&self.project.own_source(rule.number))
                    && self.holds(source, BROKEN.as_bytes())
            }
            _ => false,
        }
    }

    fn holds(&self, path: &Spot, bytes: &[u8]) -> bool {
        match file_at(self.files.as_slice(), path) {
            Some(file) => file.bytes.as_slice() == bytes,
            None => false,
        }
    }

    /// What a rule makes at a path.
    fn made(
        &self,
        told: &mut Told,
        rule: &PlainRule,
        lines: &[Text],
        path: &Spot,
        given: &[(Spot, Option<Text>)],
    ) -> Listing<u8> {
        if let ([source, ..], true) = (rule.sources.as_slice(), rule.keeps_sources) {
            return match file_at(self.files.as_slice(), source) {
                Some(file) => bytes_of(self.alloc, told, file.bytes.as_slice()),
                None => Listing::empty(self.alloc),
            };
        }
        let text = made_text(self.alloc, lines, path, given);
        bytes_of(self.alloc, told, text.as_str().as_bytes())
    }

    fn put(&mut self, told: &mut Told, path: &Spot, bytes: Listing<u8>) {
        put_file(told, &mut self.files, path, bytes);
    }
}

/// Puts a file in place of what stands there.
pub(crate) fn put_file(
    told: &mut Told,
    files: &mut Vec<PlainFile>,
    path: &Spot,
    bytes: Listing<u8>,
) {
    files.retain(|file| !file.path.is(path));
    let file = PlainFile {
        path: *path,
        bytes,
        stamp: 0,
    };
    told.keep(files, file);
}

pub(crate) fn bytes_of(alloc: Global, told: &mut Told, bytes: &[u8]) -> Listing<u8> {
    match Vec::from_slice(alloc, bytes) {
        Ok(bytes) => Listing::new(bytes),
        Err(_) => {
            told.refuse();
            Listing::empty(alloc)
        }
    }
}

/// Copies of files.
pub(crate) fn files_of(alloc: Global, told: &mut Told, files: &[PlainFile]) -> Vec<PlainFile> {
    let mut copies = Vec::new(alloc);
    for file in files {
        let bytes = bytes_of(alloc, told, file.bytes.as_slice());
        put_file(told, &mut copies, &file.path, bytes);
    }
    copies
}

fn first_target(rule: &PlainRule) -> Spot {
    match rule.targets.as_slice() {
        [target, ..] => *target,
        [] => Spot::new(0),
    }
}

/// Whether the same stands at a path in two lists of files.
pub(crate) fn is_alike(a: &[PlainFile], b: &[PlainFile], path: &Spot) -> bool {
    match (file_at(a, path), file_at(b, path)) {
        (Some(a), Some(b)) => a.bytes.as_slice() == b.bytes.as_slice(),
        (None, None) => true,
        _ => false,
    }
}
