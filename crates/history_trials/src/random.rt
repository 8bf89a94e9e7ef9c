//! Random histories: small projects, each taken through edits, removals, runs and stops, and each run compared with what the slow
//! functions say of it.
use crate::asked::Asked;
use crate::begun::{SCRIPT, first_files};
use crate::course::{Course, bytes_of, files_of, put_file};
use crate::events::put_event;
use crate::judged::{
    Standing, Wrong, check_apart, check_clean, check_exact, check_left, check_untouched,
    check_within,
};
use crate::kept::kept_of;
use crate::names::{MOST_RULES, NAMES, name_of, origin, source};
use crate::numbers::Numbers;
use crate::project::Project;
use crate::seen::{Seen, look, plain_files};
use crate::texts::{script_of, source_text};
use build_history::Event;
use model_trials::spots::Spot;
use model_trials::stale::{PlainFile, PlainKept};
use scons_base::{Blob, PathText};
use std::alloc::Global;
use trial_text::Told;

/// How much was tried, by what was generated.
#[derive(Clone, Copy)]
struct Tally {
    runs: u64,
    /// Runs that the slow functions let end with status 0.
    clean: u64,
    stops: u64,
    edits: u64,
    removals: u64,
}

/// A history under way: what was done, and what stands by now.
#[derive(Drop)]
struct Trial {
    seed: u64,
    number: u64,
    numbers: Numbers,
    project: Project,
    events: Vec<Event>,
    files: Vec<PlainFile>,
    kept: Vec<PlainKept>,
    /// How many jobs were started since the last stop, and how many runs ended.
    jobs: usize,
    reports: usize,
    tally: Tally,
    alloc: Global,
}

/// Takes so many histories of a seed, and tells how much was tried, or what is wrong: `SEED NUMBER`.
pub(crate) fn put_random(alloc: Global, told: &mut Told, rest: &str) {
    let mut fields = rest.split_whitespace();
    let seed = u64::from(told.number(fields.next().unwrap_or("")));
    let count = u64::from(told.number(fields.next().unwrap_or("")));
    let mut tally = Tally {
        runs: 0,
        clean: 0,
        stops: 0,
        edits: 0,
        removals: 0,
    };
    for number in 0..count {
        let Some(mut trial) = Trial::new(alloc, told, seed, number, tally) else {
            return told.refuse();
        };
        if let Some(wrong) = trial.run(told) {
            return trial.put_wrong(told, wrong);
        }
        tally = trial.tally;
    }
    put_tally(told, count, &tally);
}

fn put_tally(told: &mut Told, count: u64, tally: &Tally) {
    told.show(count);
    told.put(" histories: ");
    told.show(tally.edits);
    told.put(" edits, ");
    told.show(tally.removals);
    told.put(" removals, ");
    told.show(tally.runs);
    told.put(" runs, of which ");
    told.show(tally.clean);
    told.put(" with status 0, ");
    told.show(tally.stops);
    told.put(" stops, none wrong\n");
}

impl Trial {
    fn new(alloc: Global, told: &mut Told, seed: u64, number: u64, tally: Tally) -> Option<Trial> {
        let mut numbers = Numbers::new(seed, number);
        let project = Project::new(&mut numbers);
        let first = first_files(alloc, told, &mut numbers, &project);
        let files = plain_files(alloc, told, first.as_slice())?;
        // What follows doesn't hang on what the world began with.
        let numbers = Numbers::new(seed.wrapping_add(1), number);
        Some(Trial {
            seed,
            number,
            numbers,
            project,
            events: Vec::new(alloc),
            files,
            kept: Vec::new(alloc),
            jobs: 0,
            reports: 0,
            tally,
            alloc,
        })
    }

    /// Three to ten events, the last of which is a run.
    fn run(&mut self, told: &mut Told) -> Wrong {
        let events = self.numbers.below(8).wrapping_add(2);
        for _ in 0..events {
            let wrong = self.step(told);
            if wrong.is_some() || told.is_refused() {
                return wrong;
            }
        }
        self.build(told)
    }

    fn step(&mut self, told: &mut Told) -> Wrong {
        match self.numbers.below(10) {
            0..=4 => self.build(told),
            5 => self.stop(told),
            6 | 7 => self.edit_source(told),
            8 => self.edit_script(told),
            _ => self.remove(told),
        }
    }

    /// Gives a source another text.
    fn edit_source(&mut self, told: &mut Told) -> Wrong {
        let number = self.numbers.place(MOST_RULES);
        let text = source_text(self.alloc, &mut self.numbers, number);
        let path = if self.numbers.is_one_in(2) {
            source(number)
        } else {
            origin(number)
        };
        let bytes = bytes_of(self.alloc, told, text.as_str().as_bytes());
        put_file(told, &mut self.files, &path, bytes);
        self.edit(told, name_of(&path), &text);
        None
    }

    fn edit_script(&mut self, told: &mut Told) -> Wrong {
        self.project = self.project.edited(&mut self.numbers);
        let text = script_of(self.alloc, &self.project);
        self.edit(told, SCRIPT, &text);
        None
    }

    fn edit(&mut self, told: &mut Told, name: &str, text: &Told) {
        self.tally.edits = self.tally.edits.wrapping_add(1);
        let bytes = text.as_str().as_bytes();
        match (
            PathText::read(self.alloc, name),
            Blob::of(self.alloc, bytes),
        ) {
            (Ok(path), Ok(content)) => {
                let event = Event::Edit(path, content);
                told.keep(&mut self.events, event);
            }
            _ => told.refuse(),
        }
    }

    /// Takes a source away, or what a rule made.
    fn remove(&mut self, told: &mut Told) -> Wrong {
        self.tally.removals = self.tally.removals.wrapping_add(1);
        let Some((letter, name)) = NAMES.get(self.numbers.place(NAMES.len())) else {
            return None;
        };
        let spot = Spot::new(*letter);
        self.files.retain(|file| !file.path.is(&spot));
        match PathText::read(self.alloc, name) {
            Ok(path) => {
                let event = Event::Delete(path);
                told.keep(&mut self.events, event);
            }
            Err(_) => told.refuse(),
        }
        None
    }

    /// Runs the command, and compares.
    fn build(&mut self, told: &mut Told) -> Wrong {
        self.tally.runs = self.tally.runs.wrapping_add(1);
        let asked = Asked::new(&mut self.numbers);
        let words = asked.words(self.alloc, told);
        told.keep(&mut self.events, Event::Build(words));
        let Some(seen) = self.look(told) else {
            return Some("the history is refused, or tells of something else");
        };
        let wrong = self.judge(told, &asked, &seen);
        self.reports = self.reports.wrapping_add(1);
        self.jobs = seen.started.len();
        self.go_on(seen);
        wrong
    }

    /// Runs the command and stops it, and compares.
    fn stop(&mut self, told: &mut Told) -> Wrong {
        self.tally.stops = self.tally.stops.wrapping_add(1);
        let asked = Asked::new(&mut self.numbers);
        let words = asked.words(self.alloc, told);
        let calls = u32::try_from(self.numbers.below(120)).unwrap_or(0);
        let pick = u32::try_from(self.numbers.below(16)).unwrap_or(0);
        told.keep(&mut self.events, Event::Stopped(words, calls, pick));
        let Some(seen) = self.look(told) else {
            return Some("the history is refused, or tells of something else");
        };
        let wrong = self.judge_stop(told, &asked, &seen);
        self.jobs = 0;
        self.go_on(seen);
        wrong
    }

    /// What is seen behind the last event, where before it stood what was to.
    fn look(&self, told: &mut Told) -> Option<Seen> {
        let events = self.events.as_slice();
        let seen = look(self.alloc, told, self.seed, self.number, events)?;
        let script = script_of(self.alloc, &self.project);
        if seen.script.as_slice() != script.as_str().as_bytes() {
            return None;
        }
        if let Some(before) = &seen.before {
            let stood = stand_of(before.as_slice(), &[]);
            if check_untouched(stand_of(self.files.as_slice(), &[]), stood, &[]).is_some() {
                return None;
            }
        }
        Some(seen)
    }

    fn go_on(&mut self, seen: Seen) {
        let Seen { files, kept, .. } = seen;
        self.files = files;
        self.kept = kept;
    }

    /// A run that sets out.
    fn outset(&self, told: &mut Told) -> Course {
        let files = files_of(self.alloc, told, self.files.as_slice());
        let kept = kept_of(self.alloc, told, self.kept.as_slice());
        Course::new(self.alloc, told, self.project, files, kept)
    }

    /// What a run has to do, as far as it goes.
    fn course(&self, told: &mut Told, requested: &[Spot], goes_on: bool) -> Course {
        let mut course = self.outset(told);
        course.run(told, requested, goes_on);
        course
    }

    /// Compares what a run with status 0 left with a build from sources alone.
    fn judge_clean(&self, told: &mut Told, requested: &[Spot], seen: &Seen) -> Wrong {
        let mut clean = self.outset(told);
        clean.clear(told);
        clean.run(told, requested, true);
        check_clean(&clean, seen.stands())
    }

    fn judge(&mut self, told: &mut Told, asked: &Asked, seen: &Seen) -> Wrong {
        if seen.reports != self.reports.wrapping_add(1) {
            return Some("a report is missing");
        }
        let Some(started) = seen.started.as_slice().get(self.jobs..) else {
            return Some("a job was forgotten");
        };
        let files = self.files.as_slice();
        let Some(requested) = asked.requested(self.alloc, told, &self.project, files) else {
            if seen.status != Some(2) {
                return Some("an unknown word has another status");
            }
            return check_untouched(self.stands(), seen.stands(), started);
        };
        let course = self.course(told, requested.as_slice(), true);
        let is_faulty = course.is_failed || course.is_cyclic;
        if seen.status != Some(if is_faulty { 2 } else { 0 }) {
            return Some("the status is another one");
        }
        if !is_faulty {
            self.tally.clean = self.tally.clean.wrapping_add(1);
            let wrong = self.judge_clean(told, requested.as_slice(), seen);
            if wrong.is_some() {
                return wrong;
            }
        }
        self.compare(told, asked, &course, requested.as_slice(), seen, started)
    }

    fn compare(
        &self,
        told: &mut Told,
        asked: &Asked,
        course: &Course,
        requested: &[Spot],
        seen: &Seen,
        started: &[Spot],
    ) -> Wrong {
        if course.is_cyclic {
            return check_apart(self.stands(), seen.stands(), started);
        }
        let in_order = asked.jobs == 1;
        if asked.goes_on || !course.is_failed {
            return check_exact(course, seen.stands(), started, in_order);
        }
        if in_order {
            let short = self.course(told, requested, false);
            return check_exact(&short, seen.stands(), started, true);
        }
        let outset = self.outset(told);
        let before = stand_of(outset.files.as_slice(), outset.kept.as_slice());
        check_within(course, before, seen.stands(), started)
    }

    fn judge_stop(&self, told: &mut Told, asked: &Asked, seen: &Seen) -> Wrong {
        if seen.reports != self.reports {
            return Some("a stopped run has a report");
        }
        let files = self.files.as_slice();
        let Some(requested) = asked.requested(self.alloc, told, &self.project, files) else {
            return check_untouched(self.stands(), seen.stands(), &[]);
        };
        let course = self.course(told, requested.as_slice(), true);
        if course.is_cyclic {
            return check_apart(self.stands(), seen.stands(), &[]);
        }
        check_left(&course, self.stands(), seen.stands())
    }

    fn stands(&self) -> Standing<'_> {
        stand_of(self.files.as_slice(), self.kept.as_slice())
    }

    /// Tells what is wrong, and behind which events, as rows.
    fn put_wrong(&self, told: &mut Told, wrong: &str) {
        told.put("history ");
        told.show(self.number);
        told.put_all(&[": ", wrong, "\n"]);
        let mut numbers = Numbers::new(self.seed, self.number);
        let project = Project::new(&mut numbers);
        for (path, bytes) in first_files(self.alloc, told, &mut numbers, &project) {
            put_event(self.alloc, told, &Event::Edit(path, bytes));
        }
        for event in &self.events {
            put_event(self.alloc, told, event);
        }
    }
}

impl Seen {
    fn stands(&self) -> Standing<'_> {
        stand_of(self.files.as_slice(), self.kept.as_slice())
    }
}

fn stand_of<'a>(files: &'a [PlainFile], kept: &'a [PlainKept]) -> Standing<'a> {
    Standing { files, kept }
}
