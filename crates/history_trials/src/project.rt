//! Random projects: rules that make one or two targets each, and how one needs another.
use crate::names::{MOST_RULES, copy, origin, second, source, target};
use crate::numbers::Numbers;
use model_trials::reach::{PlainDecider, PlainRule};
use model_trials::spots::Spot;
use model_trials::stale::{PlainFile, file_at};
use std::alloc::Global;
use trial_text::Told;

/// How the script says that a rule needs what another one makes.
#[derive(Clone, Copy, PartialEq, Eq)]
pub(crate) enum Need {
    Never,
    Source,
    Depends,
    Requires,
    Ignored,
    /// What the rule makes includes it.
    Emitted,
}

/// What nodes a script names by `Default`.
#[derive(Clone, Copy, PartialEq, Eq)]
pub(crate) enum Defaults {
    Nothing,
    Alias,
    Targets,
}

/// A project. All else follows from its seed.
#[derive(Clone, Copy)]
pub(crate) struct Project {
    pub(crate) rules: usize,
    /// Whether the sources stand in a variant directory with copies.
    pub(crate) is_copied: bool,
    /// The rule whose action fails, if there is one of this number.
    pub(crate) broken: usize,
    /// The rule that has another line than at first.
    pub(crate) changed: usize,
    seed: u64,
}

impl Project {
    pub(crate) fn new(numbers: &mut Numbers) -> Project {
        Project {
            rules: numbers.place(MOST_RULES).wrapping_add(1),
            is_copied: numbers.is_one_in(3),
            broken: MOST_RULES,
            changed: MOST_RULES,
            seed: numbers.next(),
        }
    }

    /// The project after an edit of its script.
    pub(crate) fn edited(&self, numbers: &mut Numbers) -> Project {
        let mut project = *self;
        match numbers.below(6) {
            0 => project.broken = numbers.place(self.rules),
            1 | 2 => project.broken = MOST_RULES,
            3 => project.changed = numbers.place(MOST_RULES.wrapping_add(1)),
            4 => project.seed = numbers.next(),
            _ => project = Project::new(numbers),
        }
        project
    }

    /// A number below another one, by the seed.
    fn roll(&self, what: u64, rule: usize, other: usize, end: u64) -> u64 {
        let place = (rule as u64).wrapping_mul(10).wrapping_add(other as u64);
        let number = what.wrapping_mul(100).wrapping_add(place);
        Numbers::new(self.seed, number).below(end)
    }

    /// Whether rules may need later ones too, so that there are cycles.
    fn is_both_ways(&self) -> bool {
        self.roll(1, 0, 0, 20) == 0
    }

    /// How a rule needs another one.
    pub(crate) fn need(&self, rule: usize, other: usize) -> Need {
        let is_pair = rule != other && rule < self.rules && other < self.rules;
        if !is_pair || (rule < other && !self.is_both_ways()) {
            return Need::Never;
        }
        match self.roll(2, rule, other, 10) {
            0 | 1 => Need::Source,
            2 => Need::Depends,
            3 => Need::Requires,
            4 => Need::Ignored,
            5 => Need::Emitted,
            _ => Need::Never,
        }
    }

    /// Whether a rule has a second target.
    pub(crate) fn has_second(&self, rule: usize) -> bool {
        self.roll(3, rule, 0, 6) == 0
    }

    /// Whether a rule is always built.
    pub(crate) fn is_always(&self, rule: usize) -> bool {
        self.roll(4, rule, 0, 15) == 0
    }

    /// Whether the alias of the script has what a rule makes.
    pub(crate) fn is_in_alias(&self, rule: usize) -> bool {
        rule == 0 || self.roll(5, rule, 0, 3) == 0
    }

    pub(crate) fn defaults(&self) -> Defaults {
        match self.roll(6, 0, 0, 4) {
            0 => Defaults::Alias,
            1 => Defaults::Targets,
            _ => Defaults::Nothing,
        }
    }

    /// Whether a rule's target is named by `Default`.
    pub(crate) fn is_default(&self, rule: usize) -> bool {
        rule == 0 || self.roll(7, rule, 0, 2) == 0
    }

    /// The source that a rule has for itself.
    pub(crate) fn own_source(&self, rule: usize) -> Spot {
        if self.is_copied {
            copy(rule)
        } else {
            source(rule)
        }
    }

    /// The rules, and behind them those of copies, of which nothing is scanned yet.
    pub(crate) fn plain_rules(
        &self,
        alloc: Global,
        told: &mut Told,
        files: &[PlainFile],
    ) -> Vec<PlainRule> {
        let mut rules = Vec::new(alloc);
        for number in 0..self.rules {
            let rule = self.plain_rule(alloc, told, number);
            told.keep(&mut rules, rule);
        }
        if self.is_copied {
            put_copies(alloc, told, files, &mut rules);
        }
        rules
    }

    fn plain_rule(&self, alloc: Global, told: &mut Told, number: usize) -> PlainRule {
        let mut rule = blank_rule(alloc, number);
        told.keep(&mut rule.targets, target(number));
        if self.has_second(number) {
            told.keep(&mut rule.targets, second(number));
        }
        let own = self.own_source(number);
        told.keep(&mut rule.sources, own);
        for spot in self.needed(alloc, told, number, Need::Source) {
            told.keep(&mut rule.sources, spot);
        }
        for spot in &rule.sources {
            told.keep(&mut rule.scanned, *spot);
        }
        rule.depends = self.needed(alloc, told, number, Need::Depends);
        rule.required = self.needed(alloc, told, number, Need::Requires);
        rule.ignored = self.needed(alloc, told, number, Need::Ignored);
        rule.always = self.is_always(number);
        rule
    }

    /// The targets that a rule needs in one way.
    fn needed(&self, alloc: Global, told: &mut Told, rule: usize, way: Need) -> Vec<Spot> {
        let mut spots = Vec::new(alloc);
        for other in 0..self.rules {
            if self.need(rule, other) == way {
                told.keep(&mut spots, target(other));
            }
        }
        spots
    }
}

/// The rules of the copies whose sources are files.
fn put_copies(alloc: Global, told: &mut Told, files: &[PlainFile], rules: &mut Vec<PlainRule>) {
    for number in 0..MOST_RULES {
        if file_at(files, &origin(number)).is_some() {
            let mut rule = blank_rule(alloc, rules.len());
            rule.keeps_sources = true;
            told.keep(&mut rule.targets, copy(number));
            told.keep(&mut rule.sources, origin(number));
            told.keep(rules, rule);
        }
    }
}

fn blank_rule(alloc: Global, number: usize) -> PlainRule {
    PlainRule {
        number,
        keeps_sources: false,
        targets: Vec::new(alloc),
        sources: Vec::new(alloc),
        scanned: Vec::new(alloc),
        depends: Vec::new(alloc),
        libraries: Vec::new(alloc),
        ignored: Vec::new(alloc),
        required: Vec::new(alloc),
        always: false,
        decider: PlainDecider::Content,
        scans: Vec::new(alloc),
    }
}
