//! Small graphs, each by its number: rules that make one target each, and how one needs another.
use model_trials::reach::{PlainDecider, PlainRule};
use model_trials::spots::Spot;
use std::alloc::Global;
use trial_text::Told;

/// No graph here has more rules.
pub(crate) const MOST_RULES: usize = 4;

/// How a rule needs what another one makes.
#[derive(Clone, Copy, PartialEq, Eq)]
pub(crate) enum Need {
    Never,
    Source,
    Depends,
    Requires,
    /// The rule's own source file includes it.
    Found,
    /// The rule's own source file includes it, and the rule ignores it.
    Ignored,
    /// What the rule makes includes it.
    Emitted,
}

/// Each way, in the order of their digits.
const NEEDS: [Need; 7] = [
    Need::Never,
    Need::Source,
    Need::Depends,
    Need::Requires,
    Need::Found,
    Need::Ignored,
    Need::Emitted,
];

/// What the graphs of a row have in common.
#[derive(Clone, Copy)]
pub(crate) struct Shape {
    pub(crate) rules: usize,
    /// How many of the ways to need another rule there are.
    pub(crate) ways: u64,
    /// Whether rules may need later ones too, so that there are cycles.
    pub(crate) both: bool,
    /// Whether the sources stand in a variant directory with copies.
    pub(crate) copied: bool,
}

/// A graph of a shape.
#[derive(Clone, Copy)]
pub(crate) struct Small {
    pub(crate) shape: Shape,
    pub(crate) number: u64,
}

impl Shape {
    /// How many graphs there are.
    pub(crate) fn graphs(&self) -> u64 {
        let mut graphs: u64 = 1;
        for rule in 0..self.rules {
            for other in 0..self.rules {
                if self.has_pair(rule, other) {
                    graphs = graphs.saturating_mul(self.ways);
                }
            }
        }
        graphs
    }

    /// Whether a rule may need another one.
    fn has_pair(&self, rule: usize, other: usize) -> bool {
        rule != other && (self.both || other < rule)
    }
}

impl Small {
    /// How a rule needs another one: a digit of the number.
    pub(crate) fn need(&self, rule: usize, other: usize) -> Need {
        if !self.shape.has_pair(rule, other) {
            return Need::Never;
        }
        let ways = self.shape.ways.max(1);
        let mut rest = self.number;
        for _ in 0..self.pairs_before(rule, other) {
            rest /= ways;
        }
        match NEEDS.get((rest % ways) as usize) {
            Some(need) => *need,
            None => Need::Never,
        }
    }

    /// How many pairs of rules stand before this one.
    fn pairs_before(&self, rule: usize, other: usize) -> usize {
        let mut pairs: usize = 0;
        for first in 0..self.shape.rules {
            for second in 0..self.shape.rules {
                let is_before = first < rule || (first == rule && second < other);
                if is_before && self.shape.has_pair(first, second) {
                    pairs = pairs.wrapping_add(1);
                }
            }
        }
        pairs
    }

    /// The rules that a rule needs in one of two ways, as paths of their targets.
    fn needed(&self, alloc: Global, told: &mut Told, rule: usize, way: Need) -> Vec<Spot> {
        let mut spots = Vec::new(alloc);
        for other in 0..self.shape.rules {
            if self.need(rule, other) == way {
                told.keep(&mut spots, target(other));
            }
        }
        spots
    }

    /// A rule as plain lists, of which nothing is scanned yet.
    pub(crate) fn plain_rule(&self, alloc: Global, told: &mut Told, number: usize) -> PlainRule {
        let mut rule = blank_rule(alloc, number);
        told.keep(&mut rule.targets, target(number));
        told.keep(&mut rule.sources, source(number));
        for spot in self.needed(alloc, told, number, Need::Source) {
            told.keep(&mut rule.sources, spot);
        }
        for spot in &rule.sources {
            told.keep(&mut rule.scanned, *spot);
        }
        rule.depends = self.needed(alloc, told, number, Need::Depends);
        rule.required = self.needed(alloc, told, number, Need::Requires);
        rule.ignored = self.needed(alloc, told, number, Need::Ignored);
        rule
    }

    /// The rule that copies the source of a rule.
    pub(crate) fn copy_rule(&self, alloc: Global, told: &mut Told, number: usize) -> PlainRule {
        let mut rule = blank_rule(alloc, self.shape.rules.wrapping_add(number));
        rule.keeps_sources = true;
        told.keep(&mut rule.targets, source(number));
        told.keep(&mut rule.sources, origin(number));
        rule
    }
}

fn blank_rule(alloc: Global, number: usize) -> PlainRule {
    PlainRule {
        number,
        keeps_sources: false,
        targets: Vec::new(alloc),
        sources: Vec::new(alloc),
        scanned: Vec::new(alloc),
        depends: Vec::new(alloc),
        libraries: Vec::new(alloc),
        ignored: Vec::new(alloc),
        required: Vec::new(alloc),
        always: false,
        decider: PlainDecider::Content,
        scans: Vec::new(alloc),
    }
}

/// What a rule makes.
pub(crate) fn target(number: usize) -> Spot {
    spot(b'A', number)
}

/// The source that a rule has for itself.
pub(crate) fn source(number: usize) -> Spot {
    spot(b'a', number)
}

/// What that source is a copy of, where it stands in a variant directory.
fn origin(number: usize) -> Spot {
    spot(b'p', number)
}

fn spot(first: u8, number: usize) -> Spot {
    match u8::try_from(number) {
        Ok(number) => Spot::new(first.wrapping_add(number)),
        Err(_) => Spot::new(first),
    }
}

/// The name of a path.
pub(crate) fn name_of(copied: bool, spot: &Spot) -> &'static str {
    match spot.letter() {
        b'A' => "t0.h",
        b'B' => "t1.h",
        b'C' => "t2.h",
        b'D' => "t3.h",
        b'p' => "src/s0.h",
        b'q' => "src/s1.h",
        b'r' => "src/s2.h",
        b's' => "src/s3.h",
        letter => source_name(copied, letter),
    }
}

fn source_name(copied: bool, letter: u8) -> &'static str {
    match (letter, copied) {
        (b'a', false) => "s0.h",
        (b'b', false) => "s1.h",
        (b'c', false) => "s2.h",
        (_, false) => "s3.h",
        (b'a', true) => "v/s0.h",
        (b'b', true) => "v/s1.h",
        (b'c', true) => "v/s2.h",
        (_, true) => "v/s3.h",
    }
}

/// Where the text of a rule's own source stands.
pub(crate) fn source_file(copied: bool, number: usize) -> &'static str {
    if copied {
        name_of(true, &origin(number))
    } else {
        name_of(false, &source(number))
    }
}
