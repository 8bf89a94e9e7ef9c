//! A rule of the graph.
ghost use Rattle.std.specs.Prelude.{◌≡◌};
ghost use Rattle.std.specs.List.{find};
ghost use Rattle.std.specs.Cmp.Lexicographic.{pointwise};
ghost use Rattle.rule_graph.specs.Rules.{line_eq, is_same, is_own_source, own_source};

use scons_base::{Listing, NodeId, Paths, Text, Texts};
use world_api::{Decider, Line, Work};

/// How some targets are made of some sources.
#[derive(Drop)]
pub struct Rule {
    pub work: Work,
    pub targets: Listing<NodeId>,
    pub sources: Listing<NodeId>,
    /// Libraries that the rule's environment names.
    pub libs: Listing<NodeId>,
    pub depends: Listing<NodeId>,
    /// What is to be made before, without counting as a dependency.
    pub required: Listing<NodeId>,
    /// What doesn't count as a dependency, wherever it is met.
    pub ignored: Listing<NodeId>,
    pub lines: Listing<Line>,
    /// What of the lines stands in records.
    pub signed: Texts,
    /// The directories in which included files are looked for.
    pub paths: Paths,
    /// Whether sources are scanned for included files.
    pub scans: bool,
    /// Whether the rule is stale in any case.
    pub always: bool,
    pub decider: Decider,
    pub builder: Text,
}

impl Rule {
    /// Whether two rules do the same: they have the same builder, targets, sources, lines, signed lines and search paths.
    pub(crate) fn is_same(&self, other: &Rule) -> bool
        ensures { result ≡ is_same self.now other.now }
    {
        self.builder == other.builder
            && self.targets.as_slice() == other.targets.as_slice()
            && self.sources.as_slice() == other.sources.as_slice()
            && self.signed.as_slice() == other.signed.as_slice()
            && are_same_lines(self.lines.as_slice(), other.lines.as_slice())
            && self.paths.as_slice() == other.paths.as_slice()
    }

    /// The first target that is a source too.
    pub(crate) fn own_source(&self) -> Option<NodeId>
        ensures { result ≡ own_source self.now }
    {
        own_source_of(self.targets.as_slice(), self.sources.as_slice())
    }
}

/// Whether these lines are run and printed alike.
fn are_same_lines(lines: &[Line], others: &[Line]) -> bool
    ensures { result ≡ pointwise line_eq lines.now others.now }
{
    if lines.len() != others.len() {
        return false;
    }
    for place in 0..lines.len() {
        if !is_same_line(&lines[place], &others[place]) {
            return false;
        }
    }
    true
}

fn is_same_line(line: &Line, other: &Line) -> bool
    ensures { result ≡ line_eq line.now other.now }
{
    line.text == other.text && line.quiet == other.quiet && line.ignore == other.ignore
}

fn own_source_of(targets: &[NodeId], sources: &[NodeId]) -> Option<NodeId>
    ensures { result ≡ find (λ t. is_own_source sources.now t) targets.now }
{
    for target in targets {
        if is_own_source(sources, *target) {
            return Some(*target);
        }
    }
    None
}

fn is_own_source(sources: &[NodeId], target: NodeId) -> bool
    ensures { result ≡ is_own_source sources.now target }
{
    sources.iter().any(|source| source.0 == target.0)
}
