//! What goes over a board: a job as it is handed in, and its ending.
ghost use Rattle.std.specs.Prelude.{◌≡◌, ◌↔◌, ◌⊎◌, ◌∷◌, [], IsTrue, MatchOption};

use act_table::SharedTable;
use scons_base::{Listing, PathText, Text};
use std::alloc::Global;
use std::sync::Arc;
use world_api::{Content, Job, Line, Outcome};

/// A job that is handed in. Over a memory world it goes with what its dependencies hold and with the table of actions, over the real
/// one without.
#[derive(Drop)]
pub struct Slip {
    pub job: Job,
    pub given: Option<Listing<Content>>,
    pub table: Option<SharedTable>,
}

/// How the job of a slip ended, with what it made at each target where that is known.
#[derive(Drop)]
pub struct Ending {
    pub slip: Arc<Slip, Global>,
    pub outcome: Outcome,
    pub made: Option<Listing<Content>>,
}

impl Slip {
    /// Whether both are the same job, handed in the same way.
    pub fn is_equal(&self, other: &Slip) -> bool
        ensures { IsTrue result ↔ (self.now ≡ other.now) }
    {
        is_same_job(&self.job, &other.job)
            && is_same_given(&self.given, &other.given)
            && is_same_table(&self.table, &other.table)
    }
}

fn is_same_job(a: &Job, b: &Job) -> bool
    ensures { IsTrue result ↔ (a.now ≡ b.now) }
{
    a.id == b.id
        && a.work == b.work
        && are_same_paths(a.targets.as_slice(), b.targets.as_slice())
        && are_same_lines(a.lines.as_slice(), b.lines.as_slice())
        && are_same_texts(a.signed.as_slice(), b.signed.as_slice())
        && are_same_paths(a.deps.as_slice(), b.deps.as_slice())
}

fn are_same_paths(a: &[PathText], b: &[PathText]) -> bool
    ensures { IsTrue result ↔ (a.now ≡ b.now) }
{
    a == b
}

fn are_same_texts(a: &[Text], b: &[Text]) -> bool
    ensures { IsTrue result ↔ (a.now ≡ b.now) }
{
    a == b
}

fn is_same_given(a: &Option<Listing<Content>>, b: &Option<Listing<Content>>) -> bool
    ensures { IsTrue result ↔ (a.now ≡ b.now) }
{
    match (a, b) {
        (Some(a), Some(b)) => are_same_contents(a.as_slice(), b.as_slice()),
        (None, None) => true,
        (Some(_), None) | (None, Some(_)) => false,
    }
}

fn is_same_table(a: &Option<SharedTable>, b: &Option<SharedTable>) -> bool
    ensures { IsTrue result ↔ (a.now ≡ b.now) }
{
    match (a, b) {
        (Some(a), Some(b)) => a.is_equal(b),
        (None, None) => true,
        (Some(_), None) | (None, Some(_)) => false,
    }
}

fn are_same_contents(a: &[Content], b: &[Content]) -> bool
    ensures { IsTrue result ↔ (a.now ≡ b.now) }
{
    a == b
}

fn are_same_lines(a: &[Line], b: &[Line]) -> bool
    ensures { IsTrue result ↔ (a.now ≡ b.now) }
{
    let (mut xs, mut ys) = (a, b);
    while let Some((x, y, x_rest, y_rest)) = next_pair(xs, ys) {
        if !is_same_line(x, y) {
            return false;
        }
        xs = x_rest;
        ys = y_rest;
    }
    xs.is_empty() && ys.is_empty()
}

fn is_same_line(x: &Line, y: &Line) -> bool
    ensures { IsTrue result ↔ (x.now ≡ y.now) }
{
    is_same_text(&x.text, &y.text) && x.quiet == y.quiet && x.ignore == y.ignore
}

fn is_same_text(x: &Text, y: &Text) -> bool
    ensures { IsTrue result ↔ (x.now ≡ y.now) }
{
    x == y
}

/// The first of each, and what stands behind them.
fn next_pair<'a>(
    xs: &'a [Line],
    ys: &'a [Line],
) -> Option<(&'a Line, &'a Line, &'a [Line], &'a [Line])>
    ensures { MatchOption result ((xs.now ≡ []) ⊎ (ys.now ≡ []))
        (λ next. (xs.now ≡ next.0.now ∷ next.2.now) × (ys.now ≡ next.1.now ∷ next.3.now)) }
{
    let (x, x_rest) = first_of(xs)?;
    let (y, y_rest) = first_of(ys)?;
    Some((x, y, x_rest, y_rest))
}

fn first_of(lines: &[Line]) -> Option<(&Line, &[Line])>
    ensures { MatchOption result (lines.now ≡ []) (λ parts. lines.now ≡ parts.0.now ∷ parts.1.now) }
{
    match lines {
        [first, rest @ ..] => Some((first, rest)),
        [] => None,
    }
}
