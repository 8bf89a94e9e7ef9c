//! The names of dependencies.
ghost use Rattle.std.specs.Prelude.{◌≡◌, ◌<◌, ◌↔◌, length, map, IsTrue, MatchOption};
ghost use Rattle.deciders.specs.Records.{name_of};
ghost use Rattle.explain_report.specs.Reasons.{Somewhere, First, IsNew};

use crate::changes::first_of;
use deciders::{Dep, Rec};

/// The place of the first dependency of a record that is new beside the other's.
pub(crate) fn first_new(other: &Rec, rec: &Rec) -> Option<usize>
    ensures { MatchOption result (¬ (Somewhere (IsNew other.now.deps) rec.now.deps))
        (λ place. First (IsNew other.now.deps) rec.now.deps place) }
{
    first_beside(other.deps.as_slice(), rec.deps.as_slice())
}

fn first_beside(others: &[Dep], deps: &[Dep]) -> Option<usize>
    ensures { MatchOption result (¬ (Somewhere (IsNew others.now) deps.now))
        (λ place. First (IsNew others.now) deps.now place) }
{
    let mut rest = deps;
    let mut place = 0;
    // names that stand one behind the other in both are found without a search
    let mut expected = 0;
    while let Some((dep, behind)) = first_of(rest) {
        match place_from(dep, expected, others) {
            Some(found) => expected = found + 1,
            None => return Some(place),
        }
        rest = behind;
        place += 1;
    }
    None
}

/// The place of a dependency of this name, first looked for where it is expected.
fn place_from(dep: &Dep, expected: usize, others: &[Dep]) -> Option<usize>
    ensures { MatchOption result (IsNew others.now dep.now)
        (λ place. (¬ (IsNew others.now dep.now)) × (place < length others.now)) }
{
    match others.get(expected) {
        Some(other) if is_same_name(dep, other) => Some(expected),
        _ => place_among(dep, others),
    }
}

fn place_among(dep: &Dep, others: &[Dep]) -> Option<usize>
    ensures { MatchOption result (IsNew others.now dep.now)
        (λ place. (¬ (IsNew others.now dep.now)) × (place < length others.now)) }
{
    let mut rest = others;
    let mut place = 0;
    while let [other, behind @ ..] = rest {
        if is_same_name(dep, other) {
            return Some(place);
        }
        rest = behind;
        place += 1;
    }
    None
}

fn is_same_name(a: &Dep, b: &Dep) -> bool
    ensures { IsTrue result ↔ (a.now.name ≡ b.now.name) }
{
    a.name == b.name
}

/// Whether two records have the same names in the same order.
pub(crate) fn have_same_names(a: &Rec, b: &Rec) -> bool
    ensures { IsTrue result ↔ (map name_of a.now.deps ≡ map name_of b.now.deps) }
{
    are_same_names(a.deps.as_slice(), b.deps.as_slice())
}

fn are_same_names(a: &[Dep], b: &[Dep]) -> bool
    ensures { IsTrue result ↔ (map name_of a.now ≡ map name_of b.now) }
{
    let (mut xs, mut ys) = (a, b);
    while let ([x, x_rest @ ..], [y, y_rest @ ..]) = (xs, ys) {
        if !is_same_name(x, y) {
            return false;
        }
        xs = x_rest;
        ys = y_rest;
    }
    xs.is_empty() && ys.is_empty()
}
