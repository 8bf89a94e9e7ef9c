//! Whether a rule's record is still the one of now.
ghost use Rattle.std.specs.Prelude.{◌≡◌, ◌⊎◌, ◌↔◌, ℕ, false, [], ◌∷◌, map, Any, IsTrue, MatchOption};
ghost use Rattle.std.specs.List.{zip};
ghost use Rattle.deciders.specs.Records.{name_of};
ghost use Rattle.deciders.specs.Changes.{HasChanged, IsSameAction, IsAfter, DiffersInBoth, stamp_of};

use crate::recorded::{Dep, Rec};
use scons_base::{PathText, Text};
use world_api::Decider;

/// Whether two records are one.
pub fn same(a: &Rec, b: &Rec) -> bool
    ensures { IsTrue result ↔ (a.now ≡ b.now) }
{
    a.work == b.work
        && a.hash == b.hash
        && same_paths(a.targets.as_slice(), b.targets.as_slice())
        && same_texts(a.signed.as_slice(), b.signed.as_slice())
        && same_deps(a.deps.as_slice(), b.deps.as_slice())
}

/// Whether the record of now says that the rule has changed, as this decider tells. `target` is the time of change of
/// the first target, if it is a file.
pub fn changed(decider: Decider, old: &Rec, now: &Rec, target: Option<u64>) -> bool
    ensures { IsTrue result ↔ HasChanged decider old.now now.now target }
{
    let (before, after) = (old.deps.as_slice(), now.deps.as_slice());
    match decider {
        Decider::Content => !same(now, old),
        Decider::Newer => !same_action(old, now) || any_after(after, target),
        Decider::Match => !same_action(old, now) || !same_stamps(after, before),
        Decider::ContentMatch => !same_action(old, now) || any_differs(before, after),
    }
}

fn same_action(old: &Rec, now: &Rec) -> bool
    ensures { IsTrue result ↔ IsSameAction old.now now.now }
{
    now.work == old.work
        && now.hash == old.hash
        && same_paths(now.targets.as_slice(), old.targets.as_slice())
        && same_texts(now.signed.as_slice(), old.signed.as_slice())
        && same_names(now.deps.as_slice(), old.deps.as_slice())
}

fn same_paths(a: &[PathText], b: &[PathText]) -> bool
    ensures { IsTrue result ↔ (a.now ≡ b.now) }
{
    a == b
}

fn same_texts(a: &[Text], b: &[Text]) -> bool
    ensures { IsTrue result ↔ (a.now ≡ b.now) }
{
    a == b
}

fn same_deps(a: &[Dep], b: &[Dep]) -> bool
    ensures { IsTrue result ↔ (a.now ≡ b.now) }
{
    let (mut xs, mut ys) = (a, b);
    while let Some((x, y, x_rest, y_rest)) = next_pair(xs, ys) {
        if is_other(x, y) {
            return false;
        }
        xs = x_rest;
        ys = y_rest;
    }
    xs.is_empty() && ys.is_empty()
}

fn is_other(x: &Dep, y: &Dep) -> bool
    ensures { (result ≡ false) ↔ (x.now ≡ y.now) }
{
    !same_name(x, y) || x.digest != y.digest || x.stamp != y.stamp
}

fn same_names(a: &[Dep], b: &[Dep]) -> bool
    ensures { IsTrue result ↔ (map name_of a.now ≡ map name_of b.now) }
{
    let (mut xs, mut ys) = (a, b);
    while let ([x, x_rest @ ..], [y, y_rest @ ..]) = (xs, ys) {
        if !same_name(x, y) {
            return false;
        }
        xs = x_rest;
        ys = y_rest;
    }
    xs.is_empty() && ys.is_empty()
}

fn same_name(x: &Dep, y: &Dep) -> bool
    ensures { IsTrue result ↔ (x.now.name ≡ y.now.name) }
{
    x.name == y.name
}

fn same_stamps(a: &[Dep], b: &[Dep]) -> bool
    ensures { IsTrue result ↔ (map stamp_of a.now ≡ map stamp_of b.now) }
{
    let (mut xs, mut ys) = (a, b);
    while let ([x, x_rest @ ..], [y, y_rest @ ..]) = (xs, ys) {
        if x.stamp != y.stamp {
            return false;
        }
        xs = x_rest;
        ys = y_rest;
    }
    xs.is_empty() && ys.is_empty()
}

fn any_after(deps: &[Dep], target: Option<u64>) -> bool
    ensures { IsTrue result ↔ Any (λ dep. IsAfter target dep.stamp) deps.now }
{
    deps.iter().any(|dep| is_after(target, dep.stamp))
}

fn is_after(target: Option<u64>, stamp: Option<u64>) -> bool
    ensures { IsTrue result ↔ IsAfter target stamp }
{
    match (target, stamp) {
        (Some(target), Some(stamp)) => target < stamp,
        _ => false,
    }
}

fn any_differs(old: &[Dep], now: &[Dep]) -> bool
    ensures { IsTrue result ↔ Any DiffersInBoth (zip old.now now.now) }
{
    let (mut xs, mut ys) = (old, now);
    while let Some((x, y, x_rest, y_rest)) = next_pair(xs, ys) {
        if differs_in_both(x, y) {
            return true;
        }
        xs = x_rest;
        ys = y_rest;
    }
    false
}

fn differs_in_both(old: &Dep, now: &Dep) -> bool
    ensures { IsTrue result ↔ DiffersInBoth (old.now, now.now) }
{
    old.stamp != now.stamp && old.digest != now.digest
}

/// The first of each, and what stands behind them.
fn next_pair<'a>(xs: &'a [Dep], ys: &'a [Dep]) -> Option<(&'a Dep, &'a Dep, &'a [Dep], &'a [Dep])>
    ensures { MatchOption result ((xs.now ≡ []) ⊎ (ys.now ≡ []))
        (λ next. (xs.now ≡ next.0.now ∷ next.2.now) × (ys.now ≡ next.1.now ∷ next.3.now)) }
{
    let (x, x_rest) = first_of(xs)?;
    let (y, y_rest) = first_of(ys)?;
    Some((x, y, x_rest, y_rest))
}

fn first_of(deps: &[Dep]) -> Option<(&Dep, &[Dep])>
    ensures { MatchOption result (deps.now ≡ []) (λ parts. deps.now ≡ parts.0.now ∷ parts.1.now) }
{
    match deps {
        [first, rest @ ..] => Some((first, rest)),
        [] => None,
    }
}
