//! What has changed between a recorded dependency and the one of now.
ghost use Rattle.std.specs.Prelude.{◌≡◌, ◌⊎◌, ◌↔◌, [], ◌∷◌, IsTrue, MatchOption};
ghost use Rattle.std.specs.List.{zip};
ghost use Rattle.deciders.specs.Changes.{IsAfter};
ghost use Rattle.explain_report.specs.Reasons.{Somewhere, First, Differs, IsSameWork};

use deciders::{Dep, Rec};
use scons_base::{PathText, Text};
use world_api::Decider;

/// Whether two records are of the same action, by the same function of digests.
pub(crate) fn is_same_work(old: &Rec, now: &Rec) -> bool
    ensures { IsTrue result ↔ IsSameWork old.now now.now }
{
    now.work == old.work
        && now.hash == old.hash
        && same_paths(now.targets.as_slice(), old.targets.as_slice())
        && same_texts(now.signed.as_slice(), old.signed.as_slice())
}

fn same_paths(a: &[PathText], b: &[PathText]) -> bool
    ensures { IsTrue result ↔ (a.now ≡ b.now) }
{
    a == b
}

fn same_texts(a: &[Text], b: &[Text]) -> bool
    ensures { IsTrue result ↔ (a.now ≡ b.now) }
{
    a == b
}

/// The place of the first dependency that the decider calls changed, where both records name the same in one order.
pub(crate) fn first_changed(
    decider: Decider,
    stamp: Option<u64>,
    old: &Rec,
    now: &Rec,
) -> Option<usize>
    ensures { MatchOption result (¬ (Somewhere (Differs decider stamp) (zip old.now.deps now.now.deps)))
        (λ place. First (Differs decider stamp) (zip old.now.deps now.now.deps) place) }
{
    first_of_pairs(decider, stamp, old.deps.as_slice(), now.deps.as_slice())
}

fn first_of_pairs(decider: Decider, stamp: Option<u64>, old: &[Dep], now: &[Dep]) -> Option<usize>
    ensures { MatchOption result (¬ (Somewhere (Differs decider stamp) (zip old.now now.now)))
        (λ place. First (Differs decider stamp) (zip old.now now.now) place) }
{
    let (mut xs, mut ys) = (old, now);
    let mut place = 0;
    while let Some((x, y, x_rest, y_rest)) = next_pair(xs, ys) {
        if differs(decider, stamp, x, y) {
            return Some(place);
        }
        xs = x_rest;
        ys = y_rest;
        place += 1;
    }
    None
}

fn differs(decider: Decider, stamp: Option<u64>, old: &Dep, now: &Dep) -> bool
    ensures { IsTrue result ↔ Differs decider stamp (old.now, now.now) }
{
    match decider {
        Decider::Content => old.digest != now.digest || old.stamp.is_some(),
        Decider::Newer => is_after(stamp, now.stamp),
        Decider::Match => old.stamp != now.stamp,
        Decider::ContentMatch => old.stamp != now.stamp && old.digest != now.digest,
    }
}

fn is_after(target: Option<u64>, stamp: Option<u64>) -> bool
    ensures { IsTrue result ↔ IsAfter target stamp }
{
    match (target, stamp) {
        (Some(target), Some(stamp)) => target < stamp,
        _ => false,
    }
}

/// The first of each, and what stands behind them.
fn next_pair<'a>(xs: &'a [Dep], ys: &'a [Dep]) -> Option<(&'a Dep, &'a Dep, &'a [Dep], &'a [Dep])>
    ensures { MatchOption result ((xs.now ≡ []) ⊎ (ys.now ≡ []))
        (λ next. (xs.now ≡ next.0.now ∷ next.2.now) × (ys.now ≡ next.1.now ∷ next.3.now)) }
{
    let (x, x_rest) = first_of(xs)?;
    let (y, y_rest) = first_of(ys)?;
    Some((x, y, x_rest, y_rest))
}

pub(crate) fn first_of(deps: &[Dep]) -> Option<(&Dep, &[Dep])>
    ensures { MatchOption result (deps.now ≡ []) (λ parts. deps.now ≡ parts.0.now ∷ parts.1.now) }
{
    match deps {
        [first, rest @ ..] => Some((first, rest)),
        [] => None,
    }
}
