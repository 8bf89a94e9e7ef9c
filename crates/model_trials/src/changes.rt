//! Records of rules, and whether a rule has changed since its record was kept, slowly: by the definitions of `build_model`.
ghost use Rattle.std.specs.Prelude.{◌≡◌, ◌≢◌, ◌⊎◌, ◌∷◌, ◌↔◌, [], map, Any, IsTrue, MatchOption};
ghost use Rattle.build_model.specs.Stale.{HasChanged, HasNewer, IsAfter, IsSameAction, DiffersInBoth};
ghost use Rattle.model_trials.specs.Plain.{decider_of};
ghost use Rattle.model_trials.specs.Staling.{as_dependency, as_record, names_of, digests_of, stamps_in};

use crate::reach::PlainDecider;
use crate::spots::Spot;
use scons_base::Text;

/// What a record says of a dependency.
#[derive(Drop)]
pub struct PlainDependency {
    pub name: Spot,
    pub digest: Option<Text>,
    pub stamp: Option<u64>,
}

/// What is kept of a rule that was carried out.
#[derive(Drop)]
pub struct PlainRecord {
    pub work: usize,
    /// By which function its digests were made.
    pub hash: usize,
    pub signed: Vec<Text>,
    pub targets: Vec<Spot>,
    pub dependencies: Vec<PlainDependency>,
}

fn same_name(x: &PlainDependency, y: &PlainDependency) -> bool
    ensures { IsTrue result ↔ (x.now.name ≡ y.now.name) }
{
    x.name == y.name
}

fn same_digest(x: &PlainDependency, y: &PlainDependency) -> bool
    ensures { IsTrue result ↔ (x.now.digest ≡ y.now.digest) }
{
    x.digest == y.digest
}

fn same_names(a: &[PlainDependency], b: &[PlainDependency]) -> bool
    ensures { IsTrue result ↔ (names_of a.now ≡ names_of b.now) }
{
    let (mut xs, mut ys) = (a, b);
    while let ([x, x_rest @ ..], [y, y_rest @ ..]) = (xs, ys) {
        if !same_name(x, y) {
            return false;
        }
        xs = x_rest;
        ys = y_rest;
    }
    xs.is_empty() && ys.is_empty()
}

fn same_digests(a: &[PlainDependency], b: &[PlainDependency]) -> bool
    ensures { IsTrue result ↔ (digests_of a.now ≡ digests_of b.now) }
{
    let (mut xs, mut ys) = (a, b);
    while let ([x, x_rest @ ..], [y, y_rest @ ..]) = (xs, ys) {
        if !same_digest(x, y) {
            return false;
        }
        xs = x_rest;
        ys = y_rest;
    }
    xs.is_empty() && ys.is_empty()
}

fn same_stamps(a: &[PlainDependency], b: &[PlainDependency]) -> bool
    ensures { IsTrue result ↔ (stamps_in a.now ≡ stamps_in b.now) }
{
    let (mut xs, mut ys) = (a, b);
    while let ([x, x_rest @ ..], [y, y_rest @ ..]) = (xs, ys) {
        if x.stamp != y.stamp {
            return false;
        }
        xs = x_rest;
        ys = y_rest;
    }
    xs.is_empty() && ys.is_empty()
}

fn same_texts(a: &[Text], b: &[Text]) -> bool
    ensures { IsTrue result ↔ (a.now ≡ b.now) }
{
    a == b
}

fn same_paths(a: &[Spot], b: &[Spot]) -> bool
    ensures { IsTrue result ↔ (a.now ≡ b.now) }
{
    a == b
}

/// Whether two records have the same action, on dependencies of the same names in the same order.
fn is_same_action(old: &PlainRecord, now: &PlainRecord) -> bool
    ensures { IsTrue result ↔ IsSameAction (as_record old.now) (as_record now.now) }
{
    now.work == old.work
        && now.hash == old.hash
        && same_texts(now.signed.as_slice(), old.signed.as_slice())
        && same_paths(now.targets.as_slice(), old.targets.as_slice())
        && same_names(now.dependencies.as_slice(), old.dependencies.as_slice())
}

/// Whether two records are one.
fn is_same(old: &PlainRecord, now: &PlainRecord) -> bool
    ensures { IsTrue result ↔ (as_record old.now ≡ as_record now.now) }
{
    let (before, after) = (old.dependencies.as_slice(), now.dependencies.as_slice());
    if !is_same_action(old, now) || !same_digests(after, before) {
        return false;
    }
    same_stamps(after, before)
}

fn is_after(stamp: Option<u64>, target: Option<u64>) -> bool
    ensures { IsTrue result ↔ IsAfter stamp target }
{
    match (stamp, target) {
        (Some(stamp), Some(target)) => target < stamp,
        _ => false,
    }
}

fn any_newer(target: Option<u64>, dependencies: &[PlainDependency]) -> bool
    ensures { IsTrue result ↔ Any (λ dependency. IsAfter dependency.stamp target) dependencies.now }
{
    dependencies
        .iter()
        .any(|dependency| is_after(dependency.stamp, target))
}

/// Whether a dependency was changed after the target.
fn has_newer(target: Option<u64>, now: &PlainRecord) -> bool
    ensures { IsTrue result ↔ HasNewer target (as_record now.now) }
{
    any_newer(target, now.dependencies.as_slice())
}

fn first_of(dependencies: &[PlainDependency]) -> Option<(&PlainDependency, &[PlainDependency])>
    ensures { MatchOption result (dependencies.now ≡ []) (λ parts. dependencies.now ≡ parts.0.now ∷ parts.1.now) }
{
    match dependencies {
        [first, rest @ ..] => Some((first, rest)),
        [] => None,
    }
}

/// The first of each, and what stands behind them.
fn next_pair<'a>(
    xs: &'a [PlainDependency],
    ys: &'a [PlainDependency],
) -> Option<
    (
        &'a PlainDependency,
        &'a PlainDependency,
        &'a [PlainDependency],
        &'a [PlainDependency],
    ),
>
    ensures { MatchOption result ((xs.now ≡ []) ⊎ (ys.now ≡ []))
        (λ next. (xs.now ≡ next.0.now ∷ next.2.now) × (ys.now ≡ next.1.now ∷ next.3.now)) }
{
    let (x, x_rest) = first_of(xs)?;
    let (y, y_rest) = first_of(ys)?;
    Some((x, y, x_rest, y_rest))
}

/// Whether a dependency has another stamp than the recorded one, and another digest.
fn differs_in_both(old: &PlainDependency, now: &PlainDependency) -> bool
    ensures { IsTrue result ↔ ((old.now.stamp ≢ now.now.stamp) × (old.now.digest ≢ now.now.digest)) }
{
    old.stamp != now.stamp && !same_digest(old, now)
}

/// Whether one dependency does so.
fn any_differs(old: &[PlainDependency], now: &[PlainDependency]) -> bool
    ensures { IsTrue result ↔ DiffersInBoth (map as_dependency old.now) (map as_dependency now.now) }
{
    let (mut xs, mut ys) = (old, now);
    while let Some((x, y, x_rest, y_rest)) = next_pair(xs, ys) {
        if differs_in_both(x, y) {
            return true;
        }
        xs = x_rest;
        ys = y_rest;
    }
    false
}

/// Whether the record of now says that a rule has changed since its record was kept, by a decider. `target` is the stamp of the
/// rule's first target.
pub fn has_changed(
    decider: PlainDecider,
    target: Option<u64>,
    old: &PlainRecord,
    now: &PlainRecord,
) -> bool
    ensures { IsTrue result ↔ HasChanged (decider_of decider) target (as_record old.now) (as_record now.now) }
{
    let (before, after) = (old.dependencies.as_slice(), now.dependencies.as_slice());
    match decider {
        PlainDecider::Content => !is_same(old, now),
        PlainDecider::TimestampNewer => !is_same_action(old, now) || has_newer(target, now),
        PlainDecider::TimestampMatch => !is_same_action(old, now) || !same_stamps(after, before),
        PlainDecider::ContentTimestamp => !is_same_action(old, now) || any_differs(before, after),
    }
}
