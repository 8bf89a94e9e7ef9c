//! Whether two tables of actions are equal.
ghost use Rattle.std.specs.Prelude.{◌≡◌, ◌↔◌, ◌⊎◌, ◌∷◌, [], IsTrue, MatchOption};

use crate::contents::Contents;
use crate::table::{ActRow, Made};
use scons_base::Text;

/// Whether the rows are equal, in their order.
pub fn are_same_rows(a: &[ActRow], b: &[ActRow]) -> bool
    ensures { IsTrue result ↔ (a.now ≡ b.now) }
{
    let (mut xs, mut ys) = (a, b);
    while let Some((x, y, x_rest, y_rest)) = next_pair(xs, ys) {
        if !is_same_row(x, y) {
            return false;
        }
        xs = x_rest;
        ys = y_rest;
    }
    xs.is_empty() && ys.is_empty()
}

fn is_same_row(x: &ActRow, y: &ActRow) -> bool
    ensures { IsTrue result ↔ (x.now ≡ y.now) }
{
    are_same_texts(x.signed.as_slice(), y.signed.as_slice())
        && is_same_given(&x.given, &y.given)
        && is_same_made(&x.made, &y.made)
}

fn are_same_texts(a: &[Text], b: &[Text]) -> bool
    ensures { IsTrue result ↔ (a.now ≡ b.now) }
{
    a == b
}

fn is_same_given(a: &Option<Contents>, b: &Option<Contents>) -> bool
    ensures { IsTrue result ↔ (a.now ≡ b.now) }
{
    match (a, b) {
        (Some(a), Some(b)) => are_same_contents(a, b),
        (None, None) => true,
        (Some(_), None) | (None, Some(_)) => false,
    }
}

fn is_same_made(a: &Made, b: &Made) -> bool
    ensures { IsTrue result ↔ (a.now ≡ b.now) }
{
    match (a, b) {
        (Made::Files(a), Made::Files(b)) => are_same_contents(a, b),
        (Made::Fail(a), Made::Fail(b)) => a == b,
        (Made::Files(_), Made::Fail(_)) | (Made::Fail(_), Made::Files(_)) => false,
    }
}

fn are_same_contents(a: &Contents, b: &Contents) -> bool
    ensures { IsTrue result ↔ (a.now ≡ b.now) }
{
    a.is(b)
}

/// The first of each, and what stands behind them.
fn next_pair<'a>(
    xs: &'a [ActRow],
    ys: &'a [ActRow],
) -> Option<(&'a ActRow, &'a ActRow, &'a [ActRow], &'a [ActRow])>
    ensures { MatchOption result ((xs.now ≡ []) ⊎ (ys.now ≡ []))
        (λ next. (xs.now ≡ next.0.now ∷ next.2.now) × (ys.now ≡ next.1.now ∷ next.3.now)) }
{
    let (x, x_rest) = first_of(xs)?;
    let (y, y_rest) = first_of(ys)?;
    Some((x, y, x_rest, y_rest))
}

fn first_of(rows: &[ActRow]) -> Option<(&ActRow, &[ActRow])>
    ensures { MatchOption result (rows.now ≡ []) (λ parts. rows.now ≡ parts.0.now ∷ parts.1.now) }
{
    match rows {
        [first, rest @ ..] => Some((first, rest)),
        [] => None,
    }
}
