//! The ends of slices.
ghost use Rattle.std.specs.Prelude.{◌≡◌, ◌≤◌, length};
ghost use Rattle.py_operators.specs.Slices.{end_in, from_in, to_in, slice_of};

use py_heap::Value;

/// Where an end of a slice lies in something of a length.
pub fn end_in(end: i64, length: usize) -> usize
    ensures place { result ≡ end_in end length }
    ensures within { result ≤ length }
{
    let distance = end.unsigned_abs() as usize;
    if end >= 0 {
        distance.min(length)
    } else {
        length.saturating_sub(distance)
    }
}

pub(crate) fn from_in(end: Option<i64>, length: usize) -> usize
    ensures place { result ≡ from_in end length }
    ensures within { result ≤ length }
{
    match end {
        Some(end) => end_in(end, length),
        None => 0,
    }
}

pub(crate) fn to_in(end: Option<i64>, length: usize) -> usize
    ensures place { result ≡ to_in end length }
    ensures within { result ≤ length }
{
    match end {
        Some(end) => end_in(end, length),
        None => length,
    }
}

/// The items between two ends.
pub(crate) fn slice_of(items: &[Value], from: Option<i64>, to: Option<i64>) -> &[Value]
    ensures { result.now ≡ slice_of items.now from to }
{
    let from = from_in(from, items.len());
    let to = to_in(to, items.len());
    if from < to { &items[from..to] } else { &[] }
}
