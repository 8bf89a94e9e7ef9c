//! What a reference selects of a list or a text.
ghost use Rattle.std.specs.Prelude.{◌≡◌, ◌≤◌, ◌-◌, ◌++◌, ℕ, [], take, drop, length, MatchOption, encode_utf8};
ghost use Rattle.std.specs.Str.{chars, IsCharBoundary};
ghost use Rattle.env_subst.specs.Selections.{slice_end, item_range, range_of, selected, selected_text, place_behind, end_place, Cuts};

use env_text::{Index, Selection};

/// The items that are selected.
pub(crate) fn selected<T>(items: &[T], selection: Selection) -> &[T]
    ensures { result.now ≡ selected selection items.now }
{
    let (from, to) = range_of(selection, items.len());
    if from < to {
        &items[from..to]
    } else {
        &items[..0]
    }
}

/// The characters that are selected. This costs the characters up to them, from the end that they are counted from.
pub(crate) fn selected_text(text: &str, selection: Selection) -> &str
    ensures { result.now ≡ selected_text selection text.now }
{
    match selection {
        Selection::Whole => text,
        Selection::Item(index) => {
            let (from, to) = item_ends(text, index);
            part_between(text, from, to)
        }
        Selection::Slice(from, to) => {
            part_between(
                text,
                place_of(text, from, 0),
                place_of(text, to, text.len()),
            )
        }
    }
}

fn part_between(text: &str, from: usize, to: usize) -> &str
    requires from { IsCharBoundary text.now from }
    requires to { IsCharBoundary text.now to }
    ensures { result.now ≡ take (to - from) (drop from text.now) }
{
    if from < to { &text[from..to] } else { "" }
}

/// Where a character begins and ends.
fn item_ends(text: &str, index: Index) -> (usize, usize)
    ensures { Cuts text.now (item_range index (length (chars text.now))) result }
{
    match index {
        Index::FromFront(place) => front_ends(text, place),
        Index::FromBack(place) => (
            back_place(text, place),
            back_place(text, place.saturating_sub(1)),
        ),
    }
}

/// Where the character at a place begins and ends, counted from the front.
fn front_ends(text: &str, place: usize) -> (usize, usize)
    ensures { Cuts text.now (item_range (Index.FromFront place) (length (chars text.now))) result }
{
    if place >= text.len() {
        return (0, 0);
    }
    (front_len(text, place), front_len(text, place + 1))
}

/// The place of an end of a slice, which is another one where nothing is said.
fn place_of(text: &str, index: Option<Index>, missing: usize) -> usize
    ensures { result ≡ end_place index missing text.now }
{
    match index {
        None => missing,
        Some(Index::FromFront(place)) => front_len(text, place),
        Some(Index::FromBack(place)) => back_place(text, place),
    }
}

/// How many bytes the first characters have, so many or all.
fn front_len(text: &str, count: usize) -> usize
    ensures { result ≡ place_behind count text.now }
{
    let mut rest = text;
    let mut left = count;
    'characters: while left > 0 {
        match behind_first(rest) {
            Some(behind) => rest = behind,
            None => return text.len(),
        }
        left -= 1;
    }
    text.len() - rest.len()
}

/// The place in front of the last characters, so many or all.
fn back_place(text: &str, count: usize) -> usize
    ensures { result ≡ place_behind (length (chars text.now) - count) text.now }
{
    let mut rest = text;
    let mut left = count;
    'characters: while left > 0 {
        match before_last(rest) {
            Some(before) => rest = before,
            None => return 0,
        }
        left -= 1;
    }
    rest.len()
}

/// What stands behind the first character.
fn behind_first(text: &str) -> Option<&str>
    ensures { MatchOption result (text.now ≡ []) (λ rest. (c : ℕ) × (text.now ≡ encode_utf8 c ++ rest.now)) }
{
    let mut characters = text.chars();
    match characters.next() {
        Some(_) => Some(characters.as_str()),
        None => None,
    }
}

/// What stands in front of the last character.
fn before_last(text: &str) -> Option<&str>
    ensures { MatchOption result (text.now ≡ []) (λ rest. (c : ℕ) × (text.now ≡ rest.now ++ encode_utf8 c)) }
{
    let mut characters = text.chars();
    match characters.next_back() {
        Some(_) => Some(characters.as_str()),
        None => None,
    }
}

/// Where the selected part of a list of so many begins and ends.
fn range_of(selection: Selection, len: usize) -> (usize, usize)
    ensures range { result ≡ range_of selection len }
    ensures within { result.1 ≤ len }
{
    match selection {
        Selection::Whole => (0, len),
        Selection::Item(index) => item_range(index, len),
        Selection::Slice(from, to) => (slice_end(from, 0, len), slice_end(to, len, len)),
    }
}

fn item_range(index: Index, len: usize) -> (usize, usize)
    ensures range { result ≡ item_range index len }
    ensures within { result.1 ≤ len }
{
    match index {
        Index::FromFront(place) if place < len => (place, place + 1),
        Index::FromBack(place) if 0 < place && place <= len => (len - place, len - place + 1),
        _ => (0, 0),
    }
}

/// The place where a slice begins or ends, which is another one where nothing is said.
fn slice_end(index: Option<Index>, missing: usize, len: usize) -> usize
    requires { missing ≤ len }
    ensures end { result ≡ slice_end index missing len }
    ensures within { result ≤ len }
{
    match index {
        None => missing,
        Some(Index::FromFront(place)) => place.min(len),
        Some(Index::FromBack(place)) => len.saturating_sub(place),
    }
}
