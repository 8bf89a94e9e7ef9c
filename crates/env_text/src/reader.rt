//! What is read at a place of a text.
ghost use Rattle.std.specs.Prelude.{◌≡◌, ◌==◌, ◌+◌, ◌<◌, ◌^◌, ◌∷◌, ⊤, length, position, MatchOption};
ghost use Rattle.std.specs.Str.{IsCharBoundary};
ghost use Rattle.env_text.specs.Readings.{beginning_at, behind_dollar, braced, bare, reference};
ghost use Rattle.env_text.specs.Views.{Reads, GoesOn, beginning_of, EndsAtBoundary};

use crate::bytes::{dotted_len, is_name_first, plain_len};
use crate::part::Part;
use crate::reference::reference_of;

/// What is read at a place of a text.
#[derive(Clone, Copy, Debug)]
pub enum Step<'a> {
    /// The text ends here.
    End,
    /// A part stands here, and the next one begins at this place.
    Part(Part<'a>, usize),
    /// The `$` that stands here refers to nothing that can be read.
    BadBrace,
}

/// What a byte begins: a part, with the number of its bytes behind that one, or nothing that can be read.
#[derive(Clone, Copy)]
pub enum Front<'a> {
    Takes(Part<'a>, usize),
    Refuses,
}

/// The part that begins at a place of the text. A text that is read part by part is gone through once.
pub fn next_part(text: &str, at: usize) -> Step<'_>
    requires { IsCharBoundary text.now at }
    ensures reads { Reads text.now at result }
    ensures goes_on { GoesOn text.now at result }
{
    let rest = &text[at..];
    let Some((first, behind)) = rest.as_bytes().split_first() else {
        return Step::End;
    };
    match front_at(*first, behind, rest) {
        Front::Takes(part, more) => Step::Part(part, at + more + 1),
        Front::Refuses => Step::BadBrace,
    }
}

/// What the first byte of a text begins.
fn front_at<'a>(first: u8, rest: &'a [u8], text: &'a str) -> Front<'a>
    requires { text.now ≡ first ∷ rest.now }
    ensures front { beginning_of result ≡ beginning_at first rest.now }
    ensures boundary { EndsAtBoundary text.now result }
{
    if first == b'$' {
        behind_dollar(rest)
    } else {
        let more = plain_len(rest);
        Front::Takes(Part::Text(&text[..more + 1]), more)
    }
}

fn behind_dollar(bytes: &[u8]) -> Front<'_>
    ensures { beginning_of result ≡ behind_dollar bytes.now }
{
    match bytes {
        [b'$', ..] => Front::Takes(Part::Text("$"), 1),
        [b'(', ..] => Front::Takes(Part::Begin, 1),
        [b')', ..] => Front::Takes(Part::End, 1),
        [b'{', inside @ ..] => braced(inside),
        [first, ..] if is_name_first(*first) => bare(bytes),
        _ => Front::Takes(Part::Text("$"), 0),
    }
}

/// A reference in braces, behind the opening one.
fn braced(bytes: &[u8]) -> Front<'_>
    requires { length bytes.now + 2 < 2 ^ 64 }
    ensures { beginning_of result ≡ braced bytes.now }
{
    match closing_place(bytes) {
        Some(place) => reference(place + 2, &bytes[..place]),
        None => Front::Refuses,
    }
}

fn closing_place(bytes: &[u8]) -> Option<usize>
    ensures place { result ≡ position (λ b. b == 125) bytes.now }
    ensures fits { MatchOption result ⊤ (λ place. place < length bytes.now) }
{
    bytes.iter().position(|byte| *byte == b'}')
}

/// A reference without braces.
fn bare(bytes: &[u8]) -> Front<'_>
    ensures { beginning_of result ≡ bare bytes.now }
{
    let len = dotted_len(bytes);
    reference(len, &bytes[..len])
}

/// A reference with this content, which has so many bytes behind its `$`.
fn reference(more: usize, content: &[u8]) -> Front<'_>
    ensures { beginning_of result ≡ reference more content.now }
{
    match reference_of(content) {
        Some(part) => Front::Takes(part, more),
        None => Front::Refuses,
    }
}
