//! Patterns of file names: `*` is any run of characters, `?` any one, `[abc]` one of a set, `[!abc]` one that isn't in it.
ghost use Rattle.std.specs.Prelude.{◌≡◌, ◌==◌, ◌<◌, ◌+◌, ◌∷◌, ◌&&◌, ◌||◌, ℕ, List, [], length, drop, position, nat_le, IfOk, OnOk, IfSome, option_copied, if◌then◌else◌};
ghost use Rattle.std.specs.List.{list_any};
ghost use Rattle.std.specs.Str.{chars};
ghost use Rattle.scons_decls.specs.Patterns as spec;

use scons_base::{Listing, Memory};
use std::alloc::Global;
use std::mem;

/// One part of a pattern.
#[derive(Drop)]
pub(crate) enum Part {
    One(char),
    Any,
    Run,
    /// One of the characters of these ranges, or one that is in none of them.
    Set {
        ranges: Listing<(char, char)>,
        without: bool,
    },
}

impl Part {
    fn is_run(&self) -> bool
        ensures { result ≡ spec.is_run self.now }
    {
        matches!(self, Part::Run)
    }

    fn takes(&self, char: char) -> bool
        ensures { result ≡ spec.takes self.now char }
    {
        match self {
            Part::One(one) => char == *one,
            Part::Any | Part::Run => true,
            Part::Set { ranges, without } => {
                if *without {
                    !is_in(ranges.as_slice(), char)
                } else {
                    is_in(ranges.as_slice(), char)
                }
            }
        }
    }
}

fn is_in(ranges: &[(char, char)], char: char) -> bool
    ensures { result ≡ list_any (λ r. nat_le r.0 char && nat_le char r.1) ranges.now }
{
    ranges
        .iter()
        .any(|range| range.0 <= char && char <= range.1)
}

/// A pattern, read.
#[derive(Drop)]
pub(crate) struct Pattern {
    parts: Listing<Part>,
    /// Whether names that begin with a dot may fit.
    takes_hidden: bool,
}

impl Pattern {
    pub(crate) fn read(alloc: Global, text: &str) -> Result<Pattern, Memory>
        ensures { IfOk result (λ p. p ≡ spec.pattern_of text.now) }
    {
        let chars = chars_of(alloc, text)?;
        Ok(Pattern {
            parts: parts_of(alloc, chars.as_slice())?,
            takes_hidden: is_hidden(text),
        })
    }

    /// Whether a name fits. One that begins with a dot needs a pattern that does.
    pub(crate) fn fits(&self, alloc: Global, name: &str) -> Result<bool, Memory>
        ensures { IfOk result (λ fits. fits ≡ spec.fits self.now name.now) }
    {
        if !self.takes_hidden && is_hidden(name) {
            return Ok(false);
        }
        let chars = chars_of(alloc, name)?;
        are_split(alloc, self.parts.as_slice(), chars.as_slice())
    }
}

/// Whether a text has a character that stands for others in a pattern.
pub(crate) fn has_wildcard(text: &str) -> bool
    ensures { result ≡ spec.has_wildcard text.now }
{
    text.as_bytes()
        .iter()
        .any(|byte| *byte == b'*' || *byte == b'?' || *byte == b'[')
}

fn is_hidden(text: &str) -> bool
    ensures { result ≡ spec.is_hidden text.now }
{
    match text.as_bytes().first() {
        Some(first) => *first == b'.',
        None => false,
    }
}

fn chars_of(alloc: Global, text: &str) -> Result<Vec<char>, Memory>
    ensures { IfOk result (λ c. c.items ≡ chars text.now) }
{
    let mut chars = Vec::new(alloc);
    for char in text.chars() {
        chars.push(char)?;
    }
    Ok(chars)
}

/// The parts of a pattern.
fn parts_of(alloc: Global, chars: &[char]) -> Result<Listing<Part>, Memory>
    ensures { IfOk result (λ p. p ≡ spec.items_of spec.begun 0 chars.now) }
{
    let mut parts = Listing::empty(alloc);
    let mut passed = 0;
    for (place, char) in chars.iter().enumerate() {
        if passed > 0 {
            passed -= 1;
        } else {
            let (part, more) = begun(alloc, *char, &chars[place + 1..])?;
            parts.push(part)?;
            passed = more;
        }
    }
    Ok(parts)
}

/// The part that a character begins, by what stands behind it, and how many characters behind it are the part's own.
fn begun(alloc: Global, char: char, behind: &[char]) -> Result<(Part, usize), Memory>
    ensures { IfOk result (λ b. b ≡ spec.begun char behind.now) }
{
    match char {
        '*' => Ok((Part::Run, 0)),
        '?' => Ok((Part::Any, 0)),
        '[' => bracketed(alloc, behind),
        one => Ok((Part::One(one), 0)),
    }
}

fn bracketed(alloc: Global, behind: &[char]) -> Result<(Part, usize), Memory>
    ensures { IfOk result (λ b. b ≡ spec.bracketed behind.now) }
{
    match behind {
        ['!', behind @ ..] => closed(alloc, true, set_in(behind)),
        _ => closed(alloc, false, set_in(behind)),
    }
}

/// The part of a set of characters. A bracket that isn't closed stands for itself.
fn closed(alloc: Global, without: bool, set: Option<&[char]>) -> Result<(Part, usize), Memory>
    ensures { IfOk result (λ b. b ≡ spec.closed without (option_copied set.entry)) }
{
    match set {
        Some(set) => {
            let marks = if without { 2 } else { 1 };
            Ok((set_of(alloc, without, set)?, set.len() + marks))
        }
        None => Ok((Part::One('['), 0)),
    }
}

fn set_of(alloc: Global, without: bool, set: &[char]) -> Result<Part, Memory>
    ensures { IfOk result (λ part. part ≡ Part.Set (spec.items_of spec.range 0 set.now) without) }
{
    let mut ranges = Listing::empty(alloc);
    push_ranges(&mut ranges, set)?;
    Ok(Part::Set { ranges, without })
}

/// The characters of a set, in the text that begins with it.
fn set_in(text: &[char]) -> Option<&[char]>
    ensures { option_copied result ≡ spec.set_in text.now }
{
    match closing_behind(text) {
        Some(place) => Some(&text[..place + 1]),
        None => None,
    }
}

/// How many characters stand between the first one and a closing bracket.
fn closing_behind(text: &[char]) -> Option<usize>
    ensures place { result ≡ position (λ c. c == spec.closing) (drop 1 text.now) }
    ensures within { IfSome result (λ place. place + 1 < length text.now) }
{
    if text.is_empty() {
        return None;
    }
    closing_in(&text[1..])
}

fn closing_in(text: &[char]) -> Option<usize>
    ensures place { result ≡ position (λ c. c == spec.closing) text.now }
    ensures within { IfSome result (λ place. place < length text.now) }
{
    text.iter().position(|one| *one == ']')
}

fn push_ranges(ranges: &mut Listing<(char, char)>, set: &[char]) -> Result<(), Memory>
    requires { ranges.old ≡ [] }
    ensures { OnOk result (ranges.new ≡ spec.items_of spec.range 0 set.now) }
{
    let mut passed = 0;
    for (place, char) in set.iter().enumerate() {
        if passed > 0 {
            passed -= 1;
        } else {
            let (range, more) = range(*char, &set[place + 1..]);
            ranges.push(range)?;
            passed = more;
        }
    }
    Ok(())
}

/// The range that a character of a set begins, and how many characters behind it are the range's own.
fn range(char: char, behind: &[char]) -> ((char, char), usize)
    ensures { result ≡ spec.range char behind.now }
{
    match behind {
        ['-', high, ..] => ((char, *high), 2),
        _ => ((char, char), 0),
    }
}

/// Whether characters can be split among parts, found from their end on.
fn are_split(alloc: Global, parts: &[Part], name: &[char]) -> Result<bool, Memory>
    ensures { IfOk result (λ split. split ≡ spec.are_split parts.now name.now) }
{
    let mut reached = Vec::new(alloc);
    let mut next = Vec::new(alloc);
    push_first(parts, &mut reached)?;
    let mut place = name.len();
    'places: while place > 0 {
        place -= 1;
        next.clear();
        push_next(parts, name[place], reached.as_slice(), &mut next)?;
        mem::swap(&mut reached, &mut next);
    }
    Ok(reached[parts.len()])
}

/// Whether no characters can be split among none of the parts, the last one, the last two and so on.
fn push_first(parts: &[Part], reached: &mut Vec<bool>) -> Result<(), Memory>
    requires { reached.old.items ≡ [] }
    ensures { OnOk result (reached.new.items ≡ spec.ends_split parts.now []) }
{
    let mut behind = true;
    reached.push(true)?;
    'places: for place in 0..parts.len() {
        behind = takes_none(&parts[parts.len() - 1 - place], behind);
        reached.push(behind)?;
    }
    Ok(())
}

fn takes_none(part: &Part, behind: bool) -> bool
    ensures { result ≡ (spec.is_run part.now && behind) }
{
    part.is_run() && behind
}

/// The same for characters with one more in front of them.
fn push_next(
    parts: &[Part],
    char: char,
    reached: &[bool],
    next: &mut Vec<bool>,
) -> Result<(), Memory>
    requires room { length reached.now ≡ length parts.now + 1 }
    requires none { next.old.items ≡ [] }
    ensures { OnOk result ((name : List ℕ) → reached.now ≡ spec.ends_split parts.now name
        → next.new.items ≡ spec.ends_split parts.now (char ∷ name)) }
{
    let mut behind = false;
    next.push(false)?;
    'places: for place in 0..parts.len() {
        let part = &parts[parts.len() - 1 - place];
        behind = takes_one(part, char, behind, reached[place], reached[place + 1]);
        next.push(behind)?;
    }
    Ok(())
}

/// Whether characters can be split among a part and those behind it: these take all of them or all but the first, or the
/// part with them takes all but the first.
fn takes_one(part: &Part, char: char, behind: bool, rest_behind: bool, rest: bool) -> bool
    ensures { result ≡ (if spec.is_run part.now then behind || rest else spec.takes part.now char && rest_behind) }
{
    if part.is_run() {
        behind || rest
    } else {
        part.takes(char) && rest_behind
    }
}
