//! How a path text is read from a directory.
ghost use Rattle.std.specs.Prelude.{◌≡◌, ◌≢◌, ◌<◌, ◌++◌, List, [], ◌∷◌, ℕ, Some, None, map, length, drop, true, false, IfOk, IfErr, OnOk, MatchOption, string_bytes, if◌then◌else◌};
ghost use Rattle.std.specs.List.{starts_with};
ghost use Rattle.std.specs.Str.{bytes_eq};
ghost use Rattle.scons_base.specs.Resolve as spec;
ghost use Rattle.scons_base.specs.Normal.{slash};
ghost use Rattle.scons_base.specs.Parts.{is_absolute, joined};
ghost use Rattle.scons_base.specs.PathFaults.{fault_in};

use crate::fault::PathFault;
use crate::limits::PATH_LIMIT;
use crate::memory::Memory;
use crate::parts::is_absolute;
use crate::path::{PathText, zero_in};
use std::alloc::Global;

impl PathText {
    /// The path that a text names: `#x` and `#/x` count from the top directory, `/x` from the root, everything else
    /// from the directory `dir`. `top` is the absolute path of the top directory; a relative `dir` counts from there.
    pub fn resolve(
        alloc: Global,
        top: &PathText,
        dir: &PathText,
        text: &str,
    ) -> Result<PathText, PathFault>
        ensures path { IfOk result (λ p. p ≡ spec.resolved top.now dir.now text.now) }
        ensures again { IfOk result (λ p. spec.IsResolved top.now p) }
        ensures no_fault { IfOk result (λ _. spec.resolve_fault top.now dir.now text.now ≡ None) }
        ensures fault { IfErr result (λ e. e ≢ PathFault.Memory
            → spec.resolve_fault top.now dir.now text.now ≡ Some e) }
    {
        if !leads_on(dir.normal_text()) || !leads_on(text) {
            return by_steps(alloc, top, dir, text);
        }
        match below(alloc, dir, text) {
            Ok(path) => Ok(path),
            Err(PathFault::Memory) => Err(PathFault::Memory),
            Err(_) => by_steps(alloc, top, dir, text),
        }
    }

    /// The one spelling of this path where the top directory has the absolute path `top`: relative at the top directory
    /// and below it, absolute elsewhere.
    pub fn spelled(&self, top: &PathText) -> Result<PathText, Memory>
        ensures path { IfOk result (λ p. p ≡ spec.spelling top.now self.now) }
        ensures again { IfOk result (λ p. spec.IsResolved top.now p) }
    {
        let path = self.normal_text();
        if !is_absolute(path.as_bytes()) {
            return self.copy();
        }
        Ok(PathText::normal(spelling(self.allocator(), top.normal_text(), path)?))
    }
}

/// The path that a text names, found name by name.
fn by_steps(
    alloc: Global,
    top: &PathText,
    dir: &PathText,
    text: &str,
) -> Result<PathText, PathFault>
    ensures path { IfOk result (λ p. p ≡ spec.resolved top.now dir.now text.now) }
    ensures again { IfOk result (λ p. spec.IsResolved top.now p) }
    ensures no_fault { IfOk result (λ _. spec.resolve_fault top.now dir.now text.now ≡ None) }
    ensures fault { IfErr result (λ e. e ≢ PathFault.Memory
        → spec.resolve_fault top.now dir.now text.now ≡ Some e) }
{
    if text.is_empty() {
        return Err(PathFault::Empty);
    }
    if let Some(place) = zero_in(text.as_bytes()) {
        return Err(PathFault::BadByte(place));
    }
    let normal = resolved(alloc, top.normal_text(), dir.normal_text(), text)?;
    if normal.len() > PATH_LIMIT {
        return Err(PathFault::TooLong(normal.len()));
    }
    Ok(PathText::normal(normal))
}

/// Whether a text counts from the directory that it is read in.
fn leads_on(text: &str) -> bool
    ensures { result ≡ true → (0 < length text.now) × (is_absolute text.now ≡ false) × (spec.is_from_top text.now ≡ false) }
{
    !matches!(text.as_bytes(), [] | [b'/', ..] | [b'#', ..])
}

/// The path of a text below a directory, where both together are in normal form: most texts lead down from a directory,
/// and are joined to it with few allocations.
fn below(alloc: Global, dir: &PathText, text: &str) -> Result<PathText, PathFault>
    requires { is_absolute dir.now ≡ false }
    ensures path { IfOk result (λ p. p ≡ joined dir.now text.now) }
    ensures no_fault { IfOk result (λ p. fault_in p ≡ None) }
{
    match dir.as_str() {
        "." => PathText::read(alloc, text),
        dir => PathText::read(alloc, text_below(alloc, dir, text)?.as_str()),
    }
}

/// A directory and a text with a slash between.
fn text_below(alloc: Global, dir: &str, text: &str) -> Result<String, Memory>
    ensures { IfOk result (λ s. string_bytes s ≡ dir.now ++ slash ∷ text.now) }
{
    let mut path = String::with_capacity(alloc, dir.len() + 1 + text.len())?;
    path.push_str(dir)?;
    path.push('/')?;
    path.push_str(text)?;
    Ok(path)
}

fn spelling(alloc: Global, top: &str, path: &str) -> Result<String, Memory>
    ensures { IfOk result (λ s. string_bytes s ≡ spec.spelling top.now path.now) }
{
    let mut top_place = Vec::new(alloc);
    walk(&mut top_place, top)?;
    let place = place_of(alloc, top, path)?;
    spelled(alloc, top_place.as_slice(), place.as_slice())
}

fn resolved(alloc: Global, top: &str, dir: &str, text: &str) -> Result<String, Memory>
    ensures { IfOk result (λ s. string_bytes s ≡ spec.resolved top.now dir.now text.now) }
{
    let mut top_place = Vec::new(alloc);
    walk(&mut top_place, top)?;
    let place = target(alloc, top, dir, text)?;
    spelled(alloc, top_place.as_slice(), place.as_slice())
}

/// The place that a text leads to.
fn target<'a>(
    alloc: Global,
    top: &'a str,
    dir: &'a str,
    text: &'a str,
) -> Result<Vec<&'a str>, Memory>
    ensures { IfOk result (λ v. map (λ x. x.now) v.items ≡ spec.target top.now dir.now text.now) }
{
    if let Some(rest) = behind_hash(text) {
        let mut place = Vec::new(alloc);
        walk(&mut place, top)?;
        walk(&mut place, rest)?;
        return Ok(place);
    }
    let mut place = start(alloc, top, dir, text)?;
    walk(&mut place, text)?;
    Ok(place)
}

/// The place that a text without a `#` counts from.
fn start<'a>(
    alloc: Global,
    top: &'a str,
    dir: &'a str,
    text: &'a str,
) -> Result<Vec<&'a str>, Memory>
    ensures { IfOk result (λ v. map (λ x. x.now) v.items
        ≡ (if is_absolute text.now then [] else spec.place_of top.now dir.now)) }
{
    if is_absolute(text.as_bytes()) {
        Ok(Vec::new(alloc))
    } else {
        place_of(alloc, top, dir)
    }
}

/// The place of a path: a relative one counts from the top directory.
fn place_of<'a>(alloc: Global, top: &'a str, dir: &'a str) -> Result<Vec<&'a str>, Memory>
    ensures { IfOk result (λ v. map (λ x. x.now) v.items ≡ spec.place_of top.now dir.now) }
{
    let mut place = Vec::new(alloc);
    if !is_absolute(dir.as_bytes()) {
        walk(&mut place, top)?;
    }
    walk(&mut place, dir)?;
    Ok(place)
}

fn behind_hash(text: &str) -> Option<&str>
    ensures { MatchOption result (spec.is_from_top text.now ≡ false)
        (λ rest. (spec.is_from_top text.now ≡ true) × (rest.now ≡ drop 1 text.now)) }
{
    text.strip_prefix('#')
}

/// Goes from a place to where the text leads.
fn walk<'a>(place: &mut Vec<&'a str>, text: &'a str) -> Result<(), Memory>
    ensures { OnOk result (map (λ x. x.now) place.new.items
        ≡ spec.walk (map (λ x. x.now) place.old.items) text.now) }
{
    let mut rest = text;
    'parts: while let Some((part, after)) = rest.split_once('/') {
        enter(place, part)?;
        rest = after;
    }
    enter(place, rest)
}

fn enter<'a>(place: &mut Vec<&'a str>, part: &'a str) -> Result<(), Memory>
    ensures { OnOk result (map (λ x. x.now) place.new.items
        ≡ spec.enter (map (λ x. x.now) place.old.items) part.now) }
{
    match part.as_bytes() {
        b"" | b"." => {}
        b".." => {
            place.pop();
        }
        _ => place.push(part)?,
    }
    Ok(())
}

/// The normal form of a place.
#[tactic(auto, using(crate::proofs::Maps::maps))]
fn spelled(alloc: Global, top: &[&str], place: &[&str]) -> Result<String, Memory>
    ensures { IfOk result (λ s. string_bytes s
        ≡ spec.spelled (map (λ x. x.now) top.now) (map (λ x. x.now) place.now)) }
{
    if begins_with(place, top) {
        relative_text(alloc, &place[top.len()..])
    } else {
        absolute_text(alloc, place)
    }
}

fn begins_with(place: &[&str], top: &[&str]) -> bool
    ensures { result ≡ starts_with bytes_eq (map (λ x. x.now) place.now) (map (λ x. x.now) top.now) }
{
    place.starts_with(top)
}

fn relative_text(alloc: Global, names: &[&str]) -> Result<String, Memory>
    ensures { IfOk result (λ s. string_bytes s ≡ spec.relative_text (map (λ x. x.now) names.now)) }
{
    match names {
        [] => Ok(String::from_str(alloc, ".")?),
        [name, names @ ..] => {
            let mut text = String::from_str(alloc, name)?;
            push_steps(&mut text, names)?;
            Ok(text)
        }
    }
}

fn absolute_text(alloc: Global, names: &[&str]) -> Result<String, Memory>
    ensures { IfOk result (λ s. string_bytes s ≡ spec.absolute_text (map (λ x. x.now) names.now)) }
{
    if names.is_empty() {
        return Ok(String::from_str(alloc, "/")?);
    }
    let mut text = String::new(alloc);
    push_steps(&mut text, names)?;
    Ok(text)
}

fn push_steps(text: &mut String, names: &[&str]) -> Result<(), Memory>
    ensures { OnOk result (string_bytes text.new
        ≡ string_bytes text.old ++ spec.steps (map (λ x. x.now) names.now)) }
{
    for name in names {
        text.push('/')?;
        text.push_str(name)?;
    }
    Ok(())
}
