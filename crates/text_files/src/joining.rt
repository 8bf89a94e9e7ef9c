//! The contents of files, one behind the other.
ghost use Rattle.std.specs.Prelude.{◌≡◌, ◌≤◌, ◌++◌, length, map, is_some, OnOk};
ghost use Rattle.std.specs.List.{flat_map, list_all};
ghost use Rattle.text_files.specs.Refusals.{MakesUpTo, told};
ghost use Rattle.world_api.specs.Writing.{bytes_of, joined_by};

use crate::refusal::TextRefusal;
use scons_base::{Blob, Memory};
use std::alloc::Global;
use world_api::Content;

/// Whether each of these is a file.
pub(crate) fn are_files(given: &[Content]) -> bool
    ensures { result ≡ list_all is_some given.now }
{
    given.iter().all(|content| content.is_some())
}

/// What these files hold, with this between each and the next.
pub(crate) fn joined(
    alloc: Global,
    between: &[u8],
    given: &[Content],
    limit: u64,
) -> Result<Blob, TextRefusal>
    ensures { MakesUpTo limit (joined_by between.now (map bytes_of given.now)) result }
{
    let len = joined_len(between, given);
    if len > limit {
        return Err(TextRefusal::TooLarge(len));
    }
    let mut joined = Vec::new(alloc);
    push_joined(&mut joined, between, given)?;
    Ok(Blob::new(joined))
}

/// How long that is, or the greatest number of 64 bits where that is more.
fn joined_len(between: &[u8], given: &[Content]) -> u64
    ensures { result ≡ told (length (joined_by between.now (map bytes_of given.now))) }
{
    match given {
        [] => 0,
        [first, rest @ ..] => rest_len(between, rest).saturating_add(len_of(first)),
    }
}

fn rest_len(between: &[u8], rest: &[Content]) -> u64
    ensures { result ≡ told (length (flat_map (λ next. between.now ++ next) (map bytes_of rest.now))) }
{
    let mut len: u64 = 0;
    for content in rest {
        len = len
            .saturating_add(between.len() as u64)
            .saturating_add(len_of(content));
    }
    len
}

fn len_of(content: &Content) -> u64
    ensures { result ≡ length (bytes_of content.now) }
{
    match content {
        Some(bytes) => bytes.as_slice().len() as u64,
        None => 0,
    }
}

fn push_joined(joined: &mut Vec<u8>, between: &[u8], given: &[Content]) -> Result<(), Memory>
    ensures { OnOk result (joined.new.items ≡ joined.old.items ++ joined_by between.now (map bytes_of given.now)) }
{
    match given {
        [] => Ok(()),
        [first, rest @ ..] => {
            push_content(joined, first)?;
            push_rest(joined, between, rest)
        }
    }
}

fn push_rest(joined: &mut Vec<u8>, between: &[u8], rest: &[Content]) -> Result<(), Memory>
    ensures { OnOk result (joined.new.items ≡ joined.old.items ++ flat_map (λ next. between.now ++ next) (map bytes_of rest.now)) }
{
    for content in rest {
        joined.extend_from_slice(between)?;
        push_content(joined, content)?;
    }
    Ok(())
}

fn push_content(joined: &mut Vec<u8>, content: &Content) -> Result<(), Memory>
    ensures { OnOk result (joined.new.items ≡ joined.old.items ++ bytes_of content.now) }
{
    if let Some(bytes) = content {
        joined.extend_from_slice(bytes.as_slice())?;
    }
    Ok(())
}
