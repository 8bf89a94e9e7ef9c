//! What a write makes.
ghost use Rattle.std.specs.Prelude.{◌≡◌, Some, None, length, map};
ghost use Rattle.std.specs.Option.{option_map};
ghost use Rattle.text_files.specs.Named.{named_by};
ghost use Rattle.text_files.specs.Refusals.{Makes, MakesOfFiles, first_long, written_too_long};
ghost use Rattle.world_api.specs.Writing.{bytes_of, files_read, pairs_in, written};

use crate::joining::{are_files, joined};
use crate::pairs::{number_in, pairs_in};
use crate::refusal::TextRefusal;
use crate::replacing::replace_all;
use scons_base::{Blob, Text};
use std::alloc::Global;
use world_api::Content;

/// What a write with these signed texts makes of what it is given: its one text; or, of several, the first says how many
/// of the given files are joined, the second what stands between them, and the others are keys with their values.
pub fn write_bytes(
    alloc: Global,
    signed: &[Text],
    given: &[Content],
    limit: u64,
) -> Result<Content, TextRefusal>
    ensures { Makes result (written_too_long limit signed.now given.now) (written signed.now given.now) }
{
    match signed {
        [] => Ok(None),
        [text] => one_text(alloc, text.as_str().as_bytes(), limit),
        [count, between, texts @ ..] => {
            let files = files_read(count, given);
            let between = between.as_str().as_bytes();
            files_written(alloc, between, files, texts, limit)
        }
    }
}

/// How many of the given files such a write reads.
pub fn files_named(signed: &[Text]) -> u32
    ensures { result ≡ named_by signed.now }
{
    match signed {
        [] | [_] => 0,
        [count, ..] => number_in(count.as_str()).unwrap_or(0),
    }
}

fn one_text(alloc: Global, text: &[u8], limit: u64) -> Result<Content, TextRefusal>
    ensures { Makes result (first_long limit (length text.now) None) (Some text.now) }
{
    let len = text.len() as u64;
    if len > limit {
        return Err(TextRefusal::TooLarge(len));
    }
    Ok(Some(Blob::of(alloc, text)?))
}

/// The first of these, as many as a text says, if so many files are there.
fn files_read<'a>(count: &Text, given: &'a [Content]) -> Option<&'a [Content]>
    ensures { option_map (λ files. map bytes_of files.now) result ≡ files_read count.now given.now }
{
    let count = number_in(count.as_str())? as usize;
    if count <= given.len() && are_files(&given[..count]) {
        Some(&given[..count])
    } else {
        None
    }
}

fn files_written(
    alloc: Global,
    between: &[u8],
    files: Option<&[Content]>,
    texts: &[Text],
    limit: u64,
) -> Result<Content, TextRefusal>
    ensures { MakesOfFiles result limit between.now (option_map (λ f. map bytes_of f.now) files.entry) (pairs_in texts.now) }
{
    let pairs = pairs_in(alloc, texts)?;
    match (files, pairs) {
        (Some(files), Some(pairs)) => {
            let made = joined(alloc, between, files, limit)?;
            let made = replace_all(alloc, made.as_slice(), pairs.as_slice(), limit)?;
            Ok(Some(made))
        }
        _ => Ok(None),
    }
}
