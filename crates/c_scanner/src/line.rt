//! One line, and the file name that it includes.
ghost use Rattle.std.specs.Prelude.{◌≡◌, ◌<◌, None, Some, length, position, MatchOption, IfOk, IfSome};
ghost use Rattle.c_scanner.specs.Lines.{ends_name, without_blanks, behind, behind_directive, opened};
ghost use Rattle.c_scanner.specs.Includes.{include_of};

use scons_base::{Blob, Memory};
use std::alloc::Global;

/// A file name that a line includes, and whether it stands in quotes.
#[derive(Debug, Drop)]
pub struct Include {
    pub quoted: bool,
    pub name: Blob,
}

/// What a line includes.
pub(crate) fn include_in(alloc: Global, line: &[u8]) -> Result<Option<Include>, Memory>
    ensures { IfOk result (λ found. found ≡ include_of line.now) }
{
    let Some((quoted, name)) = named(line) else {
        return Ok(None);
    };
    let name = Blob::of(alloc, name)?;
    Ok(Some(Include { quoted, name }))
}

/// Whether the name stands in quotes, and the name.
fn named(line: &[u8]) -> Option<(bool, &[u8])>
    ensures { MatchOption result (include_of line.now ≡ None)
        (λ found. include_of line.now ≡ Some (record { quoted = found.0; name = found.1.now })) }
{
    let (mark, rest) = opened(line)?;
    let end = name_end(rest)?;
    if end == 0 {
        return None;
    }
    Some((mark == b'"', &rest[..end]))
}

fn name_end(text: &[u8]) -> Option<usize>
    ensures place { result ≡ position ends_name text.now }
    ensures within { IfSome result (λ end. end < length text.now) }
{
    text.iter().position(|byte| ends_name(*byte))
}

fn ends_name(byte: u8) -> bool
    ensures { result ≡ ends_name byte }
{
    matches!(byte, b'"' | b'>')
}

/// The mark that opens the name, and what stands behind it.
fn opened(line: &[u8]) -> Option<(u8, &[u8])>
    ensures { MatchOption result (opened line.now ≡ None) (λ parts. opened line.now ≡ Some (parts.0, parts.1.now)) }
{
    let rest = behind(without_blanks(line), b"#")?;
    let rest = behind_directive(rest)?;
    match without_blanks(rest) {
        [mark @ (b'<' | b'"'), rest @ ..] => Some((*mark, rest)),
        _ => None,
    }
}

fn behind_directive(text: &[u8]) -> Option<&[u8]>
    ensures { MatchOption result (behind_directive text.now ≡ None) (λ rest. behind_directive text.now ≡ Some rest.now) }
{
    let text = without_blanks(text);
    match behind(text, b"include") {
        Some(rest) => Some(rest),
        None => behind(text, b"import"),
    }
}

/// What stands behind a word, where the text begins with that word.
fn behind<'a>(text: &'a [u8], word: &[u8]) -> Option<&'a [u8]>
    ensures { MatchOption result (behind word.now text.now ≡ None) (λ rest. behind word.now text.now ≡ Some rest.now) }
{
    if text.starts_with(word) {
        Some(&text[word.len()..])
    } else {
        None
    }
}

fn without_blanks(text: &[u8]) -> &[u8]
    ensures { result.now ≡ without_blanks text.now }
{
    let mut rest = text;
    while let [b' ' | b'\t', behind @ ..] = rest {
        rest = behind;
    }
    rest
}
