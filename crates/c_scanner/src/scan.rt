//! The lines of a file.
ghost use Rattle.std.specs.Prelude.{◌≡◌, ◌↔◌, ℕ, List, Some, ◌<◌, [], ◌∷◌, ◌++◌, length, MatchOption, IfOk, IfSome, OnOk};
ghost use Rattle.std.specs.List.{cons_option};
ghost use Rattle.c_scanner.specs.Lines.{lines_of};
ghost use Rattle.c_scanner.specs.Includes.{include_of, includes_of};
ghost use Rattle.c_scanner.specs.Patterns.{Matches};
ghost use Rattle.c_scanner.specs.declared.line.Include.{Include};

use crate::line::{Include, include_in};
use memchr::memchr;
use scons_base::{Listing, Memory};
use std::alloc::Global;

/// What the lines of a file include, in their order.
pub fn includes(alloc: Global, bytes: &[u8]) -> Result<Listing<Include>, Memory>
    ensures found { IfOk result (λ found. found ≡ includes_of bytes.now) }
    // A line includes what the regular expression matches in it.
    ensures pattern { (line : List ℕ) (include : Include) → (include_of line ≡ Some include) ↔ Matches line include }
{
    words_of(alloc, bytes)
}

fn words_of(alloc: Global, bytes: &[u8]) -> Result<Listing<Include>, Memory>
    ensures { IfOk result (λ found. found ≡ includes_of bytes.now) }
{
    let mut found = Vec::new(alloc);
    let mut rest = bytes;
    while let Some((line, behind)) = cut_line(rest) {
        add_line(&mut found, line)?;
        rest = behind;
    }
    add_line(&mut found, rest)?;
    Ok(Listing::new(found))
}

fn add_line(found: &mut Vec<Include>, line: &[u8]) -> Result<(), Memory>
    ensures { OnOk result (found.new.items ≡ found.old.items ++ cons_option (include_of line.now) []) }
{
    if let Some(include) = include_in(*found.allocator(), line)? {
        found.push(include)?;
    }
    Ok(())
}

/// The first line, and what stands behind its line feed. Without a line feed the text is one line.
fn cut_line(text: &[u8]) -> Option<(&[u8], &[u8])>
    ensures lines { MatchOption result (lines_of text.now ≡ text.now ∷ [])
        (λ parts. lines_of text.now ≡ parts.0.now ∷ lines_of parts.1.now) }
    ensures shorter { IfSome result (λ parts. length parts.1.now < length text.now) }
{
    let end = memchr(b'\n', text)?;
    Some((&text[..end], &text[end + 1..]))
}
