//! The parts of an f-text: what stands in it up to a field, or up to its end.
ghost use Rattle.std.specs.Prelude.{◌≡◌, ◌<◌, ◌≤◌, ◌^◌, Bool, length, IfOk};
ghost use Rattle.py_lex.specs.Parts.{part_piece_at, opening_brace, closing_brace, begins_with_brace, Parts};
ghost use Rattle.py_lex.specs.Views.{part_of};
ghost use Rattle.py_lex.specs.Sizes.{IsPartTaken, FitsInPart};

use crate::fault::LexKind;
use crate::piece::{Chars, Piece, Style, next_piece, push_chars};
use std::alloc::{AllocError, Global};

/// What stands next in an f-text, outside of its fields.
#[derive(Clone, Copy)]
pub enum PartPiece {
    /// The brace that opens a field.
    Opens,
    /// A closing brace alone.
    Lone,
    /// What may stand in any text.
    Plain(Piece),
}

/// What reading a part gives.
#[derive(Drop)]
pub enum Part<'a> {
    /// A field stands behind it, or the text ends there.
    Ends {
        field: bool,
        value: Vec<u8>,
        lines: u32,
        rest: &'a [u8],
    },
    Unclosed,
    Refused {
        kind: LexKind,
        lines: u32,
    },
}

/// The piece of an f-text in front, and what follows it.
pub fn next_part_piece(style: Style, bytes: &[u8]) -> (PartPiece, &[u8])
    ensures piece { result.0 ≡ (part_piece_at style bytes.now).0 }
    ensures rest { result.1.now ≡ (part_piece_at style bytes.now).1 }
    ensures fits { length result.1.now ≤ length bytes.now }
    ensures shorter { IsPartTaken result.0 → length result.1.now < length bytes.now }
{
    let Some((byte, rest)) = bytes.split_first() else {
        return (PartPiece::Plain(Piece::Unclosed), bytes);
    };
    if *byte == b'{' {
        return opening_brace(rest);
    }
    if *byte == b'}' {
        return closing_brace(bytes, rest);
    }
    if *byte == b'\\' && style.raw && begins_with_brace(rest) {
        return (PartPiece::Plain(Piece::Stands(Chars::Byte(b'\\'))), rest);
    }
    let (piece, after) = next_piece(style, bytes);
    (PartPiece::Plain(piece), after)
}

/// Behind an opening brace: two of them stand for one.
fn opening_brace(rest: &[u8]) -> (PartPiece, &[u8])
    ensures piece { result.0 ≡ (opening_brace rest.now).0 }
    ensures rest { result.1.now ≡ (opening_brace rest.now).1 }
    ensures fits { length result.1.now ≤ length rest.now }
{
    match rest {
        [b'{', after @ ..] => (PartPiece::Plain(Piece::Stands(Chars::Byte(b'{'))), after),
        _ => (PartPiece::Opens, rest),
    }
}

/// At a closing brace: two of them stand for one.
fn closing_brace<'a>(bytes: &'a [u8], rest: &'a [u8]) -> (PartPiece, &'a [u8])
    requires { length rest.now < length bytes.now }
    ensures piece { result.0 ≡ (closing_brace bytes.now rest.now).0 }
    ensures rest { result.1.now ≡ (closing_brace bytes.now rest.now).1 }
    ensures fits { length result.1.now ≤ length bytes.now }
    ensures shorter { IsPartTaken result.0 → length result.1.now < length bytes.now }
{
    match rest {
        [b'}', after @ ..] => (PartPiece::Plain(Piece::Stands(Chars::Byte(b'}'))), after),
        _ => (PartPiece::Lone, bytes),
    }
}

fn begins_with_brace(bytes: &[u8]) -> bool
    ensures { result ≡ begins_with_brace bytes.now }
{
    match bytes {
        [byte, ..] => *byte == b'{' || *byte == b'}',
        [] => false,
    }
}

/// Reads an f-text up to its next field, or to its end.
pub fn next_part(alloc: Global, style: Style, bytes: &[u8]) -> Result<Part<'_>, AllocError>
    requires { length bytes.now < 2 ^ 31 }
    ensures parts { IfOk result (λ p. Parts style bytes.now (part_of p)) }
    ensures fits { IfOk result (FitsInPart bytes.now) }
{
    let mut value = Vec::new(alloc);
    let mut lines: u32 = 0;
    let mut rest = bytes;
    'part: loop {
        let (piece, after) = next_part_piece(style, rest);
        match piece {
            PartPiece::Opens => return Ok(ended(true, value, lines, after)),
            PartPiece::Plain(Piece::Closes) => return Ok(ended(false, value, lines, after)),
            PartPiece::Plain(Piece::Unclosed) => return Ok(Part::Unclosed),
            PartPiece::Lone => return Ok(refused(LexKind::BadField, lines)),
            PartPiece::Plain(Piece::BadEscape) => return Ok(refused(LexKind::BadEscape, lines)),
            PartPiece::Plain(Piece::NotUtf8) => return Ok(refused(LexKind::NotUtf8, lines)),
            PartPiece::Plain(Piece::Stands(chars)) => push_chars(&mut value, chars)?,
            PartPiece::Plain(Piece::EndsLine(chars)) => {
                push_chars(&mut value, chars)?;
                lines += 1;
            }
        }
        rest = after;
    }
}

fn ended<'a>(field: bool, value: Vec<u8>, lines: u32, rest: &'a [u8]) -> Part<'a>
    ensures { result ≡ Part.Ends field value lines rest.entry }
{
    Part::Ends {
        field,
        value,
        lines,
        rest,
    }
}

fn refused<'a>(kind: LexKind, lines: u32) -> Part<'a>
    ensures { result ≡ Part.Refused kind lines }
{
    Part::Refused { kind, lines }
}
