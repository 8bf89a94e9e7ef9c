//! Texts in quotes.
ghost use Rattle.std.specs.Prelude.{◌≡◌, ◌<◌, ◌≤◌, ◌^◌, length, IfOk};
ghost use Rattle.py_lex.specs.Texts.{opening, Spells};
ghost use Rattle.py_lex.specs.Views.{spelling_of};
ghost use Rattle.py_lex.specs.Sizes.{FitsIn};

use crate::fault::LexKind;
use crate::piece::{Piece, Style, next_piece, push_chars};
use std::alloc::{AllocError, Global};

/// What reading a text gives.
#[derive(Drop)]
pub enum Spelt<'a> {
    Closed {
        value: Vec<u8>,
        lines: u32,
        rest: &'a [u8],
    },
    Unclosed,
    Refused {
        kind: LexKind,
        lines: u32,
    },
}

/// The style of a text behind its first quote, and what follows its opening quotes.
pub fn opening(raw: bool, quote: u8, rest: &[u8]) -> (Style, &[u8])
    ensures style { result.0 ≡ (opening raw quote rest.now).0 }
    ensures rest { result.1.now ≡ (opening raw quote rest.now).1 }
    ensures fits { length result.1.now ≤ length rest.now }
{
    match rest {
        [second, third, after @ ..] if *second == quote && *third == quote => {
            let long = true;
            (Style { quote, long, raw }, after)
        }
        _ => {
            let long = false;
            (Style { quote, long, raw }, rest)
        }
    }
}

/// Reads a text behind its opening quotes.
pub fn spell(alloc: Global, style: Style, bytes: &[u8]) -> Result<Spelt<'_>, AllocError>
    requires { length bytes.now < 2 ^ 31 }
    ensures spells { IfOk result (λ s. Spells style bytes.now (spelling_of s)) }
    ensures fits { IfOk result (FitsIn bytes.now) }
{
    let mut value = Vec::new(alloc);
    let mut lines: u32 = 0;
    let mut rest = bytes;
    'text: loop {
        let (piece, after) = next_piece(style, rest);
        match piece {
            Piece::Closes => {
                return Ok(Spelt::Closed {
                    value,
                    lines,
                    rest: after,
                });
            }
            Piece::Unclosed => return Ok(Spelt::Unclosed),
            Piece::BadEscape => {
                return Ok(Spelt::Refused {
                    kind: LexKind::BadEscape,
                    lines,
                });
            }
            Piece::NotUtf8 => {
                return Ok(Spelt::Refused {
                    kind: LexKind::NotUtf8,
                    lines,
                });
            }
            Piece::Stands(chars) => push_chars(&mut value, chars)?,
            Piece::EndsLine(chars) => {
                push_chars(&mut value, chars)?;
                lines += 1;
            }
        }
        rest = after;
    }
}
