//! The pieces of a `%` format.
ghost use Rattle.std.specs.Prelude.{◌≡◌, ◌++◌, ◌∷◌, false, None, Some, Err, map, IfOk, OnOk, MatchOption};
ghost use Rattle.std.specs.List.{list_any};
ghost use Rattle.py_text.specs.declared.fault.FormatFault.{FormatFault};
ghost use Rattle.py_text.specs.Formatting.{pieces_of, literal_run, is_percent, HasNoLetter, StandsFor};
ghost use Rattle.py_text.specs.Views.{plain_piece};

use crate::characters::next_char;
use crate::fault::FormatFault;
use memchr::memchr;
use scons_base::Memory;
use std::alloc::Global;

/// What stands at one place of a format.
#[derive(Clone, Copy, Debug, PartialEq, Eq)]
pub enum Piece<'a> {
    /// Characters that stand for themselves, none of them `%`.
    Literal(&'a str),
    /// `%%`, which stands for `%`.
    Percent,
    /// `%s`, which stands for any value.
    Any,
    /// `%d`, which stands for an integer.
    Integer,
}

/// The pieces of a format, in order.
pub fn format_pieces(alloc: Global, format: &str) -> Result<Vec<Piece<'_>>, FormatFault>
    ensures ok { IfOk result (λ pieces. pieces_of format.now ≡ Some (map plain_piece pieces.items)) }
    ensures bad_text { result ≡ Err FormatFault.BadText → pieces_of format.now ≡ None }
{
    let mut pieces = Vec::new(alloc);
    let mut rest = format;
    'pieces: while let Some((literal, behind)) = cut_at_percent(rest) {
        push_literal(&mut pieces, literal)?;
        match read_letter(behind) {
            Some((piece, after)) => {
                pieces.push(piece)?;
                rest = after;
            }
            None => return Err(FormatFault::BadText),
        }
    }
    push_literal(&mut pieces, rest)?;
    Ok(pieces)
}

fn push_literal<'a>(pieces: &mut Vec<Piece<'a>>, text: &'a str) -> Result<(), Memory>
    ensures { OnOk result (map plain_piece pieces.new.items ≡ map plain_piece pieces.old.items ++ literal_run text.now) }
{
    if !text.is_empty() {
        pieces.push(Piece::Literal(text))?;
    }
    Ok(())
}

/// What stands before the first `%`, and what behind it.
fn cut_at_percent(text: &str) -> Option<(&str, &str)>
    ensures { MatchOption result (list_any is_percent text.now ≡ false)
        (λ parts. (text.now ≡ parts.0.now ++ 37 ∷ parts.1.now) × (list_any is_percent parts.0.now ≡ false)) }
{
    let place = memchr(b'%', text.as_bytes())?;
    Some((&text[..place], &text[place + 1..]))
}

/// What the letter behind a `%` stands for, and what follows it.
fn read_letter(text: &str) -> Option<(Piece<'_>, &str)>
    ensures { MatchOption result (HasNoLetter text.now) (λ read. StandsFor text.now (plain_piece read.0) read.1.now) }
{
    let (letter, after) = next_char(text)?;
    match letter {
        '%' => Some((Piece::Percent, after)),
        's' => Some((Piece::Any, after)),
        'd' => Some((Piece::Integer, after)),
        _ => None,
    }
}
