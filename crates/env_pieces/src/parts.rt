//! Texts and marks in their order, before texts beside each other become one piece.
ghost use Rattle.std.specs.Prelude.{◌≡◌, ◌++◌, ◌∷◌, [], IfOk, OnOk, string_bytes};
ghost use Rattle.std.specs.List.{list_all};
ghost use Rattle.env_text.specs.Bytes.{is_white};
ghost use Rattle.env_pieces.specs.Pieces.{text_piece};
ghost use Rattle.env_pieces.specs.Parts.{done_of, text_behind};

use crate::piece::{Mark, Piece};
use scons_base::{Memory, Text};
use std::alloc::Global;
use std::collections::LinkedList;
use std::mem;

/// Whether a text is white space alone.
pub(crate) fn are_white(text: &[u8]) -> bool
    ensures { result ≡ list_all is_white text.now }
{
    text.iter().all(|byte| is_white(*byte))
}

fn is_white(byte: u8) -> bool
    ensures { result ≡ is_white byte }
{
    matches!(byte, b' ' | 9..=13)
}

/// Puts a text behind the others, if it isn't empty.
pub(crate) fn push_text(parts: &mut LinkedList<Piece>, text: String) -> Result<(), Memory>
    ensures { OnOk result (parts.new ≡ parts.old ++ text_piece (string_bytes text)) }
{
    if !text.is_empty() {
        parts.push_back(Piece::Text(Text::new(text)))?;
    }
    Ok(())
}

/// Puts a text and a mark behind the others.
pub(crate) fn push_marked(
    parts: &mut LinkedList<Piece>,
    text: String,
    mark: Mark,
) -> Result<(), Memory>
    ensures { OnOk result (parts.new ≡ parts.old ++ text_piece (string_bytes text) ++ Piece.Mark mark ∷ []) }
{
    push_text(parts, text)?;
    parts.push_back(Piece::Mark(mark))?;
    Ok(())
}

/// Puts a text and other parts behind these.
pub(crate) fn push_parts(
    parts: &mut LinkedList<Piece>,
    text: String,
    more: &mut LinkedList<Piece>,
) -> Result<(), Memory>
    ensures { OnOk result (parts.new ≡ parts.old ++ text_piece (string_bytes text) ++ more.old) }
{
    push_text(parts, text)?;
    parts.append(more)?;
    Ok(())
}

pub(crate) fn empty(parts: &mut LinkedList<Piece>, text: &mut String)
    ensures parts { parts.new ≡ [] }
    ensures text { string_bytes text.new ≡ [] }
{
    parts.clear();
    text.clear();
}

/// The pieces that they make.
pub(crate) fn gathered(alloc: Global, parts: LinkedList<Piece>) -> Result<Vec<Piece>, Memory>
    ensures { IfOk result (λ v. v.items ≡ done_of [] parts ++ text_piece (text_behind [] parts)) }
{
    let mut parts = parts;
    let mut done = Vec::new(alloc);
    let mut text = String::new(alloc);
    'parts: while let Some(part) = parts.pop_front() {
        gather(&mut done, &mut text, part)?;
    }
    push_piece(&mut done, text)?;
    Ok(done)
}

fn gather(done: &mut Vec<Piece>, text: &mut String, part: Piece) -> Result<(), Memory>
    ensures done { OnOk result (done.new.items ≡ done.old.items ++ done_of (string_bytes text.old) (part ∷ [])) }
    ensures text { OnOk result (string_bytes text.new ≡ text_behind (string_bytes text.old) (part ∷ [])) }
{
    match part {
        Piece::Text(more) => put_behind(text, more),
        Piece::Mark(mark) => {
            let alloc = *text.allocator();
            let before = mem::replace(text, String::new(alloc));
            push_piece(done, before)?;
            done.push(Piece::Mark(mark))?;
            Ok(())
        }
    }
}

/// Puts a text behind another one, which is gone through only where there is one.
fn put_behind(text: &mut String, more: Text) -> Result<(), Memory>
    ensures { OnOk result (string_bytes text.new ≡ string_bytes text.old ++ more) }
{
    if text.is_empty() {
        *text = more.into_string();
        return Ok(());
    }
    text.push_str(more.as_str())?;
    Ok(())
}

/// Puts a text behind the others, if it isn't empty.
fn push_piece(pieces: &mut Vec<Piece>, text: String) -> Result<(), Memory>
    ensures { OnOk result (pieces.new.items ≡ pieces.old.items ++ text_piece (string_bytes text)) }
{
    if !text.is_empty() {
        pieces.push(Piece::Text(Text::new(text)))?;
    }
    Ok(())
}
