//! The forms in which pieces are shown.
ghost use Rattle.std.specs.Prelude.{◌≡◌, ◌≢◌, ◌<◌, ◌≤◌, ◌^◌, ◌-◌, ◌+◌, ◌++◌, ◌==◌, ⊤, Ok, Err, length, filter, IfOk, IfErr, OnOk, MatchOption, string_bytes};
ghost use Rattle.env_pieces.specs.Forms.{text_of, texts_of, raw_of, raw_piece, feeds, signed_part, shown, FaultIs};
ghost use Rattle.env_pieces.specs.Inside.{HidesInside};
ghost use Rattle.env_pieces.specs.Steps.{Goes};

use crate::piece::{Mark, Piece};
use crate::squeeze::squeezed;
use scons_base::Memory;
use std::alloc::{AllocError, Global};

/// How the pieces of a text are shown.
#[derive(Clone, Copy, Debug, PartialEq, Eq)]
pub enum Mode {
    /// The texts, with each run of white space as one space and none at the ends.
    Text,
    /// All as it stands, with the marks.
    Raw,
    /// As `Text`, with a space in place of each part between marks.
    Signed,
}

/// Why pieces have no signed form.
#[derive(Clone, Copy, Debug, PartialEq, Eq)]
pub enum FormFault {
    /// The piece of this number ends a part that isn't open; or a part is open behind the last piece.
    Marks(u32),
    Memory,
}

impl From<AllocError> for FormFault {
    ghost use Rattle.std.specs.Prelude.{◌≡◌};
    ghost use Rattle.env_pieces.specs.declared.form.FormFault.TheVariants as fault;

    ghost from_gives = { λ _ e. e ≡ fault.Memory };

    fn from(_: AllocError) -> Self {
        FormFault::Memory
    }
}

impl From<Memory> for FormFault {
    ghost use Rattle.std.specs.Prelude.{◌≡◌};
    ghost use Rattle.env_pieces.specs.declared.form.FormFault.TheVariants as fault;

    ghost from_gives = { λ _ e. e ≡ fault.Memory };

    fn from(_: Memory) -> Self {
        FormFault::Memory
    }
}

/// The pieces as a mode shows them.
pub fn form_of(alloc: Global, pieces: &[Piece], mode: Mode) -> Result<String, FormFault>
    requires { length pieces.now < 2 ^ 32 }
    ensures shown { IfOk result (λ s. shown mode pieces.now ≡ Ok (string_bytes s)) }
    ensures fault { IfErr result (λ e. e ≢ FormFault.Memory → FaultIs e (shown mode pieces.now)) }
    ensures hidden { IfOk result (λ s. mode ≡ Mode.Signed → HidesInside pieces.now (string_bytes s)) }
{
    match mode {
        Mode::Text => Ok(text_of(alloc, pieces)?),
        Mode::Raw => Ok(raw_of(alloc, pieces)?),
        Mode::Signed => {
            let signed = signed_part(alloc, pieces, false)?;
            Ok(squeezed(alloc, signed.as_str())?)
        }
    }
}

/// The pieces as text.
pub fn text_of(alloc: Global, pieces: &[Piece]) -> Result<String, AllocError>
    ensures { IfOk result (λ s. string_bytes s ≡ text_of pieces.now) }
{
    let texts = texts_of(alloc, pieces)?;
    squeezed(alloc, texts.as_str())
}

/// The texts, one behind another.
pub(crate) fn texts_of(alloc: Global, pieces: &[Piece]) -> Result<String, AllocError>
    ensures { IfOk result (λ s. string_bytes s ≡ texts_of pieces.now) }
{
    let mut out = String::new(alloc);
    for piece in pieces {
        if let Piece::Text(text) = piece {
            out.push_str(text.as_str())?;
        }
    }
    Ok(out)
}

pub(crate) fn raw_of(alloc: Global, pieces: &[Piece]) -> Result<String, AllocError>
    ensures { IfOk result (λ s. string_bytes s ≡ raw_of pieces.now) }
{
    let mut out = String::new(alloc);
    for piece in pieces {
        out.push_str(raw_piece(piece))?;
    }
    Ok(out)
}

fn raw_piece(piece: &Piece) -> &str
    ensures { result.now ≡ raw_piece piece.now }
{
    match piece {
        Piece::Text(text) => text.as_str(),
        Piece::Mark(Mark::Begin) => "$(",
        Piece::Mark(Mark::End) => "$)",
    }
}

/// The texts outside of marks, with a space for each part between them, and its line feeds where those are kept.
pub(crate) fn signed_part(alloc: Global, pieces: &[Piece], keep: bool) -> Result<String, FormFault>
    requires { length pieces.now < 2 ^ 32 }
    ensures part { IfOk result (λ s. signed_part keep 0 0 pieces.now ≡ Ok (string_bytes s)) }
    ensures fault { IfErr result (λ e. e ≢ FormFault.Memory → FaultIs e (signed_part keep 0 0 pieces.now)) }
{
    let mut out = String::new(alloc);
    let mut depth = 0u32;
    for (number, piece) in pieces.iter().enumerate() {
        match put_signed(&mut out, depth, piece, keep)? {
            Some(next) => depth = next,
            None => return Err(FormFault::Marks(number as u32)),
        }
    }
    if depth > 0 {
        return Err(FormFault::Marks(pieces.len() as u32));
    }
    Ok(out)
}

/// Puts what a piece shows where so many parts are open, and tells how many are then open: none can be where it ends a part
/// that isn't open.
#[tactic(auto, using(crate::proofs::Showing::goings))]
fn put_signed(
    out: &mut String,
    depth: u32,
    piece: &Piece,
    keep: bool,
) -> Result<Option<u32>, AllocError>
    requires { depth < 2 ^ 32 - 1 }
    ensures goes { IfOk result (λ next. Goes keep (string_bytes out.old) depth piece.now (string_bytes out.new) next) }
    ensures few { IfOk result (λ next. MatchOption next ⊤ (λ d. d ≤ depth + 1)) }
{
    match piece {
        Piece::Text(text) => {
            if depth == 0 {
                out.push_str(text.as_str())?;
            } else {
                put_feeds(out, text.as_str(), keep)?;
            }
            Ok(Some(depth))
        }
        Piece::Mark(Mark::Begin) => {
            if depth == 0 {
                out.push(' ')?;
            }
            Ok(Some(depth + 1))
        }
        Piece::Mark(Mark::End) if depth == 0 => Ok(None),
        Piece::Mark(Mark::End) => Ok(Some(depth - 1)),
    }
}

/// Puts the line feeds of a text, where they are kept.
fn put_feeds(out: &mut String, text: &str, keep: bool) -> Result<(), AllocError>
    ensures { OnOk result (string_bytes out.new ≡ string_bytes out.old ++ feeds keep text.now) }
{
    if keep {
        push_feeds(out, text.as_bytes())
    } else {
        Ok(())
    }
}

fn push_feeds(out: &mut String, text: &[u8]) -> Result<(), AllocError>
    ensures { OnOk result (string_bytes out.new ≡ string_bytes out.old ++ filter (λ b. b == 10) text.now) }
{
    for byte in text {
        if *byte == b'\n' {
            out.push('\n')?;
        }
    }
    Ok(())
}
