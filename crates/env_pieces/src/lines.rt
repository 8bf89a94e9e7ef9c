//! The forms of lines: pieces are cut at line feeds before white space is made one space.
ghost use Rattle.std.specs.Prelude.{◌≡◌, ◌≢◌, ◌<◌, ◌++◌, ◌^◌, Ok, length, IfOk, IfErr, OnOk, string_bytes};
ghost use Rattle.env_pieces.specs.Forms.{FaultIs};
ghost use Rattle.env_pieces.specs.Inside.{LinesHideInside};
ghost use Rattle.env_pieces.specs.Lines.{flat, line_form, lines_in, line_forms};

use crate::form::{FormFault, Mode, raw_of, signed_part, texts_of};
use crate::piece::Piece;
use crate::squeeze::squeezed;
use scons_base::{Memory, Text, Texts};
use std::alloc::{AllocError, Global};

/// The lines of the pieces, each as a mode shows it. A part between marks may go over a line feed: its line feeds count too.
pub fn line_forms(alloc: Global, pieces: &[Piece], mode: Mode) -> Result<Texts, FormFault>
    requires { length pieces.now < 2 ^ 32 }
    ensures forms { IfOk result (λ t. line_forms mode pieces.now ≡ Ok t) }
    ensures fault { IfErr result (λ e. e ≢ FormFault.Memory → FaultIs e (line_forms mode pieces.now)) }
    ensures hidden { IfOk result (λ t. mode ≡ Mode.Signed → LinesHideInside pieces.now t) }
{
    let flat = flat(alloc, pieces, mode)?;
    let mut forms = Texts::new(Vec::new(alloc));
    push_lines(alloc, &mut forms, flat.as_str(), mode)?;
    Ok(forms)
}

/// What the pieces show before white space is made one space.
fn flat(alloc: Global, pieces: &[Piece], mode: Mode) -> Result<String, FormFault>
    requires { length pieces.now < 2 ^ 32 }
    ensures text { IfOk result (λ s. flat mode pieces.now ≡ Ok (string_bytes s)) }
    ensures fault { IfErr result (λ e. e ≢ FormFault.Memory → FaultIs e (flat mode pieces.now)) }
{
    match mode {
        Mode::Text => Ok(texts_of(alloc, pieces)?),
        Mode::Raw => Ok(raw_of(alloc, pieces)?),
        Mode::Signed => signed_part(alloc, pieces, true),
    }
}

fn push_lines(alloc: Global, forms: &mut Texts, text: &str, mode: Mode) -> Result<(), Memory>
    ensures { OnOk result (forms.new ≡ forms.old ++ lines_in mode text.now) }
{
    let mut rest = text;
    'lines: while let Some((line, after)) = rest.split_once('\n') {
        forms.push(line_form(alloc, line, mode)?)?;
        rest = after;
    }
    forms.push(line_form(alloc, rest, mode)?)?;
    Ok(())
}

fn line_form(alloc: Global, line: &str, mode: Mode) -> Result<Text, AllocError>
    ensures { IfOk result (λ t. t ≡ line_form mode line.now) }
{
    match mode {
        Mode::Raw => Ok(Text::new(String::from_str(alloc, line)?)),
        Mode::Text | Mode::Signed => Ok(Text::new(squeezed(alloc, line)?)),
    }
}
