//! The lines of a command, and the texts of paths.
ghost use Rattle.std.specs.Prelude.{◌≡◌, ◌≢◌, ◌<◌, ◌^◌, Ok, Err, length, IfOk, IfErr, string_bytes};
ghost use Rattle.env_pieces.specs.Lines.{line_forms};
ghost use Rattle.env_subst.specs.Settings.{setting};
ghost use Rattle.env_subst.specs.Results.{lines_of, path_text};

use crate::fault::SubstFault;
use crate::locals::Locals;
use crate::saying::is_literal;
use crate::substitution::{form_fault, pieces_of, subst};
use env_pieces::{Mode, Piece, line_forms};
use env_vars::Envs;
use scons_base::{EnvId, Memory, Texts};
use std::alloc::Global;

/// The forms of the lines of a command: what a text stands for is cut at its line feeds before white space is made one space.
/// A part between marks that goes over a line feed is closed there and opened again behind it.
pub fn lines(
    alloc: Global,
    envs: &Envs,
    env: EnvId,
    text: &str,
    locals: &Locals,
    mode: Mode,
) -> Result<Texts, SubstFault>
    requires { env.0 < length envs.now }
    ensures forms { IfOk result (λ t. lines_of (setting envs.now env.0 locals.now) mode text.now ≡ Ok t) }
    ensures fault { IfErr result (λ e. e ≢ SubstFault.Memory
        → lines_of (setting envs.now env.0 locals.now) mode text.now ≡ Err e) }
{
    let pieces = pieces_of(alloc, envs, env, text, locals)?;
    match line_forms(alloc, pieces.as_slice(), mode) {
        Ok(forms) => Ok(forms),
        Err(fault) => Err(form_fault(fault)),
    }
}

/// What the lines of a command are for the shell, and in records.
#[derive(Debug, Drop)]
pub struct CommandLines {
    pub plain: Texts,
    pub signed: Texts,
}

/// The lines of a command as text and as signed, of one reading.
pub fn command_lines(
    alloc: Global,
    envs: &Envs,
    env: EnvId,
    text: &str,
    locals: &Locals,
) -> Result<CommandLines, SubstFault>
    requires { env.0 < length envs.now }
    ensures plain { IfOk result (λ c. lines_of (setting envs.now env.0 locals.now) Mode.Text text.now ≡ Ok c.plain) }
    ensures signed { IfOk result (λ c. lines_of (setting envs.now env.0 locals.now) Mode.Signed text.now ≡ Ok c.signed) }
    ensures fault { IfErr result (λ e. e ≢ SubstFault.Memory
        → lines_of (setting envs.now env.0 locals.now) Mode.Signed text.now ≡ Err e) }
{
    let pieces = pieces_of(alloc, envs, env, text, locals)?;
    let plain = plain_lines(alloc, pieces.as_slice())?;
    match line_forms(alloc, pieces.as_slice(), Mode::Signed) {
        Ok(signed) => Ok(CommandLines { plain, signed }),
        Err(fault) => Err(form_fault(fault)),
    }
}

/// The lines as text, which are there whatever the marks are.
fn plain_lines(alloc: Global, pieces: &[Piece]) -> Result<Texts, Memory>
    requires { length pieces.now < 2 ^ 32 }
    ensures { IfOk result (λ t. line_forms Mode.Text pieces.now ≡ Ok t) }
{
    match line_forms(alloc, pieces, Mode::Text) {
        Ok(plain) => Ok(plain),
        Err(_) => Err(Memory),
    }
}

/// The text of a path: one without a `$` is taken as it stands, any other is what it stands for as text.
pub fn path_text(
    alloc: Global,
    envs: &Envs,
    env: EnvId,
    text: &str,
    locals: &Locals,
) -> Result<String, SubstFault>
    requires { env.0 < length envs.now }
    ensures text { IfOk result (λ s. path_text (setting envs.now env.0 locals.now) text.now ≡ Ok (string_bytes s)) }
    ensures fault { IfErr result (λ e. e ≢ SubstFault.Memory
        → path_text (setting envs.now env.0 locals.now) text.now ≡ Err e) }
{
    if is_literal(text) {
        Ok(String::from_str(alloc, text)?)
    } else {
        subst(alloc, envs, env, text, locals, Mode::Text)
    }
}
