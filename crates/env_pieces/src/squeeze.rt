//! White space.
ghost use Rattle.std.specs.Prelude.{◌≡◌, IfOk, OnOk, string_bytes};
ghost use Rattle.env_pieces.specs.Forms.{squeezed, put_part};

use env_text::split_at_white;
use std::alloc::{AllocError, Global};

/// The text with each run of white space as one space, and none at its ends.
pub(crate) fn squeezed(alloc: Global, text: &str) -> Result<String, AllocError>
    ensures { IfOk result (λ s. string_bytes s ≡ squeezed text.now) }
{
    let mut out = String::new(alloc);
    let mut rest = text;
    'parts: while let Some((part, after)) = split_at_white(rest) {
        put_part(&mut out, part)?;
        rest = after;
    }
    put_part(&mut out, rest)?;
    Ok(out)
}

/// Puts what stands between white space behind the words, unless it is empty.
fn put_part(out: &mut String, part: &str) -> Result<(), AllocError>
    ensures { OnOk result (string_bytes out.new ≡ put_part (string_bytes out.old) part.now) }
{
    if part.is_empty() {
        return Ok(());
    }
    if !out.is_empty() {
        out.push(' ')?;
    }
    out.push_str(part)
}
