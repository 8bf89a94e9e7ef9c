//! Texts without the white space around them.
ghost use Rattle.std.specs.Prelude.{◌≡◌};
ghost use Rattle.py_text.specs.Stripping.{lstrip, rstrip, strip};

use crate::characters::{last_char, next_char};
use crate::white::is_white;

pub fn lstrip(text: &str) -> &str
    ensures { result.now ≡ lstrip text.now }
{
    let mut rest = text;
    'front: while let Some((c, after)) = next_char(rest) {
        if !is_white(c) {
            return rest;
        }
        rest = after;
    }
    rest
}

pub fn rstrip(text: &str) -> &str
    ensures { result.now ≡ rstrip text.now }
{
    let mut rest = text;
    'end: while let Some((before, c)) = last_char(rest) {
        if !is_white(c) {
            return rest;
        }
        rest = before;
    }
    rest
}

pub fn strip(text: &str) -> &str
    ensures { result.now ≡ strip text.now }
{
    rstrip(lstrip(text))
}
