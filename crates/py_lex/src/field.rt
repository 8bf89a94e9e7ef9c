//! The tokens of a field of an f-text.
ghost use Rattle.std.specs.Prelude.{◌≡◌, ◌<◌, ◌+◌, ◌^◌, length, IfOk};
ghost use Rattle.py_lex.specs.Tokens.{field_read, field_sign, ends_field};
ghost use Rattle.py_lex.specs.Utf8.{IsClean};
ghost use Rattle.py_lex.specs.Views.{turn_of};
ghost use Rattle.py_lex.specs.Sizes.{FitsTurn};

use crate::bytes::after_line_end;
use crate::fault::LexKind;
use crate::token::{Class, Turn, class_of, named, number_token, refused, sign_token};
use scons_base::{Memory, cut_name};
use std::alloc::Global;

/// The token of a field in front, inside this many brackets of the field. A field holds no text.
pub fn field_token<'a>(alloc: Global, inner: u32, bytes: &'a [u8]) -> Result<Turn<'a>, Memory>
    requires some { 0 < length bytes.now }
    requires room { inner + length bytes.now < 2 ^ 31 }
    requires clean { IsClean bytes.now }
    ensures turn { IfOk result (λ t. turn_of t ≡ field_read inner bytes.now) }
    ensures fits { IfOk result (FitsTurn inner bytes.now) }
{
    let Some((byte, _)) = bytes.split_first() else {
        unreachable!();
    };
    match class_of(*byte) {
        Class::Quote => Ok(refused(LexKind::BadField)),
        Class::Digit => Ok(number_token(inner, bytes)),
        Class::Letter => {
            let (name, rest) = cut_name(bytes);
            named(alloc, inner, name, rest)
        }
        Class::NoText => Ok(refused(LexKind::NotUtf8)),
        Class::Sign => Ok(field_sign(inner, bytes)),
    }
}

fn field_sign(inner: u32, bytes: &[u8]) -> Turn<'_>
    requires room { inner + length bytes.now < 2 ^ 31 }
    requires some { 0 < length bytes.now }
    ensures turn { turn_of result ≡ field_sign inner bytes.now }
    ensures fits { FitsTurn inner bytes.now result }
{
    if ends_field(bytes) {
        return refused(LexKind::BadField);
    }
    sign_token(inner, bytes)
}

/// A backslash, a comment or a line end.
fn ends_field(bytes: &[u8]) -> bool
    ensures { result ≡ ends_field bytes.now }
{
    match bytes {
        [b'\\' | b'#', ..] => true,
        _ => after_line_end(bytes).is_some(),
    }
}
