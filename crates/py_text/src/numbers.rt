//! Numbers as texts.
ghost use Rattle.std.specs.Prelude.{◌≡◌, string_bytes, IfOk};
ghost use Rattle.std.specs.List.{list_all};
ghost use Rattle.std.specs.Char.{is_ascii_digit};
ghost use Rattle.std.specs.Str.Parse.{without_leading_sign};
ghost use Rattle.py_text.specs.Numbers.{is_decimal, int_of, decimals};

use crate::fault::IntFault;
use scons_base::Memory;
use std::alloc::Global;

/// The number that a text spells.
pub fn int_of(text: &str) -> Result<i64, IntFault>
    ensures { result ≡ int_of text.now }
{
    if !is_decimal(text) {
        return Err(IntFault::BadText);
    }
    match text.parse::<i64>() {
        Ok(number) => Ok(number),
        Err(_) => Err(IntFault::Overflow),
    }
}

fn is_decimal(text: &str) -> bool
    ensures { result ≡ is_decimal text.now }
{
    let digits = without_sign(text.as_bytes());
    !digits.is_empty() && are_digits(digits)
}

fn are_digits(bytes: &[u8]) -> bool
    ensures { result ≡ list_all is_ascii_digit bytes.now }
{
    bytes.iter().all(|byte| byte.is_ascii_digit())
}

fn without_sign(text: &[u8]) -> &[u8]
    ensures { result.now ≡ without_leading_sign text.now }
{
    match text {
        [b'-' | b'+', digits @ ..] => digits,
        _ => text,
    }
}

/// The digits of a number, behind `-` where it is less than 0.
pub fn decimals(alloc: Global, number: i64) -> Result<String, Memory>
    ensures { IfOk result (λ text. string_bytes text ≡ decimals number) }
{
    Ok(number.to_string(alloc)?)
}
