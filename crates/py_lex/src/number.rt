//! Integers of a script.
ghost use Rattle.std.specs.Prelude.{◌≡◌, ◌≤◌};
ghost use Rattle.py_lex.specs.Numbers.{number_of, value_in};
ghost use Rattle.py_lex.specs.Numbers.{with_digit};

/// The largest integer of a script.
pub const LARGEST: u64 = 0x7FFF_FFFF_FFFF_FFFF;

/// The value of a literal, which is the digit in front and all letters, digits and underscores behind it.
pub fn number_of(literal: &[u8]) -> Option<u64>
    ensures { result ≡ number_of literal.now }
{
    match literal {
        [b'0', b'x', digits @ ..] => value_in(16, digits),
        [b'0', b'o', digits @ ..] => value_in(8, digits),
        [b'0', b'b', digits @ ..] => value_in(2, digits),
        [b'0', _, ..] => None,
        _ => value_in(10, literal),
    }
}

fn value_in(base: u32, digits: &[u8]) -> Option<u64>
    requires low { 2 ≤ base }
    requires high { base ≤ 16 }
    ensures { result ≡ value_in base digits.now }
{
    if digits.is_empty() {
        return None;
    }
    let mut value: u64 = 0;
    for byte in digits {
        value = with_digit(value, base, *byte)?;
    }
    Some(value)
}

/// The value with one digit more, if it isn't too large.
fn with_digit(value: u64, base: u32, byte: u8) -> Option<u64>
    requires low { 2 ≤ base }
    requires high { base ≤ 16 }
    ensures { result ≡ with_digit value base byte }
{
    let digit = (byte as char).to_digit(base)?;
    let next = value
        .checked_mul(u64::from(base))?
        .checked_add(u64::from(digit))?;
    if next <= LARGEST { Some(next) } else { None }
}
