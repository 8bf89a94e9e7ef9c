//! Numbers in a reference.
ghost use Rattle.std.specs.Prelude.{◌≡◌, ◌+◌, ◌*◌, min, true};
ghost use Rattle.std.specs.List.{list_all};
ghost use Rattle.std.specs.Char.{is_ascii_digit, digit_value};
ghost use Rattle.env_text.specs.Words.{is_numeral, index_of, value_of, number_of};
ghost use Rattle.env_text.specs.Views.{plain_word};

use crate::part::Index;
use crate::word::Word;

/// The largest number.
pub const LARGEST: usize = 0xFFFF_FFFF_FFFF_FFFF;

/// The number that these digits are, with a minus in front or not.
pub fn number_of<'a>(minus: bool, digits: &[u8]) -> Word<'a>
    requires { list_all is_ascii_digit digits.now ≡ true }
    ensures { plain_word result ≡ number_of minus digits.now }
{
    if is_numeral(digits) {
        Word::Number(index_of(minus, value_of(digits)))
    } else {
        Word::NoNumber
    }
}

fn is_numeral(digits: &[u8]) -> bool
    ensures { result ≡ is_numeral digits.now }
{
    match digits {
        [] => false,
        [_] => true,
        [first, ..] => *first != b'0',
    }
}

fn index_of(minus: bool, value: usize) -> Index
    ensures { result ≡ index_of minus value }
{
    if minus && value != 0 {
        Index::FromBack(value)
    } else {
        Index::FromFront(value)
    }
}

fn value_of(digits: &[u8]) -> usize
    requires { list_all is_ascii_digit digits.now ≡ true }
    ensures { result ≡ value_of digits.now }
{
    let mut value: usize = 0;
    for digit in digits {
        value = with_digit(value, *digit);
    }
    value
}

/// The number with one digit more, or the largest one.
fn with_digit(value: usize, digit: u8) -> usize
    requires { is_ascii_digit digit ≡ true }
    ensures { result ≡ min (value * 10 + digit_value digit) LARGEST }
{
    value
        .saturating_mul(10)
        .saturating_add((digit - b'0') as usize)
}
