//! Numbers of a command line.
ghost use Rattle.std.specs.Prelude.{◌≡◌};
ghost use Rattle.scons_words.specs.Numbers.{number_up_to, digits_up_to, with_digit};

/// The number that decimal digits spell, without a sign or a leading zero, if it is from 1 to the limit.
pub(crate) fn number_up_to(text: &str, limit: u32) -> Option<u32>
    ensures { result ≡ number_up_to limit text.now }
{
    let bytes = text.as_bytes();
    if matches!(bytes, [] | [b'0', ..]) {
        return None;
    }
    digits_up_to(bytes, limit)
}

/// The number of digits, if there are only digits and it doesn't pass the limit.
fn digits_up_to(digits: &[u8], limit: u32) -> Option<u32>
    ensures { result ≡ digits_up_to limit 0 digits.now }
{
    let mut number: u32 = 0;
    for digit in digits {
        number = with_digit(number, *digit, limit)?;
    }
    Some(number)
}

fn with_digit(number: u32, digit: u8, limit: u32) -> Option<u32>
    ensures { result ≡ with_digit limit number digit }
{
    if !matches!(digit, b'0'..=b'9') {
        return None;
    }
    let more = u64::from(number) * 10 + u64::from(digit - b'0');
    if more <= u64::from(limit) {
        Some(more as u32)
    } else {
        None
    }
}
