//! How a text shows within a list.
ghost use Rattle.std.specs.Prelude.{◌≡◌, ◌++◌, ◌<◌, length, string_bytes, IfOk, OnOk};
ghost use Rattle.std.specs.Char.{digit_char};
ghost use Rattle.py_text.specs.Quoting.{quote_of, by_number, escaped, quoted};
ghost use Rattle.py_text.specs.Sizes.{saturated};

use scons_base::Memory;
use std::alloc::{AllocError, Global};

/// The text in quotes.
pub fn quoted(alloc: Global, text: &str) -> Result<String, Memory>
    ensures { IfOk result (λ shown. string_bytes shown ≡ quoted text.now) }
{
    let quote = quote_of(text);
    let mut shown = String::new(alloc);
    shown.push(quote)?;
    for c in text.chars() {
        push_escaped(&mut shown, quote, c)?;
    }
    shown.push(quote)?;
    Ok(shown)
}

/// The length of what `quoted` makes.
pub fn quoted_length(text: &str) -> u64
    ensures { result ≡ saturated (length (quoted text.now)) }
{
    let quote = quote_of(text);
    let mut length: u64 = 2;
    for c in text.chars() {
        length = length.saturating_add(escaped_length(quote, c));
    }
    length
}

fn quote_of(text: &str) -> char
    ensures { result ≡ quote_of text.now }
{
    let bytes = text.as_bytes();
    if bytes.contains(&b'\'') && !bytes.contains(&b'"') {
        '"'
    } else {
        '\''
    }
}

fn push_escaped(shown: &mut String, quote: char, c: char) -> Result<(), AllocError>
    ensures { OnOk result (string_bytes shown.new ≡ string_bytes shown.old ++ escaped quote c) }
{
    match c {
        _ if c == '\\' || c == quote => {
            shown.push('\\')?;
            shown.push(c)
        }
        '\n' => shown.push_str("\\n"),
        '\r' => shown.push_str("\\r"),
        '\t' => shown.push_str("\\t"),
        '\0'..='\x1f' | '\x7f' => push_number(shown, c),
        _ => shown.push(c),
    }
}

/// Writes a character below 128 by its number.
fn push_number(shown: &mut String, c: char) -> Result<(), AllocError>
    requires { c < 128 }
    ensures { OnOk result (string_bytes shown.new ≡ string_bytes shown.old ++ by_number c) }
{
    let code = c as u8;
    shown.push_str("\\x")?;
    shown.push(hex_digit(code / 16))?;
    shown.push(hex_digit(code % 16))
}

fn hex_digit(value: u8) -> char
    requires { value < 16 }
    ensures value { result ≡ digit_char value }
    ensures ascii { result < 128 }
{
    let digit = if value < 10 {
        b'0' + value
    } else {
        b'a' + (value - 10)
    };
    digit as char
}

fn escaped_length(quote: char, c: char) -> u64
    ensures { result ≡ length (escaped quote c) }
{
    match c {
        _ if c == '\\' || c == quote => 1 + c.len_utf8() as u64,
        '\n' | '\r' | '\t' => 2,
        '\0'..='\x1f' | '\x7f' => 4,
        _ => c.len_utf8() as u64,
    }
}
