//! The bytes that names and white space are made of.
ghost use Rattle.std.specs.Prelude.{◌≡◌, ◌≤◌, ◌+◌, ⊤, true, length, MatchOption};
ghost use Rattle.std.specs.List.{prefix_len, list_all};
ghost use Rattle.std.specs.Char.{is_ascii_digit};
ghost use Rattle.env_text.specs.Bytes.{is_white, is_name_first, is_plain, begins_name, goes_on, dotted_len};
ghost use Rattle.scons_base.specs.Runs.{is_name_byte, front_run, after_run};
ghost use Rattle.env_text.specs.Words.{words_of};
ghost use Rattle.env_text.specs.Views.{BeginsWord};

use scons_base::is_name_byte;

pub fn is_white(byte: u8) -> bool
    ensures { result ≡ is_white byte }
{
    matches!(byte, b' ' | 9..=13)
}

pub fn is_name_first(byte: u8) -> bool
    ensures { result ≡ is_name_first byte }
{
    byte.is_ascii_alphabetic() || byte == b'_'
}

/// What follows the white space in front.
#[tactic(auto, using(crate::proofs::WordLists::white_skipped, crate::proofs::WordLists::word_behind_white))]
pub fn after_white(bytes: &[u8]) -> &[u8]
    ensures words { words_of result.now ≡ words_of bytes.now }
    ensures word { BeginsWord result.now }
    ensures fits { length result.now ≤ length bytes.now }
{
    bytes.split_at(white_len(bytes)).1
}

fn white_len(bytes: &[u8]) -> usize
    ensures count { result ≡ prefix_len is_white bytes.now }
    ensures fits { result ≤ length bytes.now }
{
    bytes.iter().take_while(|byte| is_white(**byte)).count()
}

/// The digits in front, and what follows them.
#[tactic(auto, using(scons_base::proofs::Runs::run_passes))]
pub fn cut_digits(bytes: &[u8]) -> (&[u8], &[u8])
    ensures front { result.0.now ≡ front_run is_ascii_digit bytes.now }
    ensures digits { list_all is_ascii_digit result.0.now ≡ true }
    ensures rest { result.1.now ≡ after_run is_ascii_digit bytes.now }
    ensures fits { length result.1.now ≤ length bytes.now }
{
    bytes.split_at(digits_len(bytes))
}

fn digits_len(bytes: &[u8]) -> usize
    ensures count { result ≡ prefix_len is_ascii_digit bytes.now }
    ensures fits { result ≤ length bytes.now }
{
    bytes
        .iter()
        .take_while(|byte| byte.is_ascii_digit())
        .count()
}

/// How many bytes stand in front of the next `$`.
pub fn plain_len(bytes: &[u8]) -> usize
    ensures count { result ≡ prefix_len is_plain bytes.now }
    ensures fits { result ≤ length bytes.now }
{
    bytes.iter().take_while(|byte| **byte != b'$').count()
}

fn begins_name(bytes: &[u8]) -> bool
    ensures { result ≡ begins_name bytes.now }
{
    match bytes {
        [first, ..] => is_name_first(*first),
        [] => false,
    }
}

fn goes_on(first: u8, rest: &[u8]) -> bool
    ensures { result ≡ goes_on first rest.now }
{
    is_name_byte(first) || first == b'.' && begins_name(rest)
}

/// What follows the byte in front, if a name without braces goes on with it.
fn behind_name_byte(bytes: &[u8]) -> Option<&[u8]>
    ensures name { MatchOption result (dotted_len bytes.now ≡ 0) (λ rest. dotted_len bytes.now ≡ 1 + dotted_len rest.now) }
    ensures length { MatchOption result ⊤ (λ rest. length bytes.now ≡ 1 + length rest.now) }
{
    match bytes {
        [first, rest @ ..] if goes_on(*first, rest) => Some(rest),
        _ => None,
    }
}

/// How many bytes a name without braces has.
pub fn dotted_len(bytes: &[u8]) -> usize
    ensures size { result ≡ dotted_len bytes.now }
    ensures fits { result ≤ length bytes.now }
{
    let mut len = 0;
    let mut left = bytes;
    'name: while let Some(rest) = behind_name_byte(left) {
        len += 1;
        left = rest;
    }
    len
}
