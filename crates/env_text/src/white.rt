//! White space, and what stands between it.
ghost use Rattle.std.specs.Prelude.{◌≡◌, ◌<◌, length, position, MatchOption};
ghost use Rattle.std.specs.List.{position_or_len, before_first, after_first};
ghost use Rattle.env_text.specs.Bytes.{is_white};

use crate::bytes::is_white;

/// What stands before the first white space, and what behind it.
pub fn split_at_white(text: &str) -> Option<(&str, &str)>
    ensures { MatchOption result (position_or_len is_white text.now ≡ length text.now)
        (λ parts. (position_or_len is_white text.now < length text.now)
        × (parts.0.now ≡ before_first is_white text.now) × (parts.1.now ≡ after_first is_white text.now)) }
{
    match white_in(text.as_bytes()) {
        Some(place) => Some((&text[..place], &text[place + 1..])),
        None => None,
    }
}

fn white_in(text: &[u8]) -> Option<usize>
    ensures { result ≡ position is_white text.now }
{
    text.iter().position(|b| is_white(*b))
}
