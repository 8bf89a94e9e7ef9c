//! Which bytes of a script are what.
ghost use Rattle.std.specs.Prelude.{◌≡◌, ◌<◌, ◌≤◌, length, None, Some, MatchOption, IfSome};
ghost use Rattle.std.specs.List.{prefix_len};
ghost use Rattle.py_lex.specs.Bytes.{is_blank, is_comment_byte, after_line_end};
ghost use Rattle.scons_base.specs.Runs.{front_run, after_run};

use memchr::memchr2;

/// Stands behind what is UTF-8 of a script that isn't UTF-8 as a whole. No UTF-8 has this byte.
pub const NO_TEXT: u8 = 255;

pub fn is_blank(byte: u8) -> bool
    ensures { result ≡ is_blank byte }
{
    byte == b' ' || byte == b'\t'
}

/// The blanks in front, and what follows them.
pub fn cut_blanks(bytes: &[u8]) -> (&[u8], &[u8])
    ensures front { result.0.now ≡ front_run is_blank bytes.now }
    ensures rest { result.1.now ≡ after_run is_blank bytes.now }
    ensures fits { length result.1.now ≤ length bytes.now }
{
    bytes.split_at(blank_count(bytes))
}

fn blank_count(bytes: &[u8]) -> usize
    ensures count { result ≡ prefix_len is_blank bytes.now }
    ensures fits { result ≤ length bytes.now }
{
    bytes.iter().take_while(|byte| is_blank(**byte)).count()
}

/// What follows a comment.
pub fn after_comment(bytes: &[u8]) -> &[u8]
    ensures rest { result.now ≡ after_run is_comment_byte bytes.now }
    ensures fits { length result.now ≤ length bytes.now }
{
    bytes.split_at(comment_len(bytes)).1
}

#[tactic(auto, using(crate::proofs::Runs::comment_found, crate::proofs::Runs::comment_goes_on))]
fn comment_len(bytes: &[u8]) -> usize
    ensures count { result ≡ prefix_len is_comment_byte bytes.now }
    ensures fits { result ≤ length bytes.now }
{
    match memchr2(b'\n', NO_TEXT, bytes) {
        Some(end) => end,
        None => bytes.len(),
    }
}

/// What follows the line end in front, if one stands there.
pub fn after_line_end(bytes: &[u8]) -> Option<&[u8]>
    ensures rest { MatchOption result (after_line_end bytes.now ≡ None) (λ r. after_line_end bytes.now ≡ Some r.now) }
    ensures shorter { IfSome result (λ r. length r.now < length bytes.now) }
{
    match bytes {
        [b'\n', rest @ ..] => Some(rest),
        [b'\r', b'\n', rest @ ..] => Some(rest),
        _ => None,
    }
}
