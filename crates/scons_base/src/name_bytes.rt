//! The bytes of names, in scripts and in texts of variables.
ghost use Rattle.std.specs.Prelude.{◌≡◌, ◌≤◌, true, length};
ghost use Rattle.std.specs.List.{prefix_len, list_all};
ghost use Rattle.scons_base.specs.Runs.{is_name_byte, front_run, after_run};

use std::str;

/// A letter, a digit or an underscore.
pub fn is_name_byte(byte: u8) -> bool
    ensures { result ≡ is_name_byte byte }
{
    byte.is_ascii_alphanumeric() || byte == b'_'
}

/// The letters, digits and underscores in front, and what follows them.
#[tactic(auto, using(crate::proofs::Runs::run_passes))]
pub fn cut_name(bytes: &[u8]) -> (&[u8], &[u8])
    ensures front { result.0.now ≡ front_run is_name_byte bytes.now }
    ensures name { list_all is_name_byte result.0.now ≡ true }
    ensures rest { result.1.now ≡ after_run is_name_byte bytes.now }
    ensures fits { length result.1.now ≤ length bytes.now }
{
    bytes.split_at(name_len(bytes))
}

fn name_len(bytes: &[u8]) -> usize
    ensures count { result ≡ prefix_len is_name_byte bytes.now }
    ensures fits { result ≤ length bytes.now }
{
    bytes.iter().take_while(|byte| is_name_byte(**byte)).count()
}

/// A name as a text.
#[tactic(auto, using(crate::proofs::Ascii::name_is_text))]
pub fn name_text(name: &[u8]) -> &str
    requires { list_all is_name_byte name.now ≡ true }
    ensures { result.now ≡ name.now }
{
    match str::from_utf8(name) {
        Ok(text) => text,
        Err(_) => unreachable!(),
    }
}
