//! The parts of a path.
ghost use Rattle.std.specs.Prelude.{◌≡◌, ◌<◌, ◌≤◌, ◌-◌, length, slice_index};
ghost use Rattle.std.specs.Str.{IsCharBoundary};
ghost use Rattle.scons_base.specs.Parts.{behind_last, name_of, suffix_of, base_of, dir_of, is_absolute, is_below};

use crate::path::PathText;

impl PathText {
    /// What stands behind the last slash: `.` at the top, nothing at the root.
    pub fn name(&self) -> &str
        ensures { result.now ≡ name_of self.now }
    {
        let text = self.as_str();
        &text[behind_last(text, b'/')..]
    }

    /// From the last dot of the name on, unless that dot is the name's first byte.
    pub fn suffix(&self) -> &str
        ensures { result.now ≡ suffix_of self.now }
    {
        let name = self.name();
        let behind = behind_last(name, b'.');
        if behind <= 1 { "" } else { &name[behind - 1..] }
    }

    /// The path without its suffix.
    pub fn base(&self) -> &str
        ensures { result.now ≡ base_of self.now }
    {
        let text = self.as_str();
        &text[..text.len() - self.suffix().len()]
    }

    /// The directory of the path: `.` at the top, `/` at the root.
    pub fn dir(&self) -> &str
        ensures { result.now ≡ dir_of self.now }
    {
        let text = self.as_str();
        match behind_last(text, b'/') {
            0 => ".",
            1 => "/",
            behind => &text[..behind - 1],
        }
    }

    /// Whether the path lies below a directory. The texts tell: a relative path lies below the top directory, and
    /// below no absolute one.
    pub fn is_below(&self, dir: &PathText) -> bool
        ensures { result ≡ is_below self.now dir.now }
    {
        let path = self.as_str().as_bytes();
        match dir.as_str().as_bytes() {
            b"." => !is_absolute(path) && !matches!(path, b"."),
            b"/" => is_absolute(path) && !matches!(path, b"/"),
            dir => path.starts_with(dir) && is_absolute(&path[dir.len()..]),
        }
    }
}

pub(crate) fn is_absolute(path: &[u8]) -> bool
    ensures { result ≡ is_absolute path.now }
{
    matches!(path, [b'/', ..])
}

/// The place behind the last such byte, 0 where there is none.
fn behind_last(text: &str, byte: u8) -> usize
    requires { byte < 128 }
    ensures place { result ≡ behind_last byte text.now }
    ensures bound { result ≤ length text.now }
    ensures found { 0 < result → slice_index text.now (result - 1) ≡ byte }
    ensures boundary { IsCharBoundary text.now result }
{
    let bytes = text.as_bytes();
    let mut behind = bytes.len();
    while behind > 0 && bytes[behind - 1] != byte {
        behind -= 1;
    }
    behind
}
