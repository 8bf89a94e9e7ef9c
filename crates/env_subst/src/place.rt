//! Places of texts.
ghost use Rattle.std.specs.Str.{IsCharBoundary};

use scons_base::Text;

/// A place of a text, where a character begins or the text ends.
#[derive(Drop)]
pub(crate) struct Place {
    pub(crate) text: Text,
    pub(crate) at: usize,
    ghost boundary: { IsCharBoundary text at },
}
