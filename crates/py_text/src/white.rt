//! White space.
ghost use Rattle.std.specs.Prelude.{◌≡◌};
ghost use Rattle.py_text.specs.White.{is_white};

pub(crate) fn is_white(c: char) -> bool
    ensures { result ≡ is_white c }
{
    c.is_whitespace() || matches!(c, '\x1c'..='\x1f')
}
