//! The order of texts.
ghost use Rattle.std.specs.Prelude.{◌≡◌};
ghost use Rattle.py_text.specs.Characters.{compare};

use std::cmp::Ordering;

/// How two texts compare by their characters. The order of their UTF-8 is the same.
pub fn compare(a: &str, b: &str) -> Ordering
    ensures { result ≡ compare a.now b.now }
{
    a.cmp(&b)
}
