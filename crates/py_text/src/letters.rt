//! ASCII letters in the other case. Other characters stay.
ghost use Rattle.std.specs.Prelude.{◌≡◌, string_bytes, IfOk};
ghost use Rattle.py_text.specs.Letters.{lower, upper};

use scons_base::Memory;
use std::alloc::Global;

pub fn lower(alloc: Global, text: &str) -> Result<String, Memory>
    ensures { IfOk result (λ made. string_bytes made ≡ lower text.now) }
{
    Ok(text.to_ascii_lowercase(alloc)?)
}

pub fn upper(alloc: Global, text: &str) -> Result<String, Memory>
    ensures { IfOk result (λ made. string_bytes made ≡ upper text.now) }
{
    Ok(text.to_ascii_uppercase(alloc)?)
}
