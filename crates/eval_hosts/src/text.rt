//! Text that is kept, piece by piece.
ghost use Rattle.std.specs.Prelude.{◌≡◌, ◌++◌, OnOk, string_bytes};
ghost use Rattle.eval_hosts.specs.Texts.{Grown};

use std::alloc::AllocError;

/// A text behind another one. Where memory is short, what stood there stays.
pub(crate) fn append(text: &mut String, more: &str) -> Result<(), AllocError>
    ensures ok { OnOk result (string_bytes text.new ≡ string_bytes text.old ++ more.now) }
    ensures grown { Grown (string_bytes text.old) (string_bytes text.new) }
{
    text.push_str(more)
}
