//! Which sources are scanned.
ghost use Rattle.std.specs.Prelude.{◌≡◌};
ghost use Rattle.c_scanner.specs.Suffixes.{is_scanned_suffix};

/// Whether a source with this suffix is scanned.
pub fn is_scanned(suffix: &str) -> bool
    ensures { result ≡ is_scanned_suffix suffix.now }
{
    matches!(
        suffix,
        ".c" | ".C"
            | ".cc"
            | ".cpp"
            | ".cxx"
            | ".h"
            | ".H"
            | ".hh"
            | ".hpp"
            | ".hxx"
            | ".m"
            | ".mm"
            | ".S"
    )
}
