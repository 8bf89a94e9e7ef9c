//! How directories lie to the variant directories.
ghost use Rattle.std.specs.Prelude.{◌≡◌, ◌||◌, option_copied};
ghost use Rattle.std.specs.List.{list_any};
ghost use Rattle.scons_base.specs.Parts.{is_below, lies_in};
ghost use Rattle.variant_dirs.specs.Variants.{variant_of, is_there, is_nested, stands};

use crate::variants::Variant;
use scons_base::PathText;

/// The variant directory that a path lies in.
pub(crate) fn variant_of<'a>(variants: &'a [Variant], path: &PathText) -> Option<&'a Variant>
    ensures { option_copied result ≡ variant_of variants.now path.now }
{
    for variant in variants {
        if lies_in(path, &variant.dir) {
            return Some(variant);
        }
    }
    None
}

fn lies_in(path: &PathText, dir: &PathText) -> bool
    ensures { result ≡ lies_in path.now dir.now }
{
    path == dir || path.is_below(dir)
}

/// Whether this very variant directory is there.
pub(crate) fn is_there(
    variants: &[Variant],
    dir: &PathText,
    source: &PathText,
    duplicate: bool,
) -> bool
    ensures { result ≡ is_there variants.now dir.now source.now duplicate }
{
    variants.iter().any(|v| v.dir == *dir && v.source == *source && v.duplicate == duplicate)
}

/// Whether the directory stands among the variant directories.
pub(crate) fn stands(variants: &[Variant], dir: &PathText) -> bool
    ensures { result ≡ stands variants.now dir.now }
{
    variants.iter().any(|v| v.dir == *dir)
}

/// Whether a variant directory would lie in another one, or its source in one.
pub(crate) fn is_nested(variants: &[Variant], dir: &PathText, source: &PathText) -> bool
    ensures { result ≡ is_nested variants.now dir.now source.now }
{
    lies_in(source, dir) || is_in_the_way(variants, dir, source)
}

fn is_in_the_way(variants: &[Variant], dir: &PathText, source: &PathText) -> bool
    ensures { result ≡ list_any (λ v. lies_in source.now v.dir
        || (is_below dir.now v.dir || is_below v.dir dir.now)) variants.now }
{
    variants.iter().any(|v| lies_in_way(v, dir, source))
}

fn lies_in_way(variant: &Variant, dir: &PathText, source: &PathText) -> bool
    ensures { result ≡ (lies_in source.now variant.now.dir
        || (is_below dir.now variant.now.dir || is_below variant.now.dir dir.now)) }
{
    lies_in(source, &variant.dir) || dir.is_below(&variant.dir) || variant.dir.is_below(dir)
}
