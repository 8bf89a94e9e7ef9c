//! Which files paths stand for, and where those of variant directories come from.
ghost use Rattle.std.specs.Prelude.{◌≡◌, IfOk, map};
ghost use Rattle.variant_dirs.specs.Variants.{variant_of};
ghost use Rattle.scons_decls.specs.State.{declared_of};
ghost use Rattle.scons_rules.specs.Settled.{is_copied, is_uncopied, is_made, source_or_path, settled, named};

use env_subst::Named;
use scons_base::{Memory, PathText, Paths};
use scons_decls::Declarations;
use std::alloc::Global;

/// The file that a path stands for: in a variant directory without copies its source, where the path itself is no target and
/// no directory of targets.
pub(crate) fn settled(state: &Declarations, path: &PathText) -> Result<PathText, Memory>
    ensures { IfOk result (λ p. p ≡ settled (declared_of state.now) path.now) }
{
    if is_uncopied(state, path) && !is_made(state, path) {
        source_or_path(state, path)
    } else {
        path.copy()
    }
}

/// Whether a path lies in a variant directory into which sources are copied.
pub(crate) fn is_copied(state: &Declarations, path: &PathText) -> bool
    ensures { result ≡ is_copied (variant_of state.now.locals.variants path.now) }
{
    match state.locals.variants.variant_of(path) {
        Some(variant) => variant.duplicate,
        None => false,
    }
}

/// Whether a path lies in a variant directory without copies.
fn is_uncopied(state: &Declarations, path: &PathText) -> bool
    ensures { result ≡ is_uncopied (variant_of state.now.locals.variants path.now) }
{
    match state.locals.variants.variant_of(path) {
        Some(variant) => !variant.duplicate,
        None => false,
    }
}

/// Whether a path is a target, or a directory of targets.
fn is_made(state: &Declarations, path: &PathText) -> bool
    ensures { result ≡ is_made (declared_of state.now) path.now }
{
    state.made.contains(path) || state.made.has_below(path)
}

/// The source of a path in a variant directory; elsewhere the path itself.
fn source_or_path(state: &Declarations, path: &PathText) -> Result<PathText, Memory>
    ensures { IfOk result (λ p. p ≡ source_or_path (declared_of state.now) path.now) }
{
    match state.locals.variants.source_of(&state.locals.top, path)? {
        Some(source) => Ok(source),
        None => path.copy(),
    }
}

pub(crate) fn all_settled(
    alloc: Global,
    state: &Declarations,
    paths: &[PathText],
) -> Result<Paths, Memory>
    ensures { IfOk result (λ p. p ≡ map (settled (declared_of state.now)) paths.now) }
{
    let mut files = Paths::new(Vec::new(alloc));
    for path in paths {
        files.push(settled(state, path)?)?;
    }
    Ok(files)
}

/// These paths, each with its source.
pub(crate) fn named_all(
    alloc: Global,
    state: &Declarations,
    paths: &[PathText],
) -> Result<Vec<Named>, Memory>
    ensures { IfOk result (λ v. v.items ≡ map (named (declared_of state.now)) paths.now) }
{
    let mut nodes = Vec::with_capacity(alloc, paths.len())?;
    for path in paths {
        nodes.push(named_of(state, path.copy()?)?)?;
    }
    Ok(nodes)
}

fn named_of(state: &Declarations, path: PathText) -> Result<Named, Memory>
    ensures { IfOk result (λ n. n ≡ named (declared_of state.now) path) }
{
    let src = source_or_path(state, &path)?;
    Ok(Named { path, src })
}
