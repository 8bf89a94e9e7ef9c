//! Install and InstallAs: rules that copy.
ghost use Rattle.std.specs.Prelude.{◌≡◌, ◌≢◌, length, Ok, Err, IfOk, IfErr, OnOk};
ghost use Rattle.scons_decls.specs.State.{declared_of};
ghost use Rattle.scons_decls.specs.Steps.{in_turn};
ghost use Rattle.scons_declare.specs.Copies as spec;

use crate::site::{Site, as_answer, declare_rule, one_path};
use crate::suffixes::path_in;
use scons_base::{PathText, Paths};
use scons_decls::{Answer, Declarations, Given, NameFault, Recipe, bad_argument, dir_of, files_of};

/// `Install(dir, source)`: each source is copied into each directory under its own name. Without a source nothing is.
pub(crate) fn install(
    state: &mut Declarations,
    site: Site,
    dirs: &[Given],
    sources: &[Given],
) -> Result<Answer, NameFault>
    ensures ok { IfOk result (λ a. spec.install (declared_of state.old) site dirs.now sources.now
        ≡ Ok (a, declared_of state.new)) }
    ensures fault { IfErr result (λ e. e ≢ NameFault.Memory
        → spec.install (declared_of state.old) site dirs.now sources.now ≡ Err e) }
{
    if dirs.is_empty() {
        return Err(bad_argument(state, "Install"));
    }
    let files = files_of(state, site.env, sources, "Install")?;
    let mut targets = Paths::new(Vec::new(state.alloc));
    install_each(state, site, &mut targets, dirs, files.as_slice())?;
    as_answer(state, targets.as_slice())
}

/// Declares the copies in each directory, and adds their paths.
fn install_each(
    state: &mut Declarations,
    site: Site,
    targets: &mut Paths,
    dirs: &[Given],
    sources: &[PathText],
) -> Result<(), NameFault>
    ensures ok { OnOk result (in_turn (spec.installed_in site sources.now) dirs.now (targets.old, declared_of state.old)
        ≡ Ok (targets.new, declared_of state.new)) }
    ensures fault { IfErr result (λ e. e ≢ NameFault.Memory
        → in_turn (spec.installed_in site sources.now) dirs.now (targets.old, declared_of state.old) ≡ Err e) }
{
    for dir in dirs {
        let dir = dir_of(state, site.env, dir, "Install")?;
        install_all(state, site, targets, &dir, sources)?;
    }
    Ok(())
}

fn install_all(
    state: &mut Declarations,
    site: Site,
    targets: &mut Paths,
    dir: &PathText,
    sources: &[PathText],
) -> Result<(), NameFault>
    ensures ok { OnOk result (in_turn (spec.installed_one site dir.now) sources.now (targets.old, declared_of state.old)
        ≡ Ok (targets.new, declared_of state.new)) }
    ensures fault { IfErr result (λ e. e ≢ NameFault.Memory
        → in_turn (spec.installed_one site dir.now) sources.now (targets.old, declared_of state.old) ≡ Err e) }
{
    for source in sources {
        let target = path_in(state, dir.as_str(), source.name())?;
        copy_rule(state, site, Recipe::Install, &target, source)?;
        targets.push(target)?;
    }
    Ok(())
}

fn copy_rule(
    state: &mut Declarations,
    site: Site,
    recipe: Recipe,
    target: &PathText,
    source: &PathText,
) -> Result<(), NameFault>
    ensures ok { OnOk result (declared_of state.new
        ≡ spec.with_copy site recipe target.now source.now (declared_of state.old)) }
    ensures fault { IfErr result (λ e. e ≡ NameFault.Memory) }
{
    let targets = one_path(state, target)?;
    let sources = one_path(state, source)?;
    declare_rule(state, site, recipe, targets, sources)
}

/// `InstallAs(target, source)`: each source is copied to the target at its place.
pub(crate) fn install_as(
    state: &mut Declarations,
    site: Site,
    targets: &[Given],
    sources: &[Given],
) -> Result<Answer, NameFault>
    ensures ok { IfOk result (λ a. spec.install_as (declared_of state.old) site targets.now sources.now
        ≡ Ok (a, declared_of state.new)) }
    ensures fault { IfErr result (λ e. e ≢ NameFault.Memory
        → spec.install_as (declared_of state.old) site targets.now sources.now ≡ Err e) }
{
    if targets.is_empty() || targets.len() != sources.len() {
        return Err(bad_argument(state, "InstallAs"));
    }
    let made = files_of(state, site.env, targets, "InstallAs")?;
    let files = files_of(state, site.env, sources, "InstallAs")?;
    copy_each(state, site, made.as_slice(), files.as_slice())?;
    as_answer(state, made.as_slice())
}

/// Declares the copy of each source to the target at its place.
fn copy_each(
    state: &mut Declarations,
    site: Site,
    targets: &[PathText],
    sources: &[PathText],
) -> Result<(), NameFault>
    requires { length targets.now ≡ length sources.now }
    ensures ok { OnOk result (declared_of state.new
        ≡ spec.with_copies site targets.now sources.now (declared_of state.old)) }
    ensures fault { IfErr result (λ e. e ≡ NameFault.Memory) }
{
    for place in 0..targets.len() {
        copy_rule(
            state,
            site,
            Recipe::InstallAs,
            &targets[place],
            &sources[place],
        )?;
    }
    Ok(())
}
