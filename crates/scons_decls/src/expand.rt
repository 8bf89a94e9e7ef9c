//! Texts of a script, expanded, and read as paths from the script's directory.
ghost use Rattle.std.specs.Prelude.{◌≡◌, ◌≢◌, Ok, Err, map, IfOk, IfErr};
ghost use Rattle.env_subst.specs.Expansions.{is_literal};
ghost use Rattle.scons_decls.specs.Environs as environs;
ghost use Rattle.scons_decls.specs.State.{declared_of};
ghost use Rattle.scons_decls.specs.Paths as spec;

use crate::declarations::Declarations;
use crate::fault::NameFault;
use crate::given::{Given, Nodes};
use env_subst::Mode;
use scons_base::{EnvId, Listing, PathText, Paths, Text};

/// What a text stands for in an environment.
pub fn expanded(state: &Declarations, env: EnvId, text: &str, mode: Mode) -> Result<Text, NameFault>
    ensures ok { IfOk result (λ t. environs.expanded state.now.envs state.now.locals env.0 mode text.now ≡ Ok t) }
    ensures fault { IfErr result (λ e. e ≢ NameFault.Memory
        → environs.expanded state.now.envs state.now.locals env.0 mode text.now ≡ Err e) }
{
    state.envs.subst(env, text, &state.locals, mode)
}

/// The path that an expanded text names.
pub fn path_at(state: &Declarations, text: &str) -> Result<PathText, NameFault>
    ensures ok { IfOk result (λ p. spec.path_at (declared_of state.now) text.now ≡ Ok p) }
    ensures fault { IfErr result (λ e. e ≢ NameFault.Memory → spec.path_at (declared_of state.now) text.now ≡ Err e) }
{
    let locals = &state.locals;
    Ok(PathText::resolve(state.alloc, &locals.top, &locals.dir, text)?)
}

/// The path that a text names.
pub fn path_of(state: &Declarations, env: EnvId, text: &Text) -> Result<PathText, NameFault>
    ensures ok { IfOk result (λ p. spec.path_of (declared_of state.now) env.0 text.now ≡ Ok p) }
    ensures fault { IfErr result (λ e. e ≢ NameFault.Memory
        → spec.path_of (declared_of state.now) env.0 text.now ≡ Err e) }
{
    if is_literal(text.as_str()) {
        return path_at(state, text.as_str());
    }
    let text = state.envs.path_text(env, text.as_str(), &state.locals)?;
    path_at(state, text.as_str())
}

/// A text without a `$`, which stands for itself.
fn is_literal(text: &str) -> bool
    ensures { result ≡ is_literal text.now }
{
    text.as_bytes().iter().all(|byte| *byte != b'$')
}

/// The fault of a call whose arguments are wrong.
pub fn bad_argument(state: &Declarations, name: &str) -> NameFault
    ensures { result ≢ NameFault.Memory → result ≡ NameFault.BadArgument name.now }
{
    match Text::of(state.alloc, name) {
        Ok(name) => NameFault::BadArgument(name),
        Err(_) => NameFault::Memory,
    }
}

/// The file that an argument of the call `name` stands for.
pub fn file_of(
    state: &Declarations,
    env: EnvId,
    given: &Given,
    name: &str,
) -> Result<PathText, NameFault>
    ensures ok { IfOk result (λ p. spec.file_of (declared_of state.now) env.0 name.now given.now ≡ Ok p) }
    ensures fault { IfErr result (λ e. e ≢ NameFault.Memory
        → spec.file_of (declared_of state.now) env.0 name.now given.now ≡ Err e) }
{
    match given {
        Given::Text(text) => path_of(state, env, text),
        Given::File(path) => Ok(path.copy()?),
        Given::Dir(_) | Given::Alias(_) => Err(bad_argument(state, name)),
    }
}

/// The directory that an argument of the call `name` stands for.
pub fn dir_of(
    state: &Declarations,
    env: EnvId,
    given: &Given,
    name: &str,
) -> Result<PathText, NameFault>
    ensures ok { IfOk result (λ p. spec.dir_of (declared_of state.now) env.0 name.now given.now ≡ Ok p) }
    ensures fault { IfErr result (λ e. e ≢ NameFault.Memory
        → spec.dir_of (declared_of state.now) env.0 name.now given.now ≡ Err e) }
{
    match given {
        Given::Text(text) => path_of(state, env, text),
        Given::Dir(path) => Ok(path.copy()?),
        Given::File(_) | Given::Alias(_) => Err(bad_argument(state, name)),
    }
}

/// The files that arguments stand for, in order.
pub fn files_of(
    state: &Declarations,
    env: EnvId,
    given: &[Given],
    name: &str,
) -> Result<Paths, NameFault>
    ensures ok { IfOk result (λ p. spec.files_of (declared_of state.now) env.0 name.now given.now ≡ Ok p) }
    ensures fault { IfErr result (λ e. e ≢ NameFault.Memory
        → spec.files_of (declared_of state.now) env.0 name.now given.now ≡ Err e) }
{
    let mut paths = Paths::new(Vec::new(state.alloc));
    for one in given {
        paths.push(file_of(state, env, one, name)?)?;
    }
    Ok(paths)
}

/// A copy of a list of paths.
pub fn listed(state: &Declarations, paths: &[PathText]) -> Result<Paths, NameFault>
    ensures ok { IfOk result (λ p. p ≡ paths.now) }
    ensures fault { IfErr result (λ e. e ≡ NameFault.Memory) }
{
    let mut list = Paths::new(Vec::new(state.alloc));
    for path in paths {
        list.push(path.copy()?)?;
    }
    Ok(list)
}

/// Files as a call answers them.
pub fn as_nodes(state: &Declarations, paths: &[PathText]) -> Result<Nodes, NameFault>
    ensures ok { IfOk result (λ n. n ≡ map Given.File paths.now) }
    ensures fault { IfErr result (λ e. e ≡ NameFault.Memory) }
{
    let mut nodes = Listing::empty(state.alloc);
    for path in paths {
        nodes.push(Given::File(path.copy()?))?;
    }
    Ok(nodes)
}
