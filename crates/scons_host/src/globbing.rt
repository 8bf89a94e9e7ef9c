//! Glob: the files of the tree that a pattern may match.
ghost use Rattle.std.specs.Prelude.{◌≡◌, ◌≢◌, Ok, Err, IfOk, IfErr};
ghost use Rattle.std.specs.List.{flat_map};
ghost use Rattle.py_host.specs.Extends.{Extends};
ghost use Rattle.scons_host.specs.Causes.{HasLookCause};
ghost use Rattle.scons_host.specs.Globbing as spec;
ghost use Rattle.scons_host.specs.Refusals.{of_refusal, told_by};
ghost use Rattle.scons_host.specs.Shown.{Shown, SamePaths, IsTold};
ghost use Rattle.scons_host.specs.SoFar.{so_far};
ghost use Rattle.world_api.specs.Looks.{LooksAtFiles};

use crate::asks::files_of;
use crate::state::State;
use crate::stop::{Refusal, Stop};
use py_heap::{Heap, Value};
use scons_base::{EnvId, PathText, Paths, Text};
use scons_calls::nodes_value;
use scons_decls::{NameFault, Nodes};
use std::alloc::Global;
use world_api::{AskRefusal, World};

/// The list of the nodes that a pattern matches.
#[tactic(auto, using(crate::specs::Looking::looking))]
pub fn glob<W: World>(
    state: &mut State,
    world: &mut W,
    heap: &mut Heap,
    env: EnvId,
    pattern: &Text,
) -> Result<Value, Stop>
    ensures looks { LooksAtFiles W.meaning world.old world.new }
    ensures cause { HasLookCause (W.meaning.counts world.old) (W.meaning.counts world.new) result }
    ensures stands { Extends heap.old heap.new }
    ensures ok { Shown W.meaning world.old world.new (λ f. IfOk result (λ v.
        spec.glob f (so_far state.old) heap.old env.0 pattern.now ≡ Ok (v, so_far state.new, heap.new))) }
    ensures fault { Shown W.meaning world.old world.new (λ f. IfErr result (λ e. IsTold e →
        told_by of_refusal (spec.glob f (so_far state.old) heap.old env.0 pattern.now) ≡ Err e)) }
{
    let dirs = dirs_of(state, env, pattern)?;
    let files = files_in(state.alloc, world, dirs.as_slice())?;
    Ok(matched(state, heap, env, pattern, &files)?)
}

/// The directories whose files a pattern may match.
fn dirs_of(state: &State, env: EnvId, pattern: &Text) -> Result<Paths, Refusal>
    ensures ok { IfOk result (λ dirs. spec.dirs_of (so_far state.now) env.0 pattern.now ≡ Ok dirs) }
    ensures fault { IfErr result (λ e. e ≢ Refusal.Memory → spec.dirs_of (so_far state.now) env.0 pattern.now ≡ Err e) }
{
    Ok(state.declared.glob_dirs(env, pattern)?)
}

/// The list of the nodes that a pattern matches among these files and the declared targets.
#[tactic(auto, using(crate::specs::Looking::looking))]
fn matched(
    state: &mut State,
    heap: &mut Heap,
    env: EnvId,
    pattern: &Text,
    files: &Paths,
) -> Result<Value, Refusal>
    ensures stands { Extends heap.old heap.new }
    ensures ok { IfOk result (λ v.
        spec.matched (so_far state.old) heap.old env.0 pattern.now files.now ≡ Ok (v, so_far state.new, heap.new)) }
    ensures fault { IfErr result (λ e. e ≢ Refusal.Memory →
        spec.matched (so_far state.old) heap.old env.0 pattern.now files.now ≡ Err e) }
{
    let nodes = nodes_among(state, env, pattern, files)?;
    Ok(nodes_value(heap, &mut state.objects, nodes.as_slice())?)
}

/// The nodes that a pattern matches.
fn nodes_among(state: &State, env: EnvId, pattern: &Text, files: &Paths) -> Result<Nodes, NameFault>
    ensures ok { let declared = (so_far state.now).declared in
        IfOk result (λ nodes. spec.nodes_among declared env.0 pattern.now files.now ≡ Ok nodes) }
    ensures fault { let declared = (so_far state.now).declared in
        IfErr result (λ e. e ≢ NameFault.Memory → spec.nodes_among declared env.0 pattern.now files.now ≡ Err e) }
{
    state.declared.glob(env, pattern, files)
}

/// The files of these directories.
#[tactic(auto, using(crate::specs::Looking::looking))]
fn files_in<W: World>(alloc: Global, world: &mut W, dirs: &[PathText]) -> Result<Paths, Stop>
    ensures looks { LooksAtFiles W.meaning world.old world.new }
    ensures cause { HasLookCause (W.meaning.counts world.old) (W.meaning.counts world.new) result }
    ensures shown { Shown W.meaning world.old world.new (λ f.
        IfOk result (λ files. SamePaths files (flat_map f.listed dirs.now))) }
    ensures untold { IfErr result (λ e. IsTold e → ⊥) }
{
    let mut files = Vec::new(alloc);
    for dir in dirs {
        let mut more = list(world, dir)?;
        files.append(&mut more)?;
    }
    Ok(Paths::new(files))
}

/// The files of a directory.
#[tactic(auto, using(crate::specs::Looking::looking))]
fn list<W: World>(world: &mut W, dir: &PathText) -> Result<Vec<PathText>, Stop>
    ensures looks { LooksAtFiles W.meaning world.old world.new }
    ensures cause { HasLookCause (W.meaning.counts world.old) (W.meaning.counts world.new) result }
    ensures shown { Shown W.meaning world.old world.new (λ f.
        IfOk result (λ paths. SamePaths paths.items (f.listed dir.now))) }
    ensures untold { IfErr result (λ e. IsTold e → ⊥) }
{
    match files_of(world, dir) {
        Ok(paths) => Ok(paths.into_vec()),
        Err(AskRefusal::Fault) => Err(Stop::tree(dir)),
        Err(AskRefusal::Memory) => Err(Stop::Memory),
    }
}
