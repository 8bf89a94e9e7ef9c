//! The first script: which it is, and what stands as it begins.
ghost use Rattle.std.specs.Prelude.{◌≡◌, Ok, Err, IfOk, IfErr, OnOk, map};
ghost use Rattle.std.specs.List.{find};
ghost use Rattle.py_heap.specs.Heap.{no_objects};
ghost use Rattle.py_tree.specs.Tree.{script_tree};
ghost use Rattle.scons_host.specs.Causes.{HasStopCause, HasLookCause};
ghost use Rattle.scons_host.specs.Scripts.{first};
ghost use Rattle.scons_host.specs.Shown.{Shown, IsTold};
ghost use Rattle.scons_host.specs.SoFar.{so_far};
ghost use Rattle.scons_host.specs.Untold.{untold_stop};
ghost use Rattle.scons_reading.specs.Beginning.{Begins, BeginsNot, begun_by, with_waiting, with_further};
ghost use Rattle.scons_reading.specs.Firsts as spec;
ghost use Rattle.world_api.specs.Looks.{LooksAtFiles};
ghost use Rattle.world_api.specs.Counts.{Counts};
ghost use Rattle.world_api.specs.Causes.{TreeFails};

use crate::rules::is_file;
use py_heap::Heap;
use py_tree::Script;
use scons_base::{Memory, PathText};
use scons_host::{State, Stop, first, top_of};
use scons_words::Words;
use std::alloc::Global;
use world_api::{AskRefusal, World};

/// The names that a first script has where none is asked for.
const FIRST: [&str; 3] = ["SConstruct", "Sconstruct", "sconstruct"];

/// The state of the reading as the first script begins, and that script.
#[tactic(auto, using(scons_host::specs::Looking::looking))]
pub fn begun<W: World>(
    alloc: Global,
    world: &mut W,
    heap: &mut Heap,
    words: &Words,
) -> Result<(State, Script), Stop>
    requires { heap.old ≡ no_objects }
    ensures looks { LooksAtFiles W.meaning world.old world.new }
    ensures cause { HasLookCause (W.meaning.counts world.old) (W.meaning.counts world.new) result }
    ensures ok { Shown W.meaning world.old world.new (λ f. IfOk result (λ b.
        Begins f words.now (begun_by b.1 b.0 heap.new))) }
    ensures fault { Shown W.meaning world.old world.new (λ f. IfErr result (λ s. IsTold s →
        BeginsNot f words.now (untold_stop s))) }
{
    let top = top_path(alloc, world)?;
    let mut state = State::new(alloc, heap, top, words)?;
    let script = first_script(&mut state, world, words);
    joined(state, script)
}

/// The state beside its first script.
fn joined(state: State, script: Result<Script, Stop>) -> Result<(State, Script), Stop>
    ensures cause { (old new : Counts) → HasLookCause old new script → HasLookCause old new result }
    ensures ok { IfOk result (λ b. (b.0 ≡ state) × (script ≡ Ok b.1)) }
    ensures fault { IfErr result (λ s. script ≡ Err s) }
{
    match script {
        Ok(script) => Ok((state, script)),
        Err(stop) => Err(stop),
    }
}

#[tactic(auto, using(scons_host::specs::Looking::looking))]
fn top_path<W: World>(alloc: Global, world: &mut W) -> Result<PathText, Stop>
    ensures looks { LooksAtFiles W.meaning world.old world.new }
    ensures cause { HasLookCause (W.meaning.counts world.old) (W.meaning.counts world.new) result }
    ensures ok { Shown W.meaning world.old world.new (λ f. IfOk result (λ path. path ≡ f.top)) }
    ensures untold { IfErr result (λ s. IsTold s → ⊥) }
{
    match top_of(world) {
        Ok(path) => Ok(path),
        Err(AskRefusal::Fault) => Err(no_top(alloc)),
        Err(AskRefusal::Memory) => Err(Stop::Memory),
    }
}

/// The tree refused to tell its top.
#[tactic(auto, using(scons_host::specs::Looking::looking))]
fn no_top(alloc: Global) -> Stop
    ensures cause { (old new : Counts) → TreeFails old new → HasStopCause old new result }
    ensures untold { IsTold result → ⊥ }
{
    match read_path(alloc, ".") {
        Ok(path) => Stop::Tree(path),
        Err(_) => Stop::Memory,
    }
}

/// The path of a name of the program's own.
fn read_path(alloc: Global, text: &str) -> Result<PathText, Memory>
    ensures { IfOk result (λ path. path ≡ text.now) }
{
    match PathText::read(alloc, text) {
        Ok(path) => Ok(path),
        Err(_) => Err(Memory),
    }
}

/// Begins the first script; those behind it wait.
#[tactic(auto, using(scons_host::specs::Looking::looking))]
fn first_script<W: World>(state: &mut State, world: &mut W, words: &Words) -> Result<Script, Stop>
    ensures looks { LooksAtFiles W.meaning world.old world.new }
    ensures cause { HasLookCause (W.meaning.counts world.old) (W.meaning.counts world.new) result }
    ensures ok { Shown W.meaning world.old world.new (λ f. IfOk result (λ script.
        first f (with_further words.now.scripts (so_far state.old)) (spec.first_of f words.now.scripts)
        ≡ Ok (script_tree script, so_far state.new))) }
    ensures fault { Shown W.meaning world.old world.new (λ f. IfErr result (λ s. IsTold s →
        first f (with_further words.now.scripts (so_far state.old)) (spec.first_of f words.now.scripts)
        ≡ Err (untold_stop s))) }
{
    let path = first_path(state, world, words.scripts.as_slice())?;
    first(state, world, path)
}

/// The path of the first script, with those behind it put where they wait.
#[tactic(auto, using(scons_host::specs::Looking::looking))]
fn first_path<W: World>(
    state: &mut State,
    world: &mut W,
    scripts: &[PathText],
) -> Result<PathText, Stop>
    ensures looks { LooksAtFiles W.meaning world.old world.new }
    ensures cause { HasLookCause (W.meaning.counts world.old) (W.meaning.counts world.new) result }
    ensures ok { Shown W.meaning world.old world.new (λ f. IfOk result (λ path.
        path ≡ spec.first_of f scripts.now)) }
    ensures state { OnOk result (so_far state.new ≡ with_further scripts.now (so_far state.old)) }
    ensures untold { IfErr result (λ s. IsTold s → ⊥) }
{
    match scripts {
        [] => standing(state.alloc, world),
        [path, further @ ..] => Ok(named(state, path, further)?),
    }
}

/// The path of a script that was named, with those behind it put where they wait.
fn named(state: &mut State, path: &PathText, further: &[PathText]) -> Result<PathText, Memory>
    ensures path { IfOk result (λ p. p ≡ path.now) }
    ensures state { OnOk result (so_far state.new ≡ with_waiting further.now (so_far state.old)) }
{
    for path in further {
        state.first.push_back(path.copy()?)?;
    }
    path.copy()
}

/// The first of the names of first scripts at which a file stands, or the first of all where none does.
#[tactic(auto, using(scons_host::specs::Looking::looking))]
fn standing<W: World>(alloc: Global, world: &mut W) -> Result<PathText, Stop>
    ensures looks { LooksAtFiles W.meaning world.old world.new }
    ensures cause { HasLookCause (W.meaning.counts world.old) (W.meaning.counts world.new) result }
    ensures ok { Shown W.meaning world.old world.new (λ f. IfOk result (λ path. path ≡ spec.standing f)) }
    ensures untold { IfErr result (λ s. IsTold s → ⊥) }
{
    match file_among(alloc, world, &FIRST)? {
        Some(path) => Ok(path),
        None => Ok(read_path(alloc, FIRST[0])?),
    }
}

/// The first of some names at which a file stands.
#[tactic(auto, using(scons_host::specs::Looking::looking))]
fn file_among<W: World>(
    alloc: Global,
    world: &mut W,
    names: &[&str],
) -> Result<Option<PathText>, Stop>
    ensures looks { LooksAtFiles W.meaning world.old world.new }
    ensures cause { HasLookCause (W.meaning.counts world.old) (W.meaning.counts world.new) result }
    ensures ok { Shown W.meaning world.old world.new (λ f. IfOk result (λ path.
        path ≡ find (spec.is_file f) (map (λ n. n.now) names.now))) }
    ensures untold { IfErr result (λ s. IsTold s → ⊥) }
{
    for name in names {
        let path = read_path(alloc, name)?;
        if is_file(world, &path)? {
            return Ok(Some(path));
        }
    }
    Ok(None)
}
