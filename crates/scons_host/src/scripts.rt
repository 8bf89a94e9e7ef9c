//! Scripts: the calls of SConscript, and the first scripts.
ghost use Rattle.std.specs.Prelude.{◌≡◌, ◌≢◌, Ok, Err, IfOk, IfErr, OnOk, codes, unwrap_or, option_copied};
ghost use Rattle.std.specs.Option.{option_map};
ghost use Rattle.py_host.specs.Calls.{given_of, tree_of};
ghost use Rattle.py_host.specs.Extends.{Extends};
ghost use Rattle.py_tree.specs.Tree.{script_tree};
ghost use Rattle.scons_host.specs.Causes.{HasLookCause, IsInside};
ghost use Rattle.scons_host.specs.Files.{Files};
ghost use Rattle.scons_host.specs.Forms.{TellsForms};
ghost use Rattle.scons_host.specs.Scripts as spec;
ghost use Rattle.scons_host.specs.Shown.{Shown, IsTold};
ghost use Rattle.scons_host.specs.SoFar.{so_far, waiting_of};
ghost use Rattle.scons_host.specs.Untold.{untold_stop};
ghost use Rattle.world_api.specs.Looks.{LooksAtFiles};

use crate::calls::Caller;
use crate::end::ReadKind;
use crate::open::OpenCall;
use crate::scopes::{one_or_tuple, put_exports};
use crate::sources::{Source, read, script_of, standing};
use crate::state::{State, top_dir};
use crate::stop::{Refusal, Stop, bad_argument};
use py_heap::{Heap, Value};
use py_host::{Reply, Scope};
use py_tree::Script;
use scons_base::{EnvId, Memory, PathText};
use scons_calls::{ScriptFiles, tuple_value};
use scons_decls::{Given, ScriptPlace};
use std::alloc::Global;
use std::collections::VecDeque;
use world_api::World;

/// Begins the scripts of a call of SConscript.
#[tactic(auto, using(crate::specs::Looking::looking))]
pub fn open_scripts<W: World>(
    state: &mut State,
    world: &mut W,
    heap: &mut Heap,
    caller: Caller<'_>,
    env: EnvId,
    files: ScriptFiles,
) -> Result<Reply, Stop>
    ensures looks { LooksAtFiles W.meaning world.old world.new }
    ensures cause { HasLookCause (W.meaning.counts world.old) (W.meaning.counts world.new) result }
    ensures stands { Extends heap.old heap.new }
    ensures ok { let at = caller.entry in Shown W.meaning world.old world.new (λ f. IfOk result (λ reply.
        spec.sconscript f (so_far state.old) heap.old at.place at.locals.now at.globals.now env.0 files
        ≡ Ok (given_of reply, so_far state.new, heap.new))) }
    ensures fault { let at = caller.entry in Shown W.meaning world.old world.new (λ f. IfErr result (λ e. IsTold e →
        spec.sconscript f (so_far state.old) heap.old at.place at.locals.now at.globals.now env.0 files ≡ Err (untold_stop e))) }
{
    let call = opened(state.alloc, caller, env, files)?;
    go_on(state, world, heap, call)
}

/// A call of SConscript, before its first script begins.
fn opened(
    alloc: Global,
    caller: Caller<'_>,
    env: EnvId,
    asked: ScriptFiles,
) -> Result<OpenCall, Refusal>
    ensures ok { let at = caller.entry in IfOk result (λ call.
        spec.opened at.place at.locals.now at.globals.now env.0 asked ≡ Ok (waiting_of call)) }
    ensures fault { let at = caller.entry in IfErr result (λ e. e ≢ Refusal.Memory →
        spec.opened at.place at.locals.now at.globals.now env.0 asked ≡ Err e) }
{
    let ScriptFiles {
        files,
        exports,
        variant,
        duplicate,
    } = asked;
    let is_one = files.len() == 1;
    if variant.is_some() && !is_one {
        return Err(bad_argument(alloc, "SConscript"));
    }
    let mut names = Scope::new(alloc);
    put_exports(alloc, &mut names, &exports, caller.locals, caller.globals)?;
    Ok(OpenCall {
        place: caller.place,
        env,
        files: VecDeque::from_vec(files.into_vec()),
        several: !is_one,
        exports: names,
        variant,
        duplicate,
        answers: Vec::new(alloc),
        returned: Value::Nil,
    })
}

/// A script that a call of SConscript began has ended: the next one begins, or the call is answered.
#[tactic(auto, using(crate::specs::Looking::looking))]
pub fn script_done<W: World>(
    state: &mut State,
    world: &mut W,
    heap: &mut Heap,
) -> Result<Reply, Stop>
    ensures looks { LooksAtFiles W.meaning world.old world.new }
    ensures cause { HasLookCause (W.meaning.counts world.old) (W.meaning.counts world.new) result }
    ensures stands { Extends heap.old heap.new }
    ensures ok { Shown W.meaning world.old world.new (λ f. IfOk result (λ reply.
        spec.script_done f (so_far state.old) heap.old ≡ Ok (given_of reply, so_far state.new, heap.new))) }
    ensures fault { Shown W.meaning world.old world.new (λ f. IfErr result (λ e. IsTold e →
        spec.script_done f (so_far state.old) heap.old ≡ Err (untold_stop e))) }
{
    state.declared.end_script();
    match call_taken(state) {
        Some(call) => {
            let after = with_answer(call)?;
            go_on(state, world, heap, after)
        }
        None => Ok(Reply::Value(Value::Nil)),
    }
}

/// Takes the innermost call out of those that wait.
fn call_taken(state: &mut State) -> Option<OpenCall>
    ensures { spec.call_taken (so_far state.old) ≡ (option_map waiting_of result, so_far state.new) }
{
    state.open.pop()
}

/// The call with what its script has returned, which has ended.
fn with_answer(mut call: OpenCall) -> Result<OpenCall, Memory>
    ensures { IfOk result (λ after. waiting_of after ≡ spec.with_answer (waiting_of call)) }
{
    call.answers.push(call.returned)?;
    call.returned = Value::Nil;
    Ok(call)
}

/// Begins the next script of a call, or answers the call.
#[tactic(auto, using(crate::specs::Looking::looking))]
fn go_on<W: World>(
    state: &mut State,
    world: &mut W,
    heap: &mut Heap,
    mut call: OpenCall,
) -> Result<Reply, Stop>
    ensures looks { LooksAtFiles W.meaning world.old world.new }
    ensures cause { HasLookCause (W.meaning.counts world.old) (W.meaning.counts world.new) result }
    ensures stands { Extends heap.old heap.new }
    ensures ok { Shown W.meaning world.old world.new (λ f. IfOk result (λ reply.
        spec.go_on f (so_far state.old) heap.old (waiting_of call) ≡ Ok (given_of reply, so_far state.new, heap.new))) }
    ensures fault { Shown W.meaning world.old world.new (λ f. IfErr result (λ e. IsTold e →
        spec.go_on f (so_far state.old) heap.old (waiting_of call) ≡ Err (untold_stop e))) }
{
    match next_file(&mut call) {
        Some(file) => {
            let script = next_begins(state, world, &call, &file)?;
            wait(state, call)?;
            Ok(Reply::Script(script))
        }
        None => Ok(Reply::Value(answer_of(heap, &call)?)),
    }
}

/// The next script of a call.
fn next_file(call: &mut OpenCall) -> Option<Given>
    ensures { spec.next_file (waiting_of call.old) ≡ (result, waiting_of call.new) }
{
    call.files.pop_front()
}

/// Puts a call behind those that wait.
fn wait(state: &mut State, call: OpenCall) -> Result<(), Memory>
    ensures { OnOk result (so_far state.new ≡ spec.waits (so_far state.old) (waiting_of call)) }
{
    state.open.push(call)?;
    Ok(())
}

/// What a call answers whose scripts have all ended.
#[tactic(auto, using(crate::specs::Looking::looking))]
fn answer_of(heap: &mut Heap, call: &OpenCall) -> Result<Value, Refusal>
    ensures stands { Extends heap.old heap.new }
    ensures ok { IfOk result (λ v. spec.answer_of heap.old (waiting_of call.now) ≡ Ok (v, heap.new)) }
    ensures fault { IfErr result (λ e. e ≢ Refusal.Memory → spec.answer_of heap.old (waiting_of call.now) ≡ Err e) }
{
    let answers = call.answers.as_slice();
    if call.several {
        Ok(tuple_value(heap, answers)?)
    } else {
        one_or_tuple(heap, answers)
    }
}

/// Finds a script of a call, and begins it.
#[tactic(auto, using(crate::specs::Looking::looking))]
fn next_begins<W: World>(
    state: &mut State,
    world: &mut W,
    call: &OpenCall,
    file: &Given,
) -> Result<Script, Stop>
    ensures looks { LooksAtFiles W.meaning world.old world.new }
    ensures cause { HasLookCause (W.meaning.counts world.old) (W.meaning.counts world.new) result }
    ensures ok { Shown W.meaning world.old world.new (λ f. IfOk result (λ script.
        spec.next_begins f (so_far state.old) (waiting_of call.now) file.now ≡ Ok (script_tree script, so_far state.new))) }
    ensures fault { Shown W.meaning world.old world.new (λ f. IfErr result (λ e. IsTold e →
        spec.next_begins f (so_far state.old) (waiting_of call.now) file.now ≡ Err (untold_stop e))) }
{
    let place = found(state, call, file)?;
    let source = standing(world, place.candidates.as_slice())?;
    begins_at(state, &place, source)
}

/// Where a script of a call stands.
fn found(state: &mut State, call: &OpenCall, file: &Given) -> Result<ScriptPlace, Refusal>
    ensures ok { IfOk result (λ place.
        spec.found (so_far state.old) (waiting_of call.now) file.now ≡ Ok (place, so_far state.new)) }
    ensures fault { IfErr result (λ e. e ≢ Refusal.Memory →
        spec.found (so_far state.old) (waiting_of call.now) file.now ≡ Err e) }
{
    let variant = call.variant.as_ref();
    let place = state
        .declared
        .find_script(call.env, file, variant, call.duplicate)?;
    Ok(place)
}

/// Begins the script that was found, if it stands.
#[tactic(auto, using(crate::specs::Looking::looking))]
fn begins_at(state: &mut State, place: &ScriptPlace, source: Option<Source>) -> Result<Script, Stop>
    ensures inside { IfErr result IsInside }
    ensures ok { (f : Files) → TellsForms f.form → IfOk result (λ script.
        spec.begins_at f (so_far state.old) place.now source ≡ Ok (script_tree script, so_far state.new)) }
    ensures fault { (f : Files) → TellsForms f.form → IfErr result (λ e. IsTold e →
        spec.begins_at f (so_far state.old) place.now source ≡ Err (untold_stop e)) }
{
    match source {
        Some(source) => begins(state, &source, &place.dir),
        None => Err(no_script(place)),
    }
}

/// No script stands where one of a call lies, on the line that reads it.
#[tactic(auto, using(crate::specs::Looking::looking))]
fn no_script(place: &ScriptPlace) -> Stop
    ensures inside { IsInside result }
    ensures told { IsTold result → result ≡ Stop.Here (ReadKind.NoScript (spec.missed place.now)) }
{
    match missed(place).copy() {
        Ok(path) => Stop::Here(ReadKind::NoScript(path)),
        Err(_) => Stop::Memory,
    }
}

/// Where a script is missed.
fn missed(place: &ScriptPlace) -> &PathText
    ensures { result.now ≡ spec.missed place.now }
{
    let candidates = place.candidates.as_slice();
    if let Some(path) = elsewhere(candidates, &place.dir) {
        return path;
    }
    match candidates.first() {
        Some(path) => path,
        None => &place.dir,
    }
}

/// The first of some paths that lies in another directory.
fn elsewhere<'a>(paths: &'a [PathText], dir: &PathText) -> Option<&'a PathText>
    ensures { option_copied result ≡ spec.elsewhere dir.now paths.now }
{
    for path in paths {
        if path.dir() != dir.as_str() {
            return Some(path);
        }
    }
    None
}

/// Begins the script that a source is; its texts are read from a directory.
#[tactic(auto, using(crate::specs::Looking::looking))]
fn begins(state: &mut State, source: &Source, dir: &PathText) -> Result<Script, Stop>
    ensures inside { IfErr result IsInside }
    ensures ok { (f : Files) → TellsForms f.form → IfOk result (λ script.
        spec.begins f (so_far state.old) source.now dir.now ≡ Ok (script_tree script, so_far state.new)) }
    ensures fault { (f : Files) → TellsForms f.form → IfErr result (λ e. IsTold e →
        spec.begins f (so_far state.old) source.now dir.now ≡ Err (untold_stop e)) }
{
    let script = script_of(state.alloc, source)?;
    begin(state, &source.path, dir)?;
    Ok(script)
}

/// Notes that a script begins.
fn begin(state: &mut State, path: &PathText, dir: &PathText) -> Result<(), Refusal>
    ensures ok { OnOk result (spec.begin (so_far state.old) path.now dir.now ≡ Ok (so_far state.new)) }
    ensures fault { IfErr result (λ e. e ≢ Refusal.Memory → spec.begin (so_far state.old) path.now dir.now ≡ Err e) }
{
    state.declared.begin_script(dir)?;
    state.scripts.push(path.copy()?)?;
    Ok(())
}

/// Begins the next first script, if there is a further one.
#[tactic(auto, using(crate::specs::Looking::looking))]
pub fn next_first<W: World>(state: &mut State, world: &mut W) -> Result<Option<Script>, Stop>
    ensures looks { LooksAtFiles W.meaning world.old world.new }
    ensures cause { HasLookCause (W.meaning.counts world.old) (W.meaning.counts world.new) result }
    ensures ok { Shown W.meaning world.old world.new (λ f. IfOk result (λ script.
        spec.next_first f (so_far state.old) ≡ Ok (tree_of script, so_far state.new))) }
    ensures fault { Shown W.meaning world.old world.new (λ f. IfErr result (λ e. IsTold e →
        spec.next_first f (so_far state.old) ≡ Err (untold_stop e))) }
{
    let Some(path) = next_path(state) else {
        return Ok(None);
    };
    state.declared.end_script();
    Ok(Some(first(state, world, path)?))
}

/// Takes the next first script out of those that are still to be read.
fn next_path(state: &mut State) -> Option<PathText>
    ensures { spec.next_path (so_far state.old) ≡ (result, so_far state.new) }
{
    state.first.pop_front()
}

/// Begins a first script.
#[tactic(auto, using(crate::specs::Looking::looking))]
pub fn first<W: World>(state: &mut State, world: &mut W, path: PathText) -> Result<Script, Stop>
    ensures looks { LooksAtFiles W.meaning world.old world.new }
    ensures cause { HasLookCause (W.meaning.counts world.old) (W.meaning.counts world.new) result }
    ensures ok { Shown W.meaning world.old world.new (λ f. IfOk result (λ script.
        spec.first f (so_far state.old) path ≡ Ok (script_tree script, so_far state.new))) }
    ensures fault { Shown W.meaning world.old world.new (λ f. IfErr result (λ e. IsTold e →
        spec.first f (so_far state.old) path ≡ Err (untold_stop e))) }
{
    match read(world, &path)? {
        Some(bytes) => first_begins(state, Source { path, bytes }),
        None => Err(no_first(path)),
    }
}

/// Begins a first script, whose texts are read from the top directory wherever it lies.
#[tactic(auto, using(crate::specs::Looking::looking))]
fn first_begins(state: &mut State, source: Source) -> Result<Script, Stop>
    ensures inside { IfErr result IsInside }
    ensures ok { (f : Files) → TellsForms f.form → IfOk result (λ script.
        spec.begins f (so_far state.old) source (codes ".") ≡ Ok (script_tree script, so_far state.new)) }
    ensures fault { (f : Files) → TellsForms f.form → IfErr result (λ e. IsTold e →
        spec.begins f (so_far state.old) source (codes ".") ≡ Err (untold_stop e)) }
{
    let dir = top_dir(state.alloc)?;
    begins(state, &source, &dir)
}

/// There is no first script at a path.
#[tactic(auto, using(crate::specs::Looking::looking))]
fn no_first(path: PathText) -> Stop
    ensures inside { IsInside result }
    ensures told { IsTold result → result ≡ Stop.There path 0 (ReadKind.NoScript path) }
{
    match path.copy() {
        Ok(copy) => Stop::There(path, 0, ReadKind::NoScript(copy)),
        Err(_) => Stop::Memory,
    }
}
