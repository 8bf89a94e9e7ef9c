//! Calls of objects: names of SCons, methods of environments and builders.
ghost use Rattle.std.specs.Prelude.{◌≡◌, ◌≢◌, Ok, Err, IfOk, IfErr, OnOk};
ghost use Rattle.py_host.specs.Calls.{arguments_of, given_of};
ghost use Rattle.py_host.specs.Extends.{Extends};
ghost use Rattle.scons_host.specs.Answers as answers;
ghost use Rattle.scons_host.specs.Called as spec;
ghost use Rattle.scons_host.specs.Calling as calling;
ghost use Rattle.scons_host.specs.Causes.{HasLookCause};
ghost use Rattle.scons_host.specs.Refusals as told;
ghost use Rattle.scons_host.specs.Sharing as sharing;
ghost use Rattle.scons_host.specs.Shown.{Shown, IsTold};
ghost use Rattle.scons_host.specs.SoFar.{so_far};
ghost use Rattle.scons_host.specs.Untold.{untold_stop};
ghost use Rattle.world_api.specs.Looks.{LooksAtFiles};

use crate::answers::{flat_value, split_value};
use crate::declaring::{declared, value_or};
use crate::globbing::glob;
use crate::scopes::{imported, put_exports, return_names};
use crate::scripts::open_scripts;
use crate::state::State;
use crate::stop::{Refusal, Stop, bad_argument, refused};
use py_heap::{Heap, HostId, Value};
use py_host::{Args, Place, Reply, Scope};
use scons_base::{EnvId, Text};
use scons_calls::{
    CallFault, Exports, NameId, Request, Shared, Thing, Valued, own_request_of, request_of,
};
use world_api::World;

/// Where a call stands, and the names that it sees.
#[derive(Clone, Copy)]
pub struct Caller<'a> {
    pub place: Place,
    pub locals: &'a Scope,
    pub globals: &'a Scope,
}

/// What a call of an object comes to.
#[tactic(auto, using(crate::specs::Looking::looking))]
pub fn call<W: World>(
    state: &mut State,
    world: &mut W,
    heap: &mut Heap,
    caller: Caller<'_>,
    object: HostId,
    args: &Args,
) -> Result<Reply, Stop>
    ensures looks { LooksAtFiles W.meaning world.old world.new }
    ensures cause { HasLookCause (W.meaning.counts world.old) (W.meaning.counts world.new) result }
    ensures stands { Extends heap.old heap.new }
    ensures ok { let at = caller.entry in Shown W.meaning world.old world.new (λ f. IfOk result (λ reply.
        calling.call f (so_far state.old) heap.old at.place at.locals.now at.globals.now object.0 (arguments_of args.now)
        ≡ Ok (given_of reply, so_far state.new, heap.new))) }
    ensures fault { let at = caller.entry in Shown W.meaning world.old world.new (λ f. IfErr result (λ e. IsTold e →
        calling.call f (so_far state.old) heap.old at.place at.locals.now at.globals.now object.0 (arguments_of args.now)
        ≡ Err (untold_stop e))) }
{
    let (env, request) = requested(state, heap, object, args)?;
    answered(state, world, heap, caller, env, request)
}

/// What is asked, and in which environment.
fn requested(
    state: &State,
    heap: &Heap,
    object: HostId,
    args: &Args,
) -> Result<(EnvId, Request), Refusal>
    ensures ok { let given = arguments_of args.now in
        IfOk result (λ a. spec.asks (so_far state.now) heap.now object.0 given ≡ Ok (a.0.0, a.1)) }
    ensures fault { let given = arguments_of args.now in
        IfErr result (λ e. e ≢ Refusal.Memory → spec.asks (so_far state.now) heap.now object.0 given ≡ Err e) }
{
    let default = state.declared.default_env();
    match state.objects.thing(object) {
        Some(Thing::Name(name)) => named(state, heap, default, *name, args),
        Some(Thing::Method(env, name)) => {
            let asked = request_of(heap, &state.objects, name.name(), args);
            Ok((*env, taken(state, name.text(), asked)?))
        }
        Some(Thing::OwnMethod(env, name)) => {
            let asked = own_request_of(heap, &state.objects, name, args);
            Ok((*env, taken(state, name.as_str(), asked)?))
        }
        Some(Thing::Env(_) | Thing::Builders(_) | Thing::Builder(_)) | None => {
            Err(not_called(state, heap, object))
        }
        Some(Thing::File(_) | Thing::Dir(_) | Thing::Alias(_)) => {
            Err(not_called(state, heap, object))
        }
    }
}

fn not_called(state: &State, heap: &Heap, object: HostId) -> Refusal
    ensures { result ≢ Refusal.Memory → result ≡ told.bad_argument (told.shown_as heap.now object.0) }
{
    bad_argument(state.alloc, heap.shown_of(object).unwrap_or("env"))
}

/// What a name asks of the default environment: that one's own builder where it has one that is called so.
fn named(
    state: &State,
    heap: &Heap,
    env: EnvId,
    name: NameId,
    args: &Args,
) -> Result<(EnvId, Request), Refusal>
    ensures ok { let given = arguments_of args.now in
        IfOk result (λ a. spec.named (so_far state.now) heap.now env.0 name.0 given ≡ Ok (a.0.0, a.1)) }
    ensures fault { let given = arguments_of args.now in
        IfErr result (λ e. e ≢ Refusal.Memory → spec.named (so_far state.now) heap.now env.0 name.0 given ≡ Err e) }
{
    let is_own = state.declared.builder_of(env, name.text()).is_some();
    let asked = asked_of(state, heap, name, is_own, args);
    Ok((env, taken(state, name.text(), asked)?))
}

fn asked_of(
    state: &State,
    heap: &Heap,
    name: NameId,
    is_own: bool,
    args: &Args,
) -> Result<Request, CallFault>
    ensures ok { let given = arguments_of args.now in
        IfOk result (λ r. spec.named_if (so_far state.now) heap.now name.0 given is_own ≡ Ok r) }
    ensures fault { let given = arguments_of args.now in
        IfErr result (λ e. e ≢ CallFault.Memory → spec.named_if (so_far state.now) heap.now name.0 given is_own ≡ Err e) }
{
    if !is_own {
        return request_of(heap, &state.objects, name.name(), args);
    }
    let own = Text::of(state.alloc, name.text())?;
    own_request_of(heap, &state.objects, &own, args)
}

fn taken(state: &State, name: &str, asked: Result<Request, CallFault>) -> Result<Request, Refusal>
    ensures ok { IfOk result (λ r. spec.taken name.now asked ≡ Ok r) }
    ensures fault { IfErr result (λ e. e ≢ Refusal.Memory → spec.taken name.now asked ≡ Err e) }
{
    match asked {
        Ok(request) => Ok(request),
        Err(fault) => Err(refused(state.alloc, name, fault)),
    }
}

#[tactic(auto, using(crate::specs::Looking::looking))]
fn answered<W: World>(
    state: &mut State,
    world: &mut W,
    heap: &mut Heap,
    caller: Caller<'_>,
    env: EnvId,
    request: Request,
) -> Result<Reply, Stop>
    ensures looks { LooksAtFiles W.meaning world.old world.new }
    ensures cause { HasLookCause (W.meaning.counts world.old) (W.meaning.counts world.new) result }
    ensures stands { Extends heap.old heap.new }
    ensures ok { let at = caller.entry in Shown W.meaning world.old world.new (λ f. IfOk result (λ reply.
        calling.answered f (so_far state.old) heap.old at.place at.locals.now at.globals.now env.0 request
        ≡ Ok (given_of reply, so_far state.new, heap.new))) }
    ensures fault { let at = caller.entry in Shown W.meaning world.old world.new (λ f. IfErr result (λ e. IsTold e →
        calling.answered f (so_far state.old) heap.old at.place at.locals.now at.globals.now env.0 request
        ≡ Err (untold_stop e))) }
{
    match request {
        Request::Glob(pattern) => Ok(Reply::Value(glob(state, world, heap, env, &pattern)?)),
        Request::Scripts(files) => open_scripts(state, world, heap, caller, env, files),
        Request::Shares(asked) => Ok(shared(state, heap, caller, asked)?),
        Request::Gives(asked) => {
            Ok(Reply::Value(value_of(state, heap, caller.place, env, asked)?))
        }
    }
}

/// What is answered of the names that scripts share.
#[tactic(auto, using(crate::specs::Looking::looking))]
fn shared(
    state: &mut State,
    heap: &mut Heap,
    caller: Caller<'_>,
    asked: Shared,
) -> Result<Reply, Refusal>
    ensures stands { Extends heap.old heap.new }
    ensures ok { IfOk result (λ r.
        spec.shares (so_far state.old) heap.old caller.entry.locals.now caller.entry.globals.now asked
        ≡ Ok (given_of r, so_far state.new, heap.new)) }
    ensures fault { IfErr result (λ e. e ≢ Refusal.Memory →
        spec.shares (so_far state.old) heap.old caller.entry.locals.now caller.entry.globals.now asked ≡ Err e) }
{
    match asked {
        Shared::Export(exports) => {
            export(state, caller, &exports)?;
            Ok(Reply::Value(Value::Nil))
        }
        Shared::Import(names) => Ok(Reply::Names(imported(state, &names)?)),
        Shared::Return(names) => {
            return_names(state, heap, &names, caller.locals, caller.globals)?;
            Ok(Reply::Return)
        }
    }
}

/// The value that answers.
#[tactic(auto, using(crate::specs::Looking::looking))]
fn value_of(
    state: &mut State,
    heap: &mut Heap,
    place: Place,
    env: EnvId,
    asked: Valued,
) -> Result<Value, Refusal>
    ensures stands { Extends heap.old heap.new }
    ensures ok { IfOk result (λ v.
        answers.gives (so_far state.old) heap.old place env.0 asked ≡ Ok (v, so_far state.new, heap.new)) }
    ensures fault { IfErr result (λ e. e ≢ Refusal.Memory →
        answers.gives (so_far state.old) heap.old place env.0 asked ≡ Err e) }
{
    match asked {
        Valued::Declare(call) => declared(state, heap, place, env, call),
        Valued::Get(name, default) => value_or(state, heap, place, env, name, default),
        Valued::Split(value) => split_value(heap, value),
        Valued::Flatten(value) => flat_value(heap, value),
        Valued::Nothing => Ok(Value::Nil),
    }
}

/// Exports names to all scripts.
fn export(state: &mut State, caller: Caller<'_>, exports: &Exports) -> Result<(), Refusal>
    ensures ok { OnOk result (sharing.export (so_far state.old) caller.entry.locals.now caller.entry.globals.now exports.now
        ≡ Ok (so_far state.new)) }
    ensures fault { IfErr result (λ e. e ≢ Refusal.Memory →
        sharing.export (so_far state.old) caller.entry.locals.now caller.entry.globals.now exports.now ≡ Err e) }
{
    let alloc = state.alloc;
    put_exports(
        alloc,
        &mut state.exports,
        exports,
        caller.locals,
        caller.globals,
    )
}
