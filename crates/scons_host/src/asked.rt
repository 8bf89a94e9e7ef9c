//! Attributes and items of objects.
ghost use Rattle.std.specs.Prelude.{◌≡◌, ◌≢◌, Ok, Err, IfOk, IfErr, OnOk, string_bytes};
ghost use Rattle.py_host.specs.Extends.{Extends};
ghost use Rattle.scons_calls.specs.Kinds.{pairs_in};
ghost use Rattle.scons_calls.specs.Results.{along};
ghost use Rattle.scons_host.specs.Asked as spec;
ghost use Rattle.scons_host.specs.Refusals as told;
ghost use Rattle.scons_host.specs.SoFar.{so_far};

use crate::declaring::{made, variable};
use crate::end::ReadKind;
use crate::state::State;
use crate::stop::{Refusal, bad_argument, left_out, no_such_key, refused};
use env_vars::EnvValue;
use py_heap::{DictId, Heap, HostId, Value};
use py_host::Place;
use scons_base::{EnvId, Memory, PathText, Text};
use scons_calls::{
    NameId, Thing, builder, is_identifier, is_left_out_of_environments, text_value, variable_of,
    variable_value,
};
use scons_decls::{Call, NameFault};
use std::alloc::{AllocError, Global};

/// The builders of an environment, among its variables.
const BUILDERS: &str = "BUILDERS";

/// What an attribute tells of a path.
enum PathPart {
    Path,
    Absolute,
    Name,
}

/// What an object is, as far as its attributes and items go.
enum Subject {
    Env(EnvId),
    Builders(EnvId),
    Path(PathText),
    /// A builder or an alias, which has attributes in SCons alone.
    Made,
    /// A name, a method, or no object of the host's.
    Called,
}

fn subject_of(state: &State, object: HostId) -> Result<Subject, Refusal>
    ensures ok { IfOk result (λ x. x ≡ spec.subject_at (so_far state.now) object.0) }
    ensures fault { IfErr result (λ e. e ≡ Refusal.Memory) }
{
    Ok(match state.objects.thing(object) {
        Some(Thing::Env(env)) => Subject::Env(*env),
        Some(Thing::Builders(env)) => Subject::Builders(*env),
        Some(Thing::File(path) | Thing::Dir(path)) => Subject::Path(path.copy()?),
        Some(Thing::Builder(_) | Thing::Alias(_)) => Subject::Made,
        Some(Thing::Name(_) | Thing::Method(..) | Thing::OwnMethod(..)) | None => Subject::Called,
    })
}

/// An attribute of an object.
#[tactic(auto, using(crate::specs::Looking::looking))]
pub fn attribute(
    state: &mut State,
    heap: &mut Heap,
    object: HostId,
    name: &str,
) -> Result<Value, Refusal>
    ensures stands { Extends heap.old heap.new }
    ensures ok { IfOk result (λ v.
        spec.attribute (so_far state.old) heap.old object.0 name.now ≡ Ok (v, so_far state.new, heap.new)) }
    ensures fault { IfErr result (λ e. e ≢ Refusal.Memory →
        spec.attribute (so_far state.old) heap.old object.0 name.now ≡ Err e) }
{
    match subject_of(state, object)? {
        Subject::Env(env) => method(state, env, name),
        Subject::Path(path) => told(state, heap, &path, name),
        Subject::Builders(_) | Subject::Made => Err(left_out(state.alloc, name)),
        Subject::Called => Err(bad_argument(state.alloc, name)),
    }
}

/// The method of an environment: a builder that the environment has, or a name of SCons.
fn method(state: &mut State, env: EnvId, name: &str) -> Result<Value, Refusal>
    ensures ok { IfOk result (λ v. spec.method (so_far state.old) env name.now ≡ Ok (v, so_far state.new)) }
    ensures fault { IfErr result (λ e. e ≢ Refusal.Memory → spec.method (so_far state.old) env name.now ≡ Err e) }
{
    let Some(thing) = method_of(state, env, name)? else {
        return Err(no_method(state.alloc, name));
    };
    Ok(object_of(state, thing)?)
}

/// The object of a thing.
fn object_of(state: &mut State, thing: Thing) -> Result<Value, Memory>
    ensures { IfOk result (λ v. spec.object_of (so_far state.old) thing ≡ (v, so_far state.new)) }
{
    Ok(Value::Object(state.objects.object(thing)?))
}

/// A builder of the environment's own comes before the name of SCons that is written so.
fn method_of(state: &State, env: EnvId, name: &str) -> Result<Option<Thing>, Memory>
    ensures { IfOk result (λ thing. thing ≡ spec.method_of (so_far state.now) env name.now) }
{
    if state.declared.builder_of(env, name).is_some() {
        let text = Text::of(state.alloc, name)?;
        return Ok(Some(Thing::OwnMethod(env, text)));
    }
    match NameId::of_environments(name) {
        Some(known) => Ok(Some(Thing::Method(env, known))),
        None => Ok(None),
    }
}

fn no_method(alloc: Global, name: &str) -> Refusal
    ensures { result ≢ Refusal.Memory → result ≡ spec.no_method name.now }
{
    if is_left_out_of_environments(name) {
        return left_out(alloc, name);
    }
    match Text::of(alloc, name) {
        Ok(name) => Refusal::Kind(ReadKind::Name(NameFault::UnknownBuilder(name))),
        Err(_) => Refusal::Memory,
    }
}

/// What an attribute tells of a node or directory.
#[tactic(auto, using(crate::specs::Looking::looking))]
fn told(state: &State, heap: &mut Heap, path: &PathText, name: &str) -> Result<Value, Refusal>
    ensures stands { Extends heap.old heap.new }
    ensures ok { IfOk result (λ v. spec.path_part state.now.top heap.old path.now name.now ≡ Ok (v, heap.new)) }
    ensures fault { IfErr result (λ e. e ≢ Refusal.Memory →
        spec.path_part state.now.top heap.old path.now name.now ≡ Err e) }
{
    let part = match name {
        "path" => PathPart::Path,
        "abspath" => PathPart::Absolute,
        "name" => PathPart::Name,
        _ => return Err(left_out(state.alloc, name)),
    };
    match part {
        PathPart::Path => Ok(text_value(heap, path.as_str())?),
        PathPart::Absolute => {
            let text = absolute(state, path)?;
            Ok(text_value(heap, text.as_str())?)
        }
        PathPart::Name => Ok(text_value(heap, path.name())?),
    }
}

/// The absolute path of a path.
fn absolute(state: &State, path: &PathText) -> Result<String, AllocError>
    ensures { IfOk result (λ text. string_bytes text ≡ spec.absolute state.now.top path.now) }
{
    let alloc = state.alloc;
    let text = path.as_str();
    if text.starts_with('/') {
        return Ok(String::from_str(alloc, text)?);
    }
    let mut absolute = String::from_str(alloc, state.top.as_str())?;
    if text == "." {
        return Ok(absolute);
    }
    if absolute.as_str() != "/" {
        absolute.push('/')?;
    }
    absolute.push_str(text)?;
    Ok(absolute)
}

/// An item of an object.
#[tactic(auto, using(crate::specs::Looking::looking))]
pub fn item(
    state: &mut State,
    heap: &mut Heap,
    place: Place,
    object: HostId,
    key: Value,
) -> Result<Value, Refusal>
    ensures stands { Extends heap.old heap.new }
    ensures ok { IfOk result (λ v.
        spec.item (so_far state.old) heap.old place object.0 key ≡ Ok (v, so_far state.new, heap.new)) }
    ensures fault { IfErr result (λ e. e ≢ Refusal.Memory →
        spec.item (so_far state.old) heap.old place object.0 key ≡ Err e) }
{
    let name = key_text(state, heap, object, key)?;
    match subject_of(state, object)? {
        Subject::Env(env) if name.as_str() == BUILDERS => {
            Ok(object_of(state, Thing::Builders(env))?)
        }
        Subject::Env(env) => variable_item(state, heap, place, env, name),
        Subject::Builders(env) => builder_item(state, env, name),
        Subject::Path(_) | Subject::Made | Subject::Called => Err(not_indexed(state, heap, object)),
    }
}

/// The value of a variable.
#[tactic(auto, using(crate::specs::Looking::looking))]
fn variable_item(
    state: &mut State,
    heap: &mut Heap,
    place: Place,
    env: EnvId,
    name: Text,
) -> Result<Value, Refusal>
    ensures stands { Extends heap.old heap.new }
    ensures ok { IfOk result (λ v.
        spec.variable_item (so_far state.old) heap.old place env.0 name ≡ Ok (v, so_far state.new, heap.new)) }
    ensures fault { IfErr result (λ e. e ≢ Refusal.Memory →
        spec.variable_item (so_far state.old) heap.old place env.0 name ≡ Err e) }
{
    match variable(state, place, env, name.copy()?)? {
        Some(value) => Ok(variable_value(heap, &mut state.objects, &value)?),
        None => Err(no_such_key(name)),
    }
}

/// A builder of an environment.
fn builder_item(state: &mut State, env: EnvId, name: Text) -> Result<Value, Refusal>
    ensures ok { IfOk result (λ v. spec.builder_item (so_far state.old) env name ≡ Ok (v, so_far state.new)) }
    ensures fault { IfErr result (λ e. e ≢ Refusal.Memory → spec.builder_item (so_far state.old) env name ≡ Err e) }
{
    match state.declared.builder_of(env, name.as_str()) {
        Some(number) => Ok(object_of(state, Thing::Builder(number))?),
        None => Err(no_such_key(name)),
    }
}

/// Sets an item of an object.
pub fn set_item(
    state: &mut State,
    heap: &Heap,
    place: Place,
    object: HostId,
    key: Value,
    value: Value,
) -> Result<(), Refusal>
    ensures ok { OnOk result (spec.set_item (so_far state.old) heap.now place object.0 key value ≡ Ok (so_far state.new)) }
    ensures fault { IfErr result (λ e. e ≢ Refusal.Memory →
        spec.set_item (so_far state.old) heap.now place object.0 key value ≡ Err e) }
{
    let name = key_text(state, heap, object, key)?;
    match subject_of(state, object)? {
        Subject::Env(env) if name.as_str() == BUILDERS => {
            set_builders(state, heap, place, env, value)
        }
        Subject::Env(env) => set_variable(state, heap, place, env, name, value),
        Subject::Builders(env) => set_builder(state, heap, place, env, name, value),
        Subject::Path(_) | Subject::Made | Subject::Called => Err(not_indexed(state, heap, object)),
    }
}

fn set_variable(
    state: &mut State,
    heap: &Heap,
    place: Place,
    env: EnvId,
    name: Text,
    value: Value,
) -> Result<(), Refusal>
    ensures ok { OnOk result (spec.set_variable (so_far state.old) heap.now place env.0 name value ≡ Ok (so_far state.new)) }
    ensures fault { IfErr result (λ e. e ≢ Refusal.Memory →
        spec.set_variable (so_far state.old) heap.now place env.0 name value ≡ Err e) }
{
    let value = variable_value_of(state, heap, name.as_str(), value)?;
    made(state, place, env, Call::Set(name, value))
}

/// The value that a script gives a variable.
fn variable_value_of(
    state: &State,
    heap: &Heap,
    name: &str,
    value: Value,
) -> Result<EnvValue, Refusal>
    ensures ok { IfOk result (λ x. spec.variable_given heap.now state.now.objects name.now value ≡ Ok x) }
    ensures fault { IfErr result (λ e. e ≢ Refusal.Memory →
        spec.variable_given heap.now state.now.objects name.now value ≡ Err e) }
{
    if !is_identifier(name) {
        return Err(bad_argument(state.alloc, name));
    }
    match variable_of(heap, &state.objects, name, value) {
        Ok(value) => Ok(value),
        Err(fault) => Err(refused(state.alloc, name, fault)),
    }
}

/// Adds the builders of a dict to those of an environment.
fn set_builders(
    state: &mut State,
    heap: &Heap,
    place: Place,
    env: EnvId,
    value: Value,
) -> Result<(), Refusal>
    ensures ok { OnOk result (spec.set_builders (so_far state.old) heap.now place env.0 value ≡ Ok (so_far state.new)) }
    ensures fault { IfErr result (λ e. e ≢ Refusal.Memory →
        spec.set_builders (so_far state.old) heap.now place env.0 value ≡ Err e) }
{
    match value {
        Value::Dict(dict) => put_builders(state, heap, place, env, dict),
        _ => Err(left_out(state.alloc, BUILDERS)),
    }
}

#[tactic(auto, using(scons_calls::proofs::Loops::loops, crate::proofs::Lasts::lasts))]
fn put_builders(
    state: &mut State,
    heap: &Heap,
    place: Place,
    env: EnvId,
    dict: DictId,
) -> Result<(), Refusal>
    ensures ok { OnOk result (along (spec.set_pair heap.now place env.0) (so_far state.old) (pairs_in heap.now dict.0)
        ≡ Ok (so_far state.new)) }
    ensures fault { IfErr result (λ e. e ≢ Refusal.Memory →
        along (spec.set_pair heap.now place env.0) (so_far state.old) (pairs_in heap.now dict.0) ≡ Err e) }
{
    'pairs: for at in 0..heap.dict_len(dict) {
        if let Some(pair) = heap.pair_of(Value::Dict(dict), at as u64) {
            put_builder(state, heap, place, env, pair)?;
        }
    }
    Ok(())
}

fn put_builder(
    state: &mut State,
    heap: &Heap,
    place: Place,
    env: EnvId,
    pair: (Value, Value),
) -> Result<(), Refusal>
    ensures ok { OnOk result (spec.set_pair heap.now place env.0 (so_far state.old) pair ≡ Ok (so_far state.new)) }
    ensures fault { IfErr result (λ e. e ≢ Refusal.Memory →
        spec.set_pair heap.now place env.0 (so_far state.old) pair ≡ Err e) }
{
    let (key, value) = pair;
    let Some(name) = heap.text_of(key) else {
        return Err(bad_argument(state.alloc, BUILDERS));
    };
    let name = Text::of(state.alloc, name)?;
    set_builder(state, heap, place, env, name, value)
}

fn set_builder(
    state: &mut State,
    heap: &Heap,
    place: Place,
    env: EnvId,
    name: Text,
    value: Value,
) -> Result<(), Refusal>
    ensures ok { OnOk result (spec.set_builder (so_far state.old) heap.now place env.0 name value ≡ Ok (so_far state.new)) }
    ensures fault { IfErr result (λ e. e ≢ Refusal.Memory →
        spec.set_builder (so_far state.old) heap.now place env.0 name value ≡ Err e) }
{
    let number = builder_of(state, heap, value)?;
    made(state, place, env, Call::SetBuilder(name, number))
}

/// The number of a builder that a script gives a name.
fn builder_of(state: &State, heap: &Heap, value: Value) -> Result<u32, Refusal>
    ensures ok { IfOk result (λ n. spec.builder_given heap.now state.now.objects value ≡ Ok n) }
    ensures fault { IfErr result (λ e. e ≢ Refusal.Memory → spec.builder_given heap.now state.now.objects value ≡ Err e) }
{
    match builder(heap, &state.objects, value) {
        Ok(number) => Ok(number),
        Err(fault) => Err(refused(state.alloc, BUILDERS, fault)),
    }
}

/// The text of a key.
fn key_text(state: &State, heap: &Heap, object: HostId, key: Value) -> Result<Text, Refusal>
    ensures ok { IfOk result (λ name. spec.key_of heap.now object.0 key ≡ Ok name) }
    ensures fault { IfErr result (λ e. e ≢ Refusal.Memory → spec.key_of heap.now object.0 key ≡ Err e) }
{
    match heap.text_of(key) {
        Some(text) => Ok(Text::of(state.alloc, text)?),
        None => Err(not_indexed(state, heap, object)),
    }
}

fn not_indexed(state: &State, heap: &Heap, object: HostId) -> Refusal
    ensures { result ≢ Refusal.Memory → result ≡ told.bad_argument (told.shown_as heap.now object.0) }
{
    bad_argument(state.alloc, heap.shown_of(object).unwrap_or("env"))
}
