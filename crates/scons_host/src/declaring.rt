//! Declarations on the plain state of the reading, and the values of their answers.
ghost use Rattle.std.specs.Prelude.{◌≡◌, ◌≢◌, Ok, Err, IfOk, IfErr, OnOk};
ghost use Rattle.py_host.specs.Extends.{Extends};
ghost use Rattle.scons_host.specs.Answers as answers;
ghost use Rattle.scons_host.specs.Asked as spec;
ghost use Rattle.scons_host.specs.Lookups.{get};
ghost use Rattle.scons_host.specs.SoFar.{so_far};

use crate::answers::{answer_value, is_single};
use crate::state::State;
use crate::stop::Refusal;
use env_vars::EnvValue;
use py_heap::{Heap, Value};
use py_host::Place;
use scons_base::{EnvId, Text};
use scons_calls::variable_value;
use scons_declare::declare;
use scons_decls::{Answer, Call, NameFault};

/// Declares a call, and gives the value of its answer.
#[tactic(auto, using(crate::specs::Looking::looking))]
pub fn declared(
    state: &mut State,
    heap: &mut Heap,
    place: Place,
    env: EnvId,
    call: Call,
) -> Result<Value, Refusal>
    ensures stands { Extends heap.old heap.new }
    ensures ok { IfOk result (λ v.
        answers.declares (so_far state.old) heap.old place env.0 call ≡ Ok (v, so_far state.new, heap.new)) }
    ensures fault { IfErr result (λ e. e ≢ Refusal.Memory →
        answers.declares (so_far state.old) heap.old place env.0 call ≡ Err e) }
{
    let single = is_single(&call);
    let answer = answer(state, place, env, call)?;
    answer_value(state, heap, single, answer)
}

/// Declares a call that answers nothing.
pub fn made(state: &mut State, place: Place, env: EnvId, call: Call) -> Result<(), Refusal>
    ensures ok { OnOk result (spec.made (so_far state.old) place env.0 call ≡ Ok (so_far state.new)) }
    ensures fault { IfErr result (λ e. e ≢ Refusal.Memory → spec.made (so_far state.old) place env.0 call ≡ Err e) }
{
    answer(state, place, env, call)?;
    Ok(())
}

/// A copy of a variable's value, if there is one.
pub fn variable(
    state: &mut State,
    place: Place,
    env: EnvId,
    name: Text,
) -> Result<Option<EnvValue>, Refusal>
    ensures ok { IfOk result (λ x. spec.variable (so_far state.old) place env.0 name ≡ Ok (x, so_far state.new)) }
    ensures fault { IfErr result (λ e. e ≢ Refusal.Memory → spec.variable (so_far state.old) place env.0 name ≡ Err e) }
{
    match answer(state, place, env, Call::Get(name))? {
        Answer::Variable(value) => Ok(value),
        Answer::Nothing | Answer::Env(_) | Answer::Targets(_) => Ok(None),
        Answer::Text(_) | Answer::Builder(_) => Ok(None),
    }
}

/// What a call answers.
#[tactic(auto, unfolding(crate::specs::Asked::declared_in))]
fn answer(state: &mut State, place: Place, env: EnvId, call: Call) -> Result<Answer, NameFault>
    ensures ok { IfOk result (λ a. spec.declared_in (so_far state.old) place env.0 call ≡ Ok (a, so_far state.new)) }
    ensures fault { IfErr result (λ e. e ≢ NameFault.Memory → spec.declared_in (so_far state.old) place env.0 call ≡ Err e) }
{
    declare(&mut state.declared, env, place_of(place), &call)
}

/// The value of a variable, or another value where there is none.
#[tactic(auto, using(crate::specs::Looking::looking))]
pub fn value_or(
    state: &mut State,
    heap: &mut Heap,
    place: Place,
    env: EnvId,
    name: Text,
    default: Value,
) -> Result<Value, Refusal>
    ensures stands { Extends heap.old heap.new }
    ensures ok { IfOk result (λ v.
        get (so_far state.old) heap.old place env.0 name default ≡ Ok (v, so_far state.new, heap.new)) }
    ensures fault { IfErr result (λ e. e ≢ Refusal.Memory →
        get (so_far state.old) heap.old place env.0 name default ≡ Err e) }
{
    match variable(state, place, env, name)? {
        Some(value) => Ok(variable_value(heap, &mut state.objects, &value)?),
        None => Ok(default),
    }
}

fn place_of(place: Place) -> scons_decls::Place
    ensures { result ≡ spec.site_of place }
{
    scons_decls::Place {
        script: place.script,
        line: place.line,
    }
}
