//! The calls on environments.
ghost use Rattle.std.specs.Prelude.{◌≡◌, ◌≢◌, Ok, Err, IfOk, IfErr, OnOk};
ghost use Rattle.scons_decls.specs.State.{declared_of};
ghost use Rattle.scons_declare.specs.Changes as spec;

use crate::variables::{change_all, change_one, set_builders};
use env_subst::Mode;
use env_vars::EnvValue;
use scons_base::{EnvId, Text};
use scons_decls::{
    Answer, Change, Declarations, NameFault, Variables, bad_argument, expanded, refuse_reading,
    refuse_value, refuse_variable, refuse_variables,
};
use world_api::Decider;

/// `Environment(..)`
pub(crate) fn new_environment(
    state: &mut Declarations,
    variables: &Variables,
) -> Result<Answer, NameFault>
    ensures ok { IfOk result (λ a. spec.environment (declared_of state.old) variables.now
        ≡ Ok (a, declared_of state.new)) }
    ensures fault { IfErr result (λ e. e ≢ NameFault.Memory
        → spec.environment (declared_of state.old) variables.now ≡ Err e) }
{
    refuse_variables(state.alloc, variables.values.as_slice())?;
    let env = state.envs.make()?;
    change(state, env, Change::Replace, variables)?;
    Ok(Answer::Env(env))
}

/// `DefaultEnvironment(..)`: what is given is set in the one default environment.
pub(crate) fn change_default(
    state: &mut Declarations,
    variables: &Variables,
) -> Result<Answer, NameFault>
    ensures ok { IfOk result (λ a. spec.default_environment (declared_of state.old) variables.now
        ≡ Ok (a, declared_of state.new)) }
    ensures fault { IfErr result (λ e. e ≢ NameFault.Memory
        → spec.default_environment (declared_of state.old) variables.now ≡ Err e) }
{
    let env = state.default_env();
    change(state, env, Change::Replace, variables)?;
    Ok(Answer::Env(env))
}

/// `env.Clone(..)`
pub(crate) fn clone_environment(
    state: &mut Declarations,
    env: EnvId,
    variables: &Variables,
) -> Result<Answer, NameFault>
    ensures ok { IfOk result (λ a. spec.clone (declared_of state.old) env.0 variables.now
        ≡ Ok (a, declared_of state.new)) }
    ensures fault { IfErr result (λ e. e ≢ NameFault.Memory
        → spec.clone (declared_of state.old) env.0 variables.now ≡ Err e) }
{
    refuse_variables(state.alloc, variables.values.as_slice())?;
    let clone = state.envs.clone_of(env)?;
    set_given(state, env, clone, variables.values.as_slice())?;
    set_builders(state, clone, variables.builders.as_slice())?;
    Ok(Answer::Env(clone))
}

/// Sets values that were given to a clone of an environment.
fn set_given(
    state: &mut Declarations,
    env: EnvId,
    clone: EnvId,
    values: &[(Text, EnvValue)],
) -> Result<(), NameFault>
    ensures ok { OnOk result (spec.all_given env.0 clone.0 values.now (declared_of state.old)
        ≡ Ok (declared_of state.new)) }
    ensures fault { IfErr result (λ e. e ≢ NameFault.Memory
        → spec.all_given env.0 clone.0 values.now (declared_of state.old) ≡ Err e) }
{
    for (name, value) in values {
        let value = state.envs.given(env, name, value)?;
        change_one(state, clone, Change::Replace, name, &value)?;
    }
    Ok(())
}

/// `Append` and its kin, `Replace` and `SetDefault`.
pub(crate) fn change(
    state: &mut Declarations,
    env: EnvId,
    how: Change,
    variables: &Variables,
) -> Result<Answer, NameFault>
    ensures ok { IfOk result (λ a. spec.change (declared_of state.old) env.0 how variables.now
        ≡ Ok (a, declared_of state.new)) }
    ensures fault { IfErr result (λ e. e ≢ NameFault.Memory
        → spec.change (declared_of state.old) env.0 how variables.now ≡ Err e) }
{
    refuse_variables(state.alloc, variables.values.as_slice())?;
    change_all(state, env, how, variables.values.as_slice())?;
    set_builders(state, env, variables.builders.as_slice())?;
    Ok(Answer::Nothing)
}

/// `env['X'] = v`
pub(crate) fn set(
    state: &mut Declarations,
    env: EnvId,
    name: &Text,
    value: &EnvValue,
) -> Result<Answer, NameFault>
    ensures ok { IfOk result (λ a. spec.set (declared_of state.old) env.0 name.now value.now
        ≡ Ok (a, declared_of state.new)) }
    ensures fault { IfErr result (λ e. e ≢ NameFault.Memory
        → spec.set (declared_of state.old) env.0 name.now value.now ≡ Err e) }
{
    refuse_variable(state.alloc, name.as_str())?;
    refuse_value(state.alloc, value)?;
    change_one(state, env, Change::Replace, name, value)?;
    Ok(Answer::Nothing)
}

/// `env['BUILDERS']['N'] = b`
pub(crate) fn set_builder(
    state: &mut Declarations,
    env: EnvId,
    name: &Text,
    builder: u32,
) -> Result<Answer, NameFault>
    ensures ok { IfOk result (λ a. spec.set_builder (declared_of state.old) env.0 name.now builder
        ≡ Ok (a, declared_of state.new)) }
    ensures fault { IfErr result (λ e. e ≢ NameFault.Memory
        → spec.set_builder (declared_of state.old) env.0 name.now builder ≡ Err e) }
{
    state.envs.set_builder(env, name, builder)?;
    Ok(Answer::Nothing)
}

/// `env['X']` and `env.get('X')`
pub(crate) fn get(state: &Declarations, env: EnvId, name: &Text) -> Result<Answer, NameFault>
    ensures ok { IfOk result (λ a. spec.get (declared_of state.now) env.0 name.now ≡ Ok (a, declared_of state.now)) }
    ensures fault { IfErr result (λ e. e ≢ NameFault.Memory → spec.get (declared_of state.now) env.0 name.now ≡ Err e) }
{
    let value = match state.envs.get(env, name.as_str()) {
        Some(value) => Some(value.copy(state.alloc)?),
        None => {
            refuse_reading(state.alloc, name.as_str())?;
            None
        }
    };
    Ok(Answer::Variable(value))
}

/// `env.subst(text, raw)`
pub(crate) fn subst(
    state: &Declarations,
    env: EnvId,
    text: &Text,
    mode: Mode,
) -> Result<Answer, NameFault>
    ensures ok { IfOk result (λ a. spec.subst (declared_of state.now) env.0 text.now mode
        ≡ Ok (a, declared_of state.now)) }
    ensures fault { IfErr result (λ e. e ≢ NameFault.Memory
        → spec.subst (declared_of state.now) env.0 text.now mode ≡ Err e) }
{
    Ok(Answer::Text(expanded(state, env, text.as_str(), mode)?))
}

/// `Decider(name)`, for rules declared later in this environment.
pub(crate) fn set_decider(
    state: &mut Declarations,
    env: EnvId,
    name: &Text,
) -> Result<Answer, NameFault>
    ensures ok { IfOk result (λ a. spec.decide (declared_of state.old) env.0 name.now ≡ Ok (a, declared_of state.new)) }
    ensures fault { IfErr result (λ e. e ≢ NameFault.Memory
        → spec.decide (declared_of state.old) env.0 name.now ≡ Err e) }
{
    let Some(decider) = decider_named(name.as_str()) else {
        return Err(bad_argument(state, "Decider"));
    };
    state.envs.set_decider(env, decider);
    Ok(Answer::Nothing)
}

fn decider_named(name: &str) -> Option<Decider>
    ensures { result ≡ spec.decider_named name.now }
{
    if name == "content" || name == "MD5" {
        Some(Decider::Content)
    } else if name == "timestamp-newer" || name == "make" {
        Some(Decider::Newer)
    } else if name == "timestamp-match" {
        Some(Decider::Match)
    } else if name == "content-timestamp" || name == "MD5-timestamp" {
        Some(Decider::ContentMatch)
    } else {
        None
    }
}
