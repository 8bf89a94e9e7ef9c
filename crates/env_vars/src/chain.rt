//! An environment and those behind it.
ghost use Rattle.std.specs.Prelude.{◌≡◌, ◌<◌, ◌∷◌, [], map, length, IfOk, OnOk, option_copied};
ghost use Rattle.env_vars.specs.Vars.{value_at, put_all};
ghost use Rattle.env_vars.specs.Envs.{own_of, behind_of, first_value, value_of, flattened, copied, set_all};

use crate::env::Env;
use crate::forms::as_set;
use crate::value::EnvValue;
use crate::vars::Vars;
use scons_base::{EnvId, Memory, Text};
use std::alloc::Global;

pub(crate) fn value_of<'a>(envs: &'a [Env], env: EnvId, name: &str) -> Option<&'a EnvValue>
    requires { env.0 < length envs.now }
    ensures { option_copied result ≡ value_of envs.now env.0 name.now }
{
    let there = &envs[env.0 as usize];
    match there.own().get(name) {
        Some(value) => Some(value),
        None => first_value(envs, there.behind(), name),
    }
}

/// The value that the first of these environments with such a variable of its own has.
fn first_value<'a>(envs: &'a [Env], ids: &[EnvId], name: &str) -> Option<&'a EnvValue>
    ensures { option_copied result ≡ first_value envs.now (map (λ id. id.0) ids.now) name.now }
{
    for id in ids {
        if let Some(value) = own_value(envs, *id, name) {
            return Some(value);
        }
    }
    None
}

fn own_value<'a>(envs: &'a [Env], id: EnvId, name: &str) -> Option<&'a EnvValue>
    ensures { option_copied result ≡ value_at (own_of envs.now id.0) name.now }
{
    let there = envs.get(id.0 as usize)?;
    there.own().get(name)
}

/// The numbers of an environment and of those behind it.
pub(crate) fn chain(alloc: Global, envs: &[Env], env: EnvId) -> Result<Vec<EnvId>, Memory>
    requires { env.0 < length envs.now }
    ensures { IfOk result (λ v. map (λ id. id.0) v.items ≡ env.0 ∷ behind_of envs.now env.0) }
{
    let mut ids = Vec::new(alloc);
    ids.push(env)?;
    ids.extend_from_slice(envs[env.0 as usize].behind())?;
    Ok(ids)
}

/// The variables that a clone of an environment gets.
pub(crate) fn copied(alloc: Global, envs: &[Env], env: EnvId) -> Result<Vars, Memory>
    requires { env.0 < length envs.now }
    ensures { IfOk result (λ v. v ≡ copied envs.now env.0) }
{
    let there = &envs[env.0 as usize];
    if there.behind().is_empty() {
        return there.own().copy(alloc);
    }
    let mut vars = flattened(alloc, envs, there.behind())?;
    vars.put_all(alloc, there.own())?;
    Ok(vars)
}

/// All variables of these environments in one list, those behind first.
fn flattened(alloc: Global, envs: &[Env], ids: &[EnvId]) -> Result<Vars, Memory>
    ensures { IfOk result (λ v. v ≡ flattened envs.now (map (λ id. id.0) ids.now)) }
{
    let mut vars = Vars::new(alloc);
    let mut left = ids.len();
    while left > 0 {
        left -= 1;
        put_own(alloc, &mut vars, envs, ids[left])?;
    }
    Ok(vars)
}

fn put_own(alloc: Global, vars: &mut Vars, envs: &[Env], id: EnvId) -> Result<(), Memory>
    ensures { OnOk result (vars.new ≡ put_all vars.old (own_of envs.now id.0)) }
{
    if let Some(there) = envs.get(id.0 as usize) {
        vars.put_all(alloc, there.own())?;
    }
    Ok(())
}

/// A list of variables, set one after another.
pub(crate) fn set_all(alloc: Global, names: &[(Text, EnvValue)]) -> Result<Vars, Memory>
    ensures { IfOk result (λ v. v ≡ set_all [] names.now) }
{
    let mut vars = Vars::new(alloc);
    for (name, value) in names {
        let value = as_set(alloc, name.as_str(), value.copy(alloc)?)?;
        vars.put(String::from_str(alloc, name.as_str())?, value)?;
    }
    Ok(vars)
}
