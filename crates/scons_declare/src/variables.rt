//! What setting variables does.
ghost use Rattle.std.specs.Prelude.{◌≡◌, ◌≢◌, Ok, Err, IfErr, OnOk};
ghost use Rattle.scons_decls.specs.State.{declared_of};
ghost use Rattle.scons_declare.specs.Changes as spec;

use env_vars::{EnvFault, EnvValue};
use scons_base::{EnvId, Text};
use scons_decls::{Change, Declarations, NameFault};

pub(crate) fn change_all(
    state: &mut Declarations,
    env: EnvId,
    change: Change,
    values: &[(Text, EnvValue)],
) -> Result<(), NameFault>
    ensures ok { OnOk result (spec.all_changed change env.0 values.now (declared_of state.old)
        ≡ Ok (declared_of state.new)) }
    ensures fault { IfErr result (λ e. e ≢ NameFault.Memory
        → spec.all_changed change env.0 values.now (declared_of state.old) ≡ Err e) }
{
    for (name, value) in values {
        change_one(state, env, change, name, value)?;
    }
    Ok(())
}

pub(crate) fn set_builders(
    state: &mut Declarations,
    env: EnvId,
    builders: &[(Text, u32)],
) -> Result<(), NameFault>
    ensures ok { OnOk result (spec.builders_set env.0 builders.now (declared_of state.old)
        ≡ Ok (declared_of state.new)) }
    ensures fault { IfErr result (λ e. e ≢ NameFault.Memory
        → spec.builders_set env.0 builders.now (declared_of state.old) ≡ Err e) }
{
    for (name, builder) in builders {
        state.envs.set_builder(env, name, *builder)?;
    }
    Ok(())
}

pub(crate) fn change_one(
    state: &mut Declarations,
    env: EnvId,
    change: Change,
    name: &Text,
    value: &EnvValue,
) -> Result<(), NameFault>
    ensures ok { OnOk result (spec.one_changed change env.0 (name.now, value.now) (declared_of state.old)
        ≡ Ok (declared_of state.new)) }
    ensures fault { IfErr result (λ e. e ≢ NameFault.Memory
        → spec.one_changed change env.0 (name.now, value.now) (declared_of state.old) ≡ Err e) }
{
    let value = value.copy(state.alloc)?;
    let text = name.as_str();
    let changed = match change {
        Change::Append => state.envs.append(env, text, value),
        Change::Prepend => state.envs.prepend(env, text, value),
        Change::AppendUnique => state.envs.append_unique(env, text, value),
        Change::Replace => state.envs.set(env, text, value),
        Change::SetDefault => state.envs.set_default(env, text, value),
    };
    match changed {
        Ok(()) => Ok(()),
        Err(EnvFault::Kinds) => Err(NameFault::Kinds(name.copy()?)),
        Err(EnvFault::Memory) => Err(NameFault::Memory),
    }
}
