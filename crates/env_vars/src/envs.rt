//! The construction environments of a reading.
ghost use Rattle.std.specs.Prelude.{◌≡◌, ◌≢◌, ◌<◌, ◌≤◌, ◌++◌, ◌∷◌, [], Some, None, true, false, length, IfOk, IfErr, OnOk, OnErr, option_copied};
ghost use Rattle.scons_base.specs.declared.limits.TheConstants.{TEXT_LIMIT};
ghost use Rattle.env_vars.specs.declared.place.Place.TheVariants as place;
ghost use Rattle.env_vars.specs.Added.{as_set, added};
ghost use Rattle.env_vars.specs.Given.{given, size_of};
ghost use Rattle.env_vars.specs.Initial.{initial_vars};
ghost use Rattle.env_vars.specs.Vars.{value_at};
ghost use Rattle.env_vars.specs.Envs.{own_of, behind_of, value_of, copied, set_all, is_unset, with_var, after_adding};

use crate::added::added_to;
use crate::chain::{chain, copied, set_all, value_of};
use crate::env::Env;
use crate::fault::{EnvFault, GivenFault};
use crate::forms::as_set;
use crate::given::given;
use crate::initial::initial_vars;
use crate::names::is_late_variable;
use crate::place::Place;
use crate::value::EnvValue;
use scons_base::{EnvId, Memory, Text};
use std::alloc::Global;
use std::marker::Model;

/// The construction environments of a reading. A number once given stays.
#[derive(Drop)]
pub struct Envs {
    envs: Vec<Env>,
    alloc: Global,
}

impl Model for Envs {
    ghost use Rattle.std.specs.Prelude.{List};
    ghost use Rattle.env_vars.specs.Envs.{Scope};

    ghost Value = { List Scope };

    ghost view = { λ e. e.envs.items };
}

impl Envs {
    pub fn new(alloc: Global) -> Envs
        ensures { result ≡ [] }
    {
        Envs {
            envs: Vec::new(alloc),
            alloc,
        }
    }

    /// A new environment with the initial variables.
    pub fn make(&mut self) -> Result<EnvId, Memory>
        ensures ok { IfOk result (λ id. (id.0 ≡ length self.old)
            × (self.new ≡ self.old ++ record { own = initial_vars; behind = [] } ∷ [])) }
        ensures err { OnErr result (self.new ≡ self.old) }
    {
        let own = initial_vars(self.alloc)?;
        self.push(Env::new(own, Vec::new(self.alloc)))
    }

    /// An environment with a copy of what another one has now. From then on neither changes the other.
    pub fn clone_of(&mut self, env: EnvId) -> Result<EnvId, Memory>
        requires { env.0 < length self.old }
        ensures ok { IfOk result (λ id. (id.0 ≡ length self.old)
            × (self.new ≡ self.old ++ record { own = copied self.old env.0; behind = [] } ∷ [])) }
        ensures err { OnErr result (self.new ≡ self.old) }
    {
        let own = copied(self.alloc, self.envs.as_slice(), env)?;
        self.push(Env::new(own, Vec::new(self.alloc)))
    }

    /// An environment whose own names stand in front of another one, which is looked at when a name is looked up.
    /// A name given twice has its last value.
    pub fn overlay(&mut self, env: EnvId, names: &[(Text, EnvValue)]) -> Result<EnvId, Memory>
        requires { env.0 < length self.old }
        ensures ok { IfOk result (λ id. (id.0 ≡ length self.old) × (self.new ≡ self.old
            ++ record { own = set_all [] names.now; behind = env.0 ∷ behind_of self.old env.0 } ∷ [])) }
        ensures err { OnErr result (self.new ≡ self.old) }
    {
        let own = set_all(self.alloc, names)?;
        let behind = chain(self.alloc, self.envs.as_slice(), env)?;
        self.push(Env::new(own, behind))
    }

    fn push(&mut self, env: Env) -> Result<EnvId, Memory>
        ensures ok { IfOk result (λ id. (id.0 ≡ length self.old) × (self.new ≡ self.old ++ env ∷ [])) }
        ensures err { OnErr result (self.new ≡ self.old) }
    {
        let id = EnvId(self.envs.len() as u64);
        self.envs.push(env)?;
        Ok(id)
    }

    /// The value of a variable: the environment's own, or that of the nearest environment behind it which has one.
    pub fn get(&self, env: EnvId, name: &str) -> Option<&EnvValue>
        requires { env.0 < length self.now }
        ensures { option_copied result ≡ value_of self.now env.0 name.now }
    {
        value_of(self.envs.as_slice(), env, name)
    }

    /// What a value stands for that is given for a variable to a clone of the environment, or to one call: the variable's
    /// own name in it stands for what the environment has. As a text it may have no more bytes than a text.
    pub fn given(&self, env: EnvId, name: &str, value: EnvValue) -> Result<EnvValue, GivenFault>
        requires { env.0 < length self.now }
        ensures ok { IfOk result (λ v. v ≡ given name.now (value_of self.now env.0 name.now) value) }
        ensures fits { IfOk result (λ v. size_of v ≤ TEXT_LIMIT) }
        ensures too_long { IfErr result (λ e. e ≢ GivenFault.Memory
            → TEXT_LIMIT < size_of (given name.now (value_of self.now env.0 name.now) value)) }
    {
        given(self.alloc, name, self.get(env, name), value)
    }

    /// Gives a variable a value, in the form that the variable takes.
    pub fn set(&mut self, env: EnvId, name: &str, value: EnvValue) -> Result<(), EnvFault>
        requires { env.0 < length self.old }
        ensures ok { OnOk result (self.new ≡ with_var self.old env.0 (name.now, as_set name.now value)) }
        ensures only_memory { IfErr result (λ e. e ≡ EnvFault.Memory) }
        ensures err { OnErr result (self.new ≡ self.old) }
        ensures count { length self.new ≡ length self.old }
    {
        let value = as_set(self.alloc, name, value)?;
        self.put(env, name, value)?;
        Ok(())
    }

    /// Adds a value behind what the variable has.
    pub fn append(&mut self, env: EnvId, name: &str, value: EnvValue) -> Result<(), EnvFault>
        requires { env.0 < length self.old }
        ensures ok { OnOk result (after_adding place.Behind self.old env.0 name.now value ≡ Some self.new) }
        ensures kinds { IfErr result (λ e. e ≢ EnvFault.Memory
            → (e ≡ EnvFault.Kinds) × (after_adding place.Behind self.old env.0 name.now value ≡ None)) }
        ensures err { OnErr result (self.new ≡ self.old) }
        ensures count { length self.new ≡ length self.old }
    {
        self.add(Place::Behind, env, name, value)
    }

    /// Adds a value in front of what the variable has.
    pub fn prepend(&mut self, env: EnvId, name: &str, value: EnvValue) -> Result<(), EnvFault>
        requires { env.0 < length self.old }
        ensures ok { OnOk result (after_adding place.InFront self.old env.0 name.now value ≡ Some self.new) }
        ensures kinds { IfErr result (λ e. e ≢ EnvFault.Memory
            → (e ≡ EnvFault.Kinds) × (after_adding place.InFront self.old env.0 name.now value ≡ None)) }
        ensures err { OnErr result (self.new ≡ self.old) }
        ensures count { length self.new ≡ length self.old }
    {
        self.add(Place::InFront, env, name, value)
    }

    /// Adds behind what the variable has those items of a value that aren't there already.
    pub fn append_unique(&mut self, env: EnvId, name: &str, value: EnvValue) -> Result<(), EnvFault>
        requires { env.0 < length self.old }
        ensures ok { OnOk result (after_adding place.New self.old env.0 name.now value ≡ Some self.new) }
        ensures kinds { IfErr result (λ e. e ≢ EnvFault.Memory
            → (e ≡ EnvFault.Kinds) × (after_adding place.New self.old env.0 name.now value ≡ None)) }
        ensures err { OnErr result (self.new ≡ self.old) }
        ensures count { length self.new ≡ length self.old }
    {
        self.add(Place::New, env, name, value)
    }

    /// Sets a variable that isn't there, or that has no item yet where SCons doesn't have it at first.
    pub fn set_default(&mut self, env: EnvId, name: &str, value: EnvValue) -> Result<(), EnvFault>
        requires { env.0 < length self.old }
        ensures there { is_unset name.now (value_of self.old env.0 name.now) ≡ false → self.new ≡ self.old }
        ensures unset { is_unset name.now (value_of self.old env.0 name.now) ≡ true
            → OnOk result (self.new ≡ with_var self.old env.0 (name.now, as_set name.now value)) }
        ensures only_memory { IfErr result (λ e. (e ≡ EnvFault.Memory)
            × (is_unset name.now (value_of self.old env.0 name.now) ≡ true)) }
        ensures err { OnErr result (self.new ≡ self.old) }
        ensures count { length self.new ≡ length self.old }
    {
        if is_unset(name, self.get(env, name)) {
            self.set(env, name, value)
        } else {
            Ok(())
        }
    }

    fn add(&mut self, place: Place, env: EnvId, name: &str, value: EnvValue) -> Result<(), EnvFault>
        requires { env.0 < length self.old }
        ensures ok { OnOk result (after_adding place self.old env.0 name.now value ≡ Some self.new) }
        ensures kinds { IfErr result (λ e. e ≢ EnvFault.Memory
            → (e ≡ EnvFault.Kinds) × (after_adding place self.old env.0 name.now value ≡ None)) }
        ensures err { OnErr result (self.new ≡ self.old) }
        ensures count { length self.new ≡ length self.old }
    {
        if self.envs[env.0 as usize].own().get(name).is_some() {
            return self.add_own(place, env, name, &value);
        }
        let old = value_of(self.envs.as_slice(), env, name);
        match added(self.alloc, place, name, old, value)? {
            Some(new) => self.put(env, name, new)?,
            None => return Err(EnvFault::Kinds),
        }
        Ok(())
    }

    /// Adds a value to a variable of the environment's own.
    fn add_own(
        &mut self,
        place: Place,
        env: EnvId,
        name: &str,
        value: &EnvValue,
    ) -> Result<(), EnvFault>
        requires env { env.0 < length self.old }
        requires own { value_at (own_of self.old env.0) name.now ≢ None }
        ensures ok { OnOk result (after_adding place self.old env.0 name.now value.now ≡ Some self.new) }
        ensures kinds { IfErr result (λ e. e ≢ EnvFault.Memory
            → (e ≡ EnvFault.Kinds) × (after_adding place self.old env.0 name.now value.now ≡ None)) }
        ensures err { OnErr result (self.new ≡ self.old) }
        ensures count { length self.new ≡ length self.old }
    {
        let there = &mut self.envs[env.0 as usize];
        there.add(self.alloc, place, name, value)
    }

    fn put(&mut self, env: EnvId, name: &str, value: EnvValue) -> Result<(), Memory>
        requires { env.0 < length self.old }
        ensures ok { OnOk result (self.new ≡ with_var self.old env.0 (name.now, value)) }
        ensures err { OnErr result (self.new ≡ self.old) }
        ensures count { length self.new ≡ length self.old }
    {
        let name = String::from_str(self.alloc, name)?;
        let there = &mut self.envs[env.0 as usize];
        there.put(name, value)
    }
}

/// Whether a value counts as none where a default is given.
fn is_unset(name: &str, value: Option<&EnvValue>) -> bool
    ensures { result ≡ is_unset name.now (option_copied value.entry) }
{
    match value {
        None => true,
        Some(EnvValue::Words(words)) => words.as_slice().is_empty() && is_late_variable(name),
        Some(EnvValue::List(items)) => items.is_empty() && is_late_variable(name),
        Some(_) => false,
    }
}

/// What a variable becomes where a value is added.
fn added(
    alloc: Global,
    place: Place,
    name: &str,
    old: Option<&EnvValue>,
    value: EnvValue,
) -> Result<Option<EnvValue>, Memory>
    ensures { IfOk result (λ o. o ≡ added place name.now (option_copied old.entry) value) }
{
    match old {
        None => Ok(Some(as_set(alloc, name, value)?)),
        Some(old) => added_to(alloc, place, name, old, &value),
    }
}
