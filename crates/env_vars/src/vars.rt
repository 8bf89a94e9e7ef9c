//! The variables of one environment, by their names.
ghost use Rattle.std.specs.Prelude.{◌≡◌, ◌≢◌, [], Some, None, length, slice_get, IfOk, IfErr, OnOk, OnErr, string_bytes, option_copied};
ghost use Rattle.std.specs.Option.{option_map};
ghost use Rattle.env_vars.specs.Vars.{value_at, put, put_all};
ghost use Rattle.env_vars.specs.Added.{added_to};
ghost use Rattle.env_vars.specs.declared.value.EnvValue.{EnvValue};

use crate::fault::EnvFault;
use crate::grown::add_to;
use crate::place::Place;
use crate::value::EnvValue;
use indexmap::IndexMap;
use scons_base::Memory;
use std::alloc::Global;
use std::marker::Model;

/// Variables by their names, in the order in which they came. A look-up is one by hash.
#[derive(Drop)]
pub(crate) struct Vars {
    vars: IndexMap<String, EnvValue>,
}

impl Model for Vars {
    ghost use Rattle.std.specs.Prelude.{List, ℕ};
    ghost use Rattle.env_vars.specs.declared.value.EnvValue.{EnvValue};
    ghost use Rattle.env_vars.specs.Vars.{vars_of};

    ghost Value = { List (List ℕ × EnvValue) };

    ghost view = { λ v. vars_of v.vars.entries };
}

impl Vars {
    pub(crate) fn new(alloc: Global) -> Vars
        ensures { result ≡ [] }
    {
        Vars {
            vars: IndexMap::new(alloc),
        }
    }

    pub(crate) fn get(&self, name: &str) -> Option<&EnvValue>
        ensures { option_copied result ≡ value_at self.now name.now }
    {
        self.vars.get(name)
    }

    pub(crate) fn put(&mut self, name: String, value: EnvValue) -> Result<(), Memory>
        ensures ok { OnOk result (self.new ≡ put self.old (string_bytes name, value)) }
        ensures err { OnErr result (self.new ≡ self.old) }
    {
        self.vars.insert(name, value)?;
        Ok(())
    }

    /// Puts a value in the place of the one that the name has, and gives that one.
    fn swap(&mut self, name: String, value: EnvValue) -> Result<Option<EnvValue>, Memory>
        ensures old { IfOk result (λ old. old ≡ value_at self.old (string_bytes name)) }
        ensures ok { OnOk result (self.new ≡ put self.old (string_bytes name, value)) }
        ensures err { OnErr result (self.new ≡ self.old) }
        ensures absent { OnErr result (value_at self.old (string_bytes name) ≡ None) }
    {
        Ok(self.vars.insert(name, value)?)
    }

    /// Adds a value to one that is there. That one is taken out meanwhile, so that nothing of it is copied.
    #[tactic(auto, using(crate::proofs::VarLemmas::put_twice, crate::proofs::VarLemmas::put_same, crate::proofs::VarLemmas::value_at_put))]
    pub(crate) fn add(
        &mut self,
        alloc: Global,
        place: Place,
        name: &str,
        value: &EnvValue,
    ) -> Result<(), EnvFault>
        requires { value_at self.old name.now ≢ None }
        ensures ok { OnOk result ((old new : EnvValue) × (value_at self.old name.now ≡ Some old)
            × (added_to place name.now old value.now ≡ Some new) × (self.new ≡ put self.old (name.now, new))) }
        ensures kinds { IfErr result (λ e. e ≢ EnvFault.Memory → (e ≡ EnvFault.Kinds)
            × ((old : EnvValue) × (value_at self.old name.now ≡ Some old) × (added_to place name.now old value.now ≡ None))) }
        ensures err { OnErr result (self.new ≡ self.old) }
    {
        let again = owned(alloc, name)?;
        let name = owned(alloc, name)?;
        match self.swap(name, EnvValue::Nil)? {
            Some(held) => self.put_added(alloc, place, again, held, value),
            None => Err(EnvFault::Memory),
        }
    }

    /// Puts a value that another one is added to, in the place of the one that the name has.
    fn put_added(
        &mut self,
        alloc: Global,
        place: Place,
        name: String,
        held: EnvValue,
        value: &EnvValue,
    ) -> Result<(), EnvFault>
        requires { value_at self.old (string_bytes name) ≢ None }
        ensures ok { OnOk result ((new : EnvValue) × (added_to place (string_bytes name) held value.now ≡ Some new)
            × (self.new ≡ put self.old (string_bytes name, new))) }
        ensures kinds { IfErr result (λ e. e ≢ EnvFault.Memory → (e ≡ EnvFault.Kinds)
            × (added_to place (string_bytes name) held value.now ≡ None)) }
        ensures err { OnErr result (self.new ≡ put self.old (string_bytes name, held)) }
    {
        let mut held = held;
        let added = add_to(alloc, place, name.as_str(), &mut held, value);
        self.swap(name, held)?;
        added
    }

    pub(crate) fn len(&self) -> usize
        ensures { result ≡ length self.now }
    {
        self.vars.len()
    }

    /// The variable at a place of the list.
    pub(crate) fn at(&self, place: usize) -> Option<(&str, &EnvValue)>
        ensures { option_map (λ p. (p.0.now, p.1.now)) result ≡ slice_get self.now place }
    {
        let (name, value) = self.vars.get_index(place)?;
        Some((name.as_str(), value))
    }

    /// Puts the variables of another list, one after another.
    pub(crate) fn put_all(&mut self, alloc: Global, other: &Vars) -> Result<(), Memory>
        ensures { OnOk result (self.new ≡ put_all self.old other.now) }
    {
        for place in 0..other.len() {
            if let Some((name, value)) = other.at(place) {
                self.put(String::from_str(alloc, name)?, value.copy(alloc)?)?;
            }
        }
        Ok(())
    }

    pub(crate) fn copy(&self, alloc: Global) -> Result<Vars, Memory>
        ensures { IfOk result (λ v. v ≡ self.now) }
    {
        let vars = IndexMap::with_capacity(alloc, self.vars.len())?;
        let mut copy = Vars { vars };
        copy.put_all(alloc, self)?;
        Ok(copy)
    }
}

fn owned(alloc: Global, name: &str) -> Result<String, Memory>
    ensures { IfOk result (λ s. string_bytes s ≡ name.now) }
{
    Ok(String::from_str(alloc, name)?)
}
