//! One environment, with those behind it.
ghost use Rattle.std.specs.Prelude.{◌≡◌, ◌≢◌, Some, None, map, IfErr, OnOk, OnErr, string_bytes};
ghost use Rattle.env_vars.specs.Vars.{put, value_at};
ghost use Rattle.env_vars.specs.Added.{added_to};
ghost use Rattle.env_vars.specs.declared.value.EnvValue.{EnvValue};

use crate::fault::EnvFault;
use crate::place::Place;
use crate::value::EnvValue;
use crate::vars::Vars;
use scons_base::{EnvId, Memory};
use std::alloc::Global;
use std::marker::Model;

/// One environment: its own variables, and the environments behind it, the nearest first.
#[derive(Drop)]
pub(crate) struct Env {
    own: Vars,
    behind: Vec<EnvId>,
}

impl Model for Env {
    ghost use Rattle.std.specs.Prelude.{map};
    ghost use Rattle.env_vars.specs.Envs.{Scope};

    ghost Value = { Scope };

    ghost view = { λ e. record { own = e.own; behind = map (λ id. id.0) e.behind.items } };
}

impl Env {
    pub(crate) fn new(own: Vars, behind: Vec<EnvId>) -> Env
        ensures { result ≡ record { own = own; behind = map (λ id. id.0) behind.items } }
    {
        Env { own, behind }
    }

    pub(crate) fn own(&self) -> &Vars
        ensures { result.now ≡ self.now.own }
    {
        &self.own
    }

    pub(crate) fn behind(&self) -> &[EnvId]
        ensures { map (λ id. id.0) result.now ≡ self.now.behind }
    {
        self.behind.as_slice()
    }

    pub(crate) fn put(&mut self, name: String, value: EnvValue) -> Result<(), Memory>
        ensures ok { OnOk result (self.new
            ≡ record { own = put self.old.own (string_bytes name, value); behind = self.old.behind }) }
        ensures err { OnErr result (self.new ≡ self.old) }
    {
        self.own.put(name, value)
    }

    /// Adds a value to a variable of its own.
    pub(crate) fn add(
        &mut self,
        alloc: Global,
        place: Place,
        name: &str,
        value: &EnvValue,
    ) -> Result<(), EnvFault>
        requires { value_at self.old.own name.now ≢ None }
        ensures ok { OnOk result ((old new : EnvValue) × (value_at self.old.own name.now ≡ Some old)
            × (added_to place name.now old value.now ≡ Some new)
            × (self.new ≡ record { own = put self.old.own (name.now, new); behind = self.old.behind })) }
        ensures kinds { IfErr result (λ e. e ≢ EnvFault.Memory → (e ≡ EnvFault.Kinds)
            × ((old : EnvValue) × (value_at self.old.own name.now ≡ Some old) × (added_to place name.now old value.now ≡ None))) }
        ensures err { OnErr result (self.new ≡ self.old) }
    {
        self.own.add(alloc, place, name, value)
    }
}
