//! The declarations, gone over in their order.
ghost use Rattle.std.specs.Prelude.{◌≡◌, ◌≢◌, [], Ok, Err, IfOk, IfErr, OnOk, length, map, slice_get};
ghost use Rattle.std.specs.List.{find, list_any};
ghost use Rattle.std.specs.Option.{option_map};
ghost use Rattle.std.specs.Str.{bytes_eq};
ghost use Rattle.rule_graph.specs.Graphs.{empty_graph};
ghost use Rattle.scons_decls.specs.State.{declared_of, rule_of};
ghost use Rattle.scons_rules.specs.Expanding.{expanding};
ghost use Rattle.scons_rules.specs.Knowing.{known_of, of_no_rule, begun};
ghost use Rattle.scons_rules.specs.Libraries.{Files, found_in};
ghost use Rattle.scons_rules.specs.Ruling.{first_rule_of, program_libraries, libraries_of};

use crate::aliases::Aliases;
use crate::fault::RuleReadFault;
use crate::libraries::{Wanted, wanted_by};
use crate::locals::{RuleLocals, cplusplus_objects};
use crate::one_rule::OneRule;
use crate::said::SaidOf;
use indexmap::IndexSet;
use rule_graph::Graph;
use scons_base::{Listing, Memory, PathText};
use scons_decls::{Declaration, Declarations, Place, Recipe};
use std::alloc::Global;
use std::marker::Model;

/// The rules of a reading on their way into the graph.
#[derive(Drop)]
pub struct RuleReading {
    pub(crate) alloc: Global,
    pub(crate) state: Declarations,
    pub(crate) graph: Graph,
    pub(crate) aliases: Aliases,
    pub(crate) said: SaidOf,
    /// The objects that are made of C++ sources.
    cplusplus: IndexSet<PathText>,
}

impl Model for RuleReading {
    ghost use Rattle.std.specs.Prelude.{◌≡◌, map};
    ghost use Rattle.scons_decls.specs.State.{declared_of};
    ghost use Rattle.scons_rules.specs.Knowing.{cplusplus_objects};
    ghost use Rattle.scons_rules.specs.Ruling.{alias_lists, spoken};
    ghost use Rattle.scons_rules.specs.Readings.{Reading};
    ghost use Rattle.scons_rules.specs.Sayings.{Tells};

    ghost Value = { Reading };

    ghost view = { λ r. record { declared = declared_of r.state; graph = r.graph } };

    ghost invariant = { λ r. (r.aliases ≡ alias_lists (declared_of r.state))
        × (Tells (spoken (declared_of r.state)) r.said)
        × (r.cplusplus.keys ≡ cplusplus_objects (declared_of r.state).rules) };
}

impl RuleReading {
    /// Nothing is in the graph yet.
    pub fn new(alloc: Global, state: Declarations) -> Result<RuleReading, Memory>
        ensures { IfOk result (λ r. r ≡ record {
          declared = declared_of state;
          graph = empty_graph state.locals.top;
        }) }
    {
        let aliases = Aliases::new(alloc, &state)?;
        let said = SaidOf::new(alloc, &state, &aliases)?;
        let cplusplus = cplusplus_objects(alloc, state.rules.as_slice())?;
        let graph = Graph::new(alloc, state.locals.top.copy()?)?;
        Ok(RuleReading {
            alloc,
            state,
            graph,
            aliases,
            said,
            cplusplus,
        })
    }

    /// How many rules were declared.
    pub fn count(&self) -> usize
        ensures { result ≡ length self.now.declared.rules }
    {
        self.state.rules.len()
    }

    /// Where a rule was declared.
    pub fn place(&self, number: usize) -> Option<Place>
        ensures { result ≡ option_map (λ r. r.place) (slice_get self.now.declared.rules number) }
    {
        Some(self.state.rules.get(number)?.place)
    }

    /// Where the first rule of a target was declared.
    pub fn place_of_target(&self, target: &PathText) -> Option<Place>
        ensures { result ≡ option_map (λ r. r.place) (first_rule_of self.now.declared target.now) }
    {
        Some(first_rule(self.state.rules.as_slice(), target)?.place)
    }

    /// What the lines of a rule know, of no rule yet.
    pub fn locals(&self) -> Result<RuleLocals, Memory>
        ensures { IfOk result (λ l. known_of l ≡ of_no_rule self.now.declared) }
    {
        RuleLocals::new(self.alloc, &self.state)
    }

    /// Makes them those of the rule of a number.
    pub fn begin(&self, number: usize, locals: &mut RuleLocals) -> Result<(), RuleReadFault>
        ensures ok { OnOk result (begun self.now.declared number (known_of locals.old) ≡ Ok (known_of locals.new)) }
        ensures fault { IfErr result (λ e. e ≢ RuleReadFault.Memory
            → begun self.now.declared number (known_of locals.old) ≡ Err e) }
    {
        match self.state.rules.get(number) {
            Some(declared) => { locals.begin(self.alloc, &self.state, declared, &self.cplusplus) }
            None => Ok(()),
        }
    }

    /// The libraries that the rule of a number and of these locals names: only a program names any.
    pub fn wanted(
        &self,
        number: usize,
        locals: &RuleLocals,
    ) -> Result<Listing<Wanted>, RuleReadFault>
        ensures ok { IfOk result (λ w. (f : Files)
            → libraries_of f self.now.declared number locals.now ≡ Ok (map (found_in f) w)) }
        ensures fault { IfErr result (λ e. e ≢ RuleReadFault.Memory → (f : Files)
            → libraries_of f self.now.declared number locals.now ≡ Err e) }
    {
        match OneRule::at(self.alloc, &self.state, number, &locals.locals) {
            Some(rule) => wanted_of(&rule),
            None => Ok(Listing::empty(self.alloc)),
        }
    }
}

fn wanted_of(rule: &OneRule<'_>) -> Result<Listing<Wanted>, RuleReadFault>
    ensures ok { IfOk result (λ w. (f : Files) → program_libraries f (expanding rule.now) ≡ Ok (map (found_in f) w)) }
    ensures fault { IfErr result (λ e. e ≢ RuleReadFault.Memory → (f : Files)
        → program_libraries f (expanding rule.now) ≡ Err e) }
{
    match rule.declared.recipe {
        Recipe::Program => wanted_by(rule),
        _ => Ok(Listing::empty(rule.alloc)),
    }
}

/// The first of these rules that has a target.
fn first_rule<'a>(rules: &'a [Declaration], target: &PathText) -> Option<&'a Declaration>
    ensures { option_map (λ r. rule_of r.now) result ≡ find (λ r. list_any (bytes_eq target.now) r.targets) (map rule_of rules.now) }
{
    for rule in rules {
        if has(rule.targets.as_slice(), target) {
            return Some(rule);
        }
    }
    None
}

fn has(paths: &[PathText], path: &PathText) -> bool
    ensures { result ≡ list_any (bytes_eq path.now) paths.now }
{
    for one in paths {
        if path == one {
            return true;
        }
    }
    false
}
