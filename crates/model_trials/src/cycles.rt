//! Whether a needed rule waits for itself, slowly: by the definitions of `build_model`, over numbers of rules.
ghost use Rattle.std.specs.Prelude.{◌≡◌, Ok, Some, false, true, map};
ghost use Rattle.build_model.specs.Graphs.{declared_rule};
ghost use Rattle.model_trials.specs.Plain.{as_rule};
ghost use Rattle.model_trials.specs.Orders.{AreNumbered, found_by};
ghost use Rattle.model_trials.specs.Cyclic.{IsCyclic};

use crate::loops::{has_loop, led_from};
use crate::needs::add_rules_at;
use crate::order::needs_of_all;
use crate::reach::PlainRule;
use crate::spots::Spot;
use scons_base::{Listing, Memory};
use std::alloc::Global;

/// Whether a needed rule waits for itself, directly or through others. None where more than so many steps would be wanted.
pub fn has_cycle(
    alloc: Global,
    limit: usize,
    steps: usize,
    rules: &[PlainRule],
    requested: &[Spot],
) -> Result<Option<bool>, Memory>
    requires { AreNumbered rules.now }
    ensures some { result ≡ Ok (Some true) →
        IsCyclic (declared_rule (map as_rule rules.now)) limit (found_by rules.now) requested.now }
    ensures none { result ≡ Ok (Some false) →
        IsCyclic (declared_rule (map as_rule rules.now)) limit (found_by rules.now) requested.now → ⊥ }
{
    let mut all: Vec<Listing<usize>> = Vec::new(alloc);
    needs_of_all(alloc, limit, rules, &mut all)?;
    let mut roots = Vec::new(alloc);
    add_rules_at(rules, requested, &mut roots)?;
    let lists = all.as_slice();
    let Some(needed) = led_from(alloc, lists, steps, roots.as_slice())? else {
        return Ok(None);
    };
    has_loop(alloc, lists, steps, needed.as_slice())
}
