//! The build order, slowly: depth first over numbers of rules, as in `build_model`.
ghost use Rattle.std.specs.Prelude.{◌≡◌, ◌∷◌, ◌++◌, [], ℕ, List, true, Ok, IfOk, OnOk, IfSome, map};
ghost use Rattle.build_model.specs.Rules.{Rule};
ghost use Rattle.build_model.specs.Graphs.{declared_rule};
ghost use Rattle.build_model.specs.Needs.{IsBuildOrder};
ghost use Rattle.model_trials.specs.Plain.{as_rule};
ghost use Rattle.model_trials.specs.Orders.{AreNumbered, AreNamed, IsVisited, IsWalked, numbers_needed, numbered, found_by};

use crate::needs::{add_rules_at, needs};
use crate::reach::PlainRule;
use crate::spots::Spot;
use scons_base::{Listing, Memory};
use std::alloc::Global;

/// Whether each rule has the number of its place.
pub fn are_numbered(rules: &[PlainRule]) -> bool
    ensures { result ≡ true → AreNumbered rules.now }
{
    for place in 0..rules.len() {
        if rules[place].number != place {
            return false;
        }
    }
    true
}

/// Goes depth first over rules, each of which comes into the order behind what it needs, but those that were met. Says
/// whether the height suffices.
#[cycle(visit)]
fn visit(
    needs: &[Listing<usize>],
    height: usize,
    rules: &[usize],
    met: &mut Vec<usize>,
    order: &mut Vec<usize>,
) -> Result<bool, Memory>
    ensures { result ≡ Ok true → (name : ℕ → Rule) (needs_of : Rule → List Rule) → AreNamed name needs_of needs.now →
        IsVisited name needs_of met.old.items rules.now met.new.items order.old.items order.new.items }
{
    for rule in rules {
        let is_whole = visit_one(needs, height, *rule, met, order)?;
        if !is_whole {
            return Ok(false);
        }
    }
    Ok(true)
}

/// The same for one rule.
#[cycle(visit)]
fn visit_one(
    needs: &[Listing<usize>],
    height: usize,
    rule: usize,
    met: &mut Vec<usize>,
    order: &mut Vec<usize>,
) -> Result<bool, Memory>
    ensures { result ≡ Ok true → (name : ℕ → Rule) (needs_of : Rule → List Rule) → AreNamed name needs_of needs.now →
        IsVisited name needs_of met.old.items (rule ∷ []) met.new.items order.old.items order.new.items }
{
    let is_met = met.contains(&rule);
    if is_met {
        return Ok(true);
    }
    if height == 0 || rule >= needs.len() {
        return Ok(false);
    }
    met.insert(0, rule)?;
    let below = needs[rule].as_slice();
    let is_whole = visit(needs, height - 1, below, met, order)?;
    order.push(rule)?;
    Ok(is_whole)
}

/// What each rule needs.
pub(crate) fn needs_of_all(
    alloc: Global,
    limit: usize,
    rules: &[PlainRule],
    all: &mut Vec<Listing<usize>>,
) -> Result<(), Memory>
    ensures { OnOk result (all.new.items
        ≡ all.old.items ++ map (numbers_needed (declared_rule (map as_rule rules.now)) limit) rules.now) }
{
    for rule in rules {
        all.push(Listing::new(needs(alloc, limit, rules, rule)?))?;
    }
    Ok(())
}

/// The needed rules in the build order, where files aren't found without end.
pub fn build_order(
    alloc: Global,
    limit: usize,
    rules: &[PlainRule],
    requested: &[Spot],
) -> Result<Option<Vec<usize>>, Memory>
    requires { AreNumbered rules.now }
    ensures { IfOk result (λ answer. IfSome answer (λ order. IsBuildOrder (declared_rule (map as_rule rules.now)) limit
        (found_by rules.now) requested.now (map (numbered rules.now) order.items))) }
{
    let mut all = Vec::new(alloc);
    needs_of_all(alloc, limit, rules, &mut all)?;
    let mut roots = Vec::new(alloc);
    add_rules_at(rules, requested, &mut roots)?;
    in_order(alloc, all.as_slice(), roots.as_slice())
}

/// The rules that these lead to, and these themselves, in the build order.
pub fn in_order(
    alloc: Global,
    needs: &[Listing<usize>],
    roots: &[usize],
) -> Result<Option<Vec<usize>>, Memory>
    ensures { IfOk result (λ answer. IfSome answer (λ order. (name : ℕ → Rule) (needs_of : Rule → List Rule) →
        AreNamed name needs_of needs.now → IsWalked name needs_of roots.now order.items)) }
{
    let mut met = Vec::new(alloc);
    let mut order = Vec::new(alloc);
    if visit(needs, needs.len(), roots, &mut met, &mut order)? {
        Ok(Some(order))
    } else {
        Ok(None)
    }
}
