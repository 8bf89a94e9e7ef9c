//! What rules need, slowly: each function is a definition of `build_model`, where a rule is named by its number.
ghost use Rattle.std.specs.Prelude.{◌≡◌, ◌++◌, [], IfOk, OnOk, map};
ghost use Rattle.std.specs.Option.{option_map};
ghost use Rattle.build_model.specs.Needs.{with_rule, rules_at as rules_at_of, needs_in_order};
ghost use Rattle.build_model.specs.Graphs.{declared_rule};
ghost use Rattle.model_trials.specs.Plain.{as_rule, number, included as included_of};

use crate::reach::{PlainRule, reach};
use crate::spots::{Spot, has, joined};
use scons_base::Memory;
use std::alloc::Global;

/// The rule that has the path among its targets.
pub fn number_of(rules: &[PlainRule], path: &Spot) -> Option<usize>
    ensures { result ≡ option_map number (declared_rule (map as_rule rules.now) path.now) }
{
    for rule in rules {
        if has(path, rule.targets.as_slice()) {
            return Some(rule.number);
        }
    }
    None
}

/// Adds the rule of a path, where it has one.
#[tactic(auto, using(crate::proofs::Rules::one_number, crate::proofs::Rules::no_number))]
fn add_rule_at(rules: &[PlainRule], path: &Spot, numbers: &mut Vec<usize>) -> Result<(), Memory>
    ensures { OnOk result (numbers.new.items
        ≡ numbers.old.items ++ map number (with_rule (declared_rule (map as_rule rules.now) path.now) [])) }
{
    if let Some(rule) = number_of(rules, path) {
        numbers.push(rule)?;
    }
    Ok(())
}

/// Adds the rules of some paths, in order.
#[tactic(auto, using(crate::proofs::Rules::one_more))]
pub(crate) fn add_rules_at(
    rules: &[PlainRule],
    paths: &[Spot],
    numbers: &mut Vec<usize>,
) -> Result<(), Memory>
    ensures { OnOk result (numbers.new.items
        ≡ numbers.old.items ++ map number (rules_at_of (declared_rule (map as_rule rules.now)) paths.now)) }
{
    for path in paths {
        add_rule_at(rules, path, numbers)?;
    }
    Ok(())
}

/// What a rule needs, in the order in which it is built.
pub fn needs(
    alloc: Global,
    limit: usize,
    rules: &[PlainRule],
    rule: &PlainRule,
) -> Result<Vec<usize>, Memory>
    ensures { IfOk result (λ numbers. numbers.items ≡ map number
        (needs_in_order (declared_rule (map as_rule rules.now)) limit (λ _. included_of rule.now.scans.items) (as_rule rule.now))) }
{
    let deps = reach(alloc, limit, rule)?;
    let all = joined(alloc, rule.required.as_slice(), deps.as_slice())?;
    let mut numbers = Vec::new(alloc);
    add_rules_at(rules, all.as_slice(), &mut numbers)?;
    Ok(numbers)
}
