//! The rules in their order, and for each node its rule.
ghost use Rattle.std.specs.Prelude.{◌≡◌, ◌<◌, ◌≤◌, ◌++◌, ◌∷◌, [], ℕ, Some, None, length, slice_get, IfOk, OnOk, OnErr, IfSome, if◌then◌else◌, true, is_some, nat_lt};
ghost use Rattle.std.specs.Option.{option_map};
ghost use Rattle.rule_graph.specs.Rules.{rule_of, rule_at, equal_rule, is_same, taken, is_target_of, are_below, AreSingle};
ghost use Rattle.rule_graph.specs.declared.rule.Rule.{Rule};

use crate::rule::Rule;
use scons_base::limits::RULE_LIMIT;
use scons_base::{Memory, NodeId, RuleId};
use std::alloc::Global;
use std::marker::Model;

/// Rules by their numbers. The rule of a node is found by the node's number.
#[derive(Drop)]
pub(crate) struct RuleTable {
    rules: Vec<Rule>,
    rule_at: Vec<Option<RuleId>>,
}

impl Model for RuleTable {
    ghost use Rattle.std.specs.Prelude.{List, ℕ, length, ◌≤◌};
    ghost use Rattle.rule_graph.specs.declared.rule.Rule.{Rule};
    ghost use Rattle.rule_graph.specs.Rules.{IsTable};

    ghost Value = { List Rule };

    ghost view = { λ t. t.rules.items };

    ghost invariant = { λ t. IsTable t.rule_at.items t.rules.items };
}

impl RuleTable {
    pub(crate) fn new(alloc: Global) -> RuleTable
        ensures { result ≡ [] }
    {
        RuleTable {
            rules: Vec::new(alloc),
            rule_at: Vec::new(alloc),
        }
    }

    pub(crate) fn len(&self) -> u32
        ensures len { result ≡ length self.now }
        ensures limit { length self.now ≤ RULE_LIMIT }
    {
        self.rules.len() as u32
    }

    /// What holds of all rules.
    pub(crate) fn laws(&self)
        ensures { AreSingle self.now }
    {
        let _rules = self.rules.as_slice();
    }

    pub(crate) fn has_room(&self) -> bool
        ensures { result ≡ nat_lt (length self.now) RULE_LIMIT }
    {
        self.len() < RULE_LIMIT
    }

    pub(crate) fn rule(&self, id: RuleId) -> &Rule
        requires { id.0 < length self.now }
        ensures { slice_get self.now id.0 ≡ Some result.now }
    {
        &self.rules[id.0 as usize]
    }

    /// The rule that has the node among its targets.
    pub(crate) fn rule_of(&self, node: NodeId) -> Option<RuleId>
        ensures of { option_map (λ id. id.0) result ≡ rule_of self.now node.0 }
        ensures below { IfSome result (λ id. id.0 < length self.now) }
    {
        rule_at(self.rule_at.as_slice(), node)
    }

    fn has_rule(&self, node: NodeId) -> bool
        ensures { result ≡ is_some (rule_of self.now node.0) }
    {
        match self.rule_of(node) {
            Some(_) => true,
            None => false,
        }
    }

    /// The rule that does the same as another one: the rule of the first target, if any.
    pub(crate) fn equal_to(&self, rule: &Rule) -> Option<RuleId>
        requires { 0 < length rule.now.targets }
        ensures { option_map (λ id. id.0) result ≡ equal_rule self.now rule.now }
    {
        let first = rule.targets.as_slice()[0];
        let id = match rule_at(self.rule_at.as_slice(), first) {
            Some(id) => id,
            None => return None,
        };
        if self.is_rule_at(id, rule) {
            Some(id)
        } else {
            None
        }
    }

    /// Whether the rule of a number does the same as another one.
    fn is_rule_at(&self, id: RuleId, rule: &Rule) -> bool
        requires { id.0 < length self.now }
        ensures { (r : Rule) → slice_get self.now id.0 ≡ Some r → result ≡ is_same r rule.now }
    {
        self.rule(id).is_same(rule)
    }

    /// The first of these nodes that has a rule.
    pub(crate) fn taken(&self, nodes: &[NodeId]) -> Option<NodeId>
        ensures { result ≡ taken self.now nodes.now }
    {
        for node in nodes {
            if self.has_rule(*node) {
                return Some(*node);
            }
        }
        None
    }

    pub(crate) fn push(&mut self, rule: Rule) -> Result<RuleId, Memory>
        requires free { taken self.old rule.targets ≡ None }
        requires room { length self.old < RULE_LIMIT }
        ensures ok { IfOk result (λ id. (id.0 ≡ length self.old) × (self.new ≡ self.old ++ rule ∷ [])) }
        ensures err { OnErr result (self.new ≡ self.old) }
    {
        let id = RuleId(self.rules.len() as u32);
        let targets = Vec::from_slice(*self.rules.allocator(), rule.targets.as_slice())?;
        cover(&mut self.rule_at, targets.as_slice())?;
        self.rules.push(rule)?;
        enter(&mut self.rule_at, targets.as_slice(), id);
        Ok(id)
    }
}

fn rule_at(table: &[Option<RuleId>], node: NodeId) -> Option<RuleId>
    ensures { option_map (λ id. id.0) result ≡ rule_at table.now node.0 }
{
    *table.get(node.0 as usize)?
}

/// Makes the table long enough for these nodes.
fn cover(table: &mut Vec<Option<RuleId>>, nodes: &[NodeId]) -> Result<(), Memory>
    ensures same { (n : ℕ) → rule_at table.new.items n ≡ rule_at table.old.items n }
    ensures covered { OnOk result (are_below (length table.new.items) nodes.now ≡ true) }
{
    for node in nodes {
        cover_one(table, *node)?;
    }
    Ok(())
}

fn cover_one(table: &mut Vec<Option<RuleId>>, node: NodeId) -> Result<(), Memory>
    ensures same { (n : ℕ) → rule_at table.new.items n ≡ rule_at table.old.items n }
    ensures grows { length table.old.items ≤ length table.new.items }
    ensures covered { OnOk result (node.0 < length table.new.items) }
{
    while table.len() <= node.0 as usize {
        table.push(None)?;
    }
    Ok(())
}

/// Gives these nodes a rule.
fn enter(table: &mut Vec<Option<RuleId>>, nodes: &[NodeId], id: RuleId)
    requires { are_below (length table.old.items) nodes.now ≡ true }
    ensures { (n : ℕ) → rule_at table.new.items n
        ≡ (if is_target_of nodes.now n then Some id.0 else rule_at table.old.items n) }
{
    for node in nodes {
        table[node.0 as usize] = Some(id);
    }
}
