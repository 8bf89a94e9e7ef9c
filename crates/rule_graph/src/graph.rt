//! The graph of a reading.
ghost use Rattle.std.specs.Prelude.{◌≡◌, ◌≢◌, ◌==◌, ◌<◌, ◌≤◌, ◌+◌, ◌++◌, ◌∷◌, [], ℕ, Some, None, length, slice_get, IfOk, IfErr, OnOk, OnErr, IfSome, option_copied, true};
ghost use Rattle.std.specs.Option.{option_map};
ghost use Rattle.scons_base.specs.declared.limits.TheConstants.{NODE_LIMIT};
ghost use Rattle.node_tree.specs.Nodes.{number_of, with_path, AreApart, Interns};
ghost use Rattle.variant_dirs.specs.Variants.{add_fault, added};
ghost use Rattle.rule_graph.specs.Rules.{rule_of, are_below, AreSingle, IsRule};
ghost use Rattle.rule_graph.specs.Aliases.{members_of, with_members};
ghost use Rattle.rule_graph.specs.Graphs.{empty_graph, rule_fault, AddsRule, IsGraph};

use crate::aliases::Aliases;
use crate::fault::RuleFault;
use crate::rule::Rule;
use crate::table::RuleTable;
use crate::wish::Wish;
use node_tree::{NodeRefusal, Nodes};
use scons_base::limits::RULE_LIMIT;
use scons_base::{Listing, Memory, NodeId, PathText, RuleId, Text, Texts};
use std::alloc::Global;
use std::marker::Model;
use variant_dirs::{VariantFault, Variants};

/// What scripts have declared.
#[derive(Drop)]
pub struct Graph {
    alloc: Global,
    top: PathText,
    nodes: Nodes,
    rules: RuleTable,
    aliases: Aliases,
    defaults: Listing<Wish>,
    helps: Texts,
    variants: Variants,
}

impl Model for Graph {
    ghost use Rattle.std.specs.Prelude.{length};
    ghost use Rattle.rule_graph.specs.Graphs.{RuleGraph, IsGraph};

    ghost Value = { RuleGraph };

    ghost view = { λ g. record {
      top = g.top;
      nodes = g.nodes;
      rules = g.rules;
      aliases = g.aliases;
      defaults = g.defaults;
      helps = g.helps;
      variants = g.variants;
    } };

    ghost invariant = { λ g. IsGraph (length g.nodes) g.rules g.aliases };
}

impl Graph {
    /// A graph in which nothing is declared. `top` is the absolute path of the top directory.
    pub fn new(alloc: Global, top: PathText) -> Result<Graph, Memory>
        ensures { IfOk result (λ g. g ≡ empty_graph top) }
    {
        Ok(Graph {
            alloc,
            top,
            nodes: Nodes::new(alloc),
            rules: RuleTable::new(alloc),
            aliases: Aliases::new(alloc),
            defaults: Listing::empty(alloc),
            helps: Texts::new(Vec::new(alloc)),
            variants: Variants::new(alloc),
        })
    }

    pub fn top(&self) -> &PathText
        ensures { result.now ≡ self.now.top }
    {
        &self.top
    }

    /// The number of a path, which is the next one for a path that had none.
    pub fn intern(&mut self, path: &PathText) -> Result<NodeId, NodeRefusal>
        ensures ok { IfOk result (λ id. Interns self.old.nodes path.now id.0 self.new.nodes
            × (id.0 < length self.new.nodes)) }
        ensures paths { OnOk result (self.new.nodes ≡ with_path self.old.nodes path.now) }
        ensures at { IfOk result (λ id. slice_get self.new.nodes id.0 ≡ Some path.now) }
        ensures limit { OnOk result (length self.new.nodes ≤ NODE_LIMIT) }
        ensures rest { self.new ≡ record self.old { nodes = self.new.nodes } }
        ensures full { IfErr result (λ e. e ≢ NodeRefusal.Memory → (e ≡ NodeRefusal.Full (NODE_LIMIT + 1))
            × (length self.old.nodes ≡ NODE_LIMIT) × (number_of self.old.nodes path.now ≡ None)) }
        ensures err { OnErr result (self.new ≡ self.old) }
    {
        self.nodes.intern(path)
    }

    /// The number that a path has.
    pub fn find(&self, path: &PathText) -> Option<NodeId>
        ensures { option_map (λ id. id.0) result ≡ number_of self.now.nodes path.now }
    {
        self.nodes.find(path)
    }

    /// The path of a number.
    pub fn path(&self, id: NodeId) -> &PathText
        requires { id.0 < length self.now.nodes }
        ensures at { slice_get self.now.nodes id.0 ≡ Some result.now }
        ensures back { number_of self.now.nodes result.now ≡ Some id.0 }
    {
        self.nodes.path(id)
    }

    /// What holds of all nodes and rules.
    pub fn laws(&self)
        ensures apart { AreApart self.now.nodes }
        ensures single { AreSingle self.now.rules }
        ensures named { IsGraph (length self.now.nodes) self.now.rules self.now.aliases }
        ensures room { length self.now.nodes ≤ NODE_LIMIT }
    {
        self.nodes.laws();
        self.rules.laws();
        let _nodes = self.nodes.len();
    }

    /// How many paths have a number.
    pub fn len(&self) -> u32
        ensures len { result ≡ length self.now.nodes }
        ensures limit { length self.now.nodes ≤ NODE_LIMIT }
    {
        self.nodes.len()
    }

    pub fn is_empty(&self) -> bool
        ensures { result ≡ (length self.now.nodes == 0) }
    {
        self.nodes.is_empty()
    }

    /// Adds a rule. One that does the same as a rule that is there is that one.
    pub fn add_rule(&mut self, rule: Rule) -> Result<RuleId, RuleFault>
        requires { IsRule (length self.old.nodes) rule }
        ensures ok { IfOk result (λ id. AddsRule self.old rule id.0 self.new) }
        ensures no_fault { IfOk result (λ _. rule_fault self.old rule ≡ None) }
        ensures fault { IfErr result (λ e. e ≢ RuleFault.Memory → rule_fault self.old rule ≡ Some e) }
        ensures err { OnErr result (self.new ≡ self.old) }
    {
        if let Some(fault) = self.fault_of(&rule)? {
            return Err(fault);
        }
        if let Some(id) = self.rules.equal_to(&rule) {
            return Ok(id);
        }
        Ok(self.rules.push(rule)?)
    }

    /// Why a rule isn't taken.
    fn fault_of(&self, rule: &Rule) -> Result<Option<RuleFault>, Memory>
        requires { IsRule (length self.now.nodes) rule.now }
        ensures { IfOk result (λ f. f ≡ rule_fault self.now rule.now) }
    {
        if let Some(target) = rule.own_source() {
            return Ok(Some(RuleFault::SelfSource(self.path(target).copy()?)));
        }
        if self.rules.equal_to(rule).is_some() {
            return Ok(None);
        }
        if let Some(target) = self.rules.taken(rule.targets.as_slice()) {
            return Ok(Some(RuleFault::TwoRules(self.path(target).copy()?)));
        }
        if !self.rules.has_room() {
            return Ok(Some(RuleFault::Full(RULE_LIMIT as u64 + 1)));
        }
        Ok(None)
    }

    /// The rule that has the node among its targets.
    pub fn rule_of(&self, node: NodeId) -> Option<RuleId>
        ensures of { option_map (λ id. id.0) result ≡ rule_of self.now.rules node.0 }
        ensures below { IfSome result (λ id. id.0 < length self.now.rules) }
        ensures node { IfSome result (λ _. node.0 < length self.now.nodes) }
    {
        self.rules.rule_of(node)
    }

    pub fn rule(&self, id: RuleId) -> &Rule
        requires { id.0 < length self.now.rules }
        ensures at { slice_get self.now.rules id.0 ≡ Some result.now }
        ensures valid { IsRule (length self.now.nodes) result.now }
    {
        self.rules.rule(id)
    }

    /// How many rules there are.
    pub fn rules(&self) -> u32
        ensures len { result ≡ length self.now.rules }
        ensures limit { length self.now.rules ≤ RULE_LIMIT }
    {
        self.rules.len()
    }

    /// Puts members behind those that an alias has.
    pub fn add_alias(&mut self, name: &str, members: &[NodeId]) -> Result<(), Memory>
        requires { are_below (length self.old.nodes) members.now ≡ true }
        ensures ok { OnOk result (self.new
            ≡ record self.old { aliases = with_members self.old.aliases name.now members.now }) }
        ensures err { OnErr result (self.new ≡ self.old) }
    {
        self.aliases.add(self.alloc, name, members)
    }

    /// The members of an alias.
    pub fn alias(&self, name: &str) -> Option<&[NodeId]>
        ensures members { option_copied result ≡ members_of self.now.aliases name.now }
        ensures below { IfSome result (λ m. are_below (length self.now.nodes) m.now ≡ true) }
    {
        self.aliases.get(name)
    }

    pub fn add_default(&mut self, wish: Wish) -> Result<(), Memory>
        ensures ok { OnOk result (self.new ≡ record self.old { defaults = self.old.defaults ++ wish ∷ [] }) }
        ensures err { OnErr result (self.new ≡ self.old) }
    {
        self.defaults.push(wish)
    }

    /// What is to be built where no word says so, in order.
    pub fn defaults(&self) -> &[Wish]
        ensures { result.now ≡ self.now.defaults }
    {
        self.defaults.as_slice()
    }

    pub fn add_help(&mut self, text: Text) -> Result<(), Memory>
        ensures ok { OnOk result (self.new ≡ record self.old { helps = self.old.helps ++ text ∷ [] }) }
        ensures err { OnErr result (self.new ≡ self.old) }
    {
        self.helps.push(text)
    }

    /// The help texts, in order.
    pub fn helps(&self) -> &[Text]
        ensures { result.now ≡ self.now.helps }
    {
        self.helps.as_slice()
    }

    pub fn variants(&self) -> &Variants
        ensures { result.now ≡ self.now.variants }
    {
        &self.variants
    }

    /// Makes a directory the variant directory of another one.
    pub fn add_variant(
        &mut self,
        dir: &PathText,
        source: &PathText,
        duplicate: bool,
    ) -> Result<(), VariantFault>
        ensures ok { OnOk result (self.new
            ≡ record self.old { variants = added self.old.variants dir.now source.now duplicate }) }
        ensures no_fault { OnOk result (add_fault self.old.variants dir.now source.now duplicate ≡ None) }
        ensures fault { IfErr result (λ e. e ≢ VariantFault.Memory
            → add_fault self.old.variants dir.now source.now duplicate ≡ Some e) }
        ensures err { OnErr result (self.new ≡ self.old) }
    {
        self.variants.add(dir, source, duplicate)
    }
}
