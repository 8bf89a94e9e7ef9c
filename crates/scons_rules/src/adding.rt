//! One declared rule, put into the graph.
ghost use Rattle.std.specs.Prelude.{◌≡◌, ◌≢◌, ◌<◌, ℕ, Ok, Err, length, IfOk, IfErr, OnOk};
ghost use Rattle.rule_graph.specs.Rules.{IsRule};
ghost use Rattle.scons_rules.specs.Expanding.{expanding};
ghost use Rattle.scons_rules.specs.Making as spec;
ghost use Rattle.scons_rules.specs.Nodes.{AreNodes, AreNamed, all_interned, lists_of};
ghost use Rattle.scons_rules.specs.PathRules.{by_paths, rules_in, with_rule};
ghost use Rattle.scons_rules.specs.PathGraphs.{graph_by};
ghost use Rattle.scons_rules.specs.Ruling.{added};
ghost use Rattle.scons_rules.specs.Sayings.{Spoken, Tells, said_of};

use crate::fault::RuleReadFault;
use crate::interning::{named_nodes, nodes_of};
use crate::locals::RuleLocals;
use crate::making::{Making, making_of};
use crate::one_rule::OneRule;
use crate::reading::RuleReading;
use crate::said::{OfRule, SaidOf};
use crate::sources::all_settled;
use env_subst::Named;
use rule_graph::{Graph, Rule};
use scons_base::{Listing, Memory, NodeId, PathText, Paths};
use std::alloc::Global;
use world_api::Work;

/// The paths that a rule names: its own, those of the libraries that were found, and those of which something was said.
#[derive(Drop)]
struct RulePaths<'a> {
    targets: &'a [PathText],
    sources: &'a [Named],
    libs: &'a [PathText],
    depends: Paths,
    required: Paths,
    ignored: Paths,
}

/// The nodes that a rule names.
#[derive(Drop)]
struct RuleNodes {
    targets: Listing<NodeId>,
    sources: Listing<NodeId>,
    libs: Listing<NodeId>,
    depends: Listing<NodeId>,
    required: Listing<NodeId>,
    ignored: Listing<NodeId>,
}

impl RuleReading {
    /// Puts the rule of a number and of these locals into the graph, with the libraries that were found.
    pub fn add(
        &mut self,
        number: usize,
        locals: &RuleLocals,
        libraries: &Paths,
    ) -> Result<(), RuleReadFault>
        ensures ok { OnOk result (added self.old.declared number locals.now libraries.now (graph_by self.old.graph)
            ≡ Ok (graph_by self.new.graph)) }
        ensures fault { IfErr result (λ e. e ≢ RuleReadFault.Memory
            → added self.old.declared number locals.now libraries.now (graph_by self.old.graph) ≡ Err e) }
        ensures rest { self.new.declared ≡ self.old.declared }
    {
        match OneRule::at(self.alloc, &self.state, number, &locals.locals) {
            Some(rule) => add_said(&mut self.graph, &rule, &self.said, libraries),
            None => Ok(()),
        }
    }
}

/// Puts a rule into a graph, where this was said of targets.
fn add_said(
    graph: &mut Graph,
    rule: &OneRule<'_>,
    said: &SaidOf,
    libraries: &Paths,
) -> Result<(), RuleReadFault>
    ensures ok { OnOk result ((spoken : Spoken) → Tells spoken said.now
        → spec.put_made (expanding rule.now) (said_of spoken rule.now.declared.now.targets) libraries.now (graph_by graph.old)
        ≡ Ok (graph_by graph.new)) }
    ensures fault { IfErr result (λ e. e ≢ RuleReadFault.Memory → (spoken : Spoken) → Tells spoken said.now
        → spec.put_made (expanding rule.now) (said_of spoken rule.now.declared.now.targets) libraries.now (graph_by graph.old) ≡ Err e) }
{
    let said = said.of_rule(rule.alloc, rule.declared.targets.as_slice())?;
    add_rule(graph, rule, &said, libraries)
}

/// Puts a rule, with what was said of it, into a graph.
fn add_rule(
    graph: &mut Graph,
    rule: &OneRule<'_>,
    said: &OfRule,
    libraries: &Paths,
) -> Result<(), RuleReadFault>
    ensures ok { OnOk result (spec.put_made (expanding rule.now) said.now libraries.now (graph_by graph.old)
        ≡ Ok (graph_by graph.new)) }
    ensures fault { IfErr result (λ e. e ≢ RuleReadFault.Memory
        → spec.put_made (expanding rule.now) said.now libraries.now (graph_by graph.old) ≡ Err e) }
{
    graph.laws();
    let making = making_of(rule)?;
    let paths = rule_paths(rule, libraries, said)?;
    let nodes = rule_nodes(rule.alloc, graph, &paths)?;
    put(graph, rule_of(rule, making, nodes, said.always))
}

/// The paths that a rule, its libraries and what was said of it name.
fn rule_paths<'a>(
    rule: &OneRule<'a>,
    libraries: &'a Paths,
    said: &OfRule,
) -> Result<RulePaths<'a>, Memory>
    ensures lists { IfOk result (λ p. lists_of p ≡ spec.lists_by (expanding rule.now) said.now libraries.now) }
    ensures targets { IfOk result (λ p. p.targets.now ≡ rule.now.declared.now.targets) }
{
    let depends = all_settled(rule.alloc, rule.state, said.depends.as_slice())?;
    let required = all_settled(rule.alloc, rule.state, said.required.as_slice())?;
    let ignored = all_settled(rule.alloc, rule.state, said.ignored.as_slice())?;
    Ok(RulePaths {
        targets: rule.declared.targets.as_slice(),
        sources: rule.locals.sources.as_slice(),
        libs: libraries.as_slice(),
        depends,
        required,
        ignored,
    })
}

/// The nodes of these paths.
fn rule_nodes(
    alloc: Global,
    graph: &mut Graph,
    paths: &RulePaths<'_>,
) -> Result<RuleNodes, RuleReadFault>
    requires { 0 < length paths.now.targets.now }
    ensures ok { OnOk result (all_interned graph.old.nodes (lists_of paths.now) ≡ Ok graph.new.nodes) }
    ensures fault { IfErr result (λ e. e ≢ RuleReadFault.Memory
        → all_interned graph.old.nodes (lists_of paths.now) ≡ Err e) }
    ensures named { IfOk result (AreNamed graph.new.nodes paths.now) }
    ensures nodes { IfOk result (AreNodes (length graph.new.nodes)) }
    ensures rest { graph.new ≡ record graph.old { nodes = graph.new.nodes } }
{
    let targets = nodes_of(alloc, graph, paths.targets)?;
    let sources = named_nodes(alloc, graph, paths.sources)?;
    let libs = nodes_of(alloc, graph, paths.libs)?;
    let depends = nodes_of(alloc, graph, paths.depends.as_slice())?;
    let required = nodes_of(alloc, graph, paths.required.as_slice())?;
    let ignored = nodes_of(alloc, graph, paths.ignored.as_slice())?;
    Ok(RuleNodes {
        targets,
        sources,
        libs,
        depends,
        required,
        ignored,
    })
}

/// Puts a rule into a graph in which its nodes stand.
fn put(graph: &mut Graph, rule: Rule) -> Result<(), RuleReadFault>
    requires { IsRule (length graph.old.nodes) rule }
    ensures ok { OnOk result (with_rule (rules_in graph.old) (by_paths graph.old.nodes rule) ≡ Ok (rules_in graph.new)) }
    ensures fault { IfErr result (λ e. e ≢ RuleReadFault.Memory
        → with_rule (rules_in graph.old) (by_paths graph.old.nodes rule) ≡ Err e) }
    ensures rest { graph.new ≡ record graph.old { rules = graph.new.rules } }
{
    graph.laws();
    graph.add_rule(rule)?;
    Ok(())
}

/// A rule of these nodes, made so.
fn rule_of(rule: &OneRule<'_>, making: Making, nodes: RuleNodes, always: bool) -> Rule
    ensures valid { (count : ℕ) → AreNodes count nodes → IsRule count result }
    ensures of { result ≡ spec.rule_with (expanding rule.now) making nodes always }
{
    let work = rule.work();
    Rule {
        work,
        targets: nodes.targets,
        sources: nodes.sources,
        libs: nodes.libs,
        depends: nodes.depends,
        required: nodes.required,
        ignored: nodes.ignored,
        lines: making.lines,
        signed: making.signed,
        paths: making.paths,
        scans: matches!(work, Work::Shell),
        always,
        decider: rule.declared.decider,
        builder: making.builder,
    }
}
