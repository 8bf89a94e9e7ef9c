//! What the graph holds beside rules.
ghost use Rattle.std.specs.Prelude.{◌≡◌, ◌≢◌, ◌++◌, ℕ, List, Ok, Err, Some, IfOk, IfErr, OnOk, map, slice_get, option_copied};
ghost use Rattle.scons_decls.specs.State.{declared_of};
ghost use Rattle.scons_rules.specs.AliasTable.{names_in};
ghost use Rattle.rule_graph.specs.declared.wish.Wish.{Wish};
ghost use Rattle.scons_rules.specs.Finishing as spec;
ghost use Rattle.scons_rules.specs.PathGraphs.{graph_by};
ghost use Rattle.scons_rules.specs.Ruling.{alias_lists};

use crate::aliases::Aliases;
use crate::fault::RuleReadFault;
use crate::interning::nodes_of;
use crate::reading::RuleReading;
use indexmap::IndexSet;
use rule_graph::{Graph, Wish};
use scons_base::{Memory, PathText, Text};
use scons_decls::{Asked, Declarations, NameFault, Said, Saying};
use std::alloc::Global;
use variant_dirs::Variant;

impl RuleReading {
    /// The graph, with aliases, defaults, help texts and variant directories.
    pub fn finish(self) -> Result<Graph, RuleReadFault>
        ensures ok { IfOk result (λ g. spec.finished self.declared (graph_by self.graph) ≡ Ok (graph_by g)) }
        ensures fault { IfErr result (λ e. e ≢ RuleReadFault.Memory
            → spec.finished self.declared (graph_by self.graph) ≡ Err e) }
    {
        let mut reading = self;
        reading.add_rest()?;
        Ok(reading.into_graph())
    }

    fn into_graph(self) -> Graph
        ensures { result ≡ self.graph }
    {
        let RuleReading { graph, .. } = self;
        graph
    }

    fn add_rest(&mut self) -> Result<(), RuleReadFault>
        ensures ok { OnOk result (spec.finished self.old.declared (graph_by self.old.graph) ≡ Ok (graph_by self.new.graph)) }
        ensures fault { IfErr result (λ e. e ≢ RuleReadFault.Memory
            → spec.finished self.old.declared (graph_by self.old.graph) ≡ Err e) }
    {
        put_rest(self.alloc, &self.state, &self.aliases, &mut self.graph)
    }
}

/// Puts all that isn't a rule into a graph.
fn put_rest(
    alloc: Global,
    state: &Declarations,
    aliases: &Aliases,
    graph: &mut Graph,
) -> Result<(), RuleReadFault>
    requires { aliases.now ≡ alias_lists (declared_of state.now) }
    ensures ok { OnOk result (spec.finished (declared_of state.now) (graph_by graph.old) ≡ Ok (graph_by graph.new)) }
    ensures fault { IfErr result (λ e. e ≢ RuleReadFault.Memory
        → spec.finished (declared_of state.now) (graph_by graph.old) ≡ Err e) }
{
    refuse_unmade(state)?;
    add_variants(graph, state.locals.variants.as_slice())?;
    add_aliases(alloc, state, aliases, graph)?;
    add_defaults(alloc, state, graph)?;
    Ok(add_helps(graph, state.helps.as_slice())?)
}

/// What is said of a target that no rule makes would count for nothing. That it is always made is no matter then.
fn refuse_unmade(state: &Declarations) -> Result<(), RuleReadFault>
    ensures ok { OnOk result (spec.have_rules (declared_of state.now) ≡ Ok tt) }
    ensures fault { IfErr result (λ e. e ≢ RuleReadFault.Memory → spec.have_rules (declared_of state.now) ≡ Err e) }
{
    for said in &state.said {
        refuse_without_rule(state, said)?;
    }
    Ok(())
}

/// Refuses what was said of the first target that no rule makes.
fn refuse_without_rule(state: &Declarations, said: &Said) -> Result<(), RuleReadFault>
    ensures ok { OnOk result (spec.has_rules (declared_of state.now) said.now ≡ Ok tt) }
    ensures fault { IfErr result (λ e. e ≢ RuleReadFault.Memory
        → spec.has_rules (declared_of state.now) said.now ≡ Err e) }
{
    if matches!(said.saying, Saying::Always) {
        return Ok(());
    }
    match unmade(state, said.targets.as_slice()) {
        Some(target) => {
            let fault = NameFault::NoRule(target.copy()?);
            Err(RuleReadFault::At(said.place, fault))
        }
        None => Ok(()),
    }
}

/// The first of these that no rule makes.
fn unmade<'a>(state: &Declarations, targets: &'a [PathText]) -> Option<&'a PathText>
    ensures { option_copied result ≡ spec.unmade (declared_of state.now) targets.now }
{
    for target in targets {
        if !state.made.contains(target) {
            return Some(target);
        }
    }
    None
}

fn add_variants(graph: &mut Graph, variants: &[Variant]) -> Result<(), RuleReadFault>
    ensures ok { OnOk result (spec.with_variants variants.now (graph_by graph.old) ≡ Ok (graph_by graph.new)) }
    ensures fault { IfErr result (λ e. e ≢ RuleReadFault.Memory
        → spec.with_variants variants.now (graph_by graph.old) ≡ Err e) }
{
    for variant in variants {
        add_variant(graph, variant)?;
    }
    Ok(())
}

fn add_variant(graph: &mut Graph, variant: &Variant) -> Result<(), RuleReadFault>
    ensures ok { OnOk result (spec.with_variant variant.now (graph_by graph.old) ≡ Ok (graph_by graph.new)) }
    ensures fault { IfErr result (λ e. e ≢ RuleReadFault.Memory
        → spec.with_variant variant.now (graph_by graph.old) ≡ Err e) }
{
    let added = graph.add_variant(&variant.dir, &variant.source, variant.duplicate);
    match added {
        Ok(()) => Ok(()),
        Err(fault) => Err(RuleReadFault::from(NameFault::from(fault))),
    }
}

fn add_aliases(
    alloc: Global,
    state: &Declarations,
    aliases: &Aliases,
    graph: &mut Graph,
) -> Result<(), RuleReadFault>
    ensures ok { OnOk result (spec.with_aliases (declared_of state.now) aliases.now state.now.aliases 0 (graph_by graph.old)
        ≡ Ok (graph_by graph.new)) }
    ensures fault { IfErr result (λ e. e ≢ RuleReadFault.Memory
        → spec.with_aliases (declared_of state.now) aliases.now state.now.aliases 0 (graph_by graph.old) ≡ Err e) }
{
    'aliases: for place in 0..state.aliases.len() {
        add_alias(alloc, state, aliases, graph, place)?;
    }
    Ok(())
}

/// Adds the alias at a place.
fn add_alias(
    alloc: Global,
    state: &Declarations,
    aliases: &Aliases,
    graph: &mut Graph,
    place: usize,
) -> Result<(), RuleReadFault>
    ensures ok { OnOk result ((name : List ℕ) → slice_get (names_in state.now.aliases) place ≡ Some name
        → spec.with_alias name (spec.alias_files (declared_of state.now) aliases.now place) (graph_by graph.old) ≡ Ok (graph_by graph.new)) }
    ensures fault { IfErr result (λ e. e ≢ RuleReadFault.Memory → (name : List ℕ) → slice_get (names_in state.now.aliases) place ≡ Some name
        → spec.with_alias name (spec.alias_files (declared_of state.now) aliases.now place) (graph_by graph.old) ≡ Err e) }
{
    match state.aliases.get_index(place) {
        Some((name, _)) => {
            let files = aliases.files_at(alloc, state, place)?;
            add_named(alloc, graph, name.as_str(), files.as_slice())
        }
        None => Ok(()),
    }
}

/// Adds an alias of these files, each once.
fn add_named(
    alloc: Global,
    graph: &mut Graph,
    name: &str,
    files: &[PathText],
) -> Result<(), RuleReadFault>
    ensures ok { OnOk result (spec.with_alias name.now files.now (graph_by graph.old) ≡ Ok (graph_by graph.new)) }
    ensures fault { IfErr result (λ e. e ≢ RuleReadFault.Memory
        → spec.with_alias name.now files.now (graph_by graph.old) ≡ Err e) }
{
    graph.laws();
    let nodes = nodes_of(alloc, graph, files)?;
    graph.add_alias(name, nodes.as_slice())?;
    Ok(())
}

/// Adds the defaults, each once.
fn add_defaults(alloc: Global, state: &Declarations, graph: &mut Graph) -> Result<(), Memory>
    ensures { OnOk result (graph.new ≡ record graph.old {
      defaults = graph.old.defaults ++ spec.wishes (declared_of state.now);
    }) }
{
    let mut met = IndexSet::new(alloc);
    for asked in &state.defaults {
        let wish = wish_of(state, asked)?;
        add_wish(alloc, &mut met, graph, wish)?;
    }
    Ok(())
}

/// Adds a wish, unless its word was met.
fn add_wish(
    alloc: Global,
    met: &mut IndexSet<Text>,
    graph: &mut Graph,
    wish: Wish,
) -> Result<(), Memory>
    ensures wish { OnOk result ((wishes : List Wish) → met.old.keys ≡ map spec.word_of wishes
        → spec.IsWished wishes wish graph.old.defaults graph.new.defaults met.new.keys) }
    ensures rest { graph.new ≡ record graph.old { defaults = graph.new.defaults } }
{
    if !met.insert(word_of(alloc, &wish)?)? {
        return Ok(());
    }
    graph.add_default(wish)
}

fn add_helps(graph: &mut Graph, helps: &[Text]) -> Result<(), Memory>
    ensures { OnOk result (graph.new ≡ record graph.old { helps = graph.old.helps ++ helps.now }) }
{
    for help in helps {
        graph.add_help(help.copy()?)?;
    }
    Ok(())
}

fn wish_of(state: &Declarations, asked: &Asked) -> Result<Wish, Memory>
    ensures { IfOk result (λ w. w ≡ spec.wish_of (declared_of state.now) asked.now) }
{
    match asked {
        Asked::Alias(name) => Ok(Wish::Alias(name.copy()?)),
        Asked::Path(path) => Ok(Wish::Path(path.copy()?)),
        Asked::Text { text, .. } if state.aliases.contains_key(text.as_str()) => {
            Ok(Wish::Alias(text.copy()?))
        }
        Asked::Text { path, .. } => Ok(Wish::Path(path.copy()?)),
    }
}

/// The word that says the same on the command line.
fn word_of(alloc: Global, wish: &Wish) -> Result<Text, Memory>
    ensures { IfOk result (λ t. t ≡ spec.word_of wish.now) }
{
    match wish {
        Wish::Alias(name) => name.copy(),
        Wish::Path(path) => Text::of(alloc, path.as_str()),
    }
}
