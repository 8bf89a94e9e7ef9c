//! Which paths are known: those that a rule makes, and those at which a file stands.
ghost use Rattle.std.specs.Prelude.{◌≡◌, ℕ, List, Some, None, true, IfOk, IfSome, is_some, slice_get, [], ◌∷◌};
ghost use Rattle.node_tree.specs.Nodes.{number_of};
ghost use Rattle.world_api.specs.Around.{Around};
ghost use Rattle.build_files.specs.Causes.{HasLookCause, IsQuiet};
ghost use Rattle.build_files.specs.Reading.{ReadsOnly};
ghost use Rattle.build_files.specs.Kept.{AreTrue, IsKnownAs, SameGone, StaysTrue};
ghost use Rattle.build_files.specs.Marked.{KeepsMarks};
ghost use Rattle.build_files.specs.Searched.{HasMore};
ghost use Rattle.build_files.specs.Leftovers.{is_made, is_declared, is_copied, copied_from};
ghost use Rattle.build_means.specs.Copies.{copied_from as copied_in, is_known};
ghost use Rattle.build_means.specs.Grown.{Begun};
ghost use Rattle.world_api.specs.Looks.{Looks};

use crate::end::ListEnd;
use crate::inputs::{Inputs, is_file_at};
use crate::lookup::path_of;
use rule_graph::Graph;
use scons_base::{NodeId, PathText};
use world_api::World;

impl Inputs {
    /// The node of a path, where the path is known.
    #[tactic(auto, using(crate::proofs::Looking::looking))]
    pub(crate) fn known<W: World>(
        &mut self,
        world: &mut W,
        graph: &mut Graph,
        path: &PathText,
    ) -> Result<Option<NodeId>, ListEnd>
        ensures looks { Looks W.meaning world.old world.new }
        ensures cause { HasLookCause (W.meaning.counts world.old) (W.meaning.counts world.new) result }
        ensures grows { HasMore graph.old graph.new }
        ensures gone { SameGone self.old self.new }
        ensures only { ReadsOnly [] self.old self.new }
        ensures truth { StaysTrue W.meaning graph.old self.old world.old graph.new self.new world.new }
        ensures known { W.meaning.tells world.new → (b : Begun) → AreTrue b graph.old self.old (W.meaning.around world.old)
            → IfOk result (IsKnownAs b graph.new path.now) }
        ensures marks { KeepsMarks graph.old self.old graph.new self.new }
    {
        let Some(node) = graph.find(path) else {
            return self.newly_known(world, graph, path);
        };
        if self.is_known(world, graph, node)? {
            Ok(Some(node))
        } else {
            Ok(None)
        }
    }

    /// Whether a file has a rule, its copy rule counted, or stands.
    #[tactic(auto, using(crate::proofs::Looking::looking))]
    fn is_known<W: World>(
        &mut self,
        world: &mut W,
        graph: &Graph,
        node: NodeId,
    ) -> Result<bool, ListEnd>
        ensures looks { Looks W.meaning world.old world.new }
        ensures cause { HasLookCause (W.meaning.counts world.old) (W.meaning.counts world.new) result }
        ensures gone { SameGone self.old self.new }
        ensures only { ReadsOnly [] self.old self.new }
        ensures truth { StaysTrue W.meaning graph.now self.old world.old graph.now self.new world.new }
        ensures known { W.meaning.tells world.new → (b : Begun) (path : List ℕ) → slice_get graph.now.nodes node.0 ≡ Some path
            → AreTrue b graph.now self.old (W.meaning.around world.old) → IfOk result (λ is. is ≡ is_known b.graph b.tree path) }
        ensures marks { KeepsMarks graph.now self.old graph.now self.new }
    {
        graph.laws();
        if graph.rule_of(node).is_some() {
            return Ok(true);
        }
        if self.is_file(world, graph, node)? {
            return Ok(true);
        }
        self.has_copy_rule(world, graph, path_of(graph, node)?)
    }

    /// The node of a path that no rule names, where the path is known.
    #[tactic(auto, using(crate::proofs::Looking::looking))]
    fn newly_known<W: World>(
        &mut self,
        world: &mut W,
        graph: &mut Graph,
        path: &PathText,
    ) -> Result<Option<NodeId>, ListEnd>
        ensures looks { Looks W.meaning world.old world.new }
        ensures cause { HasLookCause (W.meaning.counts world.old) (W.meaning.counts world.new) result }
        ensures grows { HasMore graph.old graph.new }
        ensures gone { SameGone self.old self.new }
        ensures only { ReadsOnly [] self.old self.new }
        ensures truth { number_of graph.old.nodes path.now ≡ None
            → StaysTrue W.meaning graph.old self.old world.old graph.new self.new world.new }
        ensures known { number_of graph.old.nodes path.now ≡ None → W.meaning.tells world.new → (b : Begun)
            → AreTrue b graph.old self.old (W.meaning.around world.old) → IfOk result (IsKnownAs b graph.new path.now) }
        ensures marks { KeepsMarks graph.old self.old graph.new self.new }
    {
        if self.unknown.contains(path) {
            return Ok(None);
        }
        if self.stands(world, path)? {
            return self.note(graph, path, true);
        }
        if self.has_copy_rule(world, graph, path)? {
            return self.note(graph, path, false);
        }
        graph.laws();
        let _ = self.unknown.insert(path.copy()?)?;
        Ok(None)
    }

    /// Whether a path without a declared rule has a copy rule.
    #[tactic(auto, using(crate::proofs::Looking::looking))]
    fn has_copy_rule<W: World>(
        &self,
        world: &mut W,
        graph: &Graph,
        path: &PathText,
    ) -> Result<bool, ListEnd>
        ensures looks { Looks W.meaning world.old world.new }
        ensures cause { HasLookCause (W.meaning.counts world.old) (W.meaning.counts world.new) result }
        ensures copied { W.meaning.tells world.new → (b : Begun) → AreTrue b graph.now self.now (W.meaning.around world.old)
            → IfOk result (λ has. has ≡ is_some (copied_in b.graph b.tree path.now)) }
    {
        graph.laws();
        Ok(copied_from(world, graph, self.declared, path)?.is_some())
    }

    /// Gives a path a node, and notes whether a file stands there.
    #[tactic(auto, using(crate::proofs::Looking::looking))]
    fn note(
        &mut self,
        graph: &mut Graph,
        path: &PathText,
        is_file: bool,
    ) -> Result<Option<NodeId>, ListEnd>
        ensures quiet { IsQuiet result }
        ensures grows { HasMore graph.old graph.new }
        ensures gone { SameGone self.old self.new }
        ensures only { ReadsOnly [] self.old self.new }
        ensures truth { (b : Begun) (around : Around) → number_of graph.old.nodes path.now ≡ None → is_file ≡ is_some (b.tree path.now)
            → AreTrue b graph.old self.old around → AreTrue b graph.new self.new around }
        ensures node { number_of graph.old.nodes path.now ≡ None
            → IfOk result (λ node. IfSome node (λ n. slice_get graph.new.nodes n.0 ≡ Some path.now)) }
        ensures some { IfOk result (λ node. is_some node ≡ true) }
        ensures marks { KeepsMarks graph.old self.old graph.new self.new }
    {
        graph.laws();
        let node = graph.intern(path)?;
        graph.laws();
        self.files.keep_is_file(node, is_file)?;
        Ok(Some(node))
    }
}

/// Whether a path without a declared rule has a copy rule, over a graph in which all rules are declared ones.
#[tactic(auto, using(crate::proofs::Looking::looking))]
pub fn has_copy_rule<W: World>(
    world: &mut W,
    graph: &Graph,
    path: &PathText,
) -> Result<bool, ListEnd>
    ensures looks { Looks W.meaning world.old world.new }
    ensures cause { HasLookCause (W.meaning.counts world.old) (W.meaning.counts world.new) result }
{
    Ok(copied_from(world, graph, graph.rules(), path)?.is_some())
}

/// The path that a path without a declared rule is copied from: it lies in a variant directory with copies, and its source
/// has one of the rules that were declared, which are the first so many, or is a file outside such directories. A copy is
/// never copied further.
#[tactic(auto, using(crate::proofs::Looking::looking))]
pub(crate) fn copied_from<W: World>(
    world: &mut W,
    graph: &Graph,
    declared: u32,
    path: &PathText,
) -> Result<Option<PathText>, ListEnd>
    ensures looks { Looks W.meaning world.old world.new }
    ensures cause { HasLookCause (W.meaning.counts world.old) (W.meaning.counts world.new) result }
    ensures from { W.meaning.tells world.new → IfOk result (λ source. source ≡ copied_from graph.now declared (W.meaning.around world.new) path.now) }
{
    if !is_copied(graph, path) {
        return Ok(None);
    }
    let Some(source) = graph.variants().source_of(graph.top(), path)? else {
        return Ok(None);
    };
    if is_declared(graph, declared, &source) {
        return Ok(Some(source));
    }
    if is_copied(graph, &source) {
        return Ok(None);
    }
    if is_file_at(world, &source)? {
        Ok(Some(source))
    } else {
        Ok(None)
    }
}

/// Whether a path lies in a variant directory with copies.
pub fn is_copied(graph: &Graph, path: &PathText) -> bool
    ensures { result ≡ is_copied graph.now path.now }
{
    match graph.variants().variant_of(path) {
        Some(variant) => variant.duplicate,
        None => false,
    }
}

/// Whether a rule makes a path.
pub(crate) fn is_made(graph: &Graph, path: &PathText) -> bool
    ensures { result ≡ is_made graph.now path.now }
{
    match graph.find(path) {
        Some(node) => graph.rule_of(node).is_some(),
        None => false,
    }
}

/// Whether one of the first so many rules makes a path.
fn is_declared(graph: &Graph, declared: u32, path: &PathText) -> bool
    ensures { result ≡ is_declared graph.now declared path.now }
{
    match graph.find(path) {
        Some(node) => match graph.rule_of(node) {
            Some(rule) => rule.0 < declared,
            None => false,
        },
        None => false,
    }
}
