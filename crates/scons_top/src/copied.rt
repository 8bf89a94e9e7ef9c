//! Whether a path is copied into a variant directory.
ghost use Rattle.std.specs.Prelude.{◌≡◌, None, IfOk, length, if◌then◌else◌};
ghost use Rattle.build_files.specs.Causes.{HasLookCause};
ghost use Rattle.build_files.specs.Leftovers.{is_copied, is_source};
ghost use Rattle.scons_top.specs.Copied.{TellsCopied};
ghost use Rattle.variant_dirs.specs.Variants.{source_of};
ghost use Rattle.world_api.specs.Looks.{Looks};

use crate::clean_step::is_file;
use crate::requests::is_declared;
use build_files::{ListEnd, is_copied};
use rule_graph::Graph;
use scons_base::{Memory, PathText};
use world_api::World;

/// Whether a path without a declared rule is copied. All rules of the graph are declared ones.
#[tactic(auto, using(build_files::proofs::Looking::looking))]
pub(crate) fn has_copy<W: World>(
    world: &mut W,
    graph: &Graph,
    path: &PathText,
) -> Result<bool, ListEnd>
    ensures looks { Looks W.meaning world.old world.new }
    ensures cause { HasLookCause (W.meaning.counts world.old) (W.meaning.counts world.new) result }
    ensures is { TellsCopied W.meaning graph.now path.now world.new result }
{
    match source_in(graph, path)? {
        Some(source) => is_source(world, graph, &source),
        None => Ok(false),
    }
}

/// The source of a path in a variant directory with copies.
fn source_in(graph: &Graph, path: &PathText) -> Result<Option<PathText>, Memory>
    ensures { IfOk result (λ source. source ≡ (if is_copied graph.now path.now then source_of graph.now.variants graph.now.top path.now else None)) }
{
    if is_copied(graph, path) {
        return graph.variants().source_of(graph.top(), path);
    }
    Ok(None)
}

/// Whether what is copied may come from a path: a declared rule makes it, or it is a file outside of variant directories with copies.
#[tactic(auto, using(build_files::proofs::Looking::looking))]
fn is_source<W: World>(world: &mut W, graph: &Graph, path: &PathText) -> Result<bool, ListEnd>
    ensures looks { Looks W.meaning world.old world.new }
    ensures cause { HasLookCause (W.meaning.counts world.old) (W.meaning.counts world.new) result }
    ensures is { W.meaning.tells world.new → IfOk result (λ is. is ≡ is_source graph.now (length graph.now.rules) (W.meaning.around world.new) path.now) }
{
    if is_declared(graph, path) {
        return Ok(true);
    }
    if is_copied(graph, path) {
        return Ok(false);
    }
    is_file(world, path)
}
