//! Nodes put into sets.
ghost use Rattle.std.specs.Prelude.{◌≡◌, OnOk, []};
ghost use Rattle.task_plan.specs.Settled.{IsLonger};
ghost use Rattle.task_plan.specs.Named.{put as put_of, put_all as put_all_of};

use indexmap::IndexSet;
use scons_base::{Memory, NodeId};

/// Puts nodes behind those there, each once, less those that are left out.
#[tactic(auto, using(crate::proofs::NamedLemmas::put_steps))]
pub(crate) fn put_all(
    there: &mut IndexSet<NodeId>,
    out: &IndexSet<NodeId>,
    nodes: &[NodeId],
) -> Result<(), Memory>
    ensures longer { IsLonger there.old.keys there.new.keys }
    ensures all { OnOk result (there.new.keys ≡ put_all_of out.now.keys there.old.keys nodes.now) }
{
    for node in nodes {
        put(there, out, *node)?;
    }
    Ok(())
}

#[tactic(auto, using(crate::proofs::NamedLemmas::put_one))]
fn put(there: &mut IndexSet<NodeId>, out: &IndexSet<NodeId>, node: NodeId) -> Result<(), Memory>
    ensures longer { IsLonger there.old.keys there.new.keys }
    ensures one { OnOk result (there.new.keys ≡ put_of out.now.keys there.old.keys node) }
{
    if !out.contains(&node) {
        let _ = there.insert(node)?;
    }
    Ok(())
}

/// Puts nodes behind those there, each once.
#[tactic(auto, using(crate::proofs::NamedLemmas::put_steps))]
pub(crate) fn add_all(there: &mut IndexSet<NodeId>, nodes: &[NodeId]) -> Result<(), Memory>
    ensures longer { IsLonger there.old.keys there.new.keys }
    ensures all { OnOk result (there.new.keys ≡ put_all_of [] there.old.keys nodes.now) }
{
    for node in nodes {
        add(there, *node)?;
    }
    Ok(())
}

#[tactic(auto, using(crate::proofs::NamedLemmas::put_one))]
pub(crate) fn add(there: &mut IndexSet<NodeId>, node: NodeId) -> Result<(), Memory>
    ensures longer { IsLonger there.old.keys there.new.keys }
    ensures one { OnOk result (there.new.keys ≡ put_of [] there.old.keys node) }
{
    let _ = there.insert(node)?;
    Ok(())
}
