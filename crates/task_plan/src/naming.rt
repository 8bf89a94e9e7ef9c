//! What a rule names: what it needs before any file is scanned, and the first files to scan.
ghost use Rattle.std.specs.Prelude.{◌≡◌, ◌++◌, ◌<◌, [], if◌then◌else◌, OnOk, IfOk, length, filter};
ghost use Rattle.task_plan.specs.Named.{put_all as put_all_of, with_sources, with_targets, is_scanned_node};
ghost use Rattle.task_plan.specs.Loaded.{NotesNeeds, IsBlank, IsTaskOf};

use crate::sets::{add, add_all, put_all};
use crate::task::Task;
use c_scanner::is_scanned;
use indexmap::IndexSet;
use rule_graph::{Graph, Rule};
use scons_base::{Memory, NodeId};
use std::alloc::Global;
use world_api::Work;

/// The task of a rule for which no file was scanned.
pub(crate) fn task_of(alloc: Global, graph: &Graph, rule: &Rule) -> Result<Task, Memory>
    ensures { IfOk result (IsTaskOf graph.now rule.now) }
{
    let mut task = Task::new(alloc);
    load(&mut task, graph, rule)?;
    Ok(task)
}

fn load(task: &mut Task, graph: &Graph, rule: &Rule) -> Result<(), Memory>
    requires { IsBlank task.old }
    ensures { OnOk result (IsTaskOf graph.now rule.now task.new) }
{
    load_needs(task, graph, rule)?;
    load_targets(task, rule)?;
    Ok(())
}

/// Notes what a rule needs.
fn load_needs(task: &mut Task, graph: &Graph, rule: &Rule) -> Result<(), Memory>
    requires { IsBlank task.old }
    ensures { OnOk result (NotesNeeds graph.now rule.now task.new) }
{
    task.required.extend_from_slice(rule.required.as_slice())?;
    add_all(&mut task.reach.excluded, rule.ignored.as_slice())?;
    load_sources(task, rule)?;
    load_scans(task, graph, rule)?;
    load_others(task, rule)
}

/// Notes the sources of a rule. One that is ignored counts for the shell alone.
fn load_sources(task: &mut Task, rule: &Rule) -> Result<(), Memory>
    ensures rest { task.new ≡ record task.old { deps = task.new.deps } }
    ensures deps { OnOk result (task.new.deps.keys
        ≡ with_sources task.old.reach.excluded.keys rule.now task.old.deps.keys) }
{
    match rule.work {
        Work::Shell => put_all(
            &mut task.deps,
            &task.reach.excluded,
            rule.sources.as_slice(),
        ),
        Work::Copy | Work::Write => add_all(&mut task.deps, rule.sources.as_slice()),
    }
}

/// Notes which of the sources are scanned.
fn load_scans(task: &mut Task, graph: &Graph, rule: &Rule) -> Result<(), Memory>
    ensures rest { task.new ≡ record task.old {
      reach = record task.old.reach { files = task.new.reach.files; sources = task.new.reach.sources };
    } }
    ensures files { OnOk result (task.new.reach.files.keys ≡ (if rule.now.scans
        then put_all_of [] task.old.reach.files.keys (filter (is_scanned_node graph.now) task.old.deps.keys)
        else task.old.reach.files.keys)) }
    ensures sources { OnOk result (task.new.reach.sources ≡ length task.new.reach.files.keys) }
{
    if rule.scans {
        add_scanned(&mut task.reach.files, graph, &task.deps)?;
    }
    task.reach.sources = task.reach.files.len();
    Ok(())
}

/// Notes those of the sources that are scanned.
#[tactic(auto, using(crate::proofs::NamedLemmas::scanned_steps))]
fn add_scanned(
    files: &mut IndexSet<NodeId>,
    graph: &Graph,
    sources: &IndexSet<NodeId>,
) -> Result<(), Memory>
    ensures { OnOk result (files.new.keys
        ≡ put_all_of [] files.old.keys (filter (is_scanned_node graph.now) sources.now.keys)) }
{
    let nodes = sources.as_slice();
    for node in nodes {
        if is_scanned_in(graph, *node) {
            add(files, *node)?;
        }
    }
    Ok(())
}

/// Notes the dependencies that a rule names beside its sources, less the ignored ones.
fn load_others(task: &mut Task, rule: &Rule) -> Result<(), Memory>
    ensures rest { task.new ≡ record task.old { deps = task.new.deps; named = task.new.named } }
    ensures deps { OnOk result (task.new.deps.keys ≡ put_all_of task.old.reach.excluded.keys
        (put_all_of task.old.reach.excluded.keys task.old.deps.keys rule.now.depends) rule.now.libs) }
    ensures named { OnOk result (task.new.named ≡ length task.new.deps.keys) }
{
    put_all(
        &mut task.deps,
        &task.reach.excluded,
        rule.depends.as_slice(),
    )?;
    put_all(&mut task.deps, &task.reach.excluded, rule.libs.as_slice())?;
    task.named = task.deps.len();
    Ok(())
}

/// Notes the targets of a rule. Where it scans they are left out if they are found.
fn load_targets(task: &mut Task, rule: &Rule) -> Result<(), Memory>
    ensures rest { task.new ≡ record task.old {
      targets = task.new.targets;
      reach = record task.old.reach { excluded = task.new.reach.excluded };
    } }
    ensures targets { OnOk result (task.new.targets.items ≡ task.old.targets.items ++ rule.now.targets) }
    ensures excluded { OnOk result (task.new.reach.excluded.keys
        ≡ with_targets rule.now task.old.reach.excluded.keys) }
{
    task.targets.extend_from_slice(rule.targets.as_slice())?;
    if rule.scans {
        add_all(&mut task.reach.excluded, rule.targets.as_slice())
    } else {
        Ok(())
    }
}

/// Whether a node is scanned where it is a source.
fn is_scanned_in(graph: &Graph, node: NodeId) -> bool
    ensures { result ≡ is_scanned_node graph.now node }
{
    node.0 < graph.len() && is_scanned(graph.path(node).suffix())
}
