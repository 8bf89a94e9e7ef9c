//! What a rule prints as it starts or is listed.
ghost use Rattle.std.specs.Prelude.{◌≡◌, ◌<◌, ◌++◌, ℕ, length, slice_get, Some, IfOk, IfSome, OnOk, IsTrue, string_bytes};
ghost use Rattle.rule_graph.specs.Rules.{are_below};
ghost use Rattle.rule_graph.specs.declared.rule.Rule.{Rule};
ghost use Rattle.report_texts.specs.Lines.{rule_text, lines_text, install_line, install_text, write_line, write_text, shown};

use rule_graph::{Graph, Rule};
use scons_base::{Memory, NodeId, PathText, RuleId};
use std::alloc::Global;
use world_api::{Line, Work};

/// The lines of a rule: those of its action that are neither quiet nor empty, or what an Install does or is written. A copy
/// of a variant directory prints nothing.
pub fn rule_text(alloc: Global, graph: &Graph, rule: RuleId) -> Result<String, Memory>
    requires { rule.0 < length graph.now.rules }
    ensures { IfOk result (λ text. (named : Rule) → slice_get graph.now.rules rule.0 ≡ Some named
        → string_bytes text ≡ rule_text graph.now named) }
{
    let rule = graph.rule(rule);
    match rule.work {
        Work::Copy if !rule.builder.as_str().is_empty() => {
            install_text(
                alloc,
                graph,
                rule.sources.as_slice(),
                rule.targets.as_slice(),
            )
        }
        Work::Copy => Ok(String::new(alloc)),
        Work::Shell => lines_text(alloc, rule.lines.as_slice()),
        Work::Write => write_text(alloc, graph, rule.targets.as_slice()),
    }
}

fn lines_text(alloc: Global, lines: &[Line]) -> Result<String, Memory>
    ensures { IfOk result (λ text. string_bytes text ≡ lines_text lines.now) }
{
    let mut text = String::new(alloc);
    for line in lines {
        push_line(&mut text, line)?;
    }
    Ok(text)
}

fn push_line(text: &mut String, line: &Line) -> Result<(), Memory>
    ensures { OnOk result (string_bytes text.new ≡ string_bytes text.old ++ shown line.now.quiet line.now.text) }
{
    let shown = line.text.as_str();
    if !line.quiet && !shown.is_empty() {
        text.push_str(shown)?;
        text.push_str("\n")?;
    }
    Ok(())
}

fn install_text(
    alloc: Global,
    graph: &Graph,
    sources: &[NodeId],
    targets: &[NodeId],
) -> Result<String, Memory>
    requires sources { IsTrue (are_below (length graph.now.nodes) sources.now) }
    requires targets { IsTrue (are_below (length graph.now.nodes) targets.now) }
    ensures { IfOk result (λ text. string_bytes text ≡ install_text graph.now.nodes sources.now targets.now) }
{
    match (sources, targets) {
        ([source, ..], [target, ..]) => {
            install_line(alloc, graph.path(*source), graph.path(*target))
        }
        _ => Ok(String::new(alloc)),
    }
}

fn install_line(alloc: Global, source: &PathText, target: &PathText) -> Result<String, Memory>
    ensures { IfOk result (λ text. string_bytes text ≡ install_line source.now target.now) }
{
    let source = source.as_str();
    let target = target.as_str();
    Ok(format!(in alloc; "Install file: \"{source}\" as \"{target}\"\n")?)
}

/// What a rule that writes does. Such a rule has one target.
fn write_text(alloc: Global, graph: &Graph, targets: &[NodeId]) -> Result<String, Memory>
    requires { IsTrue (are_below (length graph.now.nodes) targets.now) }
    ensures { IfOk result (λ text. string_bytes text ≡ write_text graph.now.nodes targets.now) }
{
    match targets {
        [target, ..] => write_line(alloc, graph.path(*target)),
        [] => Ok(String::new(alloc)),
    }
}

fn write_line(alloc: Global, target: &PathText) -> Result<String, Memory>
    ensures { IfOk result (λ text. string_bytes text ≡ write_line target.now) }
{
    let target = target.as_str();
    Ok(format!(in alloc; "Creating '{target}'\n")?)
}
