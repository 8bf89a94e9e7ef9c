//! Cleaning: the targets of what was requested are removed.
ghost use Rattle.std.specs.Prelude.{◌≡◌, ◌<◌, ◌∷◌, [], None, true, All, IfOk, IfErr, OnOk, IsTrue, is_some, length, if◌then◌else◌};
ghost use Rattle.build_files.specs.Causes.{HasLookCause};
ghost use Rattle.build_means.specs.Rules.{paths_of};
ghost use Rattle.build_run.specs.Goings.{Stays};
ghost use Rattle.rule_graph.specs.Rules.{are_below};
ghost use Rattle.scons_report.specs.Cleaning.{rules_numbered};
ghost use Rattle.scons_top.specs.Cleaned.{AreRemoved, CleansAsked, Cleared, is_file_kind, targets_of};
ghost use Rattle.report_texts.specs.Texts.{removed_text};
ghost use Rattle.scons_top.specs.Printed.{CleansPrinting, LeavesBy, RemovesPrinting, ServesPrinting};
ghost use Rattle.scons_top.specs.Sinks.{PrintsUpTo};
ghost use Rattle.scons_top.specs.RunLines.{notice};
ghost use Rattle.scons_top.specs.Requested.{AskForNodes, nodes_asked};
ghost use Rattle.scons_top.specs.Steps.{IsTreeEnd, RunEndsAt, StopsAt};
ghost use Rattle.scons_top.specs.Stops.{OutSteps, OutReports, SinkStep};
ghost use Rattle.scons_top.specs.Faults.{IsLateStop};
ghost use Rattle.scons_top.specs.Remembered.{LeavesBanks};
ghost use Rattle.scons_top.specs.Stopping.{RunsSafely};
ghost use Rattle.world_api.specs.Statuses.{HasStatus};
ghost use Rattle.scons_top.specs.Watching.{Watches};

use crate::build_step::nodes_of;
use crate::ending::good;
use crate::printed::{say, tell};
use crate::report::Report;
use crate::requests::Request;
use crate::step::Step;
use crate::stop::Stop;
use rule_graph::Graph;
use scons_base::{NodeId, PathText, RuleId};
use scons_report::{ListEnd, clean_list, cleaned_text, cleaning_text, removed_text};
use scons_words::Words;
use std::alloc::Global;
use world_api::{Kind, Sink, World};

/// Removes each target that is a file, or with `-n` says which they are.
#[tactic(auto, using(crate::proofs::Watching::standing))]
pub(crate) fn clean_requests<W: World, O: Sink>(
    alloc: Global,
    graph: &Graph,
    words: &Words,
    requests: &[Request],
    world: &mut W,
    out: &mut O,
) -> Result<Report, Stop>
    requires idle { W.meaning.tells world.old → (W.meaning.around world.old).running ≡ [] }
    requires nodes { AskForNodes graph.now requests.now }
    ensures ends { RunEndsAt Step.Cleaning result }
    ensures cleans { AskForNodes graph.now requests.now → CleansAsked W.meaning words.now graph.now (nodes_asked requests.now) world.old world.new result }
    ensures stays { Stays W.meaning world.old world.new }
    ensures safe { RunsSafely W.meaning world.old world.new }
    ensures moments { LeavesBanks W.meaning world.old world.new }
    ensures reports { OutReports W.meaning O.meaning world.old out.old world.new out.new result }
    ensures prints { ServesPrinting W.meaning O.meaning words.now Step.Cleaning graph.now requests.now world.old out.old world.new out.new result }
    ensures dry { IsTrue words.now.dry → Watches W.meaning world.old world.new }
    ensures late { IfErr result IsLateStop }
    ensures faults { IfOk result (λ report. report.faults ≡ []) }
    ensures status { IfOk result (λ report. HasStatus report.status report.faults) }
{
    let nodes = nodes_of(alloc, requests)?;
    say(out, words, cleaning_text(alloc))?;
    let rules = clean_list(alloc, graph, nodes.as_slice())?;
    clean_rules(alloc, graph, words, rules.as_slice(), world, out)?;
    say(out, words, cleaned_text(alloc))?;
    Ok(good(alloc, Step::Cleaning))
}

#[tactic(auto, using(crate::proofs::Watching::standing))]
fn clean_rules<W: World, O: Sink>(
    alloc: Global,
    graph: &Graph,
    words: &Words,
    rules: &[RuleId],
    world: &mut W,
    out: &mut O,
) -> Result<(), Stop>
    requires idle { W.meaning.tells world.old → (W.meaning.around world.old).running ≡ [] }
    requires known { All (λ rule. rule.0 < length graph.now.rules) rules.now }
    ensures cleared { Cleared W.meaning (targets_of (rules_numbered graph.now rules.now)) world.old world.new }
    ensures gone { OnOk result (AreRemoved W.meaning words.now (targets_of (rules_numbered graph.now rules.now)) world.new) }
    ensures stops { IfErr result (StopsAt Step.Cleaning) }
    ensures stays { Stays W.meaning world.old world.new }
    ensures safe { RunsSafely W.meaning world.old world.new }
    ensures moments { LeavesBanks W.meaning world.old world.new }
    ensures steps { OutSteps W.meaning O.meaning world.old out.old world.new out.new result }
    ensures dry { IsTrue words.now.dry → Watches W.meaning world.old world.new }
    ensures late { IfErr result IsLateStop }
    ensures left { OnOk result (LeavesBy W.meaning words.now (targets_of (rules_numbered graph.now rules.now)) world.old world.new) }
    ensures prints { CleansPrinting W.meaning O.meaning words.now graph.now rules.now world.old out.old world.new out.new result }
{
    for rule in rules {
        let targets = graph.rule(*rule).targets.as_slice();
        clean_all(alloc, graph, words, targets, world, out)?;
    }
    Ok(())
}

#[tactic(auto, using(crate::proofs::Watching::standing))]
fn clean_all<W: World, O: Sink>(
    alloc: Global,
    graph: &Graph,
    words: &Words,
    targets: &[NodeId],
    world: &mut W,
    out: &mut O,
) -> Result<(), Stop>
    requires idle { W.meaning.tells world.old → (W.meaning.around world.old).running ≡ [] }
    requires nodes { are_below (length graph.now.nodes) targets.now ≡ true }
    ensures cleared { Cleared W.meaning (paths_of graph.now targets.now) world.old world.new }
    ensures gone { OnOk result (AreRemoved W.meaning words.now (paths_of graph.now targets.now) world.new) }
    ensures stops { IfErr result (StopsAt Step.Cleaning) }
    ensures stays { Stays W.meaning world.old world.new }
    ensures safe { RunsSafely W.meaning world.old world.new }
    ensures moments { LeavesBanks W.meaning world.old world.new }
    ensures steps { OutSteps W.meaning O.meaning world.old out.old world.new out.new result }
    ensures dry { IsTrue words.now.dry → Watches W.meaning world.old world.new }
    ensures late { IfErr result IsLateStop }
    ensures left { OnOk result (LeavesBy W.meaning words.now (paths_of graph.now targets.now) world.old world.new) }
    ensures prints { RemovesPrinting W.meaning O.meaning words.now (paths_of graph.now targets.now) world.old out.old world.new out.new result }
{
    for target in targets {
        clean(alloc, words, graph.path(*target), world, out)?;
    }
    Ok(())
}

/// Removes a target that is a file, and says so.
fn clean<W: World, O: Sink>(
    alloc: Global,
    words: &Words,
    path: &PathText,
    world: &mut W,
    out: &mut O,
) -> Result<(), Stop>
    requires idle { W.meaning.tells world.old → (W.meaning.around world.old).running ≡ [] }
    ensures cleared { Cleared W.meaning (path.now ∷ []) world.old world.new }
    ensures gone { OnOk result (AreRemoved W.meaning words.now (path.now ∷ []) world.new) }
    ensures stops { IfErr result (StopsAt Step.Cleaning) }
    ensures stays { Stays W.meaning world.old world.new }
    ensures safe { RunsSafely W.meaning world.old world.new }
    ensures moments { LeavesBanks W.meaning world.old world.new }
    ensures steps { OutSteps W.meaning O.meaning world.old out.old world.new out.new result }
    ensures dry { IsTrue words.now.dry → Watches W.meaning world.old world.new }
    ensures late { IfErr result IsLateStop }
    ensures prints { RemovesPrinting W.meaning O.meaning words.now (path.now ∷ []) world.old out.old world.new out.new result }
{
    let removed = is_removed(words, world, path)?;
    tell_removed(alloc, words, path, removed, out)
}

/// Says of a path that a file is removed there, if one is.
fn tell_removed<O: Sink>(
    alloc: Global,
    words: &Words,
    path: &PathText,
    removed: bool,
    out: &mut O,
) -> Result<(), Stop>
    ensures late { IfErr result IsLateStop }
    ensures step { SinkStep (O.meaning.faults out.old) (O.meaning.faults out.new) result }
    ensures prints { PrintsUpTo O.meaning (if removed then notice words.now (removed_text path.now) else []) out.old out.new result }
{
    if removed {
        return tell(out, words, removed_text(alloc, path));
    }
    Ok(())
}

/// Removes a target that is a file, and says whether it was one. With `-n` it isn't removed.
fn is_removed<W: World>(words: &Words, world: &mut W, path: &PathText) -> Result<bool, ListEnd>
    requires idle { W.meaning.tells world.old → (W.meaning.around world.old).running ≡ [] }
    ensures cleared { Cleared W.meaning (path.now ∷ []) world.old world.new }
    ensures gone { OnOk result (AreRemoved W.meaning words.now (path.now ∷ []) world.new) }
    ensures tree { IfErr result IsTreeEnd }
    ensures stays { Stays W.meaning world.old world.new }
    ensures safe { RunsSafely W.meaning world.old world.new }
    ensures moments { LeavesBanks W.meaning world.old world.new }
    ensures cause { HasLookCause (W.meaning.counts world.old) (W.meaning.counts world.new) result }
    ensures dry { IsTrue words.now.dry → Watches W.meaning world.old world.new }
    ensures there { W.meaning.tells world.new → IfOk result (λ is. is ≡ is_some ((W.meaning.around world.old).tree path.now)) }
{
    let stands = is_file(world, path)?;
    if stands {
        return take(words, world, path);
    }
    Ok(false)
}

/// Removes a file, and says that there was one. With `-n` it isn't removed.
fn take<W: World>(words: &Words, world: &mut W, path: &PathText) -> Result<bool, ListEnd>
    requires idle { W.meaning.tells world.old → (W.meaning.around world.old).running ≡ [] }
    ensures cleared { Cleared W.meaning (path.now ∷ []) world.old world.new }
    ensures gone { OnOk result (AreRemoved W.meaning words.now (path.now ∷ []) world.new) }
    ensures tree { IfErr result IsTreeEnd }
    ensures stays { Stays W.meaning world.old world.new }
    ensures safe { RunsSafely W.meaning world.old world.new }
    ensures moments { LeavesBanks W.meaning world.old world.new }
    ensures cause { HasLookCause (W.meaning.counts world.old) (W.meaning.counts world.new) result }
    ensures dry { IsTrue words.now.dry → Watches W.meaning world.old world.new }
    ensures taken { IfOk result (λ taken. taken ≡ true) }
{
    if words.dry {
        return Ok(true);
    }
    remove(world, path)?;
    Ok(true)
}

/// Whether a file stands at a path.
#[tactic(auto, using(crate::proofs::Causing::causing))]
pub(crate) fn is_file<W: World>(world: &mut W, path: &PathText) -> Result<bool, ListEnd>
    ensures file { W.meaning.tells world.new → IfOk result (λ is. is ≡ is_some ((W.meaning.around world.new).tree path.now)) }
    ensures tree { IfErr result IsTreeEnd }
    ensures watches { Watches W.meaning world.old world.new }
    ensures cause { HasLookCause (W.meaning.counts world.old) (W.meaning.counts world.new) result }
{
    match world.kind(path) {
        Ok(kind) => Ok(names_file(kind)),
        Err(_) => Err(ListEnd::tree(path)),
    }
}

fn names_file(kind: Kind) -> bool
    ensures { result ≡ is_file_kind kind }
{
    match kind {
        Kind::File => true,
        Kind::Absent | Kind::Dir => false,
    }
}

#[tactic(auto, using(crate::proofs::Causing::causing))]
fn remove<W: World>(world: &mut W, path: &PathText) -> Result<(), ListEnd>
    requires idle { W.meaning.tells world.old → (W.meaning.around world.old).running ≡ [] }
    ensures cleared { Cleared W.meaning (path.now ∷ []) world.old world.new }
    ensures gone { W.meaning.tells world.new → OnOk result ((W.meaning.around world.new).tree path.now ≡ None) }
    ensures tree { IfErr result IsTreeEnd }
    ensures stays { Stays W.meaning world.old world.new }
    ensures safe { RunsSafely W.meaning world.old world.new }
    ensures moments { LeavesBanks W.meaning world.old world.new }
    ensures cause { HasLookCause (W.meaning.counts world.old) (W.meaning.counts world.new) result }
{
    match world.remove(path) {
        Ok(()) => Ok(()),
        Err(_) => Err(ListEnd::tree(path)),
    }
}
