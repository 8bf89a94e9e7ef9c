//! How a run ends: its last lines and its report.
ghost use Rattle.std.specs.Prelude.{◌≡◌, ◌≢◌, ◌++◌, ◌∷◌, [], ℕ, List, true, false, All, Contains, map, slice_set, IfOk, IfErr, OnOk, OnErr, string_bytes};
ghost use Rattle.std.specs.List.{list_all};
ghost use Rattle.report_texts.specs.Texts.{done_text};
ghost use Rattle.rule_graph.specs.Rules.{rule_of};
ghost use Rattle.scons_top.specs.Alone.{AreOne};
ghost use Rattle.scons_top.specs.Faults.{IsEarly, IsEarlyStop, IsLate, IsLateStop, EarlyOnlyIf};
ghost use Rattle.scons_base.specs.declared.ids.RuleId.{RuleId};
ghost use Rattle.scons_top.specs.Endings.{ErrFinds, ErrEnds, ErrReports, AddsFew, AddsStopped, AddsUnwritten, Closes, ClosesWith};
ghost use Rattle.scons_top.specs.Printed.{RequestPrints};
ghost use Rattle.scons_top.specs.Sinks.{PrintsUpTo};
ghost use Rattle.scons_top.specs.Reported.{AreFound};
ghost use Rattle.scons_top.specs.RunLines.{AreMarks, closing_text, goes_on, has_started, is_made_by, progress, requests_text};
ghost use Rattle.scons_top.specs.Told.{IsLine, ShowsFirst, TellsFaults};
ghost use Rattle.scons_top.specs.Steps.{AllComeAt, AllFoundAt, IsFaultOr, IsStopOr, IsTold, RunEndsAt, ReportsAt};
ghost use Rattle.scons_top.specs.Stops.{SinkStep, SinkReports, top_of};
ghost use Rattle.scons_top.specs.declared.report.Top.{Top};
ghost use Rattle.world_api.specs.Statuses.{HasStatus};

use crate::printed::{print_text, say, tell};
use crate::report::{Report, Top};
use crate::requests::Request;
use crate::step::Step;
use crate::stop::Stop;
use crate::texts::own_text;
use rule_graph::{BuildFault, Graph};
use scons_base::{Listing, Memory, NodeId, PathText, RuleId};
use scons_report::{
    done_text, done_with_errors_text, fault_text, nothing_text, terminated_text, up_to_date_text,
};
use scons_words::Words;
use std::alloc::Global;
use world_api::{Sink, print};

/// A report with these faults of a run that ended at this step.
pub(crate) fn report(
    faults: Listing<Top>,
    skipped: Listing<(PathText, PathText)>,
    memory: bool,
    step: Step,
) -> Report
    ensures at { result.step ≡ step }
    ensures faults { result.faults ≡ faults }
    ensures skipped { result.skipped ≡ skipped }
    ensures status { HasStatus result.status result.faults }
    ensures memory { result.status ≢ 3 → memory ≡ false }
{
    let status = match memory {
        true => 3,
        false if faults.is_empty() => 0,
        false => 2,
    };
    Report {
        status,
        step,
        faults,
        skipped,
    }
}

/// The report of a run without a fault.
pub(crate) fn good(alloc: Global, step: Step) -> Report
    ensures ends { ReportsAt step result }
    ensures faults { result.faults ≡ [] }
    ensures status { HasStatus result.status result.faults }
{
    report(Listing::empty(alloc), Listing::empty(alloc), false, step)
}

/// Prints the one text of a run without a fault.
pub(crate) fn show<O: Sink>(
    alloc: Global,
    out: &mut O,
    text: Result<String, Memory>,
    step: Step,
) -> Result<Report, Stop>
    ensures ends { RunEndsAt step result }
    ensures reports { SinkReports O.meaning out.old out.new result }
    ensures prints { (line : List ℕ) → IfOk text (λ t. string_bytes t ≡ line) → PrintsUpTo O.meaning line out.old out.new result }
    ensures faults { IfOk result (λ report. report.faults ≡ []) }
    ensures status { IfOk result (λ report. HasStatus report.status report.faults) }
{
    print_text(out, text)?;
    Ok(good(alloc, step))
}

/// The report of a run that one fault ended: it is printed, and, where standard error refuses, so is that.
pub(crate) fn ended<E: Sink>(alloc: Global, stop: Stop, step: Step, err: &mut E) -> Report
    ensures at { result.step ≡ step }
    ensures one { AreOne result.faults }
    ensures alone { All (IsStopOr stop) result.faults }
    ensures told { result.status ≢ 3 → IsTold stop result.faults }
    ensures early { EarlyOnlyIf (IsEarlyStop stop) result.faults }
    ensures status { HasStatus result.status result.faults }
    ensures fails { result.status ≢ 0 }
    ensures skipped { result.skipped ≡ [] }
    ensures causes { ErrEnds E.meaning stop err.old err.new result }
    ensures tells { TellsFaults E.meaning err.old err.new result }
{
    match stop {
        Stop::Fault(fault) => {
            let text = own_text(alloc, &fault);
            kept(alloc, err, Top::from(fault), text, step)
        }
        Stop::Build(fault) => {
            let text = fault_text(alloc, &fault);
            kept(alloc, err, Top::from(fault), text, step)
        }
        Stop::Memory => report(Listing::empty(alloc), Listing::empty(alloc), true, step),
    }
}

/// Prints the text of a fault and reports the fault.
fn kept<E: Sink>(
    alloc: Global,
    err: &mut E,
    fault: Top,
    text: Result<String, Memory>,
    step: Step,
) -> Report
    ensures at { result.step ≡ step }
    ensures one { AreOne result.faults }
    ensures alone { All (IsFaultOr fault) result.faults }
    ensures told { result.status ≢ 3 → Contains result.faults fault }
    ensures early { EarlyOnlyIf (IsEarly fault) result.faults }
    ensures status { HasStatus result.status result.faults }
    ensures fails { result.status ≢ 0 }
    ensures skipped { result.skipped ≡ [] }
    ensures causes { ErrReports E.meaning fault err.old err.new result }
    ensures tells { IfOk text (λ t. IsLine fault (string_bytes t)) → TellsFaults E.meaning err.old err.new result }
{
    let mut faults = Listing::empty(alloc);
    match keep(err, fault, text, &mut faults) {
        Ok(()) => report(faults, Listing::empty(alloc), false, step),
        Err(_) => report(faults, Listing::empty(alloc), true, step),
    }
}

/// Prints the text of a fault and keeps the fault.
fn keep<E: Sink>(
    err: &mut E,
    fault: Top,
    text: Result<String, Memory>,
    faults: &mut Listing<Top>,
) -> Result<(), Memory>
    ensures one { faults.old ≡ [] → AreOne faults.new }
    ensures alone { All (IsFaultOr fault) faults.old → All (IsFaultOr fault) faults.new }
    ensures holds { OnOk result (Contains faults.new fault) }
    ensures early { EarlyOnlyIf (IsEarly fault) faults.old → EarlyOnlyIf (IsEarly fault) faults.new }
    ensures some { OnOk result (faults.new ≢ []) }
    ensures finds { OnOk result (ErrFinds E.meaning err.old err.new (faults.old ++ fault ∷ []) faults.new false) }
    ensures lacks { OnErr result (ErrFinds E.meaning err.old err.new (faults.old ++ fault ∷ []) faults.new true) }
    ensures told { E.meaning.tells err.new → E.meaning.tells err.old }
    ensures shown { ShowsFirst E.meaning fault text faults.old faults.new err.old err.new result }
{
    faults.push(fault)?;
    let text = text?;
    match print(err, text.as_str()) {
        Ok(()) => Ok(()),
        Err(_) => {
            faults.push(Top::OutFault)?;
            Ok(())
        }
    }
}

/// Writes the last lines of a run without a fault: what was up to date, and that it is done.
pub(crate) fn tell_done<O: Sink>(
    alloc: Global,
    graph: &Graph,
    words: &Words,
    requests: &[Request],
    started: &[RuleId],
    out: &mut O,
) -> Result<(), Stop>
    ensures late { IfErr result IsLateStop }
    ensures step { SinkStep (O.meaning.faults out.old) (O.meaning.faults out.new) result }
    ensures prints { PrintsUpTo O.meaning (requests_text words.now graph.now started.now requests.now ++ progress words.now done_text) out.old out.new result }
{
    tell_requests(alloc, graph, words, requests, started, out)?;
    say(out, words, done_text(alloc))
}

/// Writes what was up to date, of each request in order.
pub(crate) fn tell_requests<O: Sink>(
    alloc: Global,
    graph: &Graph,
    words: &Words,
    requests: &[Request],
    started: &[RuleId],
    out: &mut O,
) -> Result<(), Stop>
    ensures late { IfErr result IsLateStop }
    ensures step { SinkStep (O.meaning.faults out.old) (O.meaning.faults out.new) result }
    ensures prints { PrintsUpTo O.meaning (requests_text words.now graph.now started.now requests.now) out.old out.new result }
{
    let marks = marks_of(alloc, graph, started)?;
    for request in requests {
        tell_request(alloc, graph, words, request, marks.as_slice(), out)?;
    }
    Ok(())
}

/// Writes what was up to date of what was requested by one word.
fn tell_request<O: Sink>(
    alloc: Global,
    graph: &Graph,
    words: &Words,
    request: &Request,
    marks: &[bool],
    out: &mut O,
) -> Result<(), Stop>
    ensures late { IfErr result IsLateStop }
    ensures step { SinkStep (O.meaning.faults out.old) (O.meaning.faults out.new) result }
    ensures prints { RequestPrints O.meaning words.now graph.now request.now marks.now out.old out.new result }
{
    let word = request.word.as_str();
    if request.is_plain {
        return tell(out, words, nothing_text(alloc, word));
    }
    if has_marked(graph, marks, request.nodes.as_slice()) {
        return Ok(());
    }
    tell(out, words, up_to_date_text(alloc, word))
}

/// Which rules were started, by their numbers.
fn marks_of(alloc: Global, graph: &Graph, started: &[RuleId]) -> Result<Vec<bool>, Memory>
    ensures { IfOk result (λ marks. AreMarks graph.now started.now marks.items) }
{
    let mut marks = Vec::from_elem(alloc, false, graph.rules() as usize)?;
    for rule in started {
        mark(&mut marks, rule);
    }
    Ok(marks)
}

fn mark(marks: &mut Vec<bool>, rule: &RuleId)
    ensures { marks.new.items ≡ slice_set marks.old.items rule.now.0 true }
{
    if let Some(mark) = marks.get_mut(rule.0 as usize) {
        *mark = true;
    }
}

/// Whether the rule of one of these nodes was started.
fn has_marked(graph: &Graph, marks: &[bool], nodes: &[NodeId]) -> bool
    ensures { (started : List RuleId) → AreMarks graph.now started marks.now → result ≡ has_started graph.now started nodes.now }
{
    for node in nodes {
        if is_marked(graph, marks, *node) {
            return true;
        }
    }
    false
}

fn is_marked(graph: &Graph, marks: &[bool], node: NodeId) -> bool
    ensures { (started : List RuleId) → AreMarks graph.now started marks.now → result ≡ is_made_by started (rule_of graph.now.rules node.0) }
{
    match graph.rule_of(node) {
        Some(rule) => marks.get(rule.0 as usize) == Some(&true),
        None => false,
    }
}

/// Writes the last line of a run with faults.
pub(crate) fn tell_faulty<O: Sink>(
    alloc: Global,
    words: &Words,
    faults: &[BuildFault],
    out: &mut O,
) -> Result<(), Stop>
    ensures late { IfErr result IsLateStop }
    ensures step { SinkStep (O.meaning.faults out.old) (O.meaning.faults out.new) result }
    ensures prints { PrintsUpTo O.meaning (progress words.now (closing_text words.now faults.now)) out.old out.new result }
{
    if words.keep && all_go_on(faults) {
        say(out, words, done_with_errors_text(alloc))
    } else {
        say(out, words, terminated_text(alloc))
    }
}

fn all_go_on(faults: &[BuildFault]) -> bool
    ensures { result ≡ list_all goes_on faults.now }
{
    for fault in faults {
        if !goes_on(fault) {
            return false;
        }
    }
    true
}

/// Whether a build may go on after a fault.
fn goes_on(fault: &BuildFault) -> bool
    ensures { result ≡ goes_on fault.now }
{
    matches!(
        fault,
        BuildFault::ActionFailed { .. } | BuildFault::Missing { .. } | BuildFault::Cycle(_)
    )
}

/// The report of a build or a dry run, whose last line was written or not.
pub(crate) fn closed(
    alloc: Global,
    found: Listing<BuildFault>,
    skipped: Listing<(PathText, PathText)>,
    memory: bool,
    written: Result<(), Stop>,
    step: Step,
) -> Report
    ensures at { result.step ≡ step }
    ensures ends { AllFoundAt step found → AllComeAt step result.faults }
    ensures late { EarlyOnlyIf ⊥ result.faults }
    ensures status { HasStatus result.status result.faults }
    ensures well { result.status ≡ 0 → (found ≡ []) × (memory ≡ false) }
    ensures causes { Closes found memory written result }
    ensures whole { result.status ≢ 3 → memory ≡ false }
    ensures list { result.status ≢ 3 → ClosesWith found written result.faults }
    ensures only { AreFound found result.faults }
    ensures skipped { result.skipped ≡ skipped }
{
    let mut faults = Listing::empty(alloc);
    let lacks = add_all(&mut faults, found);
    let lost = add_unwritten(&mut faults, written);
    report(faults, skipped, was_wanting(memory, lacks, lost), step)
}

/// Whether memory was wanting for a build, for its faults or for the last one.
fn was_wanting(memory: bool, lacks: bool, lost: bool) -> bool
    ensures { result ≡ false → (memory ≡ false) × (lacks ≡ false) × (lost ≡ false) }
{
    memory || lacks || lost
}

/// Adds the faults of a build, and says whether memory was wanting.
fn add_all(faults: &mut Listing<Top>, found: Listing<BuildFault>) -> bool
    ensures late { EarlyOnlyIf ⊥ faults.old → EarlyOnlyIf ⊥ faults.new }
    ensures added { result ≡ false → faults.new ≡ faults.old ++ map top_of found }
    ensures each { All (Contains (faults.old ++ map top_of found)) faults.new }
    ensures few { AddsFew found faults.old faults.new }
{
    let mut lacks = false;
    for fault in found.into_vec() {
        let lost = add(faults, Top::from(fault));
        lacks = has_lost(lacks, lost);
    }
    lacks
}

/// Whether a fault was lost, the last or one before it.
fn has_lost(before: bool, last: bool) -> bool
    ensures { result ≡ false → (before ≡ false) × (last ≡ false) }
{
    before || last
}

/// Adds the fault that a last line wasn't written, and says whether memory was wanting.
fn add_unwritten(faults: &mut Listing<Top>, written: Result<(), Stop>) -> bool
    ensures late { EarlyOnlyIf ⊥ faults.old → EarlyOnlyIf ⊥ faults.new }
    ensures adds { AddsUnwritten written faults.old faults.new result }
{
    match written {
        Ok(()) => false,
        Err(stop) => add_stopped(faults, &stop),
    }
}

/// Adds the fault for which a last line wasn't written, and says whether memory was wanting.
fn add_stopped(faults: &mut Listing<Top>, stop: &Stop) -> bool
    ensures late { EarlyOnlyIf ⊥ faults.old → EarlyOnlyIf ⊥ faults.new }
    ensures adds { AddsStopped stop.now faults.old faults.new result }
{
    match stop {
        Stop::Memory => true,
        _ => add(faults, Top::OutFault),
    }
}

/// Adds a fault, and says whether memory was wanting.
fn add(faults: &mut Listing<Top>, fault: Top) -> bool
    requires { IsLate fault }
    ensures late { EarlyOnlyIf ⊥ faults.old → EarlyOnlyIf ⊥ faults.new }
    ensures added { result ≡ false → faults.new ≡ faults.old ++ fault ∷ [] }
    ensures lost { result ≡ true → faults.new ≡ faults.old }
{
    match faults.push(fault) {
        Ok(()) => false,
        Err(_) => true,
    }
}
