//! A dry run: what a build would start is listed.
ghost use Rattle.std.specs.Prelude.{◌≡◌, ◌++◌, ◌∷◌, [], true, false, IfOk, IfErr, slice_get, string_bytes};
ghost use Rattle.scons_top.specs.Alone.{GoesOn};
ghost use Rattle.scons_top.specs.Faults.{IsLateStop, EarlyOnlyIf};
ghost use Rattle.scons_top.specs.Foreign.{RunByBytes};
ghost use Rattle.sign_store.specs.Readings.{AreReadable, IsRefusal};
ghost use Rattle.world_api.specs.Statuses.{HasStatus};
ghost use Rattle.scons_report.specs.Causes.{HasListCause};
ghost use Rattle.scons_report.specs.Dry.{DryLists};
ghost use Rattle.sign_store.specs.Reached.{HasFaultCause};
ghost use Rattle.sign_store.specs.Stores.{map_of_view, ShowsMapOf};
ghost use Rattle.scons_top.specs.Endings.{ListEnds, AddsUnprinted};
ghost use Rattle.scons_top.specs.Printed.{FaultPrints, ServesPrinting};
ghost use Rattle.scons_top.specs.Sinks.{PrintsUpTo};
ghost use Rattle.scons_top.specs.RunLines.{line_by, list_text};
ghost use Rattle.scons_top.specs.Steps.{ComesAt, IsListingStep, RunEndsAt};
ghost use Rattle.scons_top.specs.Stops.{SinkReports, Reports, top_of};
ghost use Rattle.scons_top.specs.Told.{TellsOrStops};
ghost use Rattle.scons_top.specs.Watching.{Watches};

use crate::build_step::nodes_of;
use crate::ending::{closed, good, tell_done, tell_faulty};
use crate::printed::{say, tell};
use crate::report::Report;
use crate::requests::Request;
use crate::step::Step;
use crate::stop::Stop;
use rule_graph::{BuildFault, Graph};
use scons_base::{Listing, Memory, NodeId, RuleId};
use scons_report::{ListEnd, building_text, dry_list, fault_text, rule_text};
use scons_words::Words;
use sign_store::{Store, StoreRefusal, View};
use std::alloc::Global;
use world_api::{Fault, Hash, Sink, World, print};

/// Reads the store, and lists what would be started.
#[tactic(auto, using(crate::proofs::Watching::standing))]
pub(crate) fn list_requests<W: World, O: Sink, E: Sink>(
    alloc: Global,
    graph: &mut Graph,
    words: &Words,
    requests: &[Request],
    world: &mut W,
    out: &mut O,
    err: &mut E,
    at: &mut Step,
) -> Result<Report, Stop>
    requires idle { W.meaning.tells world.old → (W.meaning.around world.old).running ≡ [] }
    ensures listing { IsListingStep at.new }
    ensures ends { RunEndsAt at.new result }
    ensures bytes { RunByBytes W.meaning at.new world.old world.new result }
    ensures watches { Watches W.meaning world.old world.new }
    ensures reports { Reports W.meaning O.meaning E.meaning world.old out.old err.old world.new out.new err.new result }
    ensures prints { ServesPrinting W.meaning O.meaning words.now at.new graph.old requests.now world.old out.old world.new out.new result }
    ensures tells { TellsOrStops E.meaning err.old err.new result }
    ensures faults { IfOk result (λ report. EarlyOnlyIf ⊥ report.faults) }
    ensures status { IfOk result (λ report. HasStatus report.status report.faults) }
{
    *at = Step::Store;
    let nodes = nodes_of(alloc, requests)?;
    let view = view_of(alloc, world)?;
    *at = Step::Listing;
    say(out, words, building_text(alloc))?;
    match list_of(alloc, graph, nodes.as_slice(), &view, words.hash, world) {
        Ok(rules) => tell_rules(alloc, graph, words, requests, rules.as_slice(), out),
        Err(ListEnd::Memory) => Err(Stop::Memory),
        Err(ListEnd::Fault(fault)) => end_with(alloc, words, fault, out, err, Step::Listing),
    }
}

/// What the store holds.
#[tactic(auto, using(crate::proofs::Causing::causing))]
pub(crate) fn view_of<W: World>(alloc: Global, world: &mut W) -> Result<View, StoreRefusal>
    ensures readable { W.meaning.tells world.new → IfOk result (λ view. AreReadable (W.meaning.seen world.old)) }
    ensures map { W.meaning.tells world.new → IfOk result (ShowsMapOf (W.meaning.seen world.old)) }
    ensures refused { W.meaning.tells world.new → IfErr result (IsRefusal (W.meaning.seen world.old)) }
    ensures watches { Watches W.meaning world.old world.new }
    ensures cause { HasFaultCause W.meaning world.old world.new result }
{
    Store::read(alloc, world)
}

/// The rules that would be started.
#[tactic(auto, using(crate::proofs::Causing::causing))]
fn list_of<W: World>(
    alloc: Global,
    graph: &mut Graph,
    nodes: &[NodeId],
    view: &View,
    hash: Hash,
    world: &mut W,
) -> Result<Listing<RuleId>, ListEnd>
    ensures watches { Watches W.meaning world.old world.new }
    ensures cause { HasListCause (W.meaning.counts world.old) (W.meaning.counts world.new) result }
    ensures lists { DryLists W.meaning graph.old graph.new hash (map_of_view view.now) nodes.now world.old world.new result }
{
    dry_list(alloc, graph, nodes, view, hash, world)
}

/// Writes the lines of these rules, and those of the end.
fn tell_rules<O: Sink>(
    alloc: Global,
    graph: &Graph,
    words: &Words,
    requests: &[Request],
    rules: &[RuleId],
    out: &mut O,
) -> Result<Report, Stop>
    ensures ends { RunEndsAt Step.Listing result }
    ensures reports { SinkReports O.meaning out.old out.new result }
    ensures prints { PrintsUpTo O.meaning (list_text words.now graph.now requests.now rules.now) out.old out.new result }
    ensures faults { IfOk result (λ report. report.faults ≡ []) }
    ensures status { IfOk result (λ report. HasStatus report.status report.faults) }
{
    for rule in rules {
        tell(out, words, lines_of(alloc, graph, *rule))?;
    }
    tell_done(alloc, graph, words, requests, rules, out)?;
    Ok(good(alloc, Step::Listing))
}

/// The lines of a rule. A list names rules of its graph alone; of another there are none.
fn lines_of(alloc: Global, graph: &Graph, rule: RuleId) -> Result<String, Memory>
    ensures { IfOk result (λ text. string_bytes text ≡ line_by graph.now (slice_get graph.now.rules rule.0)) }
{
    if rule.0 < graph.rules() {
        rule_text(alloc, graph, rule)
    } else {
        Ok(String::new(alloc))
    }
}

/// Prints the fault that ended the list, and the last line of output.
pub(crate) fn end_with<O: Sink, E: Sink>(
    alloc: Global,
    words: &Words,
    fault: BuildFault,
    out: &mut O,
    err: &mut E,
    step: Step,
) -> Result<Report, Stop>
    ensures ends { ComesAt step (top_of fault) → GoesOn step → RunEndsAt step result }
    ensures late { IfErr result IsLateStop }
    ensures faults { IfOk result (λ report. EarlyOnlyIf ⊥ report.faults) }
    ensures status { IfOk result (λ report. HasStatus report.status report.faults) }
    ensures reports { ListEnds O.meaning E.meaning fault out.old err.old out.new err.new result }
    ensures prints { FaultPrints O.meaning words.now fault out.old out.new result }
    ensures tells { TellsOrStops E.meaning err.old err.new result }
{
    let text = fault_text(alloc, &fault)?;
    let mut faults = Listing::empty(alloc);
    faults.push(fault)?;
    let printed = print(err, text.as_str());
    let written = tell_faulty(alloc, words, faults.as_slice(), out);
    let lost = add_unprinted(&mut faults, printed);
    Ok(closed(alloc, faults, Listing::empty(alloc), lost, written, step))
}

/// Adds the fault that a text wasn't printed, and says whether memory was wanting.
fn add_unprinted(faults: &mut Listing<BuildFault>, printed: Result<(), Fault>) -> bool
    ensures { AddsUnprinted printed faults.old faults.new result }
{
    match printed {
        Ok(()) => false,
        Err(_) => add_out(faults),
    }
}

/// Adds the fault that a sink refused, and says whether memory was wanting.
fn add_out(faults: &mut Listing<BuildFault>) -> bool
    ensures added { result ≡ false → faults.new ≡ faults.old ++ BuildFault.OutFault ∷ [] }
    ensures lost { result ≡ true → faults.new ≡ faults.old }
{
    match faults.push(BuildFault::OutFault) {
        Ok(()) => false,
        Err(_) => true,
    }
}
