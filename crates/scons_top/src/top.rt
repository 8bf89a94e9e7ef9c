//! The steps of a run.
ghost use Rattle.std.specs.Prelude.{◌≡◌, ◌≢◌, [], ℕ, Ok, Err, IfOk, IfErr, Contains, IsSome, IsTrue};
ghost use Rattle.build_run.specs.Goings.{Passes};
ghost use Rattle.scons_top.specs.Alone.{EndsAtOne};
ghost use Rattle.scons_top.specs.Asked.{StopsUnknown, TellUnknown};
ghost use Rattle.scons_top.specs.Builds.{Builds, RemembersAt, RunBuilds};
ghost use Rattle.scons_top.specs.Causes.{RunCauses};
ghost use Rattle.scons_top.specs.Cleaned.{Cleans, RunCleans};
ghost use Rattle.scons_top.specs.Accepted.{AcceptedCompletes};
ghost use Rattle.scons_top.specs.Scripted.{DoesAt, ReportFollows, RunFollows, WordsFollow};
ghost use Rattle.scons_top.specs.Finding.{RunTellsWords, TellsWordsOf};
ghost use Rattle.scons_top.specs.Foreign.{OpensByBytes, RunByBytes, TellsBytes};
ghost use Rattle.report_texts.specs.Texts.{help_text};
ghost use Rattle.scons_top.specs.Printed.{ReportPrints, RunPrints, ServesPrinting, WordsPrint};
ghost use Rattle.scons_top.specs.Sinks.{PrintsUpTo};
ghost use Rattle.scons_top.specs.Requested.{AskForNodes, nodes_asked};
ghost use Rattle.scons_top.specs.Steps.{AllComeAt, ComesTo, IsRefused, LeavesAt, RefusesWords, RunEndsAt, RunsTo, ServesAt, TellsUsage};
ghost use Rattle.scons_top.specs.Stopping.{RunsSafely};
ghost use Rattle.scons_top.specs.Stops.{Reports, SinkReports};
ghost use Rattle.scons_top.specs.Faults.{IsEarly, IsEarlyStop, EarlyOnlyIf};
ghost use Rattle.world_api.specs.Statuses.{HasStatus};
ghost use Rattle.scons_top.specs.declared.report.Top.{Top};
ghost use Rattle.world_api.specs.Looks.{Looks};
ghost use Rattle.scons_top.specs.Told.{TellsFaults, TellsOrStops};
ghost use Rattle.scons_words.specs.Readings.{read};
ghost use Rattle.scons_words.specs.declared.words.Words.{Words};
ghost use Rattle.scons_words.specs.declared.fault.UsageKind.{UsageKind};
ghost use Rattle.scons_words.specs.declared.fault.WordsFault.{WordsFault};
ghost use Rattle.scons_words.specs.declared.fault.WordsFault.TheVariants.{At};
ghost use Rattle.world_api.specs.Causes.{Later};
ghost use Rattle.world_api.specs.Meaning.{Told};

use crate::build_step::build_requests;
use crate::clean_step::clean_requests;
use crate::dry_step::list_requests;
use crate::ending::{ended, show};
use crate::load_step::load;
use crate::reading::read;
use crate::report::Report;
use crate::requests::{Request, requests_of};
use crate::step::Step;
use crate::stop::Stop;
use rule_graph::Graph;
use scons_base::Text;
use scons_report::help_text;
use scons_words::{Words, read_words};
use std::alloc::Global;
use world_api::{Sink, World};

/// The command: takes its words, reads the scripts, and cleans, lists or builds what is requested. A run whose words or
/// scripts are at fault, or that is asked for what there isn't, leaves the world as it was; and so do `-n` and `-h`. The report says
/// at which step the run ended.
pub fn scons<W: World, O: Sink, E: Sink>(
    alloc: Global,
    words: &[Text],
    world: &mut W,
    out: &mut O,
    err: &mut E,
) -> Report
    requires unclosed { W.meaning.closed world.old ≡ [] }
    requires idle { W.meaning.tells world.old → (W.meaning.around world.old).running ≡ [] }
    ensures told { Told W.meaning world.old world.new }
    ensures later { Later (W.meaning.counts world.old) (W.meaning.counts world.new) }
    ensures comes { (said : Words) → read words.now ≡ Ok said → ComesTo said result.step }
    ensures leaves { LeavesAt W.meaning result.step world.old world.new }
    ensures faults { AllComeAt result.step result.faults }
    ensures alone { EndsAtOne result.step result.faults }
    ensures bytes { W.meaning.tells world.new → TellsBytes (W.meaning.seen world.old) result.step result.faults }
    ensures opens { W.meaning.tells world.new → OpensByBytes (W.meaning.seen world.old) result }
    ensures refused { (why : WordsFault) → read words.now ≡ Err why → RefusesWords why world.old world.new out.old out.new result }
    ensures usage { (place : ℕ) (kind : UsageKind) → Contains result.faults (Top.Usage place kind) → read words.now ≡ Err (At place kind) }
    ensures unknown { (said : Words) → read words.now ≡ Ok said → TellUnknown said result.faults }
    ensures asks { (said : Words) → read words.now ≡ Ok said → TellsWordsOf W.meaning said world.old world.new result }
    ensures load { (said : Words) → read words.now ≡ Ok said → IsSome said.load → world.new ≡ world.old }
    ensures cleans { (said : Words) → read words.now ≡ Ok said → Cleans W.meaning said world.old world.new result }
    ensures idle { W.meaning.tells world.new → (W.meaning.around world.new).running ≡ [] }
    ensures dry { (said : Words) → read words.now ≡ Ok said → IsTrue said.dry → Looks W.meaning world.old world.new }
    ensures help { (said : Words) → read words.now ≡ Ok said → IsTrue said.help → Looks W.meaning world.old world.new }
    ensures unchanged { (fault : Top) → Contains result.faults fault → IsEarly fault → Looks W.meaning world.old world.new }
    ensures builds { (said : Words) → read words.now ≡ Ok said → Builds W.meaning said world.old world.new result }
    ensures safe { RunsSafely W.meaning world.old world.new }
    ensures remembers { (said : Words) → read words.now ≡ Ok said → RemembersAt W.meaning said result.step world.old world.new result }
    ensures status { HasStatus result.status result.faults }
    ensures causes { RunCauses W.meaning O.meaning E.meaning world.old out.old err.old world.new out.new err.new result }
    ensures completes { AcceptedCompletes W.meaning O.meaning E.meaning words.now world.old out.old err.old world.new out.new err.new result }
    ensures prints { ReportPrints W.meaning O.meaning words.now world.old out.old world.new out.new result }
    ensures follows { ReportFollows W.meaning O.meaning words.now world.old out.old world.new out.new result }
    ensures tells { TellsFaults E.meaning err.old err.new result }
{
    let mut at = Step::Words;
    match take_words(alloc, words, world, out, err, &mut at) {
        Ok(report) => report,
        Err(stop) => ended(alloc, stop, at, err),
    }
}

#[tactic(auto, using(crate::proofs::Watching::standing))]
fn take_words<W: World, O: Sink, E: Sink>(
    alloc: Global,
    words: &[Text],
    world: &mut W,
    out: &mut O,
    err: &mut E,
    at: &mut Step,
) -> Result<Report, Stop>
    requires unclosed { W.meaning.closed world.old ≡ [] }
    requires idle { W.meaning.tells world.old → (W.meaning.around world.old).running ≡ [] }
    ensures comes { (said : Words) → read words.now ≡ Ok said → ComesTo said at.new }
    ensures leaves { LeavesAt W.meaning at.new world.old world.new }
    ensures ends { RunEndsAt at.new result }
    ensures bytes { RunByBytes W.meaning at.new world.old world.new result }
    ensures refused { (why : WordsFault) → read words.now ≡ Err why → IsRefused why at.new world.old world.new out.old out.new result }
    ensures usage { IfErr result (TellsUsage (read words.now)) }
    ensures unknown { (said : Words) → read words.now ≡ Ok said → IfErr result (StopsUnknown said) }
    ensures asks { (said : Words) → read words.now ≡ Ok said → RunTellsWords W.meaning said at.new world.old world.new result }
    ensures past { IfOk result (λ report. at.new ≢ Step.Words) }
    ensures load { (said : Words) → read words.now ≡ Ok said → IsSome said.load → world.new ≡ world.old }
    ensures cleans { (said : Words) → read words.now ≡ Ok said → RunCleans W.meaning said at.new world.old world.new result }
    ensures passes { Passes W.meaning world.old world.new }
    ensures reports { Reports W.meaning O.meaning E.meaning world.old out.old err.old world.new out.new err.new result }
    ensures prints { WordsPrint W.meaning O.meaning words.now at.new world.old out.old world.new out.new result }
    ensures follows { WordsFollow W.meaning O.meaning words.now at.new world.old out.old world.new out.new result }
    ensures tells { TellsOrStops E.meaning err.old err.new result }
    ensures idle { W.meaning.tells world.new → (W.meaning.around world.new).running ≡ [] }
    ensures dry { (said : Words) → read words.now ≡ Ok said → IsTrue said.dry → Looks W.meaning world.old world.new }
    ensures help { (said : Words) → read words.now ≡ Ok said → IsTrue said.help → Looks W.meaning world.old world.new }
    ensures builds { (said : Words) → read words.now ≡ Ok said → RunBuilds W.meaning said world.old world.new result }
    ensures safe { RunsSafely W.meaning world.old world.new }
    ensures early { IfErr result (λ stop. IsEarlyStop stop → Looks W.meaning world.old world.new) }
    ensures late { IfOk result (λ report. EarlyOnlyIf ⊥ report.faults) }
    ensures status { IfOk result (λ report. HasStatus report.status report.faults) }
{
    *at = Step::Words;
    let words = read_words(alloc, words)?;
    match words.load {
        Some(rules) => {
            *at = Step::Load;
            load(alloc, &words, rules, out)
        }
        None => run(alloc, &words, world, out, err, at),
    }
}

/// What these words ask for.
pub(crate) fn run<W: World, O: Sink, E: Sink>(
    alloc: Global,
    words: &Words,
    world: &mut W,
    out: &mut O,
    err: &mut E,
    at: &mut Step,
) -> Result<Report, Stop>
    requires unclosed { W.meaning.closed world.old ≡ [] }
    requires idle { W.meaning.tells world.old → (W.meaning.around world.old).running ≡ [] }
    ensures comes { RunsTo words.now at.new }
    ensures leaves { LeavesAt W.meaning at.new world.old world.new }
    ensures ends { RunEndsAt at.new result }
    ensures bytes { RunByBytes W.meaning at.new world.old world.new result }
    ensures unknown { IfErr result (StopsUnknown words.now) }
    ensures asks { RunTellsWords W.meaning words.now at.new world.old world.new result }
    ensures cleans { RunCleans W.meaning words.now at.new world.old world.new result }
    ensures passes { Passes W.meaning world.old world.new }
    ensures reports { Reports W.meaning O.meaning E.meaning world.old out.old err.old world.new out.new err.new result }
    ensures prints { RunPrints W.meaning O.meaning words.now at.new world.old out.old world.new out.new result }
    ensures follows { RunFollows W.meaning O.meaning words.now at.new world.old out.old world.new out.new result }
    ensures tells { TellsOrStops E.meaning err.old err.new result }
    ensures idle { W.meaning.tells world.new → (W.meaning.around world.new).running ≡ [] }
    ensures dry { IsTrue words.now.dry → Looks W.meaning world.old world.new }
    ensures help { IsTrue words.now.help → Looks W.meaning world.old world.new }
    ensures builds { RunBuilds W.meaning words.now world.old world.new result }
    ensures safe { RunsSafely W.meaning world.old world.new }
    ensures early { IfErr result (λ stop. IsEarlyStop stop → Looks W.meaning world.old world.new) }
    ensures late { IfOk result (λ report. EarlyOnlyIf ⊥ report.faults) }
    ensures status { IfOk result (λ report. HasStatus report.status report.faults) }
{
    let mut graph = read(alloc, world, out, words, at)?;
    if words.help {
        *at = Step::Help;
        return help(alloc, &graph, out);
    }
    *at = Step::Requests;
    let requests = requests_of(alloc, world, &mut graph, words)?;
    serve(
        alloc,
        &mut graph,
        words,
        requests.as_slice(),
        world,
        out,
        err,
        at,
    )
}

/// Writes the help texts of the scripts.
fn help<O: Sink>(alloc: Global, graph: &Graph, out: &mut O) -> Result<Report, Stop>
    ensures ends { RunEndsAt Step.Help result }
    ensures reports { SinkReports O.meaning out.old out.new result }
    ensures prints { PrintsUpTo O.meaning (help_text graph.now.helps) out.old out.new result }
    ensures faults { IfOk result (λ report. report.faults ≡ []) }
    ensures status { IfOk result (λ report. HasStatus report.status report.faults) }
{
    show(alloc, out, help_text(alloc, graph), Step::Help)
}

/// Cleans, lists or builds what is requested.
fn serve<W: World, O: Sink, E: Sink>(
    alloc: Global,
    graph: &mut Graph,
    words: &Words,
    requests: &[Request],
    world: &mut W,
    out: &mut O,
    err: &mut E,
    at: &mut Step,
) -> Result<Report, Stop>
    requires unclosed { W.meaning.closed world.old ≡ [] }
    requires idle { W.meaning.tells world.old → (W.meaning.around world.old).running ≡ [] }
    requires nodes { AskForNodes graph.old requests.now }
    ensures serves { ServesAt words.now at.new }
    ensures leaves { LeavesAt W.meaning at.new world.old world.new }
    ensures ends { RunEndsAt at.new result }
    ensures bytes { RunByBytes W.meaning at.new world.old world.new result }
    ensures cleans { AskForNodes graph.old requests.now → RunCleans W.meaning words.now at.new world.old world.new result }
    ensures of { AskForNodes graph.old requests.now → DoesAt W.meaning words.now at.new graph.old (nodes_asked requests.now) world.old world.new result }
    ensures passes { Passes W.meaning world.old world.new }
    ensures reports { Reports W.meaning O.meaning E.meaning world.old out.old err.old world.new out.new err.new result }
    ensures prints { ServesPrinting W.meaning O.meaning words.now at.new graph.old requests.now world.old out.old world.new out.new result }
    ensures tells { TellsOrStops E.meaning err.old err.new result }
    ensures idle { W.meaning.tells world.new → (W.meaning.around world.new).running ≡ [] }
    ensures dry { IsTrue words.now.dry → Looks W.meaning world.old world.new }
    ensures builds { AskForNodes graph.old requests.now → RunBuilds W.meaning words.now world.old world.new result }
    ensures safe { AskForNodes graph.old requests.now → RunsSafely W.meaning world.old world.new }
    ensures early { IfErr result (λ stop. IsEarlyStop stop → Looks W.meaning world.old world.new) }
    ensures late { IfOk result (λ report. EarlyOnlyIf ⊥ report.faults) }
    ensures status { IfOk result (λ report. HasStatus report.status report.faults) }
{
    if words.clean {
        *at = Step::Cleaning;
        return clean_requests(alloc, graph, words, requests, world, out);
    }
    if words.dry {
        return list_requests(alloc, graph, words, requests, world, out, err, at);
    }
    build_requests(alloc, graph, words, requests, world, out, err, at)
}
