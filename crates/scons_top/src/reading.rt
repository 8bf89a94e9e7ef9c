//! The reading of the scripts.
ghost use Rattle.std.specs.Prelude.{IfErr};
ghost use Rattle.scons_host.specs.Causes.{ReadingCauses};
ghost use Rattle.scons_host.specs.Prints.{Prints};
ghost use Rattle.scons_reading.specs.Coming.{HasOutcome, Over};
ghost use Rattle.scons_reading.specs.Reads.{Reads};
ghost use Rattle.scons_top.specs.Scripted.{ReadsScripts};
ghost use Rattle.scons_top.specs.Printed.{ReadPrints};
ghost use Rattle.scons_top.specs.Steps.{IsReadingStep, StopsAt};
ghost use Rattle.scons_top.specs.Stops.{IsTopStop, OutSteps, WorldStep};
ghost use Rattle.scons_top.specs.Watching.{Watches};

use crate::printed::say;
use crate::step::Step;
use crate::stop::Stop;
use rule_graph::{BuildFault, Graph};
use scons_base::PathText;
use scons_host::HostEnd;
use scons_reading::read_scripts;
use scons_report::{read_text, reading_text};
use scons_words::Words;
use std::alloc::Global;
use world_api::{AskRefusal, Sink, World};

/// Reads the scripts, and says so before and after.
pub(crate) fn read<W: World, O: Sink>(
    alloc: Global,
    world: &mut W,
    out: &mut O,
    words: &Words,
    at: &mut Step,
) -> Result<Graph, Stop>
    ensures reading { IsReadingStep at.new }
    ensures stops { IfErr result (StopsAt at.new) }
    ensures watches { Watches W.meaning world.old world.new }
    ensures steps { OutSteps W.meaning O.meaning world.old out.old world.new out.new result }
    ensures prints { ReadPrints O.meaning words.now at.new out.old out.new result }
    ensures reads { ReadsScripts W.meaning O.meaning words.now world.old out.old world.new out.new result }
{
    *at = Step::Top;
    ask_for_top(alloc, world)?;
    *at = Step::Reading;
    say(out, words, reading_text(alloc))?;
    let graph = graph_of(alloc, world, out, words)?;
    say(out, words, read_text(alloc))?;
    Ok(graph)
}

/// What the scripts declare.
#[tactic(auto, using(crate::proofs::Causing::causing))]
fn graph_of<W: World, O: Sink>(
    alloc: Global,
    world: &mut W,
    out: &mut O,
    words: &Words,
) -> Result<Graph, HostEnd>
    ensures watches { Watches W.meaning world.old world.new }
    ensures causes { ReadingCauses W.meaning O.meaning world.old out.old world.new out.new result }
    ensures prints { Prints O.meaning out.old out.new }
    ensures reads { Over W.meaning O.meaning world.old out.old world.new out.new (λ f text.
        HasOutcome (Reads f words.now) text result) }
{
    read_scripts(alloc, world, out, words)
}

/// Sees that the top directory can be named.
#[tactic(auto, using(crate::proofs::Causing::causing))]
fn ask_for_top<W: World>(alloc: Global, world: &mut W) -> Result<(), Stop>
    ensures stops { IfErr result (StopsAt Step.Top) }
    ensures watches { Watches W.meaning world.old world.new }
    ensures step { WorldStep (W.meaning.counts world.old) (W.meaning.counts world.new) result }
{
    match world.top_path() {
        Ok(_) => Ok(()),
        Err(AskRefusal::Memory) => Err(Stop::Memory),
        Err(AskRefusal::Fault) => Err(no_top(alloc)),
    }
}

/// The fault that the top directory can't be named.
fn no_top(alloc: Global) -> Stop
    ensures stops { StopsAt Step.Top result }
    ensures top { IsTopStop result }
{
    match PathText::read(alloc, ".") {
        Ok(top) => Stop::Build(BuildFault::TreeFault(top)),
        Err(_) => Stop::Memory,
    }
}
