//! Building the target of the rule.
ghost use Rattle.std.specs.Prelude.{◌≡◌, ◌≢◌, [], None, IfOk, IfErr, OnOk, OnErr, string_bytes};
ghost use Rattle.world_api.specs.Meaning.{Told};
ghost use Rattle.one_rule.specs.Building.{Idles, Unchanged, LeavesBy, Leaves, job_of};
ghost use Rattle.one_rule.specs.Course.{announced_text};
ghost use Rattle.world_api.specs.Printing.{Prints, Cuts};
ghost use Rattle.one_rule.specs.Ends.{BuildCause, BuildGives, BuildMakesIn, BuildPrints};
ghost use Rattle.one_rule.specs.BuildSteps.{StepGives, StepCause, IsNoPrintStop, IsFailStop, LinePrints, source_result, unread_stop, unstarted_stop, ended_result};

use crate::report::Top;
use crate::rule::Rule;
use crate::stops::BuildStop;
use crate::texts::{building_text, line_text, read_text};
use scons_base::limits::FILE_LIMIT;
use scons_base::{Listing, Memory, Paths, Texts};
use std::alloc::Global;
use world_api::{
    AskRefusal, Content, Fault, Job, Line, Outcome, ReadRefusal, Sink, Work, World, print,
};

/// Builds the target of the rule: looks for its source, removes the target, prints the line, and runs it.
pub fn build<W: World, O: Sink>(
    alloc: Global,
    world: &mut W,
    out: &mut O,
    rule: Rule,
) -> Result<(), BuildStop>
    requires idle { W.meaning.tells world.old → (W.meaning.around world.old).running ≡ [] }
    requires reachable { W.meaning.closed world.old ≡ [] }
    requires others { rule.source ≢ rule.target }
    ensures told { Told W.meaning world.old world.new }
    ensures leaves { W.meaning.tells world.new → LeavesBy rule (W.meaning.counts world.old) (W.meaning.around world.old) (W.meaning.around world.new) }
    ensures gives { W.meaning.tells world.new → BuildGives (W.meaning.around world.old).tree rule result }
    ensures makes { W.meaning.tells world.new → BuildMakesIn W.meaning rule world.old world.new result }
    ensures cause { BuildCause result (W.meaning.counts world.old) (W.meaning.counts world.new) }
    ensures printed { BuildPrints O.meaning rule out.old out.new result }
{
    announce(out)?;
    let rule = find_source(world, rule)?;
    let rule = remove_target(world, rule)?;
    print_line(alloc, out, &rule)?;
    make(alloc, world, rule)
}

/// Prints that reading is done and building begins.
fn announce<O: Sink>(out: &mut O) -> Result<(), Fault>
    ensures ok { OnOk result (Prints O.meaning out.old out.new announced_text) }
    ensures err { OnErr result (Cuts O.meaning out.old out.new announced_text) }
{
    print(out, read_text())?;
    print(out, building_text())?;
    Ok(())
}

/// Looks whether the source is a file that isn't too large.
fn find_source<W: World>(world: &mut W, rule: Rule) -> Result<Rule, BuildStop>
    requires { W.meaning.tells world.old → (W.meaning.around world.old).running ≡ [] }
    ensures told { Told W.meaning world.old world.new }
    ensures unchanged { W.meaning.tells world.new → Unchanged (W.meaning.around world.old) (W.meaning.around world.new) }
    ensures gives { W.meaning.tells world.new → StepGives (W.meaning.around world.old).tree rule result }
    ensures same { IfOk result (λ same. same ≡ rule) }
    ensures cause { StepCause result (W.meaning.counts world.old) (W.meaning.counts world.new) }
    ensures unprinted { IfErr result IsNoPrintStop }
{
    match world.read_file(&rule.source, FILE_LIMIT) {
        Ok(content) => with_source(rule, content),
        Err(refusal) => Err(unread(rule, refusal)),
    }
}

fn with_source(rule: Rule, content: Content) -> Result<Rule, BuildStop>
    ensures { result ≡ source_result rule content }
{
    match content {
        None => Err(BuildStop::Stopped(Top::Missing {
            node: rule.source,
            target: rule.target,
        })),
        Some(_) => Ok(rule),
    }
}

fn unread(rule: Rule, refusal: ReadRefusal) -> BuildStop
    ensures { result ≡ unread_stop rule refusal }
{
    match refusal {
        ReadRefusal::Fault => BuildStop::Stopped(Top::TreeFault(rule.source)),
        ReadRefusal::TooLarge(size) => BuildStop::Stopped(Top::TooLarge(rule.source, size)),
        ReadRefusal::Memory => BuildStop::NoMemory,
    }
}

/// Removes the target, so that the action finds no file that it didn't make.
fn remove_target<W: World>(world: &mut W, rule: Rule) -> Result<Rule, BuildStop>
    requires { W.meaning.tells world.old → (W.meaning.around world.old).running ≡ [] }
    ensures told { Told W.meaning world.old world.new }
    ensures idles { W.meaning.tells world.new → Idles rule (W.meaning.around world.old) (W.meaning.around world.new) }
    ensures gone { W.meaning.tells world.new → OnOk result ((W.meaning.around world.new).tree rule.target ≡ None) }
    ensures same { IfOk result (λ same. same ≡ rule) }
    ensures cause { StepCause result (W.meaning.counts world.old) (W.meaning.counts world.new) }
    ensures stop { IfErr result (λ stop. stop ≡ BuildStop.Stopped (Top.TreeFault rule.target)) }
{
    match world.remove(&rule.target) {
        Ok(()) => Ok(rule),
        Err(_) => Err(BuildStop::Stopped(Top::TreeFault(rule.target))),
    }
}

/// Prints the line of the rule.
fn print_line<O: Sink>(alloc: Global, out: &mut O, rule: &Rule) -> Result<(), BuildStop>
    ensures { LinePrints O.meaning rule.now out.old out.new result }
{
    let text = line_text(alloc, &rule.line)?;
    print(out, text.as_str())?;
    Ok(())
}

/// Runs the line of the rule.
fn make<W: World>(alloc: Global, world: &mut W, rule: Rule) -> Result<(), BuildStop>
    requires idle { W.meaning.tells world.old → (W.meaning.around world.old).running ≡ [] }
    requires clear { W.meaning.tells world.old → (W.meaning.around world.old).tree rule.target ≡ None }
    requires reachable { W.meaning.closed world.old ≡ [] }
    ensures told { Told W.meaning world.old world.new }
    ensures leaves { W.meaning.tells world.new → Leaves rule (W.meaning.counts world.old) (W.meaning.around world.old) (W.meaning.around world.new) }
    ensures makes { W.meaning.tells world.new → BuildMakesIn W.meaning rule world.old world.new result }
    ensures cause { BuildCause result (W.meaning.counts world.old) (W.meaning.counts world.new) }
    ensures stop { IfErr result (IsFailStop rule) }
{
    let job = job_for(alloc, &rule)?;
    match world.start(job) {
        Ok(()) => {}
        Err(refusal) => return Err(unstarted(rule, refusal)),
    }
    ended(rule, world.wait().outcome)
}

fn unstarted(rule: Rule, refusal: AskRefusal) -> BuildStop
    ensures { result ≡ unstarted_stop rule refusal }
{
    match refusal {
        AskRefusal::Fault => BuildStop::Failed(Top::StartFault(rule.target)),
        AskRefusal::Memory => BuildStop::NoMemory,
    }
}

fn ended(rule: Rule, outcome: Outcome) -> Result<(), BuildStop>
    ensures { result ≡ ended_result rule outcome }
{
    match outcome {
        Outcome::Done => Ok(()),
        Outcome::Failed(code) => Err(BuildStop::Failed(Top::ActionFailed {
            target: rule.target,
            code,
        })),
        Outcome::Broken => Err(BuildStop::Failed(Top::StartFault(rule.target))),
        Outcome::NoMemory => Err(BuildStop::NoMemory),
    }
}

/// The job that makes the target of the source.
fn job_for(alloc: Global, rule: &Rule) -> Result<Job, Memory>
    ensures { IfOk result (λ job. job ≡ job_of rule.now) }
{
    let line = Line {
        text: rule.line.copy()?,
        quiet: false,
        ignore: false,
    };
    Ok(Job {
        id: 0,
        work: Work::Shell,
        targets: Paths::new(vec![in alloc; rule.target.copy()?]?),
        lines: Listing::new(vec![in alloc; line]?),
        signed: Texts::new(vec![in alloc; rule.line.copy()?]?),
        deps: Paths::new(vec![in alloc; rule.source.copy()?]?),
    })
}
