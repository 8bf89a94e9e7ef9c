//! After all scripts: the declared rules go into the graph, and the world is asked which libraries are files.
ghost use Rattle.std.specs.Prelude.{◌≡◌, ◌<◌, ◌++◌, ◌∷◌, [], Ok, Err, IfOk, IfErr, OnOk, length, map};
ghost use Rattle.rule_graph.specs.Graphs.{empty_graph};
ghost use Rattle.scons_decls.specs.State.{declared_of};
ghost use Rattle.scons_host.specs.Causes.{HasLookCause, IsInside};
ghost use Rattle.scons_host.specs.Shown.{Shown, IsTold};
ghost use Rattle.scons_reading.specs.Graphs as spec;
ghost use Rattle.scons_reading.specs.Firsts.{is_file};
ghost use Rattle.std.specs.List.{find};
ghost use Rattle.scons_rules.specs.Libraries.{found_in, or_known};
ghost use Rattle.scons_rules.specs.PathGraphs.{graph_by};
ghost use Rattle.world_api.specs.Looks.{LooksAtFiles};
ghost use Rattle.world_api.specs.Counts.{Counts};

use crate::faults::{rule_stop, told};
use crate::wanting::wanted;
use rule_graph::Graph;
use scons_base::{Memory, PathText, Paths};
use scons_decls::Declarations;
use scons_host::{Stop, kind_of};
use scons_rules::{AskedFile, RuleLocals, RuleReading, Wanted};
use std::alloc::Global;
use world_api::{Kind, World};

/// The graph of what was declared. `scripts` are the scripts by their numbers.
#[tactic(auto, using(scons_host::specs::Looking::looking))]
pub fn graph_of<W: World>(
    alloc: Global,
    world: &mut W,
    declared: Declarations,
    scripts: &Paths,
) -> Result<Graph, Stop>
    ensures looks { LooksAtFiles W.meaning world.old world.new }
    ensures cause { HasLookCause (W.meaning.counts world.old) (W.meaning.counts world.new) result }
    ensures ok { Shown W.meaning world.old world.new (λ f. IfOk result (λ g.
        spec.Graphs f (declared_of declared) scripts.now (Ok (graph_by g)))) }
    ensures fault { Shown W.meaning world.old world.new (λ f. IfErr result (λ s. IsTold s →
        spec.Graphs f (declared_of declared) scripts.now (Err s))) }
{
    let mut reading = RuleReading::new(alloc, declared)?;
    let added = add_all(alloc, world, &mut reading, scripts);
    finished(reading, scripts, added)
}

/// The graph, where all rules were added.
fn finished(reading: RuleReading, scripts: &Paths, added: Result<(), Stop>) -> Result<Graph, Stop>
    ensures cause { (old new : Counts) → HasLookCause old new added → HasLookCause old new result }
    ensures ok { IfOk result (λ g. (added ≡ Ok tt)
        × (spec.closed scripts.now reading.declared (graph_by reading.graph) ≡ Ok (graph_by g))) }
    ensures fault { IfErr result (λ s. IsTold s →
        spec.IsEndOfRules added (spec.closed scripts.now reading.declared (graph_by reading.graph)) s) }
{
    match added {
        Ok(()) => made(reading, scripts),
        Err(stop) => Err(stop),
    }
}

/// The graph of the rules that were added.
fn made(reading: RuleReading, scripts: &Paths) -> Result<Graph, Stop>
    ensures inside { IfErr result IsInside }
    ensures ok { IfOk result (λ g.
        spec.closed scripts.now reading.declared (graph_by reading.graph) ≡ Ok (graph_by g)) }
    ensures fault { IfErr result (λ s. IsTold s →
        spec.closed scripts.now reading.declared (graph_by reading.graph) ≡ Err s) }
{
    match reading.finish() {
        Ok(graph) => Ok(graph),
        Err(fault) => Err(told(scripts, None, None, fault)),
    }
}

/// Adds all rules.
#[tactic(auto, using(scons_host::specs::Looking::looking))]
fn add_all<W: World>(
    alloc: Global,
    world: &mut W,
    reading: &mut RuleReading,
    scripts: &Paths,
) -> Result<(), Stop>
    requires { reading.old.graph ≡ empty_graph reading.old.declared.locals.top }
    ensures looks { LooksAtFiles W.meaning world.old world.new }
    ensures cause { HasLookCause (W.meaning.counts world.old) (W.meaning.counts world.new) result }
    ensures ok { Shown W.meaning world.old world.new (λ f. OnOk result
        (spec.Puts f reading.old.declared (length reading.old.declared.rules) (graph_by reading.new.graph))) }
    ensures fault { Shown W.meaning world.old world.new (λ f. IfErr result (λ s. IsTold s →
        spec.Graphs f reading.old.declared scripts.now (Err s))) }
    ensures rest { reading.new.declared ≡ reading.old.declared }
{
    let mut locals = reading.locals()?;
    for number in 0..reading.count() {
        add(alloc, world, reading, &mut locals, number, scripts)?;
    }
    Ok(())
}

/// Adds a rule, once the libraries that it names are found.
#[tactic(auto, using(scons_host::specs::Looking::looking))]
fn add<W: World>(
    alloc: Global,
    world: &mut W,
    reading: &mut RuleReading,
    locals: &mut RuleLocals,
    number: usize,
    scripts: &Paths,
) -> Result<(), Stop>
    requires there { number < length reading.old.declared.rules }
    requires within { spec.IsWithin reading.old.declared locals.old }
    ensures looks { LooksAtFiles W.meaning world.old world.new }
    ensures cause { HasLookCause (W.meaning.counts world.old) (W.meaning.counts world.new) result }
    ensures ok { Shown W.meaning world.old world.new (λ f. OnOk result
        (spec.Adds f reading.old.declared number (graph_by reading.old.graph) (Ok (graph_by reading.new.graph)))) }
    ensures fault { Shown W.meaning world.old world.new (λ f. IfErr result (λ s. IsTold s →
        spec.IsRuleStop f reading.old.declared scripts.now number (graph_by reading.old.graph) s)) }
    ensures rest { reading.new.declared ≡ reading.old.declared }
    ensures still { OnOk result (spec.IsWithin reading.old.declared locals.new) }
{
    let wanted = match wanted(reading, locals, number) {
        Ok(wanted) => wanted,
        Err(fault) => return Err(rule_stop(reading, scripts, number, fault)),
    };
    let libraries = found(alloc, world, wanted.as_slice())?;
    match reading.add(number, locals, &libraries) {
        Ok(()) => Ok(()),
        Err(fault) => Err(rule_stop(reading, scripts, number, fault)),
    }
}

/// The libraries that are found.
#[tactic(auto, using(scons_host::specs::Looking::looking))]
fn found<W: World>(alloc: Global, world: &mut W, wanted: &[Wanted]) -> Result<Paths, Stop>
    ensures looks { LooksAtFiles W.meaning world.old world.new }
    ensures cause { HasLookCause (W.meaning.counts world.old) (W.meaning.counts world.new) result }
    ensures ok { Shown W.meaning world.old world.new (λ f. IfOk result (λ libraries.
        libraries ≡ spec.found (map (found_in (spec.standing_in f)) wanted.now))) }
    ensures untold { IfErr result (λ s. IsTold s → ⊥) }
{
    let mut libraries = Paths::new(Vec::new(alloc));
    for library in wanted {
        find(world, library, &mut libraries)?;
    }
    Ok(libraries)
}

/// Puts the first file that may be a library and stands behind others, else the target that is one.
#[tactic(auto, using(scons_host::specs::Looking::looking))]
fn find<W: World>(world: &mut W, wanted: &Wanted, libraries: &mut Paths) -> Result<(), Stop>
    ensures looks { LooksAtFiles W.meaning world.old world.new }
    ensures cause { HasLookCause (W.meaning.counts world.old) (W.meaning.counts world.new) result }
    ensures ok { Shown W.meaning world.old world.new (λ f. OnOk result
        (libraries.new ≡ libraries.old ++ spec.found (found_in (spec.standing_in f) wanted.now ∷ []))) }
    ensures untold { IfErr result (λ s. IsTold s → ⊥) }
{
    match first_found(world, wanted.asked.as_slice(), &wanted.known)? {
        Some(library) => Ok(libraries.push(library)?),
        None => Ok(()),
    }
}

fn copy_of(path: &Option<PathText>) -> Result<Option<PathText>, Memory>
    ensures { IfOk result (λ copy. copy ≡ path.now) }
{
    match path {
        Some(path) => Ok(Some(path.copy()?)),
        None => Ok(None),
    }
}

/// The library of the first of these files that stands, else the known one.
#[tactic(auto, using(scons_host::specs::Looking::looking))]
fn first_found<W: World>(
    world: &mut W,
    asked: &[AskedFile],
    known: &Option<PathText>,
) -> Result<Option<PathText>, Stop>
    ensures looks { LooksAtFiles W.meaning world.old world.new }
    ensures cause { HasLookCause (W.meaning.counts world.old) (W.meaning.counts world.new) result }
    ensures ok { Shown W.meaning world.old world.new (λ f. IfOk result (λ library.
        library ≡ or_known known.now (find (λ a. is_file f a.file) asked.now))) }
    ensures untold { IfErr result (λ s. IsTold s → ⊥) }
{
    for file in asked {
        if is_file(world, &file.file)? {
            return Ok(Some(file.library.copy()?));
        }
    }
    Ok(copy_of(known)?)
}

/// Whether a file stands at a path.
#[tactic(auto, using(scons_host::specs::Looking::looking))]
pub fn is_file<W: World>(world: &mut W, path: &PathText) -> Result<bool, Stop>
    ensures looks { LooksAtFiles W.meaning world.old world.new }
    ensures cause { HasLookCause (W.meaning.counts world.old) (W.meaning.counts world.new) result }
    ensures ok { Shown W.meaning world.old world.new (λ f. IfOk result (λ there. there ≡ is_file f path.now)) }
    ensures untold { IfErr result (λ s. IsTold s → ⊥) }
{
    match kind_of(world, path) {
        Ok(Kind::File) => Ok(true),
        Ok(Kind::Dir) => Ok(false),
        Ok(Kind::Absent) => Ok(false),
        Err(_) => Err(Stop::tree(path)),
    }
}
