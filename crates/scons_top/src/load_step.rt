//! A large run over a world in memory: so many rules in chains of ten, built, and built again after an edit of the first
//! source.
ghost use Rattle.std.specs.Prelude.{◌≡◌, [], IfOk, string_bytes};
ghost use Rattle.report_texts.specs.Texts.{load_text};
ghost use Rattle.world_api.specs.Statuses.{HasStatus};
ghost use Rattle.world_mem.specs.AsAround.{around_of};
ghost use Rattle.scons_top.specs.Sinks.{PrintsUpTo};
ghost use Rattle.scons_top.specs.Steps.{RunEndsAt};
ghost use Rattle.scons_top.specs.Stops.{SinkReports};

use crate::ending::show;
use crate::report::Report;
use crate::step::Step;
use crate::stop::Stop;
use crate::top::run;
use scons_base::{Blob, Listing, Memory, PathText, Paths, Texts};
use scons_report::load_text;
use scons_words::Words;
use std::alloc::Global;
use world_api::{Hash, Sink};
use world_mem::{ActTable, MemSink, MemWorld};

/// Builds twice, and says how many rules were started.
pub(crate) fn load<O: Sink>(
    alloc: Global,
    words: &Words,
    rules: u32,
    out: &mut O,
) -> Result<Report, Stop>
    ensures ends { RunEndsAt Step.Load result }
    ensures faults { IfOk result (λ report. report.faults ≡ []) }
    ensures reports { SinkReports O.meaning out.old out.new result }
    ensures prints { PrintsUpTo O.meaning (load_text rules) out.old out.new result }
    ensures status { IfOk result (λ report. HasStatus report.status report.faults) }
{
    show(alloc, out, measured(alloc, words, rules), Step::Load)
}

/// Builds twice over a world in memory, and gives the line that says so.
fn measured(alloc: Global, words: &Words, rules: u32) -> Result<String, Memory>
    ensures { IfOk result (λ text. string_bytes text ≡ load_text rules) }
{
    let inner = build_words(alloc, words.jobs)?;
    let mut world = world_of(alloc, rules)?;
    build_once(alloc, &inner, &mut world)?;
    edit(alloc, &mut world)?;
    build_once(alloc, &inner, &mut world)?;
    load_text(alloc, rules)
}

/// The world with the script and the sources.
fn world_of(alloc: Global, rules: u32) -> Result<MemWorld, Memory>
    ensures { IfOk result (λ world. (around_of world.state).running ≡ []) }
{
    let files = files_of(alloc, rules)?;
    let table = ActTable::new(Vec::new(alloc));
    match MemWorld::new(alloc, files, table, Vec::new(alloc), Vec::new(alloc)) {
        Ok(world) => Ok(world),
        Err(_) => Err(Memory),
    }
}

/// Edits the first source.
fn edit(alloc: Global, world: &mut MemWorld) -> Result<(), Memory>
    requires { (around_of world.old.state).running ≡ [] }
    ensures { (around_of world.new.state).running ≡ [] }
{
    let path = path_of(alloc, "s0")?;
    match world.edit(&path, b"edited".as_slice()) {
        Ok(()) => Ok(()),
        Err(_) => Err(Memory),
    }
}

/// A build over a world that refuses nothing: only memory may be wanting.
fn build_once(alloc: Global, words: &Words, world: &mut MemWorld) -> Result<(), Memory>
    requires { (around_of world.old.state).running ≡ [] }
    ensures { (around_of world.new.state).running ≡ [] }
{
    let mut out = MemSink::new(alloc, Vec::new(alloc))?;
    let mut err = MemSink::new(alloc, Vec::new(alloc))?;
    let mut at = Step::Words;
    match run(alloc, words, world, &mut out, &mut err, &mut at) {
        Ok(report) if report.status == 0 => Ok(()),
        _ => Err(Memory),
    }
}

/// The words of a silent build with so many jobs.
fn build_words(alloc: Global, jobs: u32) -> Result<Words, Memory> {
    let script = path_of(alloc, "SConstruct")?;
    Ok(Words {
        scripts: Paths::new(vec![in alloc; script]?),
        arguments: Listing::empty(alloc),
        requested: Texts::new(Vec::new(alloc)),
        jobs,
        keep: false,
        hash: Hash::Md5,
        explain: false,
        tree: false,
        dry: false,
        clean: false,
        quiet: true,
        silent: true,
        help: false,
        load: None,
    })
}

/// The script, and a source for each rule that holds its own name.
fn files_of(alloc: Global, rules: u32) -> Result<Vec<(PathText, Blob)>, Memory> {
    let mut files = Vec::new(alloc);
    let script = script_text(alloc, rules)?;
    files.push((
        path_of(alloc, "SConstruct")?,
        Blob::of(alloc, script.as_bytes())?,
    ))?;
    for number in 0..rules {
        let name = format!(in alloc; "s{number}")?;
        let path = path_of(alloc, name.as_str())?;
        files.push((path, Blob::of(alloc, name.as_bytes())?))?;
    }
    Ok(files)
}

/// The script with its number of rules.
fn script_text(alloc: Global, rules: u32) -> Result<String, Memory> {
    Ok(format!(in alloc;
        "for i in range({rules}):\n    d = ['s%d' % i]\n    if i % 10 != 0:\n        d.append('o%d' % (i - 1))\n    Command('o%d' % i, d, 'mk%d' % i)\n"
    )?)
}

fn path_of(alloc: Global, text: &str) -> Result<PathText, Memory> {
    match PathText::read(alloc, text) {
        Ok(path) => Ok(path),
        Err(_) => Err(Memory),
    }
}
