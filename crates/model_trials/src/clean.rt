//! What a clean build makes, slowly: by the definition of `build_model`, over plain lists.
ghost use Rattle.std.specs.Prelude.{◌≡◌, ◌++◌, ℕ, List, Some, None, IfOk, OnOk, MatchOption, map};
ghost use Rattle.std.specs.Option.{option_map, option_copied};
ghost use Rattle.build_model.specs.Rules.{Path, Content};
ghost use Rattle.build_model.specs.Graphs.{declared_rule};
ghost use Rattle.build_model.specs.Contents.{View, source_content, contents_in, dependencies as dependencies_of, made as made_of};
ghost use Rattle.model_trials.specs.Plain.{as_rule};
ghost use Rattle.model_trials.specs.Staling.{tree_of};
ghost use Rattle.model_trials.specs.Making.{IsTakenIn, named_bytes, written as written_of, setting_of, view_of};

use crate::reach::{PlainRule, Scan, reach_over};
use crate::spots::{Spot, has};
use crate::stale::{PlainFile, file_at};
use scons_base::{Listing, Memory};
use std::alloc::Global;

/// What a file includes where it holds these bytes.
#[derive(Drop)]
pub struct PlainLine {
    pub file: Spot,
    pub bytes: Listing<u8>,
    pub includes: Vec<Spot>,
}

/// Rules, and what stands before a build of them.
#[derive(Drop)]
pub struct PlainGraph {
    /// More than the files that are scanned for a rule.
    pub limit: usize,
    pub rules: Vec<PlainRule>,
    pub lines: Vec<PlainLine>,
    pub files: Vec<PlainFile>,
}

/// The bytes of a file, or none where no file is.
pub type PlainContent = Option<Listing<u8>>;

/// The rule that has a path among its targets.
fn rule_at<'a>(rules: &'a [PlainRule], path: &Spot) -> Option<&'a PlainRule>
    ensures { option_map as_rule (option_copied result) ≡ declared_rule (map as_rule rules.now) path.now }
{
    for rule in rules {
        if has(path, rule.targets.as_slice()) {
            return Some(rule);
        }
    }
    None
}

/// What is known of a source: it has to be a file.
fn source(alloc: Global, files: &[PlainFile], path: &Spot) -> Result<Option<PlainContent>, Memory>
    ensures { IfOk result (λ known. known ≡ source_content (tree_of files.now path.now)) }
{
    let Some(file) = file_at(files, path) else {
        return Ok(None);
    };
    let bytes = Vec::from_slice(alloc, file.bytes.as_slice())?;
    Ok(Some(Some(Listing::new(bytes))))
}

/// Writes a path that is given, and what stands there.
fn add_given(bytes: &mut Vec<u8>, given: &(Spot, PlainContent)) -> Result<(), Memory>
    ensures { OnOk result (bytes.new.items ≡ bytes.old.items ++ named_bytes given.now) }
{
    bytes.push(given.0.letter())?;
    if let Some(content) = &given.1 {
        bytes.extend_from_slice(content.as_slice())?;
    }
    Ok(())
}

/// What the action makes at a path of what it is given.
fn written(
    alloc: Global,
    path: &Spot,
    given: &[(Spot, PlainContent)],
) -> Result<Listing<u8>, Memory>
    ensures { IfOk result (λ bytes. bytes ≡ written_of given.now path.now) }
{
    let mut bytes = vec![in alloc; path.letter()]?;
    for item in given {
        add_given(&mut bytes, item)?;
    }
    Ok(Listing::new(bytes))
}

/// Takes in what a line says, where this is known of its file.
fn add_scan(
    alloc: Global,
    known: &Option<PlainContent>,
    line: &PlainLine,
    scans: &mut Vec<Scan>,
) -> Result<(), Memory>
    ensures { OnOk result ((view : View) → view line.now.file ≡ known.now →
        IsTakenIn view line.now scans.old.items scans.new.items) }
{
    let Some(content) = known else {
        return Ok(());
    };
    let Some(bytes) = content else {
        return Ok(());
    };
    if line.bytes.as_slice() == bytes.as_slice() {
        let includes = Vec::from_slice(alloc, line.includes.as_slice())?;
        let file = line.file;
        scans.push(Scan { file, includes })?;
    }
    Ok(())
}

/// What is known of the content of a path in a clean build, where at most so many rules stand on one another: none where it is
/// stuck.
#[cycle(clean)]
pub fn clean(
    alloc: Global,
    height: usize,
    graph: &PlainGraph,
    path: &Spot,
) -> Result<Option<PlainContent>, Memory>
    ensures { IfOk result (λ known. known ≡ view_of graph.now height path.now) }
{
    let Some(rule) = rule_at(graph.rules.as_slice(), path) else {
        return source(alloc, graph.files.as_slice(), path);
    };
    if height == 0 {
        return Ok(None);
    }
    made(alloc, height - 1, graph, rule, path)
}

/// What a rule makes at a path.
#[cycle(clean)]
fn made(
    alloc: Global,
    height: usize,
    graph: &PlainGraph,
    rule: &PlainRule,
    path: &Spot,
) -> Result<Option<PlainContent>, Memory>
    ensures { IfOk result (λ known.
        known ≡ made_of (setting_of graph.now) (view_of graph.now height) (as_rule rule.now) path.now) }
{
    let paths = dependencies(alloc, height, graph, rule)?;
    let Some(given) = contents(alloc, height, graph, paths.as_slice())? else {
        return Ok(None);
    };
    let bytes = written(alloc, path, given.as_slice())?;
    Ok(Some(Some(bytes)))
}

/// The dependencies of a rule, by what its files include.
#[cycle(clean)]
fn dependencies(
    alloc: Global,
    height: usize,
    graph: &PlainGraph,
    rule: &PlainRule,
) -> Result<Vec<Spot>, Memory>
    ensures { IfOk result (λ paths.
        paths.items ≡ dependencies_of (setting_of graph.now) (view_of graph.now height) (as_rule rule.now)) }
{
    let mut scans = Vec::new(alloc);
    for line in &graph.lines {
        let known = clean(alloc, height, graph, &line.file)?;
        add_scan(alloc, &known, line, &mut scans)?;
    }
    reach_over(alloc, graph.limit, rule, scans.as_slice())
}

/// Each path with its content, where none is stuck.
#[cycle(clean)]
fn contents(
    alloc: Global,
    height: usize,
    graph: &PlainGraph,
    paths: &[Spot],
) -> Result<Option<Vec<(Spot, PlainContent)>>, Memory>
    ensures { IfOk result (λ given. MatchOption given (contents_in (view_of graph.now height) paths.now ≡ None)
        (λ all. contents_in (view_of graph.now height) paths.now ≡ Some all.items)) }
{
    let mut given = Vec::new(alloc);
    for path in paths {
        let Some(content) = clean(alloc, height, graph, path)? else {
            return Ok(None);
        };
        given.push((*path, content))?;
    }
    Ok(Some(given))
}
