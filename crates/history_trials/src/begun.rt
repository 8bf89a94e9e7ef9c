//! The worlds in which random histories begin.
ghost use Rattle.std.specs.Prelude.{◌≡◌, [], None, IfSome};
ghost use Rattle.world_mem.specs.AsAround.{around_of};

use crate::names::{MOST_RULES, copy, name_of, origin, source, target};
use crate::numbers::Numbers;
use crate::project::Project;
use crate::texts::{BROKEN, keep_line, script_of, source_text};
use model_trials::spots::Spot;
use scons_base::{Blob, PathText, Texts};
use std::alloc::Global;
use trial_text::Told;
use world_mem::{ActRow, ActTable, Contents, Made, MemWorld};

/// The name of the script.
pub(crate) const SCRIPT: &str = "SConstruct";

/// At how many waits it is said which job ends.
const WAITS: usize = 100;

/// The files that stand at first: the script, and each source that a project may have.
pub(crate) fn first_files(
    alloc: Global,
    told: &mut Told,
    numbers: &mut Numbers,
    project: &Project,
) -> Vec<(PathText, Blob)> {
    let mut files = Vec::new(alloc);
    let script = script_of(alloc, project);
    keep_file(alloc, told, &mut files, SCRIPT, &script);
    for number in 0..MOST_RULES {
        let text = source_text(alloc, numbers, number);
        keep_file(alloc, told, &mut files, name_of(&source(number)), &text);
        let text = source_text(alloc, numbers, number);
        keep_file(alloc, told, &mut files, name_of(&origin(number)), &text);
    }
    files
}

fn keep_file(
    alloc: Global,
    told: &mut Told,
    files: &mut Vec<(PathText, Blob)>,
    name: &str,
    text: &Told,
) {
    let bytes = text.as_str().as_bytes();
    match (PathText::read(alloc, name), Blob::of(alloc, bytes)) {
        (Ok(path), Ok(content)) => told.keep(files, (path, content)),
        _ => told.refuse(),
    }
}

/// The world with these files, in which the lines of broken rules fail, and actions that are given a broken source alone.
pub(crate) fn first_world(
    alloc: Global,
    told: &mut Told,
    numbers: &mut Numbers,
    files: Vec<(PathText, Blob)>,
) -> Option<MemWorld>
    ensures idle { IfSome result (λ world. (around_of world.state).running ≡ []) }
    ensures unfused { IfSome result (λ world. world.calls.fuse ≡ None) }
{
    let mut rows = Vec::new(alloc);
    for rule in 0..MOST_RULES {
        put_fail(alloc, told, &mut rows, rule, "fail ", None);
        let given = given_alone(alloc, told, source(rule));
        put_fail(alloc, told, &mut rows, rule, "make ", given);
        let given = given_alone(alloc, told, copy(rule));
        put_fail(alloc, told, &mut rows, rule, "make ", given);
    }
    let mut orders = Vec::new(alloc);
    for _ in 0..WAITS {
        let order = u32::try_from(numbers.below(12)).unwrap_or(0);
        told.keep(&mut orders, order);
    }
    match MemWorld::new(alloc, files, ActTable::new(rows), orders, Vec::new(alloc)) {
        Ok(world) => Some(world),
        Err(_) => None,
    }
}

/// A broken source, alone.
fn given_alone(alloc: Global, told: &mut Told, path: Spot) -> Option<Contents> {
    let mut given = Vec::new(alloc);
    match (
        PathText::read(alloc, name_of(&path)),
        Blob::of(alloc, BROKEN.as_bytes()),
    ) {
        (Ok(path), Ok(bytes)) => told.keep(&mut given, (path, Some(bytes))),
        _ => told.refuse(),
    }
    Some(Contents::new(given))
}

/// That the action of a rule fails where its line begins so.
fn put_fail(
    alloc: Global,
    told: &mut Told,
    rows: &mut Vec<ActRow>,
    rule: usize,
    verb: &str,
    given: Option<Contents>,
) {
    let mut lines = Vec::new(alloc);
    keep_line(alloc, told, &mut lines, verb, &target(rule), "");
    let row = ActRow {
        signed: Texts::new(lines),
        given,
        made: Made::Fail(1),
    };
    told.keep(rows, row);
}
