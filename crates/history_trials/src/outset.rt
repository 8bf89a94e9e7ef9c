//! The worlds in which the histories of rows begin.
ghost use Rattle.std.specs.Prelude.{◌≡◌, ◌≤◌, ◌^◌, [], None, IfSome, length};
ghost use Rattle.world_mem.specs.AsAround.{around_of};

use crate::events::{path_of, word_of};
use scons_base::limits::BANK_LIMIT;
use scons_base::{Blob, PathText, Text, Texts};
use std::alloc::Global;
use trial_text::Told;
use world_api::{Bank, Disk};
use world_mem::{ActRow, ActTable, Call, Contents, Made, MemWorld};

/// Each call of the outside, with its name.
pub(crate) const CALLS: [(&str, Call); 13] = [
    ("size", Call::Size),
    ("read_at", Call::ReadAt),
    ("write_at", Call::WriteAt),
    ("sync", Call::Sync),
    ("top_path", Call::TopPath),
    ("kind", Call::Kind),
    ("read_file", Call::ReadFile),
    ("list", Call::List),
    ("stamp", Call::Stamp),
    ("make_dir", Call::MakeDir),
    ("remove", Call::Remove),
    ("start", Call::Start),
    ("wait", Call::Wait),
];

/// A world without files, in which commands fail and jobs end as these lines say, and these calls fail too.
pub(crate) fn world_of(
    alloc: Global,
    told: &mut Told,
    lines: &str,
    failing: Vec<(Call, u32)>,
) -> Option<MemWorld>
    ensures idle { IfSome result (λ world. (around_of world.state).running ≡ []) }
    ensures unfused { IfSome result (λ world. world.calls.fuse ≡ None) }
{
    let mut rows = Vec::new(alloc);
    let mut orders = Vec::new(alloc);
    let mut failing = failing;
    for line in lines.lines() {
        let (verb, rest) = word_of(line);
        match verb {
            "fail" => put_fail(alloc, told, &mut rows, rest),
            "orders" => put_orders(told, &mut orders, rest),
            "failing" => put_failing(told, &mut failing, rest),
            _ => {}
        }
    }
    let table = ActTable::new(rows);
    match MemWorld::new(alloc, Vec::new(alloc), table, orders, failing) {
        Ok(world) => Some(world),
        Err(_) => None,
    }
}

/// That a command fails where its only dependency holds a text: `CODE PATH TEXT COMMAND`.
fn put_fail(alloc: Global, told: &mut Told, rows: &mut Vec<ActRow>, rest: &str) {
    let (code, rest) = word_of(rest);
    let (path, rest) = word_of(rest);
    let (text, line) = word_of(rest);
    let mut given = Vec::new(alloc);
    let mut lines = Vec::new(alloc);
    match (path_of(alloc, path), Blob::of(alloc, text.as_bytes())) {
        (Some(path), Ok(bytes)) => told.keep(&mut given, (path, Some(bytes))),
        _ => told.refuse(),
    }
    match Text::of(alloc, line) {
        Ok(line) => told.keep(&mut lines, line),
        Err(_) => told.refuse(),
    }
    let code = i32::try_from(told.number(code)).unwrap_or(1);
    let row = ActRow {
        signed: Texts::new(lines),
        given: Some(Contents::new(given)),
        made: Made::Fail(code),
    };
    told.keep(rows, row);
}

/// Which of the running jobs ends at each wait.
fn put_orders(told: &mut Told, orders: &mut Vec<u32>, text: &str) {
    for order in text.split_whitespace() {
        let order = told.number(order);
        told.keep(orders, order);
    }
}

/// That a call of the outside fails: its name, and its number among those of this name.
fn put_failing(told: &mut Told, failing: &mut Vec<(Call, u32)>, rest: &str) {
    let (name, number) = word_of(rest);
    let number = told.number(number);
    for (known, call) in CALLS {
        if known == name {
            return told.keep(failing, (call, number));
        }
    }
    told.refuse();
}

/// A world with these files and these bytes in its first signature bank.
pub(crate) fn world_with(
    alloc: Global,
    files: Vec<(PathText, Blob)>,
    bytes: &[u8],
) -> Option<MemWorld>
    ensures idle { IfSome result (λ world. (around_of world.state).running ≡ []) }
    ensures unfused { IfSome result (λ world. world.calls.fuse ≡ None) }
{
    let table = ActTable::new(Vec::new(alloc));
    let Ok(world) = MemWorld::new(alloc, files, table, Vec::new(alloc), Vec::new(alloc)) else {
        return None;
    };
    if bytes.len() as u64 > BANK_LIMIT {
        return None;
    }
    filled(world, bytes)
}

/// A world with these bytes written into its first bank.
fn filled(world: MemWorld, bytes: &[u8]) -> Option<MemWorld>
    requires small { length bytes.now ≤ 2 ^ 40 }
    requires idle { (around_of world.state).running ≡ [] }
    requires unfused { world.calls.fuse ≡ None }
    ensures idle { IfSome result (λ world. (around_of world.state).running ≡ []) }
    ensures unfused { IfSome result (λ world. world.calls.fuse ≡ None) }
{
    let mut world = world;
    if world.write_at(Bank::A, 0, bytes).is_err() {
        return None;
    }
    if world.sync(Bank::A).is_err() {
        return None;
    }
    Some(world)
}
