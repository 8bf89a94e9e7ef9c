//! The calls that leave the running jobs as they are.
ghost use Rattle.world_trials.specs.Jobs.{KeepsJobs};

use crate::fields::{bank_of, bytes_of, pair};
use crate::shown::{
    put_asked, put_bytes, put_content, put_done, put_kind, put_list, put_refusal, put_size,
    put_stamp,
};
use scons_base::PathText;
use std::alloc::Global;
use trial_text::Told;
use world_api::{Bank, Disk, World};
use world_mem::MemWorld;

/// The most bytes that a row reads or writes.
pub(crate) const BYTES: usize = 65_536;

/// Makes the call of a row of a disk, and tells what it gives. `false` where it is no such call.
pub(crate) fn disk_call(
    alloc: Global,
    told: &mut Told,
    world: &mut MemWorld,
    verb: &str,
    rest: &str,
) -> bool
    ensures { KeepsJobs world.old world.new }
{
    let (bank, rest) = rest.split_once(' ').unwrap_or((rest, ""));
    let Some(bank) = bank_of(bank) else {
        return false;
    };
    match verb {
        "size" => put_size(told, world.size(bank)),
        "read" => read(alloc, told, world, bank, rest),
        "write" => write(alloc, told, world, bank, rest),
        "sync" => put_done(told, world.sync(bank).is_ok()),
        _ => return false,
    }
    true
}

/// `PLACE COUNT`.
fn read(alloc: Global, told: &mut Told, world: &mut MemWorld, bank: Bank, text: &str)
    ensures { KeepsJobs world.old world.new }
{
    let (place, count) = pair(told, text);
    let (place, count) = (told.number(place) as usize, told.number(count) as usize);
    let held = world.bank(bank).len();
    if count > BYTES || place > held || held - place < count {
        return told.refuse();
    }
    let Ok(mut into) = Vec::from_elem(alloc, 0, count) else {
        return told.refuse();
    };
    match world.read_at(bank, place as u64, into.as_mut_slice()) {
        Ok(()) => put_bytes(told, into.as_slice()),
        Err(_) => told.put("fault"),
    }
}

/// `PLACE BYTES`.
fn write(alloc: Global, told: &mut Told, world: &mut MemWorld, bank: Bank, text: &str)
    ensures { KeepsJobs world.old world.new }
{
    let (place, bytes) = pair(told, text);
    let place = told.number(place);
    match bytes_of(alloc, bytes) {
        Some(bytes) => write_at(told, world, bank, place, bytes.as_slice()),
        None => told.refuse(),
    }
}

fn write_at(told: &mut Told, world: &mut MemWorld, bank: Bank, place: u32, bytes: &[u8])
    ensures { KeepsJobs world.old world.new }
{
    let held = world.bank(bank).len();
    if bytes.len() > BYTES || place as usize > held {
        return told.refuse();
    }
    put_done(told, world.write_at(bank, place as u64, bytes).is_ok());
}

/// Asks a world for what stands, and tells what it gives. `false` where the row is no such call.
pub(crate) fn look(
    alloc: Global,
    told: &mut Told,
    world: &mut MemWorld,
    verb: &str,
    rest: &str,
) -> bool
    ensures { KeepsJobs world.old world.new }
{
    match verb {
        "top" => put_top(told, world),
        "content" => content(alloc, told, world, rest),
        "kind" | "list" | "stamp" | "make_dir" => look_at(alloc, told, world, verb, rest),
        _ => return false,
    }
    true
}

fn put_top(told: &mut Told, world: &mut MemWorld)
    ensures { KeepsJobs world.old world.new }
{
    match world.top_path() {
        Ok(path) => told.put(path.as_str()),
        Err(refusal) => put_refusal(told, refusal),
    }
}

/// `LIMIT PATH`.
fn content(alloc: Global, told: &mut Told, world: &mut MemWorld, text: &str)
    ensures { KeepsJobs world.old world.new }
{
    let (limit, path) = pair(told, text);
    let limit = told.number(limit);
    match PathText::read(alloc, path) {
        Ok(path) => put_content(told, world.read_file(&path, limit as u64)),
        Err(_) => told.refuse(),
    }
}

fn look_at(alloc: Global, told: &mut Told, world: &mut MemWorld, verb: &str, path: &str)
    ensures { KeepsJobs world.old world.new }
{
    match PathText::read(alloc, path) {
        Ok(path) => ask(told, world, verb, &path),
        Err(_) => told.refuse(),
    }
}

fn ask(told: &mut Told, world: &mut MemWorld, verb: &str, path: &PathText)
    ensures { KeepsJobs world.old world.new }
{
    match verb {
        "kind" => put_kind(told, world.kind(path)),
        "list" => put_list(told, world.list(path)),
        "stamp" => put_stamp(told, world.stamp(path)),
        "make_dir" => put_asked(told, world.make_dir(path)),
        _ => told.refuse(),
    }
}
