//! One failure of the outside at a time: what a build says of it, and what the next build makes.
use crate::builds::Builds;
use crate::idle::IdleWorld;
use crate::runs::put_fault;
use crate::steps::{word_of, words_of};
use trial_text::Told;
use world_mem::Call;

const CALLS: [(&str, Call); 13] = [
    ("size", Call::Size),
    ("read_at", Call::ReadAt),
    ("write_at", Call::WriteAt),
    ("sync", Call::Sync),
    ("top_path", Call::TopPath),
    ("kind", Call::Kind),
    ("read_file", Call::ReadFile),
    ("list", Call::List),
    ("stamp", Call::Stamp),
    ("make_dir", Call::MakeDir),
    ("remove", Call::Remove),
    ("start", Call::Start),
    ("wait", Call::Wait),
];

/// Builds with one failure after the other: `NUMBERS WORDS`, where each call fails at each number below that.
pub(crate) fn put_failures(told: &mut Told, world: &IdleWorld, rest: &str) {
    let (numbers, words) = word_of(rest);
    let numbers = told.number(numbers);
    let words = words_of(world.alloc, told, words);
    match Builds::new(world, words.as_slice()) {
        Some(builds) => put_calls(told, &builds, numbers),
        None => told.refuse(),
    }
}

/// A line for each call and each number: how a build ends in which that call fails, how the next build ends without it, and
/// whether that leaves the files that a build without banks leaves.
fn put_calls(told: &mut Told, builds: &Builds, numbers: u32) {
    for (name, call) in CALLS {
        put_numbers(told, builds, name, call, numbers);
    }
}

fn put_numbers(told: &mut Told, builds: &Builds, name: &str, call: Call, numbers: u32) {
    for number in 0..numbers {
        told.put_all(&[name, " "]);
        told.show(number);
        told.put(": ");
        put_failure(told, builds, call, number);
        told.put("\n");
    }
}

fn put_failure(told: &mut Told, builds: &Builds, call: Call, number: u32) {
    match failing(builds, call, number) {
        Some(mut world) => {
            put_first(told, builds, &mut world);
            put_second(told, builds, &world);
        }
        None => told.refuse(),
    }
}

/// A world in which a build's call of this number fails. The writes and syncs that fill the banks come before it.
fn failing(builds: &Builds, call: Call, number: u32) -> Option<IdleWorld> {
    let number = match call {
        Call::WriteAt | Call::Sync => number.saturating_add(2),
        _ => number,
    };
    let failing = vec![in builds.world.alloc; (call, number)].ok()?;
    builds.world.again(failing)
}

/// Builds in a world in which a call fails, and says how that ends.
fn put_first(told: &mut Told, builds: &Builds, world: &mut IdleWorld) {
    match world.run(builds.words) {
        Some(ran) => put_fault(told, &ran),
        None => told.refuse(),
    }
}

/// Builds again, without failures.
fn put_second(told: &mut Told, builds: &Builds, world: &IdleWorld) {
    let Some(mut next) = world.again(Vec::new(world.alloc)) else {
        return told.refuse();
    };
    told.put("; then ");
    match next.status(builds.words) {
        Some(status) => told.show(status),
        None => told.refuse(),
    }
    if builds.are_clean(&next) {
        told.put(" as clean");
    } else {
        told.put(" other files");
    }
}
