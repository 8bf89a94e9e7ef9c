//! Signature files that are cut, or have other bytes.
use crate::idle::IdleWorld;
use crate::steps::{Step, word_of, words_of};
use scons_base::Text;
use trial_text::Told;
use world_api::Bank;

/// Goes on with the files as they are, and with a first signature bank that is cut or has another mark, or a bank with
/// these bytes.
pub(crate) fn spoil(told: &mut Told, world: &mut IdleWorld, step: Step) {
    let spoiled = match step.word {
        "cut" => cut(world, told.number(step.rest) as usize),
        "bank" => with_bank(world, step.rest),
        _ => marked(world, step.rest.as_bytes()),
    };
    match spoiled {
        Some(spoiled) => *world = spoiled,
        None => told.refuse(),
    }
}

/// A world with the same files and banks, of which the first is cut to so many bytes.
fn cut(world: &IdleWorld, size: usize) -> Option<IdleWorld> {
    let front = world.inner.bank(Bank::A).get(..size)?;
    world.anew(front, world.inner.bank(Bank::B), Vec::new(world.alloc))
}

/// A world with the same, but for the last byte of the first bank's mark.
fn marked(world: &IdleWorld, mark: &[u8]) -> Option<IdleWorld> {
    let mark = *mark.first()?;
    let mut bank = Vec::from_slice(world.alloc, world.inner.bank(Bank::A)).ok()?;
    *bank.get_mut(8)? = mark;
    let b = world.inner.bank(Bank::B);
    world.anew(bank.as_slice(), b, Vec::new(world.alloc))
}

/// A world with the same, but for one bank: `BANK BYTES`.
fn with_bank(world: &IdleWorld, rest: &str) -> Option<IdleWorld> {
    let (name, digits) = word_of(rest);
    let bytes = hex::decode(world.alloc, digits).ok()?;
    let (a, b) = (world.inner.bank(Bank::A), world.inner.bank(Bank::B));
    match bank_of(name)? {
        Bank::A => world.anew(bytes.as_slice(), b, Vec::new(world.alloc)),
        Bank::B => world.anew(a, bytes.as_slice(), Vec::new(world.alloc)),
    }
}

pub(crate) fn bank_of(name: &str) -> Option<Bank> {
    match name {
        "A" => Some(Bank::A),
        "B" => Some(Bank::B),
        _ => None,
    }
}

/// Builds with these words and with the first signature bank cut to each length.
pub(crate) fn put_cuts(told: &mut Told, world: &IdleWorld, words: &str) {
    let words = words_of(world.alloc, told, words);
    for size in 0..=world.inner.bank(Bank::A).len() {
        put_cut(told, world, words.as_slice(), size);
    }
}

/// How many actions a build starts.
fn put_cut(told: &mut Told, world: &IdleWorld, words: &[Text], size: usize) {
    let Some(mut world) = cut(world, size) else {
        return told.refuse();
    };
    told.put("cut to ");
    told.show(size);
    told.put(": status ");
    match world.status(words) {
        Some(status) => told.show(status),
        None => told.refuse(),
    }
    told.put(", ");
    told.show(world.inner.jobs().len());
    told.put(" started\n");
}
