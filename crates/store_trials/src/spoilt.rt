//! Bank A, spoilt at each of its places in turn.
use crate::disk::{Banks, copy_of};
use crate::fields::pair;
use crate::runs::put_runs;
use crate::shown::put_count;
use scons_base::PathText;
use sign_store::{Store, StoreRefusal};
use std::alloc::Global;
use trial_text::Told;
use world_api::Bank;

/// The bank cut at each length: what is read of a path, and how long the bank of the begun store is.
pub(crate) fn put_cuts(alloc: Global, told: &mut Told, bank: &[u8], path: &PathText) {
    for len in 0..bank.len().saturating_add(1) {
        put_count(told, len, ": ");
        put_cut(alloc, told, &bank[..len], path);
    }
}

fn put_cut(alloc: Global, told: &mut Told, bank: &[u8], path: &PathText) {
    let mut banks = Banks::of(copy_of(alloc, told, bank), Vec::new(alloc));
    put_read(alloc, told, &mut banks, path);
    match Store::begin(alloc, &mut banks) {
        Ok(_) => {
            told.put(", begun with ");
            put_count(told, banks.bytes(Bank::A).len(), " bytes\n");
        }
        Err(_) => told.put(", not begun\n"),
    }
}

/// `MASK PATH`: the bank with the bits of the mask changed in one byte, at each place: what is read of the path. Places in a
/// row with one answer share a line.
pub(crate) fn put_flips(alloc: Global, told: &mut Told, bank: &[u8], text: &str) {
    let (mask, path) = pair(told, text);
    match (mask.parse::<u8>(), PathText::read(alloc, path)) {
        (Ok(mask), Ok(path)) => put_flips_of(alloc, told, bank, mask, &path),
        _ => told.refuse(),
    }
}

fn put_flips_of(alloc: Global, told: &mut Told, bank: &[u8], mask: u8, path: &PathText) {
    let mut answers = Told::new(alloc);
    for place in 0..bank.len() {
        let mut bytes = copy_of(alloc, &mut answers, bank);
        if let Some(byte) = bytes.get_mut(place) {
            *byte ^= mask;
        }
        let mut banks = Banks::of(bytes, Vec::new(alloc));
        put_read(alloc, &mut answers, &mut banks, path);
        answers.put("\n");
    }
    put_runs(told, &answers, "");
}

fn put_read(alloc: Global, told: &mut Told, banks: &mut Banks, path: &PathText) {
    match Store::read(alloc, banks) {
        Ok(view) => told.put(if view.get(path).is_some() {
            "a record"
        } else {
            "none"
        }),
        Err(StoreRefusal::Foreign(_)) => told.put("foreign"),
        Err(_) => told.refuse(),
    }
}
