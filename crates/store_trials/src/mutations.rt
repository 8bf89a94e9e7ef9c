//! Ways to spoil a bank.
use crate::disk::{Banks, copy_of};
use crate::draws::Draws;
use std::alloc::Global;
use trial_text::Told;
use world_api::Bank;

/// A bank isn't doubled past this many bytes.
const SMALL: usize = 512;

/// The bytes of a length.
const LENGTH: usize = 4;

/// The least size that is over the limit of a bank.
const LARGE: u64 = (1 << 40) + 1;

/// Banks like these, spoilt one to three times.
pub(crate) fn spoilt(alloc: Global, told: &mut Told, draws: &mut Draws, banks: &Banks) -> Banks {
    let mut a = copy_of(alloc, told, banks.bytes(Bank::A));
    let mut b = copy_of(alloc, told, banks.bytes(Bank::B));
    let times = draws.below(3).saturating_add(1);
    for _ in 0..times {
        match draws.below(2) {
            0 => spoil(alloc, told, draws, &mut a),
            _ => spoil(alloc, told, draws, &mut b),
        }
    }
    let mut spoilt = Banks::of(a, b);
    match draws.below(64) {
        0 => spoilt.claim(Bank::A, LARGE),
        1 => spoilt.claim(Bank::B, LARGE),
        _ => {}
    }
    spoilt
}

fn spoil(alloc: Global, told: &mut Told, draws: &mut Draws, bank: &mut Vec<u8>) {
    match draws.below(4) {
        0 => flip(draws, bank.as_mut_slice()),
        1 => {
            let len = draws.below(bank.len().saturating_add(1));
            bank.truncate(len);
        }
        2 => double(alloc, told, bank),
        _ => set_length(draws, bank.as_mut_slice()),
    }
}

/// Changes one bit.
fn flip(draws: &mut Draws, bank: &mut [u8]) {
    let place = draws.below(bank.len());
    let bit = draws.below(8);
    if let Some(byte) = bank.get_mut(place) {
        *byte ^= 1 << bit;
    }
}

/// Puts the bytes of a small bank behind it once more.
fn double(alloc: Global, told: &mut Told, bank: &mut Vec<u8>) {
    if bank.len() <= SMALL {
        let same = copy_of(alloc, told, bank.as_slice());
        if bank.extend_from_slice(same.as_slice()).is_err() {
            told.refuse();
        }
    }
}

/// Puts a length at some place.
fn set_length(draws: &mut Draws, bank: &mut [u8]) {
    if bank.len() < LENGTH {
        return;
    }
    let last = bank.len() - LENGTH;
    let place = draws.below(last + 1);
    let len = length_of(draws.below(8), last - place);
    bank[place..place + LENGTH].copy_from_slice(&len.to_be_bytes());
}

/// A length at an end of its range, or about as long as what stands behind it.
fn length_of(choice: usize, behind: usize) -> u32 {
    let behind = u32::try_from(behind).unwrap_or(u32::MAX);
    match choice {
        0 => 0,
        1 => 1,
        2 => behind.saturating_sub(1),
        3 => behind,
        4 => behind.saturating_add(1),
        5 => 1 << 31,
        6 => u32::MAX - 1,
        _ => u32::MAX,
    }
}
