//! The fields of rows.
use scons_base::PathText;
use std::alloc::Global;
use trial_text::Told;
use world_api::Bank;

/// The first word of a text, and what stands behind it.
pub(crate) fn pair<'a>(told: &mut Told, text: &'a str) -> (&'a str, &'a str) {
    match text.split_once(' ') {
        Some(parts) => parts,
        None => {
            told.refuse();
            (text, "")
        }
    }
}

pub(crate) fn bank_of(word: &str) -> Option<Bank> {
    match word {
        "A" => Some(Bank::A),
        "B" => Some(Bank::B),
        _ => None,
    }
}

/// The number of up to 64 bits that a field is; 0 where it is none, which refuses the line.
pub(crate) fn long_number(told: &mut Told, field: &str) -> u64 {
    match field.parse::<u64>() {
        Ok(number) => number,
        Err(_) => {
            told.refuse();
            0
        }
    }
}

/// Puts the path that a field is behind a list.
pub(crate) fn keep_path(alloc: Global, told: &mut Told, paths: &mut Vec<PathText>, field: &str) {
    match PathText::read(alloc, field) {
        Ok(path) => told.keep(paths, path),
        Err(_) => told.refuse(),
    }
}
