//! The fields of rows.
use std::alloc::Global;
use trial_text::Told;
use world_api::Bank;
use world_mem::Call;

/// The first word of a text, and what stands behind it.
pub(crate) fn pair<'a>(told: &mut Told, text: &'a str) -> (&'a str, &'a str) {
    match text.split_once(' ') {
        Some(parts) => parts,
        None => {
            told.refuse();
            (text, "")
        }
    }
}

/// Hexadecimal behind `x`, else the text itself.
pub(crate) fn bytes_of(alloc: Global, text: &str) -> Option<Vec<u8>> {
    match text.strip_prefix("x") {
        Some(digits) => hex::decode(alloc, digits).ok(),
        None => Vec::from_slice(alloc, text.as_bytes()).ok(),
    }
}

pub(crate) fn bank_of(word: &str) -> Option<Bank> {
    match word {
        "A" => Some(Bank::A),
        "B" => Some(Bank::B),
        _ => None,
    }
}

/// The calls that fail: `CALL:NUMBER` between spaces.
pub(crate) fn failures_of(alloc: Global, told: &mut Told, text: &str) -> Vec<(Call, u32)> {
    let mut failing = Vec::new(alloc);
    for failure in text.split_whitespace() {
        keep_failure(told, &mut failing, failure);
    }
    failing
}

fn keep_failure(told: &mut Told, failing: &mut Vec<(Call, u32)>, failure: &str) {
    let (name, number) = failure.split_once(':').unwrap_or((failure, ""));
    let number = told.number(number);
    match call_of(name) {
        Some(call) => told.keep(failing, (call, number)),
        None => told.refuse(),
    }
}

fn call_of(name: &str) -> Option<Call> {
    Some(match name {
        "size" => Call::Size,
        "read" => Call::ReadAt,
        "write" => Call::WriteAt,
        "sync" => Call::Sync,
        "top" => Call::TopPath,
        "kind" => Call::Kind,
        "content" => Call::ReadFile,
        "list" => Call::List,
        "stamp" => Call::Stamp,
        "make_dir" => Call::MakeDir,
        "remove" => Call::Remove,
        "start" => Call::Start,
        "wait" => Call::Wait,
        _ => return None,
    })
}
