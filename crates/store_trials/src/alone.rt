//! The rows that need no banks: include words, spellings of records, and when a rule has changed.
use crate::fields::{long_number, pair};
use crate::record::{decider_of, record_of};
use crate::shown::{put_found, put_hex};
use c_scanner::{Include, includes};
use deciders::{Version, changed, decode, encode, push_record, spelled_len};
use scons_base::Memory;
use scons_base::limits::PAYLOAD_LIMIT;
use std::alloc::{AllocError, Global};
use trial_text::Told;
use world_api::Hash;

/// Tells what a row gives. `false` where its verb needs banks.
pub(crate) fn put_alone(alloc: Global, told: &mut Told, verb: &str, rest: &str) -> bool {
    match verb {
        "" | "#" => {}
        "includes" => put_includes(alloc, told, rest),
        "encode" => put_encoded(alloc, told, Version::Two, rest),
        "decode" => put_decoded(alloc, told, Version::Two, rest),
        "encode1" => put_encoded(alloc, told, Version::One, rest),
        "decode1" => put_decoded(alloc, told, Version::One, rest),
        "changed" => put_changed(alloc, told, rest),
        _ => return false,
    }
    true
}

/// The include words of a file.
fn put_includes(alloc: Global, told: &mut Told, text: &str) {
    match unescaped(alloc, text) {
        Ok(file) => put_includes_of(alloc, told, file.as_str()),
        Err(_) => told.refuse(),
    }
}

/// In a file `\n` stands for a line feed, `\r` and `\t` for those bytes.
fn unescaped(alloc: Global, text: &str) -> Result<String, AllocError> {
    let text = text.replace(alloc, "\\n", "\n")?;
    let text = text.as_str().replace(alloc, "\\r", "\r")?;
    text.as_str().replace(alloc, "\\t", "\t")
}

fn put_includes_of(alloc: Global, told: &mut Told, file: &str) {
    match includes(alloc, file.as_bytes()) {
        Ok(found) => {
            for include in found.as_slice() {
                put_include(told, include);
            }
        }
        Err(_) => told.refuse(),
    }
}

/// An include word, with the mark that SCons's own pattern takes in front of it.
fn put_include(told: &mut Told, include: &Include) {
    told.put(if include.quoted { "\"" } else { "<" });
    told.put_bytes(include.name.as_slice());
    told.put("\n");
}

/// The spelling of a record, where it has one that is read as a record again.
fn put_encoded(alloc: Global, told: &mut Told, version: Version, text: &str) {
    let rec = record_of(alloc, told, text);
    if spelled_len(version, &rec) >= PAYLOAD_LIMIT {
        return told.put("none\n");
    }
    let mut bytes = Vec::new(alloc);
    if push_record(&mut bytes, version, &rec).is_err() {
        return told.refuse();
    }
    match decode(alloc, version, bytes.as_slice()) {
        Ok(Some(read)) if version == Version::Two || read.hash == Hash::Md5 => {
            put_spelling(told, encode(alloc, version, &read));
        }
        Ok(Some(_)) => told.refuse(),
        Ok(None) => told.put("none\n"),
        Err(_) => told.refuse(),
    }
}

fn put_spelling(told: &mut Told, bytes: Result<Vec<u8>, Memory>) {
    match bytes {
        Ok(bytes) => {
            put_hex(told, bytes.as_slice());
            told.put("\n");
        }
        Err(_) => told.refuse(),
    }
}

/// The record that bytes spell.
fn put_decoded(alloc: Global, told: &mut Told, version: Version, text: &str) {
    match hex::decode(alloc, text) {
        Ok(bytes) => put_decoded_of(alloc, told, version, bytes.as_slice()),
        Err(_) => told.refuse(),
    }
}

fn put_decoded_of(alloc: Global, told: &mut Told, version: Version, bytes: &[u8]) {
    match decode(alloc, version, bytes) {
        Ok(found) => put_found(told, found.as_ref()),
        Err(_) => told.refuse(),
    }
}

/// `DECIDER STAMP RECORD => RECORD`: the stamp of the first target is `-` where it is no file.
fn put_changed(alloc: Global, told: &mut Told, text: &str) {
    let Some((fields, now)) = text.split_once(" => ") else {
        return told.refuse();
    };
    let (decider, fields) = pair(told, fields);
    let (stamp, old) = pair(told, fields);
    let Some(decider) = decider_of(decider) else {
        return told.refuse();
    };
    let target = match stamp {
        "-" => None,
        stamp => Some(long_number(told, stamp)),
    };
    let old = record_of(alloc, told, old);
    let now = record_of(alloc, told, now);
    told.show(changed(decider, &old, &now, target));
    told.put("\n");
}
