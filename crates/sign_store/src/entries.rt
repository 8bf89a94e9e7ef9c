//! The entries of a bank.
ghost use Rattle.std.specs.Prelude.{◌≡◌, ◌≢◌, ◌+◌, ◌≤◌, ◌<◌, None, Some, length, MatchOption, IfOk, IfSome, OnOk};
ghost use Rattle.std.specs.Option.{option_map};
ghost use Rattle.deciders.specs.Reading.{record_in};
ghost use Rattle.sign_store.specs.Maps.{map_in};
ghost use Rattle.sign_store.specs.Orders.{IsOrdered, IsWholeChange};
ghost use Rattle.sign_store.specs.Gates.{IsGate};
ghost use Rattle.sign_store.specs.Readings.{IsReadTo};
ghost use Rattle.sign_store.specs.Images.{length_in, payload_in, put_in, change_in, entry_in, applied, after_entries, entries_map};

use crate::map::RecordMap;
use deciders::{Rec, Version, decode, decode_paths};
use scons_base::limits::PAYLOAD_LIMIT;
use scons_base::{Memory, Paths};
use std::alloc::Global;

/// The length of a record in the longest put.
const LONGEST_RECORD: usize = PAYLOAD_LIMIT as usize - 1;

/// What an entry does.
#[derive(Drop)]
enum Change {
    /// Gives each target of the record this record.
    Put(Rec),
    /// Takes away the records of these paths.
    Withdraw(Paths),
}

/// The gate at which the entries of a bank end.
#[derive(Clone, Copy, PartialEq, Eq)]
pub(crate) enum EndGate {
    Closed,
    /// The entry behind it can't be read.
    Open,
    /// It isn't there: the bank ends.
    Missing,
}

/// What the entries in a body stand for, up to where they end. `body` is what stands behind the head of a bank of this
/// version.
pub(crate) fn load(alloc: Global, version: Version, body: &[u8]) -> Result<RecordMap, Memory>
    ensures map { IfOk result (λ map. map_in map ≡ entries_map version body.now) }
{
    let mut map = RecordMap::new(alloc);
    apply_all(&mut map, alloc, version, body)?;
    Ok(map)
}

/// The gate at a place.
pub(crate) fn gate_at(body: &[u8], place: usize) -> EndGate
    ensures gate { IsGate result place body.now }
    ensures inside { result ≢ EndGate.Missing → place < length body.now }
{
    if place >= body.len() {
        return EndGate::Missing;
    }
    if body[place] == 1 {
        EndGate::Open
    } else {
        EndGate::Closed
    }
}

/// Applies one entry after the other, and says how many bytes they take.
pub(crate) fn apply_all(
    map: &mut RecordMap,
    alloc: Global,
    version: Version,
    body: &[u8],
) -> Result<usize, Memory>
    ensures map { OnOk result (map_in map.new ≡ after_entries version (length body.now) (map_in map.old) body.now) }
    ensures reads { IfOk result (λ len. IsReadTo version len (map_in map.old) (map_in map.new) body.now) }
    ensures ordered { IsOrdered map.old → OnOk result (IsOrdered map.new) }
    ensures len { IfOk result (λ len. len ≤ length body.now) }
{
    let mut len = 0;
    while let Some((change, size)) = first_entry(alloc, version, &body[len..])? {
        apply(map, change)?;
        len += size;
    }
    Ok(len)
}

fn apply(map: &mut RecordMap, change: Change) -> Result<(), Memory>
    ensures map { OnOk result (map_in map.new ≡ applied change (map_in map.old)) }
    ensures ordered { IsWholeChange change → IsOrdered map.old → OnOk result (IsOrdered map.new) }
{
    match change {
        Change::Put(rec) => map.put(rec),
        Change::Withdraw(paths) => {
            map.remove(paths.as_slice());
            Ok(())
        }
    }
}

/// The entry in front and its size, if one stands there whole.
fn first_entry(
    alloc: Global,
    version: Version,
    bytes: &[u8],
) -> Result<Option<(Change, usize)>, Memory>
    ensures entry { IfOk result (λ found. found ≡ entry_in version bytes.now) }
    ensures within { IfOk result (λ found. IfSome found (λ entry. (0 < entry.1) × (entry.1 ≤ length bytes.now))) }
    ensures whole { IfOk result (λ found. IfSome found (λ entry. IsWholeChange entry.0)) }
{
    let Some(payload) = first_payload(bytes) else {
        return Ok(None);
    };
    let size = payload.len() + 5;
    match change_of(alloc, version, payload)? {
        Some(change) => Ok(Some((change, size))),
        None => Ok(None),
    }
}

/// The payload behind an open gate and a length, if all of it is there.
fn first_payload(bytes: &[u8]) -> Option<&[u8]>
    ensures payload { MatchOption result (payload_in bytes.now ≡ None) (λ p. payload_in bytes.now ≡ Some p.now) }
    ensures within { IfSome result (λ payload. length payload.now + 5 ≤ length bytes.now) }
    ensures fits { IfSome result (λ payload. length payload.now ≤ 4294967295) }
{
    if bytes.len() < 5 || bytes[0] != 1 {
        return None;
    }
    let len = claimed_len(bytes);
    let rest = &bytes[5..];
    if len > rest.len() {
        return None;
    }
    Some(&rest[..len])
}

/// The length that an entry says its payload has.
pub(crate) fn claimed_len(bytes: &[u8]) -> usize
    requires { 5 ≤ length bytes.now }
    ensures len { result ≡ length_in bytes.now }
    ensures fits { result ≤ 4294967295 }
{
    u32::from_be_bytes([bytes[1], bytes[2], bytes[3], bytes[4]]) as usize
}

fn change_of(alloc: Global, version: Version, payload: &[u8]) -> Result<Option<Change>, Memory>
    requires { length payload.now ≤ 4294967295 }
    ensures change { IfOk result (λ found. found ≡ change_in version payload.now) }
    ensures whole { IfOk result (λ found. IfSome found IsWholeChange) }
{
    match payload {
        [1, rest @ ..] => put_of(alloc, version, rest),
        [2, rest @ ..] => Ok(decode_paths(alloc, rest)?.map(Change::Withdraw)),
        _ => Ok(None),
    }
}

fn put_of(alloc: Global, version: Version, bytes: &[u8]) -> Result<Option<Change>, Memory>
    requires { length bytes.now ≤ 4294967294 }
    ensures change { IfOk result (λ found. found ≡ option_map (put_in version (length bytes.now)) (record_in version bytes.now)) }
    ensures whole { IfOk result (λ found. IfSome found IsWholeChange) }
{
    match decode(alloc, version, bytes)? {
        Some(rec) => Ok(Some(put_in(version, bytes.len(), rec))),
        None => Ok(None),
    }
}

/// The put of a record that so many bytes spell. The longest of version 1 has no spelling in version 2: its targets have
/// no record.
fn put_in(version: Version, len: usize, rec: Rec) -> Change
    ensures { result ≡ put_in version len rec }
{
    match version {
        Version::One => {
            if len < LONGEST_RECORD {
                Change::Put(rec)
            } else {
                let Rec { targets, .. } = rec;
                Change::Withdraw(targets)
            }
        }
        Version::Two => Change::Put(rec),
    }
}
