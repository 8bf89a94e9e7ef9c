//! Reading the entries of a bank, a block at a time.
ghost use Rattle.std.specs.Prelude.{◌≡◌, ◌≢◌, ◌+◌, ◌≤◌, ◌<◌, None, length, max, IfOk, IfErr, IfSome, OnOk};
ghost use Rattle.world_api.specs.Meaning.{Told};
ghost use Rattle.sign_store.specs.Blocks.{EndsThere, ShowsEnd};
ghost use Rattle.sign_store.specs.Images.{entry_in};
ghost use Rattle.sign_store.specs.Maps.{map_in};
ghost use Rattle.sign_store.specs.Orders.{IsOrdered};
ghost use Rattle.sign_store.specs.Reached.{HasFaultCause, ReadsBanks};
ghost use Rattle.sign_store.specs.Readings.{IsOutside};

use crate::banks::read_part;
use crate::entries::{EndGate, apply_all, claimed_len, gate_at};
use crate::head::HEAD_LEN;
use crate::map::RecordMap;
use crate::refusals::StoreRefusal;
use deciders::Version;
use std::alloc::Global;
use world_api::{Bank, Disk};

/// How many bytes are read at a time, where no entry is longer.
const BLOCK_LEN: u64 = 131_072;

/// The bytes of an entry up to the first of its payload, which says what it does.
const FRONT_LEN: u64 = 6;

/// Where the entries of a bank end.
#[derive(Clone, Copy)]
pub(crate) struct End {
    /// The place of the last gate.
    pub place: u64,
    pub gate: EndGate,
}

/// Applies the entries of a bank of this version and size, one after the other, up to where they end. What a block cuts is read
/// again with the next one.
#[tactic(auto, using(crate::proofs::DiskLemmas::reads_same))]
pub(crate) fn load_bank<W: Disk>(
    alloc: Global,
    world: &mut W,
    bank: Bank,
    version: Version,
    size: u64,
    map: &mut RecordMap,
) -> Result<End, StoreRefusal>
    requires size { W.meaning.tells world.old → size ≡ length (W.meaning.seen world.old bank) }
    requires long { 17 < size }
    ensures place { IfOk result (λ end. (17 ≤ end.place) × (end.place ≤ size)) }
    ensures inside { IfOk result (λ end. end.gate ≢ EndGate.Missing → end.place < size) }
    ensures read { W.meaning.tells world.new → IfOk result (EndsThere version (map_in map.old) (map_in map.new) (W.meaning.seen world.new bank)) }
    ensures ordered { IsOrdered map.old → OnOk result (IsOrdered map.new) }
    ensures refused { IfErr result IsOutside }
    ensures cause { HasFaultCause W.meaning world.old world.new result }
    ensures looks { ReadsBanks W.meaning world.old world.new }
    ensures told { Told W.meaning world.old world.new }
{
    let mut place = HEAD_LEN as u64;
    let mut want = BLOCK_LEN;
    loop {
        let part = read_part(alloc, world, bank, place, want.min(size - place))?;
        let bytes = part.as_slice();
        let len = apply_all(map, alloc, version, bytes)?;
        let rest = &bytes[len..];
        place += len as u64;
        match needed(version, rest, size - place) {
            Some(more) => want = want.max(more),
            None => {
                let gate = gate_at(rest, 0);
                return Ok(End { place, gate });
            }
        }
    }
}

/// How many bytes have to be known, to tell whether an entry stands at a place with these bytes and so many to the
/// bank's end; none where it's clear that no entry does. All that is whole in the bytes was read before.
fn needed(version: Version, front: &[u8], left: u64) -> Option<u64>
    requires within { length front.now ≤ left }
    requires none { entry_in version front.now ≡ None }
    ensures ends { result ≡ None → ShowsEnd version left front.now }
    ensures more { IfSome result (λ more. (length front.now < left) × (length front.now < more) × (more ≤ max left 6)) }
{
    let len = front.len() as u64;
    if len == left {
        return None;
    }
    if len < FRONT_LEN {
        return Some(FRONT_LEN);
    }
    if front[0] != 1 || front[5] == 0 || front[5] > 2 {
        return None;
    }
    let whole = claimed_len(front) as u64 + 5;
    if whole <= len || whole > left {
        return None;
    }
    Some(whole)
}
