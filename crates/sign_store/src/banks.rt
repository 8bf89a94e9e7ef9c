//! Reading and writing the banks of a disk.
ghost use Rattle.std.specs.Prelude.{◌≡◌, ◌≢◌, ◌≤◌, ◌<◌, ◌+◌, ◌^◌, ◌==◌, if◌then◌else◌, ℕ, length, drop, take, vec_len, IfOk, IfErr, OnOk, OnErr};
ghost use Rattle.world_api.specs.Causes.{DiskFails};
ghost use Rattle.world_api.specs.Meaning.{Told, IsSettled};
ghost use Rattle.world_api.specs.declared.disk.Bank.TheVariants as side;
ghost use Rattle.sign_store.specs.Changing.{CloseKeeps, ClosesThroughout, Fills, FillsThroughout};
ghost use Rattle.sign_store.specs.Ends.{IsTornThroughout, ReachesPlace, WritesAt};
ghost use Rattle.sign_store.specs.Forms.{IsShut};
ghost use Rattle.sign_store.specs.Heads.{head_of};
ghost use Rattle.sign_store.specs.Readings.{IsRefusal, IsOutside};
ghost use Rattle.sign_store.specs.Staging.{Publishes, PublishesThroughout, Spans, Stages, StaysBehind};
ghost use Rattle.sign_store.specs.Reached.{HasFaultCause, KeepsSettled, ReadsBanks, SeesTheSame, Writes};

use crate::head::{HEAD_LEN, Head, head_of};
use crate::refusals::StoreRefusal;
use scons_base::limits::BANK_LIMIT;
use std::alloc::Global;
use world_api::{Bank, Disk, Fault};

/// How many bytes each bank has.
#[derive(Clone, Copy)]
pub(crate) struct Sizes {
    pub a: u64,
    pub b: u64,
}

/// The sizes of the banks, neither of which is too large.
#[tactic(auto, using(crate::proofs::DiskLemmas::calls))]
pub(crate) fn sizes_of<W: Disk>(world: &mut W) -> Result<Sizes, StoreRefusal>
    ensures a { W.meaning.tells world.new → IfOk result (λ sizes. sizes.a ≡ length (W.meaning.seen world.new side.A)) }
    ensures b { W.meaning.tells world.new → IfOk result (λ sizes. sizes.b ≡ length (W.meaning.seen world.new side.B)) }
    ensures small { IfOk result (λ sizes. (sizes.a ≤ 2 ^ 40) × (sizes.b ≤ 2 ^ 40)) }
    ensures refused { W.meaning.tells world.new → IfErr result (IsRefusal (W.meaning.seen world.new)) }
    ensures cause { HasFaultCause W.meaning world.old world.new result }
    ensures seen { W.meaning.tells world.new → SeesTheSame W.meaning world.old world.new }
    ensures looks { ReadsBanks W.meaning world.old world.new }
    ensures told { Told W.meaning world.old world.new }
{
    let a = world.size(Bank::A)?;
    let b = world.size(Bank::B)?;
    if a > BANK_LIMIT {
        return Err(StoreRefusal::Large(a));
    }
    if b > BANK_LIMIT {
        return Err(StoreRefusal::Large(b));
    }
    Ok(Sizes { a, b })
}

/// The head of a bank of this size.
#[tactic(auto, using(crate::proofs::DiskLemmas::calls))]
pub(crate) fn read_head<W: Disk>(world: &mut W, bank: Bank, size: u64) -> Result<Head, Fault>
    requires { W.meaning.tells world.old → size ≡ length (W.meaning.seen world.old bank) }
    ensures head { W.meaning.tells world.new → IfOk result (λ head. head ≡ head_of (W.meaning.seen world.new bank)) }
    ensures closed { IfOk result (λ head. head ≡ Head.Closed → 17 < size) }
    ensures kept { OnOk result (W.meaning.counts world.new ≡ W.meaning.counts world.old) }
    ensures rose { OnErr result (DiskFails (W.meaning.counts world.old) (W.meaning.counts world.new)) }
    ensures seen { W.meaning.tells world.new → SeesTheSame W.meaning world.old world.new }
    ensures looks { ReadsBanks W.meaning world.old world.new }
    ensures told { Told W.meaning world.old world.new }
{
    if size <= HEAD_LEN as u64 {
        return Ok(Head::Short);
    }
    let mut front = [0; HEAD_LEN + 1];
    world.read_at(bank, 0, &mut front)?;
    Ok(head_of(&front))
}

/// So many bytes of a bank from a place on.
#[tactic(auto, using(crate::proofs::DiskLemmas::calls))]
pub(crate) fn read_part<W: Disk>(
    alloc: Global,
    world: &mut W,
    bank: Bank,
    place: u64,
    len: u64,
) -> Result<Vec<u8>, StoreRefusal>
    requires { W.meaning.tells world.old → place + len ≤ length (W.meaning.seen world.old bank) }
    ensures part { W.meaning.tells world.new → IfOk result (λ v. v.items ≡ take len (drop place (W.meaning.seen world.new bank))) }
    ensures len { IfOk result (λ part. vec_len part ≡ len) }
    ensures refused { IfErr result IsOutside }
    ensures cause { HasFaultCause W.meaning world.old world.new result }
    ensures looks { ReadsBanks W.meaning world.old world.new }
    ensures told { Told W.meaning world.old world.new }
{
    let mut part = vec![in alloc; 0; len as usize]?;
    world.read_at(bank, place, part.as_mut_slice())?;
    Ok(part)
}

/// Writes bytes at a place of a bank, and syncs it.
#[tactic(auto, using(crate::proofs::DiskLemmas::calls))]
pub(crate) fn write_synced<W: Disk>(
    world: &mut W,
    bank: Bank,
    place: u64,
    bytes: &[u8],
) -> Result<(), Fault>
    requires within { W.meaning.tells world.old → place ≤ length (W.meaning.seen world.old bank) }
    requires small { place + length bytes.now ≤ 2 ^ 41 }
    ensures written { WritesAt W.meaning bank place bytes.now world.old world.new result }
    ensures settled { W.meaning.tells world.new → OnOk result (IsSettled W.meaning world.new bank) }
    ensures moments { IsTornThroughout W.meaning bank place (length bytes.now) world.old world.new }
    ensures around { W.meaning.tells world.new → W.meaning.around world.new ≡ W.meaning.around world.old }
    ensures writes { Writes W.meaning bank world.old world.new }
    ensures told { Told W.meaning world.old world.new }
    ensures kept { OnOk result (W.meaning.counts world.new ≡ W.meaning.counts world.old) }
    ensures rose { OnErr result (DiskFails (W.meaning.counts world.old) (W.meaning.counts world.new)) }
{
    world.write_at(bank, place, bytes)?;
    world.sync(bank)
}

/// Writes an entry behind the closed gate at `end`, at the place up to which others were written there. The first one has
/// that gate for its own, which stays closed. Nothing is synced.
#[tactic(auto, using(crate::proofs::DiskLemmas::calls))]
pub(crate) fn stage<W: Disk>(
    world: &mut W,
    bank: Bank,
    end: u64,
    place: u64,
    entry: &[u8],
) -> Result<(), Fault>
    requires behind { end ≤ place }
    requires within { W.meaning.tells world.old → Spans end place (W.meaning.seen world.old bank) }
    requires small { place + length entry.now + 1 ≤ 2 ^ 41 }
    ensures stays { StaysBehind W.meaning world.old world.new bank end }
    ensures staged { Stages W.meaning world.old world.new bank end place entry.now result }
    ensures within { W.meaning.tells world.new → OnOk result (Spans end (place + length entry.now) (W.meaning.seen world.new bank)) }
    ensures around { W.meaning.tells world.new → W.meaning.around world.new ≡ W.meaning.around world.old }
    ensures writes { Writes W.meaning bank world.old world.new }
    ensures told { Told W.meaning world.old world.new }
    ensures kept { OnOk result (W.meaning.counts world.new ≡ W.meaning.counts world.old) }
    ensures rose { OnErr result (DiskFails (W.meaning.counts world.old) (W.meaning.counts world.new)) }
{
    let skip = gate_len(end, place);
    let behind = &entry[skip.min(entry.len())..];
    world.write_at(bank, place + skip as u64, behind)
}

/// How much of an entry stands at its place already: the gate of the first.
fn gate_len(end: u64, place: u64) -> usize
    ensures { result ≡ (if place == end then 1 else 0) }
{
    if place == end { 1 } else { 0 }
}

/// Closes the gate behind the entries that were written up to `place`, syncs them, and then opens the gate at `end`, in
/// front of the first: from there on all of them count.
#[tactic(auto, using(crate::proofs::DiskLemmas::calls))]
pub(crate) fn publish<W: Disk>(world: &mut W, bank: Bank, end: u64, place: u64) -> Result<(), Fault>
    requires behind { end ≤ place }
    requires within { W.meaning.tells world.old → Spans end place (W.meaning.seen world.old bank) }
    requires small { place + 1 ≤ 2 ^ 41 }
    ensures end { ReachesPlace W.meaning bank place world.new result }
    ensures moments { PublishesThroughout W.meaning world.old world.new bank end place }
    ensures keeps { Publishes W.meaning world.old world.new bank end place result }
    ensures settled { W.meaning.tells world.new → OnOk result (IsSettled W.meaning world.new bank) }
    ensures around { W.meaning.tells world.new → W.meaning.around world.new ≡ W.meaning.around world.old }
    ensures writes { Writes W.meaning bank world.old world.new }
    ensures told { Told W.meaning world.old world.new }
    ensures kept { OnOk result (W.meaning.counts world.new ≡ W.meaning.counts world.old) }
    ensures rose { OnErr result (DiskFails (W.meaning.counts world.old) (W.meaning.counts world.new)) }
{
    if place == end {
        return world.sync(bank);
    }
    write_synced(world, bank, place, &[0])?;
    write_synced(world, bank, end, &[1])
}

/// Fills a bank that isn't live with what stands behind its gate, and then opens the gate. A gate that is closed
/// already stays as it is, since torn bytes may stand behind it.
pub(crate) fn fill<W: Disk>(world: &mut W, bank: Bank, form: &[u8]) -> Result<(), Fault>
    requires { 1 + length form.now ≤ 2 ^ 41 }
    ensures moments { FillsThroughout W.meaning world.old world.new bank form.now }
    ensures filled { Fills W.meaning world.old world.new bank form.now result }
    ensures len { W.meaning.tells world.new → OnOk result (length form.now < length (W.meaning.seen world.new bank)) }
    ensures around { W.meaning.tells world.new → W.meaning.around world.new ≡ W.meaning.around world.old }
    ensures told { Told W.meaning world.old world.new }
    ensures kept { OnOk result (W.meaning.counts world.new ≡ W.meaning.counts world.old) }
    ensures rose { OnErr result (DiskFails (W.meaning.counts world.old) (W.meaning.counts world.new)) }
{
    close(world, bank)?;
    fill_closed(world, bank, form)
}

/// Closes the gate of a bank, where it is open or the bank is too short for one to count.
fn close<W: Disk>(world: &mut W, bank: Bank) -> Result<(), Fault>
    ensures moments { ClosesThroughout W.meaning world.old world.new bank }
    ensures spare { CloseKeeps W.meaning world.old world.new bank result }
    ensures gate { W.meaning.tells world.new → OnOk result (IsShut (W.meaning.seen world.new bank)) }
    ensures around { W.meaning.tells world.new → W.meaning.around world.new ≡ W.meaning.around world.old }
    ensures told { Told W.meaning world.old world.new }
    ensures kept { OnOk result (W.meaning.counts world.new ≡ W.meaning.counts world.old) }
    ensures rose { OnErr result (DiskFails (W.meaning.counts world.old) (W.meaning.counts world.new)) }
{
    match head_at(world, bank)? {
        Head::Closed => Ok(()),
        _ => write_synced(world, bank, 0, &[0]),
    }
}

/// The head of a bank.
#[tactic(auto, using(crate::proofs::DiskLemmas::calls))]
fn head_at<W: Disk>(world: &mut W, bank: Bank) -> Result<Head, Fault>
    ensures head { W.meaning.tells world.new → IfOk result (λ head. head ≡ head_of (W.meaning.seen world.new bank)) }
    ensures kept { OnOk result (W.meaning.counts world.new ≡ W.meaning.counts world.old) }
    ensures rose { OnErr result (DiskFails (W.meaning.counts world.old) (W.meaning.counts world.new)) }
    ensures looks { ReadsBanks W.meaning world.old world.new }
    ensures told { Told W.meaning world.old world.new }
{
    let size = world.size(bank)?;
    read_head(world, bank, size)
}

/// The same of a bank whose gate is closed.
fn fill_closed<W: Disk>(world: &mut W, bank: Bank, form: &[u8]) -> Result<(), Fault>
    requires gate { W.meaning.tells world.old → IsShut (W.meaning.seen world.old bank) }
    requires small { 1 + length form.now ≤ 2 ^ 41 }
    ensures moments { FillsThroughout W.meaning world.old world.new bank form.now }
    ensures filled { Fills W.meaning world.old world.new bank form.now result }
    ensures len { W.meaning.tells world.new → OnOk result (length form.now < length (W.meaning.seen world.new bank)) }
    ensures around { W.meaning.tells world.new → W.meaning.around world.new ≡ W.meaning.around world.old }
    ensures told { Told W.meaning world.old world.new }
    ensures kept { OnOk result (W.meaning.counts world.new ≡ W.meaning.counts world.old) }
    ensures rose { OnErr result (DiskFails (W.meaning.counts world.old) (W.meaning.counts world.new)) }
{
    write_synced(world, bank, 1, form)?;
    write_synced(world, bank, 0, &[1])
}
