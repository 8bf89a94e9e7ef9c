//! Reading and beginning: which bank counts, its entries, the mending of its end, and compaction.
ghost use Rattle.std.specs.Prelude.{◌≡◌, ◌≤◌, ◌<◌, ◌≢◌, ◌+◌, ◌-◌, ◌^◌, length, IfOk, IfErr, OnOk, OnErr};
ghost use Rattle.world_api.specs.Causes.{DiskFails};
ghost use Rattle.world_api.specs.Meaning.{BanksKept, Told, Throughout};
ghost use Rattle.world_api.specs.declared.disk.Bank.TheVariants as side;
ghost use Rattle.sign_store.specs.Beginnings.{BeginsOver, EndsInside, GoesOver, HasEntriesOf, HasGateOf, IsAsBefore};
ghost use Rattle.sign_store.specs.Beginnings.{IsAtRest, IsOtherBank, OpensAs, ReadsToEnd};
ghost use Rattle.sign_store.specs.Changing.{BeginsThroughout, Compacts, CompactsThroughout, GoesOverThroughout, GoesOverTo};
ghost use Rattle.sign_store.specs.Changing.{Mends, MendsThroughout, Reopens, ReopensAs, ReopensThroughout};
ghost use Rattle.sign_store.specs.Changing.{Starts, StartsThroughout};
ghost use Rattle.sign_store.specs.Ends.{ReadsAsBefore, image_in};
ghost use Rattle.sign_store.specs.Maps.{map_in};
ghost use Rattle.sign_store.specs.Orders.{IsOrdered};
ghost use Rattle.sign_store.specs.Reached.{HasFaultCause, KeepsSettled, LeavesBanks, ReadsBanks, RestsUnlessFault};
ghost use Rattle.sign_store.specs.Readings.{AreReadable, IsOutside, IsRefusal, choice_of};

use crate::banks::{Sizes, fill, read_head, sizes_of, write_synced};
use crate::blocks::load_bank;
use crate::compact::{FIRST_GENERATION, can_be_due, compact_form, empty_form, is_due};
use crate::compact_len::compact_len;
use crate::entries::EndGate;
use crate::head::{Choice, Edition, HEAD_LEN, chosen, other};
use crate::map::RecordMap;
use crate::refusals::StoreRefusal;
use deciders::Version;
use scons_base::limits::BANK_LIMIT;
use std::alloc::Global;
use world_api::{Bank, Disk, Fault};

/// A live bank, and what its entries stand for.
#[derive(Drop)]
pub(crate) struct Opened {
    pub map: RecordMap,
    pub bank: Bank,
    pub edition: Edition,
    /// The place of the last gate.
    pub end: u64,
}

/// A bank that was read: its map, and the place at which its entries end.
#[derive(Drop)]
pub(crate) struct Read {
    pub map: RecordMap,
    pub gate: EndGate,
    pub end: u64,
}

/// The sizes of the banks, and which bank counts.
#[tactic(auto, using(crate::proofs::DiskLemmas::calls))]
fn look<W: Disk>(world: &mut W) -> Result<(Sizes, Choice), StoreRefusal>
    ensures a { W.meaning.tells world.new → IfOk result (λ seen. seen.0.a ≡ length (W.meaning.seen world.new side.A)) }
    ensures b { W.meaning.tells world.new → IfOk result (λ seen. seen.0.b ≡ length (W.meaning.seen world.new side.B)) }
    ensures small { IfOk result (λ seen. (seen.0.a ≤ 2 ^ 40) × (seen.0.b ≤ 2 ^ 40)) }
    ensures choice { W.meaning.tells world.new → IfOk result (λ seen. seen.1 ≡ choice_of (W.meaning.seen world.new)) }
    ensures refused { W.meaning.tells world.new → IfErr result (IsRefusal (W.meaning.seen world.new)) }
    ensures cause { HasFaultCause W.meaning world.old world.new result }
    ensures looks { ReadsBanks W.meaning world.old world.new }
    ensures told { Told W.meaning world.old world.new }
{
    let sizes = sizes_of(world)?;
    let a = read_head(world, Bank::A, sizes.a)?;
    let b = read_head(world, Bank::B, sizes.b)?;
    Ok((sizes, chosen(a, b)))
}

/// What the entries of a live bank of this size stand for.
#[tactic(auto, using(crate::proofs::DiskLemmas::calls))]
fn read_bank<W: Disk>(
    alloc: Global,
    world: &mut W,
    bank: Bank,
    version: Version,
    size: u64,
) -> Result<Read, StoreRefusal>
    requires { W.meaning.tells world.old → size ≡ length (W.meaning.seen world.old bank) }
    ensures end { IfOk result (λ read. read.end ≤ size) }
    ensures inside { IfOk result (λ read. read.gate ≢ EndGate.Missing → read.end < size) }
    ensures size { W.meaning.tells world.new → size ≡ length (W.meaning.seen world.new bank) }
    ensures map { W.meaning.tells world.new → IfOk result (HasEntriesOf version (W.meaning.seen world.new bank)) }
    ensures ordered { IfOk result (λ read. IsOrdered read.map) }
    ensures written { W.meaning.tells world.new → 17 < size → IfOk result (ReadsToEnd version (W.meaning.seen world.new bank)) }
    ensures gate { W.meaning.tells world.new → 17 < size → IfOk result (HasGateOf (W.meaning.seen world.new bank)) }
    ensures refused { IfErr result IsOutside }
    ensures cause { HasFaultCause W.meaning world.old world.new result }
    ensures looks { ReadsBanks W.meaning world.old world.new }
    ensures told { Told W.meaning world.old world.new }
{
    let mut map = RecordMap::new(alloc);
    if size <= HEAD_LEN as u64 {
        return Ok(Read {
            map,
            gate: EndGate::Missing,
            end: size,
        });
    }
    let end = load_bank(alloc, world, bank, version, size, &mut map)?;
    Ok(Read {
        map,
        gate: end.gate,
        end: end.place,
    })
}

/// The map of the banks, without a change of theirs.
#[tactic(auto, using(crate::proofs::DiskLemmas::calls))]
pub(crate) fn read_map<W: Disk>(alloc: Global, world: &mut W) -> Result<RecordMap, StoreRefusal>
    ensures map { W.meaning.tells world.new → IfOk result (λ map. map_in map ≡ image_in (W.meaning.seen world.old)) }
    ensures readable { W.meaning.tells world.new → IfOk result (λ _. AreReadable (W.meaning.seen world.old)) }
    ensures refused { W.meaning.tells world.new → IfErr result (IsRefusal (W.meaning.seen world.old)) }
    ensures cause { HasFaultCause W.meaning world.old world.new result }
    ensures looks { ReadsBanks W.meaning world.old world.new }
    ensures told { Told W.meaning world.old world.new }
{
    let (sizes, choice) = look(world)?;
    match choice {
        Choice::None => Ok(RecordMap::new(alloc)),
        Choice::Foreign(bank) => Err(StoreRefusal::Foreign(bank)),
        Choice::Live(Bank::A, edition) => {
            Ok(read_bank(alloc, world, Bank::A, edition.version, sizes.a)?.map)
        }
        Choice::Live(Bank::B, edition) => {
            Ok(read_bank(alloc, world, Bank::B, edition.version, sizes.b)?.map)
        }
    }
}

/// Makes a stop leave the banks as they read.
fn settle<W: Disk>(world: &mut W) -> Result<(), Fault>
    ensures moments { Throughout W.meaning world.old world.new (IsAsBefore W.meaning world.old) }
    ensures rest { OnOk result (IsAtRest W.meaning world.new (W.meaning.around world.old)) }
    ensures banks { W.meaning.tells world.new → BanksKept W.meaning world.old world.new }
    ensures around { W.meaning.tells world.new → W.meaning.around world.new ≡ W.meaning.around world.old }
    ensures told { Told W.meaning world.old world.new }
    ensures kept { OnOk result (W.meaning.counts world.new ≡ W.meaning.counts world.old) }
    ensures rose { OnErr result (DiskFails (W.meaning.counts world.old) (W.meaning.counts world.new)) }
{
    world.sync(Bank::A)?;
    world.sync(Bank::B)
}

/// The map of the banks, with a live bank that ends at a closed gate. First a stop is made to leave the banks as they
/// read.
pub(crate) fn open<W: Disk>(alloc: Global, world: &mut W) -> Result<Opened, StoreRefusal>
    ensures moments { BeginsThroughout W.meaning world.old world.new }
    ensures opened { IfOk result (OpensAs W.meaning world.old world.new) }
    ensures reads { W.meaning.tells world.new → ReadsAsBefore W.meaning world.old world.new }
    ensures left { W.meaning.tells world.new → IfErr result (LeavesBanks W.meaning world.old world.new) }
    ensures begun { W.meaning.tells world.new → IfOk result (BeginsOver (W.meaning.seen world.old)) }
    ensures readable { W.meaning.tells world.new → IfOk result (λ _. AreReadable (W.meaning.seen world.old)) }
    ensures refused { W.meaning.tells world.new → IfErr result (IsRefusal (W.meaning.seen world.old)) }
    ensures end { IfOk result (λ opened. opened.end ≤ 2 ^ 40) }
    ensures stands { W.meaning.tells world.new → IfOk result (EndsInside (W.meaning.seen world.new)) }
    ensures cause { HasFaultCause W.meaning world.old world.new result }
    ensures around { W.meaning.tells world.new → W.meaning.around world.new ≡ W.meaning.around world.old }
    ensures told { Told W.meaning world.old world.new }
{
    settle(world)?;
    let (sizes, choice) = look(world)?;
    match choice {
        Choice::None => start(alloc, world),
        Choice::Foreign(bank) => Err(StoreRefusal::Foreign(bank)),
        Choice::Live(bank, edition) => reopen(alloc, world, bank, size_of(sizes, bank), edition),
    }
}

fn size_of(sizes: Sizes, bank: Bank) -> u64
    ensures a { bank ≡ side.A → result ≡ sizes.a }
    ensures b { bank ≡ side.B → result ≡ sizes.b }
{
    match bank {
        Bank::A => sizes.a,
        Bank::B => sizes.b,
    }
}

/// Makes bank A live, with no entry.
fn start<W: Disk>(alloc: Global, world: &mut W) -> Result<Opened, StoreRefusal>
    ensures moments { StartsThroughout W.meaning world.old world.new }
    ensures opened { Starts W.meaning world.old world.new result }
    ensures first { IfOk result (λ opened. (opened.bank ≡ side.A) × (opened.end ≡ 17)) }
    ensures refused { IfErr result IsOutside }
    ensures rests { IfErr result (RestsUnlessFault W.meaning world.old world.new) }
    ensures end { IfOk result (λ opened. opened.end ≤ 2 ^ 40) }
    ensures stands { W.meaning.tells world.new → IfOk result (EndsInside (W.meaning.seen world.new)) }
    ensures cause { HasFaultCause W.meaning world.old world.new result }
    ensures around { W.meaning.tells world.new → W.meaning.around world.new ≡ W.meaning.around world.old }
    ensures told { Told W.meaning world.old world.new }
{
    let form = empty_form(alloc)?;
    fill(world, Bank::A, form.as_slice())?;
    Ok(Opened {
        map: RecordMap::new(alloc),
        bank: Bank::A,
        edition: Edition {
            version: Version::Two,
            generation: FIRST_GENERATION,
        },
        end: form.len() as u64,
    })
}

/// Reads a live bank, mends its end, and goes over to the other bank where the bank is of version 1 or that is worth it.
fn reopen<W: Disk>(
    alloc: Global,
    world: &mut W,
    bank: Bank,
    size: u64,
    edition: Edition,
) -> Result<Opened, StoreRefusal>
    requires size { W.meaning.tells world.old → size ≡ length (W.meaning.seen world.old bank) }
    requires small { size ≤ 2 ^ 40 }
    ensures moments { ReopensThroughout W.meaning world.old world.new bank edition }
    ensures opened { Reopens W.meaning world.old world.new bank edition result }
    ensures over { W.meaning.tells world.new → ReopensAs W.meaning world.old bank edition result }
    ensures refused { IfErr result IsOutside }
    ensures rests { IfErr result (RestsUnlessFault W.meaning world.old world.new) }
    ensures end { IfOk result (λ opened. opened.end ≤ 2 ^ 40) }
    ensures stands { W.meaning.tells world.new → IfOk result (EndsInside (W.meaning.seen world.new)) }
    ensures cause { HasFaultCause W.meaning world.old world.new result }
    ensures around { W.meaning.tells world.new → W.meaning.around world.new ≡ W.meaning.around world.old }
    ensures told { Told W.meaning world.old world.new }
{
    let read = read_bank(alloc, world, bank, edition.version, size)?;
    mend(world, bank, read.gate, read.end)?;
    let opened = Opened {
        map: read.map,
        bank,
        edition,
        end: read.end,
    };
    compact(alloc, world, opened)
}

/// Closes the gate at which the entries of a bank ended, where it isn't closed.
fn mend<W: Disk>(world: &mut W, bank: Bank, gate: EndGate, end: u64) -> Result<(), Fault>
    requires within { W.meaning.tells world.old → end ≤ length (W.meaning.seen world.old bank) }
    requires gate { W.meaning.tells world.old → gate ≢ EndGate.Missing → end < length (W.meaning.seen world.old bank) }
    requires small { end ≤ 2 ^ 40 }
    ensures moments { MendsThroughout W.meaning world.old world.new bank gate end }
    ensures mended { Mends W.meaning world.old world.new bank gate end result }
    ensures settled { OnOk result (KeepsSettled W.meaning world.old world.new) }
    ensures stands { W.meaning.tells world.new → OnOk result (end < length (W.meaning.seen world.new bank)) }
    ensures around { W.meaning.tells world.new → W.meaning.around world.new ≡ W.meaning.around world.old }
    ensures told { Told W.meaning world.old world.new }
    ensures kept { OnOk result (W.meaning.counts world.new ≡ W.meaning.counts world.old) }
    ensures rose { OnErr result (DiskFails (W.meaning.counts world.old) (W.meaning.counts world.new)) }
{
    match gate {
        EndGate::Closed => Ok(()),
        _ => write_synced(world, bank, end, &[0]),
    }
}

/// Goes over to the other bank with the compact form of the map, where the bank is of version 1 or that is worth it.
fn compact<W: Disk>(alloc: Global, world: &mut W, opened: Opened) -> Result<Opened, StoreRefusal>
    requires end { opened.end ≤ 2 ^ 40 }
    requires ordered { IsOrdered opened.map }
    requires stands { W.meaning.tells world.old → opened.end < length (W.meaning.seen world.old opened.bank) }
    ensures moments { CompactsThroughout W.meaning world.old world.new opened }
    ensures opened { Compacts W.meaning world.old world.new opened result }
    ensures over { IsOrdered opened.map → IfOk result (GoesOver opened) }
    ensures refused { IfErr result IsOutside }
    ensures rests { IfErr result (RestsUnlessFault W.meaning world.old world.new) }
    ensures end { IfOk result (λ opened. opened.end ≤ 2 ^ 40) }
    ensures stands { W.meaning.tells world.new → IfOk result (EndsInside (W.meaning.seen world.new)) }
    ensures cause { HasFaultCause W.meaning world.old world.new result }
    ensures around { W.meaning.tells world.new → W.meaning.around world.new ≡ W.meaning.around world.old }
    ensures told { Told W.meaning world.old world.new }
{
    let live = opened.end + 1;
    if !can_be_due(opened.edition, live) {
        return Ok(opened);
    }
    let compact = compact_len(&opened.map);
    if !is_due(opened.edition.version, live, compact) {
        return Ok(opened);
    }
    // Records of version 1 are shorter, so that their form can pass what a bank may have.
    if compact > BANK_LIMIT {
        return Err(StoreRefusal::Memory);
    }
    let form = compact_form(alloc, &opened.map, opened.edition.generation + 1)?;
    go_over(world, opened, form.as_slice())
}

/// Fills the other bank with this form of the map, in the next generation.
fn go_over<W: Disk>(world: &mut W, opened: Opened, form: &[u8]) -> Result<Opened, StoreRefusal>
    requires next { opened.edition.generation < 2 ^ 64 - 1 }
    requires small { length form.now ≤ 2 ^ 40 }
    ensures moments { GoesOverThroughout W.meaning world.old world.new opened form.now }
    ensures opened { GoesOverTo W.meaning world.old world.new opened form.now result }
    ensures over { IfOk result (IsOtherBank opened (length form.now)) }
    ensures refused { IfErr result IsOutside }
    ensures rests { IfErr result (RestsUnlessFault W.meaning world.old world.new) }
    ensures end { IfOk result (λ opened. opened.end ≤ 2 ^ 40) }
    ensures stands { W.meaning.tells world.new → IfOk result (EndsInside (W.meaning.seen world.new)) }
    ensures cause { HasFaultCause W.meaning world.old world.new result }
    ensures around { W.meaning.tells world.new → W.meaning.around world.new ≡ W.meaning.around world.old }
    ensures told { Told W.meaning world.old world.new }
{
    let bank = other(opened.bank);
    fill(world, bank, form)?;
    Ok(Opened {
        map: opened.map,
        bank,
        edition: Edition {
            version: Version::Two,
            generation: opened.edition.generation + 1,
        },
        end: form.len() as u64,
    })
}
