//! The banks as they are kept.
ghost use Rattle.std.specs.Prelude.{◌≡◌, ◌≢◌, ◌+◌, ◌<◌, ◌≤◌, ◌↔◌, ◌∷◌, ◌++◌, List, ℕ, [], length, reverse, IsTrue, IfOk, not, if◌then◌else◌, vec_len};
ghost use Rattle.std.specs.Vec.{vec_capacity};
ghost use Rattle.mem_banks.specs.Past.{bytes_in, IsWhole, IsWhole-prop, is_dirty, choice, one_of, same_bank, overwritten, spliced, wrote, synced};
ghost use Rattle.world_api.specs.declared.disk.Bank.TheVariants as banks;

use crate::change::{Change, Write};
use crate::outcome::leave;
use crate::overwrite::overwrite;
use scons_base::Memory;
use std::alloc::Global;
use world_api::Bank;

/// How many bytes a bank has room for.
pub const BANK_ROOM: usize = 4_194_304;

/// How many bytes of writes are recorded.
pub const WRITTEN_ROOM: usize = 8_388_608;

/// How many writes and syncs are recorded.
pub const CALL_ROOM: usize = 262_144;

/// Two banks, with the record of what was written and synced.
#[derive(Debug, Drop)]
pub struct MemBanks {
    a: Vec<u8>,
    b: Vec<u8>,
    changes: Vec<Change>,
    saved: Vec<u8>,
    written: usize,
    dirty_a: bool,
    dirty_b: bool,
    ghost room_a: { 4194304 ≤ vec_capacity a },
    ghost room_b: { 4194304 ≤ vec_capacity b },
    ghost room: { 262144 ≤ vec_capacity changes },
    ghost saved_room: { 8388608 ≤ vec_capacity saved },
    ghost saved_within: { vec_len saved ≤ written },
    ghost written_within: { written ≤ 8388608 },
    ghost whole: { IsWhole (reverse changes.items) a.items b.items saved.items } by { IsWhole-prop (reverse changes.items) a.items b.items saved.items },
    ghost clean_a: { dirty_a ≡ is_dirty banks.A (reverse changes.items) },
    ghost clean_b: { dirty_b ≡ is_dirty banks.B (reverse changes.items) },
}

impl MemBanks {
    ghost use Rattle.mem_banks.specs.AsStore.{store_of};
    ghost use Rattle.std.specs.Prelude.{◌%◌};
    ghost use Rattle.mem_banks.specs.Past.{IsImage, synced_in};
    ghost use Rattle.mem_banks.specs.Picks.{left_of};

    /// Two empty banks.
    pub fn new(alloc: Global) -> Result<MemBanks, Memory>
        ensures empty { IfOk result (λ banks. (bank : Bank) → bytes_in (store_of banks) bank ≡ []) }
        ensures changes { IfOk result (λ banks. (store_of banks).changes ≡ []) }
        ensures written { IfOk result (λ banks. banks.written ≡ 0) }
    {
        let a = Vec::with_capacity(alloc, BANK_ROOM)?;
        let b = Vec::with_capacity(alloc, BANK_ROOM)?;
        let changes = Vec::with_capacity(alloc, CALL_ROOM)?;
        let saved = Vec::with_capacity(alloc, WRITTEN_ROOM)?;
        Ok(MemBanks {
            a,
            b,
            changes,
            saved,
            written: 0,
            dirty_a: false,
            dirty_b: false,
        })
    }

    pub fn bytes(&self, bank: Bank) -> &[u8]
        ensures { result.now ≡ bytes_in (store_of self.now) bank }
    {
        match bank {
            Bank::A => self.a.as_slice(),
            Bank::B => self.b.as_slice(),
        }
    }

    fn len(&self, bank: Bank) -> usize
        ensures { result ≡ length (bytes_in (store_of self.now) bank) }
    {
        self.bytes(bank).len()
    }

    /// Whether a stop leaves the bank as it reads.
    pub fn is_synced(&self, bank: Bank) -> bool
        ensures { result ≡ not (is_dirty bank (store_of self.now).changes) }
    {
        match bank {
            Bank::A => !self.dirty_a,
            Bank::B => !self.dirty_b,
        }
    }

    /// How many writes and syncs are recorded.
    pub fn calls(&self) -> usize
        ensures { result ≡ length (store_of self.now).changes }
    {
        self.changes.len()
    }

    /// How many bytes of writes are recorded.
    pub fn written(&self) -> usize
        ensures { result ≡ self.now.written }
    {
        self.written
    }

    /// Puts bytes at a place of a bank. It counts as a write of `count` bytes.
    pub fn write(&mut self, bank: Bank, place: usize, bytes: &[u8], count: usize)
        requires within { place ≤ length (bytes_in (store_of self.old) bank) }
        requires count { length bytes.now ≤ count }
        requires room { place + count ≤ 4194304 }
        requires calls { length (store_of self.old).changes < 262144 }
        requires total { self.old.written + count ≤ 8388608 }
        ensures wrote { store_of self.new ≡ wrote bank place bytes.now count (store_of self.old) }
        ensures written { self.new.written ≡ self.old.written + count }
    {
        let size = self.len(bank);
        let kept = put(
            &mut self.a,
            &mut self.b,
            &mut self.saved,
            bank,
            place,
            bytes,
        );
        self.dirty_a = dirty_after(self.dirty_a, bank, Bank::A, true);
        self.dirty_b = dirty_after(self.dirty_b, bank, Bank::B, true);
        self.written += count;
        let write = Write {
            bank,
            place,
            count,
            size,
            kept,
        };
        note(&mut self.changes, Change::Wrote(write));
    }

    /// Makes a stop leave a bank as it reads.
    pub fn sync(&mut self, bank: Bank)
        requires { length (store_of self.old).changes < 262144 }
        ensures synced { store_of self.new ≡ synced bank (store_of self.old) }
        ensures written { self.new.written ≡ self.old.written }
    {
        self.dirty_a = dirty_after(self.dirty_a, bank, Bank::A, false);
        self.dirty_b = dirty_after(self.dirty_b, bank, Bank::B, false);
        note(&mut self.changes, Change::Synced(bank));
    }

    /// What a stop may leave of a bank: one outcome, chosen by `pick`. By 0 every write stands, by 1 none that wasn't synced.
    pub fn outcome(&self, alloc: Global, bank: Bank, pick: u32) -> Result<Vec<u8>, Memory>
        ensures image { IfOk result (λ bytes. IsImage (store_of self.now) bank bytes.items) }
        ensures picked { IfOk result (λ bytes. bytes.items ≡ left_of pick (store_of self.now) bank) }
        ensures stands { pick ≡ 0 → IfOk result (λ bytes. bytes.items ≡ bytes_in (store_of self.now) bank) }
        ensures lost { pick % 4 ≡ 1 → IfOk result (λ bytes. bytes.items ≡ synced_in (store_of self.now) bank) }
        ensures small { IfOk result (λ bytes. vec_len bytes ≤ 4194304) }
    {
        let mut bytes = Vec::from_slice(alloc, self.bytes(bank))?;
        leave(
            alloc,
            &mut bytes,
            self.changes.as_slice(),
            self.saved.as_slice(),
            bank,
            pick,
        )?;
        Ok(bytes)
    }

    /// The banks after a stop that left these bytes.
    pub fn reset(&mut self, a: &[u8], b: &[u8])
        requires small_a { length a.now ≤ 4194304 }
        requires small_b { length b.now ≤ 4194304 }
        ensures a { bytes_in (store_of self.new) banks.A ≡ a.now }
        ensures b { bytes_in (store_of self.new) banks.B ≡ b.now }
        ensures changes { (store_of self.new).changes ≡ [] }
        ensures written { self.new.written ≡ 0 }
    {
        self.changes.clear();
        self.saved.clear();
        self.written = 0;
        self.dirty_a = false;
        self.dirty_b = false;
        refill(&mut self.a, a);
        refill(&mut self.b, b);
    }
}

/// Puts a change at the end of a record that has the room.
fn note(changes: &mut Vec<Change>, change: Change)
    requires { vec_len changes.old < vec_capacity changes.old }
    ensures items { changes.new.items ≡ changes.old.items ++ change ∷ [] }
    ensures capacity { vec_capacity changes.old ≤ vec_capacity changes.new }
{
    changes.push(change).unwrap();
}

/// Whether a bank is dirty once one was written or synced.
fn dirty_after(dirty: bool, changed: Bank, bank: Bank, becomes: bool) -> bool
    ensures { result ≡ (if same_bank changed bank then becomes else dirty) }
{
    match (changed, bank) {
        (Bank::A, Bank::A) | (Bank::B, Bank::B) => becomes,
        _ => dirty,
    }
}

/// Puts bytes at a place of one of two banks. Says how many were overwritten.
fn put(
    a: &mut Vec<u8>,
    b: &mut Vec<u8>,
    saved: &mut Vec<u8>,
    bank: Bank,
    place: usize,
    written: &[u8],
) -> usize
    requires within { place ≤ length (one_of bank a.old.items b.old.items) }
    requires room_a { place + length written.now ≤ vec_capacity a.old }
    requires room_b { place + length written.now ≤ vec_capacity b.old }
    requires saved_room { vec_len saved.old + length written.now ≤ vec_capacity saved.old }
    ensures kept { result ≡ length (overwritten place written.now (one_of bank a.old.items b.old.items)) }
    ensures a { a.new.items ≡ choice (same_bank bank banks.A) (spliced place written.now a.old.items) a.old.items }
    ensures b { b.new.items ≡ choice (same_bank bank banks.B) (spliced place written.now b.old.items) b.old.items }
    ensures saved { saved.new.items ≡ saved.old.items ++ overwritten place written.now (one_of bank a.old.items b.old.items) }
    ensures saved_len { vec_len saved.new ≤ vec_len saved.old + length written.now }
    ensures capacity_a { vec_capacity a.old ≤ vec_capacity a.new }
    ensures capacity_b { vec_capacity b.old ≤ vec_capacity b.new }
    ensures saved_capacity { vec_capacity saved.old ≤ vec_capacity saved.new }
{
    match bank {
        Bank::A => overwrite(a, saved, place, written),
        Bank::B => overwrite(b, saved, place, written),
    }
}

/// Puts other bytes in the place of those of a vector that has the room.
fn refill(bytes: &mut Vec<u8>, other: &[u8])
    requires { length other.now ≤ vec_capacity bytes.old }
    ensures items { bytes.new.items ≡ other.now }
    ensures capacity { vec_capacity bytes.old ≤ vec_capacity bytes.new }
{
    bytes.clear();
    bytes.extend_from_slice(other).unwrap();
}
