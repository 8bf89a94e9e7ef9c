//! One of the outcomes that a stop may have.
ghost use Rattle.std.specs.Prelude.{◌≡◌, ◌≢◌, ◌+◌, ◌/◌, ◌≤◌, ◌%◌, length, reverse, vec_len, IfOk, OnOk};
ghost use Rattle.std.specs.Vec.{vec_capacity};
ghost use Rattle.mem_banks.specs.Past.{IsLeft, IsAt, Stands, restored, synced_bytes};
ghost use Rattle.mem_banks.specs.Picks.{cut_of, cut_short, left_as, torn_part};
ghost use Rattle.mem_banks.specs.declared.outcome.Cut.{Cut};
ghost use Rattle.world_api.specs.Banks.{Torn};

use crate::change::{Change, Write, is_same};
use crate::overwrite::{overwrite, restore};
use scons_base::Memory;
use std::alloc::Global;
use world_api::Bank;

/// What becomes of the writes of a bank that weren't synced: the newest are lost, as many as the pick's quarter says,
/// and of those that are left
#[derive(Clone, Copy, Debug, PartialEq, Eq)]
enum Cut {
    /// all stand;
    Stands,
    /// none does;
    Lost,
    /// the newest stands by half;
    Half,
    /// or is junk.
    Junk,
}

fn cut_of(pick: u32) -> Cut
    ensures { result ≡ cut_of pick }
{
    match pick % 4 {
        0 => Cut::Stands,
        1 => Cut::Lost,
        2 => Cut::Half,
        _ => Cut::Junk,
    }
}

/// Makes the bytes of a bank what a stop leaves of it. By pick 0 every write stands, by 1 none that wasn't synced.
pub fn leave(
    alloc: Global,
    bytes: &mut Vec<u8>,
    changes: &[Change],
    saved: &[u8],
    bank: Bank,
    pick: u32,
) -> Result<(), Memory>
    requires { IsAt bank (reverse changes.now) bytes.old.items saved.now }
    ensures left { OnOk result (IsLeft bank (reverse changes.now) bytes.old.items saved.now bytes.new.items) }
    ensures picked { OnOk result (bytes.new.items ≡ left_as (cut_of pick) (pick / 4) bank (reverse changes.now) bytes.old.items saved.now) }
    ensures stands { pick ≡ 0 → OnOk result (bytes.new.items ≡ bytes.old.items) }
    ensures lost { pick % 4 ≡ 1 → OnOk result (bytes.new.items ≡ synced_bytes bank (reverse changes.now) bytes.old.items saved.now) }
{
    let cut = cut_of(pick);
    let mut lost = pick / 4;
    let mut end = saved.len();
    let mut left = changes.len();
    while left > 0 {
        left -= 1;
        match changes[left] {
            Change::Synced(other) => {
                if is_same(other, bank) {
                    return Ok(());
                }
            }
            Change::Wrote(write) => {
                if is_same(write.bank, bank) {
                    if lost == 0 && cut == Cut::Stands {
                        return Ok(());
                    }
                    if lost == 0 && cut != Cut::Lost {
                        return tear(alloc, bytes, &saved[..end], &write, cut);
                    }
                    lost = lost.saturating_sub(1);
                    restore(bytes, &saved[..end], &write);
                }
                end -= write.kept;
            }
        }
    }
    Ok(())
}

/// Cuts one write short.
fn tear(
    alloc: Global,
    bytes: &mut Vec<u8>,
    saved: &[u8],
    write: &Write,
    cut: Cut,
) -> Result<(), Memory>
    requires stands { Stands write.now bytes.old.items saved.now }
    requires torn { (cut ≢ Cut.Stands) × (cut ≢ Cut.Lost) }
    ensures torn { OnOk result (Torn write.now.place write.now.count (restored write.now bytes.old.items saved.now) bytes.new.items) }
    ensures cut { OnOk result (bytes.new.items ≡ cut_short cut write.now bytes.old.items saved.now) }
{
    let part = torn_part(alloc, bytes.as_slice(), write, cut)?;
    let mut over = Vec::with_capacity(alloc, part.len())?;
    restore(bytes, saved, write);
    let _ = overwrite(bytes, &mut over, write.place, part.as_slice());
    Ok(())
}

/// What stands of a write that is cut short, from its place on.
fn torn_part(alloc: Global, bytes: &[u8], write: &Write, cut: Cut) -> Result<Vec<u8>, Memory>
    requires { write.now.place ≤ length bytes.now }
    ensures part { IfOk result (λ part. part.items ≡ torn_part cut write.now bytes.now) }
    ensures small { IfOk result (λ part. vec_len part ≤ write.now.count) }
    ensures within { IfOk result (λ part. write.now.place + vec_len part ≤ length bytes.now) }
{
    let half = write.count / 2;
    let rest = bytes.len() - write.place;
    let count = if half < rest { half } else { rest };
    if cut == Cut::Junk {
        return Ok(Vec::from_elem(alloc, 0xee, count)?);
    }
    Ok(Vec::from_slice(alloc, &bytes[write.place..write.place + count])?)
}
