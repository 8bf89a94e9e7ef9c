//! Whether banks of given bytes have a record of a path.
ghost use Rattle.std.specs.Prelude.{◌≡◌, IfOk};
ghost use Rattle.std.specs.Option.{is_some};
ghost use Rattle.sign_store.specs.Images.{body_of, entries_map, image_of};

use crate::entries::load;
use crate::head::{Choice, HEAD_LEN, chosen, head_of};
use deciders::Version;
use scons_base::{Memory, PathText};
use std::alloc::Global;
use world_api::Bank;

/// Whether two banks of these bytes stand for a map that has a record of the path.
pub fn recorded(alloc: Global, a: &[u8], b: &[u8], path: &PathText) -> Result<bool, Memory>
    ensures { IfOk result (λ found. found ≡ is_some (image_of a.now b.now path.now)) }
{
    match chosen(head_of(a), head_of(b)) {
        Choice::Live(Bank::A, edition) => has_record(alloc, edition.version, a, path),
        Choice::Live(Bank::B, edition) => has_record(alloc, edition.version, b, path),
        _ => Ok(false),
    }
}

fn has_record(alloc: Global, version: Version, bank: &[u8], path: &PathText) -> Result<bool, Memory>
    ensures { IfOk result (λ found. found ≡ is_some (entries_map version (body_of bank.now) path.now)) }
{
    let start = HEAD_LEN.min(bank.len());
    let map = load(alloc, version, &bank[start..])?;
    Ok(map.has(path))
}
