//! Room for something new: its limit, then its charge.
ghost use Rattle.std.specs.Prelude.{◌≡◌, ◌≢◌, Ok, Err, IfErr, OnOk, OnErr};
ghost use Rattle.py_heap.specs.Units.{room};

use crate::budget::Budget;
use crate::fault::ValueFault;
use scons_base::limits::{LIST_LIMIT, TEXT_LIMIT};

/// Charges for a text of this many bytes that is to be made.
#[tactic(auto, using(crate::proofs::Rooms::rooms))]
pub fn text_room(budget: &mut Budget, length: u64) -> Result<(), ValueFault>
    ensures ok { OnOk result (room TEXT_LIMIT budget.old length ≡ Ok budget.new) }
    ensures fault { IfErr result (λ e. room TEXT_LIMIT budget.old length ≡ Err e) }
    ensures err { OnErr result (budget.new ≡ budget.old) }
    ensures paid { IfErr result (λ e. e ≢ ValueFault.Memory) }
{
    if length > TEXT_LIMIT {
        return Err(ValueFault::TooBig(length));
    }
    budget.charge(length)?;
    Ok(())
}

/// Charges for a list, tuple or dict of this many items that is to be made.
#[tactic(auto, using(crate::proofs::Rooms::rooms))]
pub fn list_room(budget: &mut Budget, length: u64) -> Result<(), ValueFault>
    ensures ok { OnOk result (room LIST_LIMIT budget.old length ≡ Ok budget.new) }
    ensures fault { IfErr result (λ e. room LIST_LIMIT budget.old length ≡ Err e) }
    ensures err { OnErr result (budget.new ≡ budget.old) }
    ensures paid { IfErr result (λ e. e ≢ ValueFault.Memory) }
{
    if length > LIST_LIMIT {
        return Err(ValueFault::TooBig(length));
    }
    budget.charge(length)?;
    Ok(())
}
