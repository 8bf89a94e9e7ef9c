//! What stands in the lists of a board. A number says how many slips were handed in before.
ghost use Rattle.std.specs.Prelude.{◌≡◌, ◌==◌, position};
ghost use Rattle.std.specs.Arc.{arc_value};

use crate::slip::{Ending, Slip};
use std::alloc::Global;
use std::sync::Arc;

/// A slip that waits, with the handle that whoever takes it is given.
#[derive(Drop)]
pub struct Waiting {
    pub number: u64,
    pub slip: Arc<Slip, Global>,
    pub handle: Arc<Slip, Global>,
    ghost same: { arc_value handle ≡ arc_value slip },
}

/// A slip that is taken, or out.
#[derive(Drop)]
pub struct Numbered {
    pub number: u64,
    pub slip: Arc<Slip, Global>,
}

/// An ending that waits.
#[derive(Drop)]
pub struct Ended {
    pub number: u64,
    pub ending: Ending,
}

/// The first place of a slip with this number.
pub fn place_of_number(slips: &[Numbered], number: u64) -> Option<usize>
    ensures { result ≡ position (λ entry. entry.number == number) slips.now }
{
    slips.iter().position(|entry| entry.number == number)
}
