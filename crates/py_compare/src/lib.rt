//! What the values of the script language are worth beside each other and to a reader: how they compare, how they show, and
//! what they give item after item; and integers of 64 bits.
//!
//! What a call gives is a function of `specs/` over plain data: the heap, the units and the operands give an answer with the
//! units after it, or the fault. Each pair of values that meets in a comparison costs a unit, and each value that is shown.
#![tactic(auto)]

mod comparisons;
mod copies;
mod equal;
mod growing;
mod iterables;
mod numbers;
mod order;
mod showing;
mod sorting;

pub use comparisons::{is_constant, ordered, same, within};
pub use copies::copied_dict;
pub use equal::place_of;
pub use growing::GrowingText;
pub use iterables::{
    iterable_bytes, iterable_items, iterable_length, iterable_texts, needed_length,
};
pub use numbers::{above_zero, floor_div, floor_rem, minus, negative, plus, times};
pub use order::order_of;
pub use showing::{entry_in, show, show_onto};
pub use sorting::{in_order_with, sort_room, sorted_items};
