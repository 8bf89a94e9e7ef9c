//! Variant directories: where built files go, and which directory their sources come from.
//!
//! A contract sees `Variants` as the list of the variant directories in the order in which they were added. None lies in
//! another, so that a path lies in one at most.
#![tactic(auto)]

mod fault;
mod nesting;
mod variants;

pub use fault::VariantFault;
pub use variants::{Variant, Variants};
