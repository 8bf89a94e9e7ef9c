//! What stands while scripts run, and the small steps that need no call: looking names up and binding them, binding
//! arguments, the items of a loop, the lines of faults.
//!
//! A contract sees a `Machine` and a `Frame` as the `State` of `py_meaning` that `state_of` of `specs/` makes of them.
#![tactic(auto)]

mod arguments;
mod asking;
mod frame;
mod function;
mod lines;
mod locals;
mod lookup;
mod machine;
mod operators;
mod stop;
mod walk;
mod words;

pub use arguments::{arguments_by, bindable, bound};
pub use asking::{ask_call, ask_done};
pub use frame::Frame;
pub use function::{Bindable, Function};
pub use lines::{expression_line, first_line};
pub use locals::local_names;
pub use lookup::named;
pub use machine::Machine;
pub use operators::{augmented, comparison_op, constant_value, operator_op};
pub use stop::{Stop, fault, refused, value_fault};
pub use walk::{Walk, unpacked};
pub use words::method_named;
