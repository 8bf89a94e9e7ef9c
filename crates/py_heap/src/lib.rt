//! The values of the script language and the heap that they live in.
//!
//! A contract sees a `Heap` as plain lists: its texts, lists, tuples and dicts by their numbers, and the texts by which
//! objects show. A `Value` names one of them by its number or holds what it is. A `Budget` is seen as its total and
//! the units used of it.
#![tactic(auto)]

mod budget;
mod dict;
mod entries;
mod fault;
mod given;
mod heap;
mod ids;
mod key;
mod kind;
mod make;
mod many;
mod room;
mod value;
mod values;

pub use budget::{Budget, settled};
pub use dict::{Dict, Entry};
pub use fault::ValueFault;
pub use heap::{Heap, truth};
pub use ids::{DictId, FuncId, HostId, ListId, TextId, TupleId};
pub use key::Key;
pub use kind::ValueKind;
pub use many::text_values;
pub use room::{list_room, text_room};
pub use value::{Builtin, Value};
pub use values::Values;
