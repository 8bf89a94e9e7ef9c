//! The arguments of a call.
use crate::scope::Scope;
use py_heap::Value;

/// The arguments of a call.
#[derive(Drop)]
pub struct Args {
    pub positional: Vec<Value>,
    pub named: Scope,
}
