//! What the call of an object comes to.
use crate::scope::Scope;
use py_heap::Value;
use py_tree::Script;

/// What the call of an object comes to.
#[derive(Drop)]
pub enum Reply {
    /// The call gives this value.
    Value(Value),
    /// This script is run, with names of its own; then `Host::script_done` replies to the call.
    Script(Script),
    /// These names are set in the script that runs, and the call gives None.
    Names(Scope),
    /// The script that runs ends, also from within a function.
    Return,
}
