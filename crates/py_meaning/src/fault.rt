//! How scripts end, and why one cannot go on.
use py_heap::{Builtin, ValueFault};
use py_methods::Name;
use scons_base::Text;

/// How the last first script ended.
#[derive(Clone, Copy, Debug, PartialEq, Eq)]
pub enum Exit {
    End,
    /// By the host's `Reply::Return`.
    Returned,
}

/// What is called, by its name.
#[derive(Debug, Drop)]
pub enum Called {
    /// A function of a script: the name that its `def` has.
    Function(Text),
    Builtin(Builtin),
    Method(Name),
}

/// Why a script can't go on.
#[derive(Debug, Drop)]
pub enum EvalKind {
    /// A name that stands for nothing, or for nothing yet.
    Name(Text),
    Value(ValueFault),
    /// A call with other arguments than what is called takes.
    Args(Called),
    NotCallable,
    /// The 201st nested call.
    Depth,
    /// The host refused, and keeps why.
    Host,
}

/// What ends the reading of scripts early. Scripts have numbers from 0, in the order in which they begin.
#[derive(Debug, Drop)]
pub enum EvalFault {
    At {
        script: u64,
        line: u32,
        kind: EvalKind,
    },
    Memory,
}
