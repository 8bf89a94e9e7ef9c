//! Values and built-in functions.
use crate::ids::{DictId, FuncId, HostId, ListId, TextId, TupleId};

/// The built-in functions.
#[derive(Clone, Copy, Debug, PartialEq, Eq)]
pub enum Builtin {
    Len,
    Range,
    Str,
    Int,
    Bool,
    List,
    Tuple,
    Dict,
    Sorted,
    Enumerate,
    Zip,
    Print,
}

/// A value of a script. Texts, lists, tuples and dicts stand in a heap, and the value is their number there: two
/// values with one number are one thing.
#[derive(Clone, Copy, Debug, PartialEq, Eq)]
pub enum Value {
    Nil,
    Bool(bool),
    Int(i64),
    Text(TextId),
    List(ListId),
    Tuple(TupleId),
    Dict(DictId),
    Func(FuncId),
    Builtin(Builtin),
    Object(HostId),
}
