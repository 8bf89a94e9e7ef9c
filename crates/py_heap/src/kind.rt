//! The kinds of values.
ghost use Rattle.std.specs.Prelude.{◌≡◌};
ghost use Rattle.py_heap.specs.Values.{kind_of};

use crate::value::Value;

/// The kind of a value.
#[derive(Clone, Copy, Debug, PartialEq, Eq)]
pub enum ValueKind {
    Nil,
    Bool,
    Int,
    Text,
    List,
    Tuple,
    Dict,
    Func,
    Builtin,
    Object,
}

impl Value {
    pub fn kind(self) -> ValueKind
        ensures { result ≡ kind_of self }
    {
        match self {
            Value::Nil => ValueKind::Nil,
            Value::Bool(_) => ValueKind::Bool,
            Value::Int(_) => ValueKind::Int,
            Value::Text(_) => ValueKind::Text,
            Value::List(_) => ValueKind::List,
            Value::Tuple(_) => ValueKind::Tuple,
            Value::Dict(_) => ValueKind::Dict,
            Value::Func(_) => ValueKind::Func,
            Value::Builtin(_) => ValueKind::Builtin,
            Value::Object(_) => ValueKind::Object,
        }
    }
}
