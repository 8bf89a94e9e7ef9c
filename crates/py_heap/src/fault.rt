//! Why an operation on values gives none.
ghost use Rattle.std.specs.Prelude.{◌≡◌};

use crate::key::Key;
use crate::kind::ValueKind;
use scons_base::Memory as NoMemory;
use std::alloc::{AllocError, AllocFailed};

/// Why an operation on values gives none.
#[derive(Debug, Drop)]
pub enum ValueFault {
    /// The operation isn't one of these kinds. Where one value alone is at fault, both are its own.
    Mismatch(ValueKind, ValueKind),
    /// No such place in something of this length.
    Index(i64, u64),
    /// No such key of a dict or item of a list: the one that was looked for.
    Key(Key),
    /// A value of this kind can't be a key; or a list has no such item, of a kind that can't be one.
    KeyKind(ValueKind),
    /// An integer outside 64 bits.
    Overflow,
    /// A zero divisor.
    Zero,
    /// A text out of its form.
    BadText,
    /// The kind has no such method.
    NoMethod,
    /// A text of so many bytes or a list of so many items is over the limit.
    TooBig(u64),
    /// Over 100 levels.
    Deep,
    /// A charge that would pass the total after so many units.
    Budget(u64),
    Memory,
}

impl From<NoMemory> for ValueFault {
    ghost use Rattle.std.specs.Prelude.{◌≡◌};
    ghost use Rattle.py_heap.specs.declared.fault.ValueFault.TheVariants as fault;

    ghost from_gives = { λ _ e. e ≡ fault.Memory };

    fn from(_: NoMemory) -> Self {
        ValueFault::Memory
    }
}

impl From<AllocError> for ValueFault {
    ghost use Rattle.std.specs.Prelude.{◌≡◌};
    ghost use Rattle.py_heap.specs.declared.fault.ValueFault.TheVariants as fault;

    ghost from_gives = { λ _ e. e ≡ fault.Memory };

    fn from(_: AllocError) -> Self {
        ValueFault::Memory
    }
}

impl<T: Drop> From<AllocFailed<T>> for ValueFault {
    ghost use Rattle.std.specs.Prelude.{◌≡◌};
    ghost use Rattle.py_heap.specs.declared.fault.ValueFault.TheVariants as fault;

    ghost from_gives = { λ _ e. e ≡ fault.Memory };

    fn from(_: AllocFailed<T>) -> Self {
        ValueFault::Memory
    }
}
