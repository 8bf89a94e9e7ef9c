//! How many arguments a built-in function takes.
ghost use Rattle.std.specs.Prelude.{◌≡◌};
ghost use Rattle.py_builtins.specs.Takes.{takes as takes_so_many};

use py_heap::Builtin;

/// Whether a built-in function takes so many arguments.
pub fn takes(b: Builtin, count: usize) -> bool
    ensures { result ≡ takes_so_many b count }
{
    match b {
        Builtin::Len | Builtin::Sorted => count == 1,
        Builtin::Range | Builtin::Enumerate => count == 1 || count == 2,
        Builtin::Str
        | Builtin::Int
        | Builtin::Bool
        | Builtin::List
        | Builtin::Tuple
        | Builtin::Dict => count <= 1,
        Builtin::Zip | Builtin::Print => true,
    }
}
