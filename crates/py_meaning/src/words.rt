//! The names of what is called.
ghost use Rattle.std.specs.Prelude.{◌≡◌, Some};
ghost use Rattle.py_meaning.specs.Lookup.{builtin_named};
ghost use Rattle.py_meaning.specs.Words.{method_named, IsNameOf};

use crate::fault::Called;
use py_heap::Builtin;
use py_methods::Name;

impl Called {
    /// Its name.
    pub fn word(&self) -> &str
        ensures { IsNameOf self.now result.now }
    {
        match self {
            Called::Function(name) => name.as_str(),
            Called::Builtin(builtin) => builtin_word(*builtin),
            Called::Method(name) => method_word(*name),
        }
    }
}

fn builtin_word(builtin: Builtin) -> &'static str
    ensures { builtin_named result.now ≡ Some builtin }
{
    match builtin {
        Builtin::Len => "len",
        Builtin::Range => "range",
        Builtin::Str => "str",
        Builtin::Int => "int",
        Builtin::Bool => "bool",
        Builtin::List => "list",
        Builtin::Tuple => "tuple",
        Builtin::Dict => "dict",
        Builtin::Sorted => "sorted",
        Builtin::Enumerate => "enumerate",
        Builtin::Zip => "zip",
        Builtin::Print => "print",
    }
}

fn method_word(name: Name) -> &'static str
    ensures { method_named result.now ≡ Some name }
{
    match name {
        Name::Split => "split",
        Name::Strip => "strip",
        Name::Lstrip => "lstrip",
        Name::Rstrip => "rstrip",
        Name::Startswith => "startswith",
        Name::Endswith => "endswith",
        Name::Replace => "replace",
        Name::Join => "join",
        Name::Find => "find",
        Name::Lower => "lower",
        Name::Upper => "upper",
        Name::Append => "append",
        Name::Extend => "extend",
        Name::Insert => "insert",
        Name::Pop => "pop",
        Name::Remove => "remove",
        Name::Index => "index",
        Name::Reverse => "reverse",
        Name::Sort => "sort",
        Name::Get => "get",
        Name::Keys => "keys",
        Name::Values => "values",
        Name::Items => "items",
        Name::Update => "update",
        Name::Setdefault => "setdefault",
        Name::Copy => "copy",
    }
}
