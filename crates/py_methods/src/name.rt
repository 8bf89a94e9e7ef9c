//! The names of methods.
ghost use Rattle.std.specs.Prelude.{◌≡◌};
ghost use Rattle.py_methods.specs.Names.{of_text, of_list, of_dict, has_method, takes};

use py_heap::Value;

/// The names of methods.
#[derive(Clone, Copy, Debug, PartialEq, Eq)]
pub enum Name {
    Split,
    Strip,
    Lstrip,
    Rstrip,
    Startswith,
    Endswith,
    Replace,
    Join,
    Find,
    Lower,
    Upper,
    Append,
    Extend,
    Insert,
    Pop,
    Remove,
    Index,
    Reverse,
    Sort,
    Get,
    Keys,
    Values,
    Items,
    Update,
    Setdefault,
    Copy,
}

impl Name {
    /// Whether the method takes so many arguments.
    pub fn takes(self, count: usize) -> bool
        ensures { result ≡ takes self count }
    {
        match self {
            Name::Strip | Name::Lstrip | Name::Rstrip | Name::Lower | Name::Upper => count == 0,
            Name::Reverse | Name::Sort => count == 0,
            Name::Keys | Name::Values | Name::Items | Name::Copy => count == 0,
            Name::Split | Name::Pop => count <= 1,
            Name::Startswith | Name::Endswith | Name::Join | Name::Find => count == 1,
            Name::Append | Name::Extend | Name::Remove | Name::Index | Name::Update => count == 1,
            Name::Get | Name::Setdefault => count == 1 || count == 2,
            Name::Replace | Name::Insert => count == 2,
        }
    }

    fn is_of_text(self) -> bool
        ensures { result ≡ of_text self }
    {
        match self {
            Name::Split | Name::Strip | Name::Lstrip | Name::Rstrip | Name::Startswith => true,
            Name::Endswith | Name::Replace | Name::Join | Name::Find => true,
            Name::Lower | Name::Upper => true,
            _ => false,
        }
    }

    fn is_of_list(self) -> bool
        ensures { result ≡ of_list self }
    {
        match self {
            Name::Append | Name::Extend | Name::Insert | Name::Pop => true,
            Name::Remove | Name::Index | Name::Reverse | Name::Sort => true,
            _ => false,
        }
    }

    fn is_of_dict(self) -> bool
        ensures { result ≡ of_dict self }
    {
        match self {
            Name::Get | Name::Keys | Name::Values | Name::Items => true,
            Name::Update | Name::Setdefault | Name::Copy => true,
            _ => false,
        }
    }
}

/// Whether a value has a method.
pub fn has_method(a: Value, name: Name) -> bool
    ensures { result ≡ has_method a name }
{
    match a {
        Value::Text(_) => name.is_of_text(),
        Value::List(_) => name.is_of_list(),
        Value::Dict(_) => name.is_of_dict(),
        _ => false,
    }
}
