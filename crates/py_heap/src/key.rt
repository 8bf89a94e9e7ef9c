//! The keys of dicts.
ghost use Rattle.std.specs.Prelude.{◌≡◌, IfOk};

use scons_base::{Memory, Text};

/// What a key of a dict is told from others by. True is 1 and False is 0.
#[derive(Debug, Hash, Drop)]
pub enum Key {
    Int(i64),
    Text(Text),
}

impl Key {
    pub fn copy(&self) -> Result<Key, Memory>
        ensures { IfOk result (λ k. k ≡ self.now) }
    {
        Ok(match self {
            Key::Int(number) => Key::Int(*number),
            Key::Text(text) => Key::Text(text.copy()?),
        })
    }
}

impl PartialEq for Key {
    ghost use Rattle.py_heap.specs.Keys.{key_eq, key_equivalence};
    ghost use Rattle.std.specs.Cmp.{partial_equiv_from_equiv};

    ghost eq = { key_eq };

    ghost laws = { partial_equiv_from_equiv key_equivalence };

    fn eq(&self, other: &Self) -> bool {
        match (self, other) {
            (Key::Int(a), Key::Int(b)) => a == b,
            (Key::Text(a), Key::Text(b)) => a == b,
            _ => false,
        }
    }
}

impl Eq for Key {
    ghost use Rattle.py_heap.specs.Keys.{key_equivalence};

    ghost laws = { key_equivalence };
}
