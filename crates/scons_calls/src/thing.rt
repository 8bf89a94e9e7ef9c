//! What objects of scripts stand for.
use crate::name::NameId;
use scons_base::{EnvId, PathText, Text};

/// What an object stands for.
#[derive(Hash, Drop)]
pub enum Thing {
    /// A name of SCons.
    Name(NameId),
    Env(EnvId),
    /// A method of an environment.
    Method(EnvId, NameId),
    /// A builder that an environment has by this name.
    OwnMethod(EnvId, Text),
    /// `env['BUILDERS']`.
    Builders(EnvId),
    Builder(u32),
    File(PathText),
    Dir(PathText),
    Alias(Text),
}

impl PartialEq for Thing {
    ghost use Rattle.scons_calls.specs.Laws.{thing_equivalence};
    ghost use Rattle.scons_calls.specs.Things.{thing_eq};
    ghost use Rattle.std.specs.Cmp.{partial_equiv_from_equiv};

    ghost eq = { thing_eq };

    ghost laws = { partial_equiv_from_equiv thing_equivalence };

    fn eq(&self, other: &Self) -> bool {
        match (self, other) {
            (Thing::Name(a), Thing::Name(b)) => a == b,
            (Thing::Env(a), Thing::Env(b)) => a == b,
            (Thing::Method(a, m), Thing::Method(b, n)) => a == b && m == n,
            (Thing::OwnMethod(a, m), Thing::OwnMethod(b, n)) => a == b && m == n,
            (Thing::Builders(a), Thing::Builders(b)) => a == b,
            (Thing::Builder(a), Thing::Builder(b)) => a == b,
            (Thing::File(a), Thing::File(b)) => a == b,
            (Thing::Dir(a), Thing::Dir(b)) => a == b,
            (Thing::Alias(a), Thing::Alias(b)) => a == b,
            _ => false,
        }
    }
}

impl Eq for Thing {
    ghost use Rattle.scons_calls.specs.Laws.{thing_equivalence};

    ghost laws = { thing_equivalence };
}
