//! Why a call of a SCons name is refused.
ghost use Rattle.std.specs.Prelude.{◌≡◌};
ghost use Rattle.scons_decls.specs.declared.fault.NameFault.TheVariants.{Memory};
ghost use Rattle.scons_decls.specs.Faults.{of_subst, of_given, of_path, of_variant};

use env_subst::SubstFault;
use env_vars::GivenFault;
use scons_base::limits::TEXT_LIMIT;
use scons_base::{Memory as NoMemory, PathFault, PathText, Text};
use std::alloc::{AllocError, AllocFailed};
use variant_dirs::VariantFault;

/// Why a call of a SCons name is refused, or a rule that it declared.
#[derive(Debug, Drop)]
pub enum NameFault {
    /// A wrong number, kind or name of arguments; a name that is no identifier; an unknown decider.
    BadArgument(Text),
    /// A name or variable on which SCons acts and this program doesn't.
    OutOfProfile(Text),
    UnknownBuilder(Text),
    NoSource,
    /// A source that the builder doesn't take.
    BadSuffix(PathText),
    EmptyAction,
    NotExported(Text),
    BadPath(PathFault),
    /// A path that stands in lines of the shell and has a byte on which the shell acts.
    ShellPath(PathText),
    /// What was said of this target counts for no rule, as there is none that makes it.
    NoRule(PathText),
    Variant(VariantFault),
    /// A value that can't be added to what the variable has.
    Kinds(Text),
    /// The script would be open inside 32 others.
    ScriptDepth,
    /// The target has another rule.
    TwoRules(PathText),
    /// The target is its own source.
    SelfSource(PathText),
    Subst(SubstFault),
    Memory,
}

impl From<NoMemory> for NameFault {
    ghost from_gives = { λ _ e. e ≡ Memory };

    fn from(_: NoMemory) -> Self {
        NameFault::Memory
    }
}

impl From<AllocError> for NameFault {
    ghost from_gives = { λ _ e. e ≡ Memory };

    fn from(_: AllocError) -> Self {
        NameFault::Memory
    }
}

impl<T: Drop> From<AllocFailed<T>> for NameFault {
    ghost from_gives = { λ _ e. e ≡ Memory };

    fn from(_: AllocFailed<T>) -> Self {
        NameFault::Memory
    }
}

impl From<SubstFault> for NameFault {
    ghost from_gives = { λ fault e. e ≡ of_subst fault };

    fn from(fault: SubstFault) -> Self {
        match fault {
            SubstFault::Memory => NameFault::Memory,
            fault => NameFault::Subst(fault),
        }
    }
}

impl From<GivenFault> for NameFault {
    ghost from_gives = { λ fault e. e ≡ of_given fault };

    fn from(fault: GivenFault) -> Self {
        match fault {
            GivenFault::TooLong => NameFault::Subst(SubstFault::TooLong(TEXT_LIMIT + 1)),
            GivenFault::Memory => NameFault::Memory,
        }
    }
}

impl From<PathFault> for NameFault {
    ghost from_gives = { λ fault e. e ≡ of_path fault };

    fn from(fault: PathFault) -> Self {
        match fault {
            PathFault::Memory => NameFault::Memory,
            fault => NameFault::BadPath(fault),
        }
    }
}

impl From<VariantFault> for NameFault {
    ghost from_gives = { λ fault e. e ≡ of_variant fault };

    fn from(fault: VariantFault) -> Self {
        match fault {
            VariantFault::Memory => NameFault::Memory,
            fault => NameFault::Variant(fault),
        }
    }
}
