//! Why a call of the host isn't answered.
ghost use Rattle.std.specs.Prelude.{◌≡◌, ◌≢◌};
ghost use Rattle.scons_host.specs.Refusals as told;
ghost use Rattle.scons_host.specs.declared.stop.Refusal.TheVariants as refusal;
ghost use Rattle.scons_host.specs.declared.stop.Stop.TheVariants as stop;

use crate::end::ReadKind;
use py_heap::ValueFault;
use py_meaning::EvalKind;
use rule_graph::What;
use scons_base::{Memory as NoMemory, PathText, Text};
use scons_calls::CallFault;
use scons_decls::NameFault;
use std::alloc::{AllocError, AllocFailed, Global};

/// Why the line that is run is refused, where nothing outside was asked.
#[derive(Drop)]
pub enum Refusal {
    Kind(ReadKind),
    Memory,
}

/// Why it is refused where the world or the sink was asked.
#[derive(Drop)]
pub enum Stop {
    /// A fault of the line that is run.
    Here(ReadKind),
    /// A fault of another script, which that line reads.
    There(PathText, u32, ReadKind),
    Tree(PathText),
    Out,
    TooLarge(PathText, u64),
    TooMany(What, u64),
    Memory,
}

impl Stop {
    ghost use Rattle.world_api.specs.Causes.{TreeFails};
    ghost use Rattle.world_api.specs.Counts.{Counts};
    ghost use Rattle.scons_host.specs.Causes.{HasStopCause};
    ghost use Rattle.scons_host.specs.Shown.{IsTold};

    /// The tree refused at this path.
    #[tactic(auto, using(crate::specs::Looking::looking))]
    pub fn tree(path: &PathText) -> Stop
        ensures cause { (old new : Counts) → TreeFails old new → HasStopCause old new result }
        ensures is { result ≢ Stop.Memory → result ≡ Stop.Tree path.now }
        ensures untold { IsTold result → ⊥ }
    {
        match path.copy() {
            Ok(path) => Stop::Tree(path),
            Err(_) => Stop::Memory,
        }
    }
}

/// The refusal of a call that isn't taken, by the name that is called.
pub fn refused(alloc: Global, name: &str, fault: CallFault) -> Refusal
    ensures { result ≢ Refusal.Memory → result ≡ told.of_call name.now fault }
{
    match fault {
        CallFault::Arguments => bad_argument(alloc, name),
        CallFault::Argument(name) => Refusal::Kind(ReadKind::Name(NameFault::BadArgument(name))),
        CallFault::LeftOut(name) => Refusal::Kind(ReadKind::Name(NameFault::OutOfProfile(name))),
        CallFault::Memory => Refusal::Memory,
    }
}

pub fn bad_argument(alloc: Global, name: &str) -> Refusal
    ensures { result ≢ Refusal.Memory → result ≡ told.bad_argument name.now }
{
    match Text::of(alloc, name) {
        Ok(name) => Refusal::Kind(ReadKind::Name(NameFault::BadArgument(name))),
        Err(_) => Refusal::Memory,
    }
}

/// The refusal of a name that is left out.
pub fn left_out(alloc: Global, name: &str) -> Refusal
    ensures { result ≢ Refusal.Memory → result ≡ told.left_out name.now }
{
    match Text::of(alloc, name) {
        Ok(name) => Refusal::Kind(ReadKind::Name(NameFault::OutOfProfile(name))),
        Err(_) => Refusal::Memory,
    }
}

/// The refusal of a variable or builder that an environment hasn't.
pub fn no_such_key(name: Text) -> Refusal
    ensures { result ≡ told.no_such_key name }
{
    Refusal::Kind(ReadKind::Key(name))
}

impl From<NameFault> for Refusal {
    ghost from_gives = { λ fault e. e ≡ told.of_name fault };

    fn from(fault: NameFault) -> Self {
        match fault {
            NameFault::Memory => Refusal::Memory,
            fault => Refusal::Kind(ReadKind::Name(fault)),
        }
    }
}

impl From<ValueFault> for Refusal {
    ghost from_gives = { λ fault e. e ≡ told.of_value fault };

    fn from(fault: ValueFault) -> Self {
        match fault {
            ValueFault::Memory => Refusal::Memory,
            fault => Refusal::Kind(ReadKind::Eval(EvalKind::Value(fault))),
        }
    }
}

impl From<NoMemory> for Refusal {
    ghost from_gives = { λ _ e. e ≡ refusal.Memory };

    fn from(_: NoMemory) -> Self {
        Refusal::Memory
    }
}

impl From<AllocError> for Refusal {
    ghost from_gives = { λ _ e. e ≡ refusal.Memory };

    fn from(_: AllocError) -> Self {
        Refusal::Memory
    }
}

impl<T: Drop> From<AllocFailed<T>> for Refusal {
    ghost from_gives = { λ _ e. e ≡ refusal.Memory };

    fn from(_: AllocFailed<T>) -> Self {
        Refusal::Memory
    }
}

impl From<Refusal> for Stop {
    ghost from_gives = { λ refusal e. e ≡ told.of_refusal refusal };

    fn from(refusal: Refusal) -> Self {
        match refusal {
            Refusal::Kind(kind) => Stop::Here(kind),
            Refusal::Memory => Stop::Memory,
        }
    }
}

impl From<NoMemory> for Stop {
    ghost from_gives = { λ _ e. e ≡ stop.Memory };

    fn from(_: NoMemory) -> Self {
        Stop::Memory
    }
}

impl From<AllocError> for Stop {
    ghost from_gives = { λ _ e. e ≡ stop.Memory };

    fn from(_: AllocError) -> Self {
        Stop::Memory
    }
}

impl<T: Drop> From<AllocFailed<T>> for Stop {
    ghost from_gives = { λ _ e. e ≡ stop.Memory };

    fn from(_: AllocFailed<T>) -> Self {
        Stop::Memory
    }
}
