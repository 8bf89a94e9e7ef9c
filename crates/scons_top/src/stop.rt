//! Why a run ended before its last step.
ghost use Rattle.std.specs.Prelude.{◌≡◌};
ghost use Rattle.world_api.specs.Banks.{Banks};
ghost use Rattle.rule_graph.specs.declared.build_fault.BuildFault.TheVariants as fault;
ghost use Rattle.scons_top.specs.declared.stop.Stop.TheVariants as stop;
ghost use Rattle.scons_top.specs.Asked.{NamesNone, StopsFor};
ghost use Rattle.scons_top.specs.Faults.{IsLateStop, top_of_own};
ghost use Rattle.scons_top.specs.Foreign.{StopsByBytes};
ghost use Rattle.scons_top.specs.Stops.{IsInside, stop_of_words, stop_of_list, stop_of_host, stop_of_store};

use crate::report::Top;
use build_files::ListEnd;
use node_tree::NodeRefusal;
use rule_graph::{BuildFault, What};
use scons_base::{Memory, PathText, Text};
use scons_host::{HostEnd, ReadKind};
use scons_words::{UsageKind, WordsFault};
use sign_store::StoreRefusal;
use std::alloc::{AllocError, AllocFailed};
use world_api::{Bank, Fault};

/// Why there is no report yet.
#[derive(Drop)]
pub(crate) enum Stop {
    /// A fault of the run's own, with its text for standard error.
    Fault(OwnFault),
    /// A fault of a step whose text is that of a build.
    Build(BuildFault),
    Memory,
}

/// A fault that no build finds.
#[derive(Drop)]
pub(crate) enum OwnFault {
    /// The word at this place, counted from 0, is refused.
    Usage(u64, UsageKind),
    /// A script can't be read: its file, the line, and why.
    Reading(PathText, u32, ReadKind),
    /// A word is no alias, target, file or directory.
    UnknownTarget(Text),
    /// This half of the signature file is something else.
    StoreForeign(Bank),
}

impl From<OwnFault> for Top {
    ghost from_gives = { λ f top. top ≡ top_of_own f };

    fn from(fault: OwnFault) -> Self {
        match fault {
            OwnFault::Usage(place, kind) => Top::Usage(place, kind),
            OwnFault::Reading(file, line, kind) => Top::Reading(file, line, kind),
            OwnFault::UnknownTarget(word) => Top::UnknownTarget(word),
            OwnFault::StoreForeign(bank) => Top::StoreForeign(bank),
        }
    }
}

impl From<Memory> for Stop {
    ghost from_gives = { λ _ s. s ≡ stop.Memory };

    fn from(_: Memory) -> Self {
        Stop::Memory
    }
}

impl From<AllocError> for Stop {
    ghost from_gives = { λ _ s. s ≡ stop.Memory };

    fn from(_: AllocError) -> Self {
        Stop::Memory
    }
}

impl<T: Drop> From<AllocFailed<T>> for Stop {
    ghost from_gives = { λ _ s. s ≡ stop.Memory };

    fn from(_: AllocFailed<T>) -> Self {
        Stop::Memory
    }
}

/// A sink refused.
impl From<Fault> for Stop {
    ghost from_gives = { λ _ s. s ≡ stop.Build fault.OutFault };

    fn from(_: Fault) -> Self {
        Stop::Build(BuildFault::OutFault)
    }
}

impl From<ListEnd> for Stop {
    ghost from_gives = { λ e s. IsLateStop s × (s ≡ stop_of_list e) };

    fn from(end: ListEnd) -> Self {
        match end {
            ListEnd::Fault(fault) => Stop::Build(fault),
            ListEnd::Memory => Stop::Memory,
        }
    }
}

impl From<NodeRefusal> for Stop {
    ghost from_gives = { λ _ s. IsInside s × StopsFor NamesNone s × ((banks : Banks) → StopsByBytes banks s) };

    fn from(refusal: NodeRefusal) -> Self {
        match refusal {
            NodeRefusal::Full(count) => Stop::Build(BuildFault::TooMany(What::Nodes, count)),
            NodeRefusal::Memory => Stop::Memory,
        }
    }
}

impl From<WordsFault> for Stop {
    ghost from_gives = { λ e s. s ≡ stop_of_words e };

    fn from(fault: WordsFault) -> Self {
        match fault {
            WordsFault::At(place, kind) => Stop::Fault(OwnFault::Usage(place, kind)),
            WordsFault::Memory => Stop::Memory,
        }
    }
}

impl From<HostEnd> for Stop {
    ghost from_gives = { λ e s. s ≡ stop_of_host e };

    fn from(end: HostEnd) -> Self {
        match end {
            HostEnd::Reading(file, line, kind) => {
                Stop::Fault(OwnFault::Reading(file, line, kind))
            }
            HostEnd::Tree(path) => Stop::Build(BuildFault::TreeFault(path)),
            HostEnd::Out => Stop::Build(BuildFault::OutFault),
            HostEnd::TooLarge(path, size) => Stop::Build(BuildFault::TooLarge(path, size)),
            HostEnd::TooMany(what, count) => Stop::Build(BuildFault::TooMany(what, count)),
            HostEnd::Memory => Stop::Memory,
        }
    }
}

impl From<StoreRefusal> for Stop {
    ghost from_gives = { λ e s. IsLateStop s × (s ≡ stop_of_store e) };

    fn from(refusal: StoreRefusal) -> Self {
        match refusal {
            StoreRefusal::Fault => Stop::Build(BuildFault::StoreFault),
            StoreRefusal::Foreign(bank) => Stop::Fault(OwnFault::StoreForeign(bank)),
            StoreRefusal::Large(size) => Stop::Build(BuildFault::TooMany(What::StoreBytes, size)),
            StoreRefusal::Memory => Stop::Memory,
        }
    }
}
