//! What may be at fault in a build or in a list of what it would do.
use scons_base::{PathText, Paths};

/// What there may be too much of.
#[derive(Clone, Copy, Debug, PartialEq, Eq)]
pub enum What {
    Nodes,
    Rules,
    Deps,
    StoreBytes,
}

/// A fault names a rule by its first target.
#[derive(Debug, Drop)]
pub enum BuildFault {
    /// The target's rule needs a file that is nowhere and has no rule.
    Missing { node: PathText, target: PathText },
    /// Each of these needs the next, and the last the first. The least path stands first.
    Cycle(Paths),
    ActionFailed { target: PathText, code: i32 },
    /// The file tree refused to tell or to do something about this path.
    TreeFault(PathText),
    /// The target's action could not be started.
    StartFault(PathText),
    /// The disk of the signature banks refused.
    StoreFault,
    /// A printed text could not be written.
    OutFault,
    /// The file has this many bytes.
    TooLarge(PathText, u64),
    TooMany(What, u64),
}
