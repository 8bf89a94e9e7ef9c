//! The steps of a run.

/// The steps of a run in their order. Which of them a run comes to its words say; it ends at one of them.
#[derive(Clone, Copy, Debug, PartialEq, Eq)]
pub enum Step {
    /// The words are read.
    Words,
    /// With `--load` a tree in memory is built, and nothing else is done.
    Load,
    /// The top directory is named.
    Top,
    /// The scripts are read.
    Reading,
    /// With `-h` the help texts are written, and that is all.
    Help,
    /// What the words ask for is looked up.
    Requests,
    /// With `-c` targets are removed.
    Cleaning,
    /// The signature file is begun, or with `-n` read.
    Store,
    /// With `-n` what would be started is listed.
    Listing,
    /// What is requested is built.
    Building,
}
