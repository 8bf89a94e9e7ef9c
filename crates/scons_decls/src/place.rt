//! Where a call stands.

/// The number of a script, in the order in which scripts begin, and the line of a call in it.
#[derive(Clone, Copy, Debug, PartialEq, Eq)]
pub struct Place {
    pub script: u64,
    pub line: u32,
}
