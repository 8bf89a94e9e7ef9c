//! Where something stands in the scripts.

/// A line of a script. Scripts have numbers from 0, in the order in which they begin.
#[derive(Clone, Copy)]
pub struct Place {
    pub script: u64,
    pub line: u32,
}
