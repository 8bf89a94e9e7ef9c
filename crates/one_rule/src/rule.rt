//! The rule that a script declares.
use scons_base::{PathText, Text};

/// What the one line of a script declares: a target, its source, and the line that makes the one of the other.
#[derive(Debug, Drop)]
pub struct Rule {
    pub target: PathText,
    pub source: PathText,
    pub line: Text,
}
