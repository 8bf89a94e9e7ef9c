//! What is said of nodes that have or will have a rule: Depends, Requires, Ignore, AlwaysBuild; Alias and Default.
use crate::given::Nodes;
use crate::place::Place;
use scons_base::{PathText, Paths, Text};

/// What is said of a target.
#[derive(Clone, Copy, Debug, PartialEq, Eq)]
pub enum Saying {
    Depends,
    Requires,
    Ignore,
    Always,
}

impl Saying {
    /// The name of the call.
    pub fn name(self) -> &'static str {
        match self {
            Saying::Depends => "Depends",
            Saying::Requires => "Requires",
            Saying::Ignore => "Ignore",
            Saying::Always => "AlwaysBuild",
        }
    }
}

/// One call that says something of its targets. The nodes are files and aliases; AlwaysBuild has none.
#[derive(Drop)]
pub struct Said {
    pub place: Place,
    pub saying: Saying,
    pub targets: Paths,
    pub nodes: Nodes,
}

/// What was given to Default: a text may name an alias, which is known once all scripts are read.
#[derive(Drop)]
pub enum Asked {
    Alias(Text),
    Path(PathText),
    Text { text: Text, path: PathText },
}
