//! What a call of a name asks of the host.
use crate::exports::Exports;
use py_heap::Value;
use scons_base::{Text, Texts};
use scons_decls::{Call, Given, Nodes};

/// The scripts that a call reads.
#[derive(Drop)]
pub struct ScriptFiles {
    pub files: Nodes,
    pub exports: Exports,
    pub variant: Option<Given>,
    pub duplicate: bool,
}

#[derive(Drop)]
pub enum Request {
    /// The nodes whose paths match a pattern.
    Glob(Text),
    Scripts(ScriptFiles),
    Shares(Shared),
    Gives(Valued),
}

/// What is asked of the names that scripts share.
#[derive(Drop)]
pub enum Shared {
    Export(Exports),
    Import(Texts),
    Return(Texts),
}

/// What a value answers.
#[derive(Drop)]
pub enum Valued {
    /// A call that is declared.
    Declare(Call),
    /// A variable, or this value where there is none.
    Get(Text, Value),
    /// The words of a text, or a list as it is.
    Split(Value),
    Flatten(Value),
    /// A call without effect.
    Nothing,
}
