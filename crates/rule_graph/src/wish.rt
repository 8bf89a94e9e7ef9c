//! What `Default` names.
use scons_base::{PathText, Text};

/// What is to be built where no word says so.
#[derive(Debug, Drop)]
pub enum Wish {
    Alias(Text),
    Path(PathText),
}
