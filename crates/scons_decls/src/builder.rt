//! Builders that scripts make.
use scons_base::{Text, Texts};

/// What `Builder(..)` was given. A prefix and suffixes that weren't given are empty.
#[derive(Drop)]
pub struct Builder {
    pub action: Texts,
    pub prefix: Text,
    pub suffix: Text,
    pub src_suffix: Text,
}
