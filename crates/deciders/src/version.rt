//! The versions of the spelling of records.

/// In version 1 each digest is by MD5. Version 2 says by which function they are.
#[derive(Clone, Copy, Debug, PartialEq, Eq)]
pub enum Version {
    One,
    Two,
}
