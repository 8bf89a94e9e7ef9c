//! What digests of contents are made by.

/// The function that makes the digests of a record.
#[derive(Clone, Copy, Debug, PartialEq, Eq)]
pub enum Hash {
    Md5,
    Sha1,
    Sha256,
}
