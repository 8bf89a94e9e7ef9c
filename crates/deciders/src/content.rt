//! Digests of contents.
ghost use Rattle.std.specs.Prelude.{◌≡◌, length};
ghost use Rattle.deciders.specs.Digests.{digest_of, digest_len, bytes_of, hash_of, as_digest, is_same};

use md5::{Digest as _, Md5};
use sha1::Sha1;
use sha2::{Digest as _, Sha256};
use world_api::Hash;

/// A digest, by the function that made it.
#[derive(Clone, Copy, Debug, PartialEq, Eq)]
pub enum Digest {
    Md5([u8; 16]),
    Sha1([u8; 20]),
    Sha256([u8; 32]),
}

impl Digest {
    pub fn hash(&self) -> Hash
        ensures { result ≡ hash_of self.now }
    {
        match self {
            Digest::Md5(_) => Hash::Md5,
            Digest::Sha1(_) => Hash::Sha1,
            Digest::Sha256(_) => Hash::Sha256,
        }
    }

    pub fn as_bytes(&self) -> &[u8]
        ensures bytes { result.now ≡ bytes_of self.now }
        ensures len { length result.now ≡ digest_len (hash_of self.now) }
    {
        match self {
            Digest::Md5(bytes) => slice_of(bytes),
            Digest::Sha1(bytes) => slice_of(bytes),
            Digest::Sha256(bytes) => slice_of(bytes),
        }
    }
}

fn slice_of<const N: usize>(bytes: &[u8; N]) -> &[u8]
    ensures bytes { result.now ≡ bytes.now }
    ensures len { length result.now ≡ N }
{
    let _array = *bytes;
    bytes.as_slice()
}

/// The digest of some content.
pub fn digest_of(hash: Hash, bytes: &[u8]) -> Digest
    ensures { result ≡ digest_of hash bytes.now }
{
    match hash {
        Hash::Md5 => Digest::Md5(Md5::digest(bytes)),
        Hash::Sha1 => Digest::Sha1(Sha1::digest(bytes)),
        Hash::Sha256 => Digest::Sha256(Sha256::digest(bytes)),
    }
}

/// How many bytes a digest has.
pub(crate) fn digest_len(hash: Hash) -> usize
    ensures { result ≡ digest_len hash }
{
    match hash {
        Hash::Md5 => 16,
        Hash::Sha1 => 20,
        Hash::Sha256 => 32,
    }
}

/// The digest that has these bytes.
pub(crate) fn as_digest(hash: Hash, bytes: &[u8]) -> Digest
    requires { length bytes.now ≡ digest_len hash }
    ensures { result ≡ as_digest hash bytes.now }
{
    match hash {
        Hash::Md5 => Digest::Md5(copied(bytes)),
        Hash::Sha1 => Digest::Sha1(copied(bytes)),
        Hash::Sha256 => Digest::Sha256(copied(bytes)),
    }
}

fn copied<const N: usize>(bytes: &[u8]) -> [u8; N]
    requires { length bytes.now ≡ N }
    ensures { result ≡ bytes.now }
{
    let mut array = [0; N];
    array.copy_from_slice(bytes);
    array
}

/// Whether two digests would be by one function.
pub(crate) fn is_same(a: Hash, b: Hash) -> bool
    ensures { result ≡ is_same a b }
{
    a == b
}
