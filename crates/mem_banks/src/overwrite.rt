//! Bytes put over others, which are saved, and put back.
ghost use Rattle.std.specs.Prelude.{◌≡◌, ◌+◌, ◌-◌, ◌++◌, ◌<◌, ◌≤◌, length, take, drop, vec_len};
ghost use Rattle.std.specs.Vec.{vec_capacity};
ghost use Rattle.mem_banks.specs.Past.{overwritten, spliced, restored};

use crate::change::Write;

/// How many bytes from a place on are overwritten by these many.
pub fn overwritten_by(bytes: &[u8], place: usize, count: usize) -> usize
    requires { place ≤ length bytes.now }
    ensures kept { result ≡ length (take count (drop place bytes.now)) }
    ensures small { result ≤ count }
    ensures within { place + result ≤ length bytes.now }
{
    let rest = bytes.len() - place;
    if count < rest { count } else { rest }
}

/// Puts bytes at a place, and what they overwrite at the end of `saved`. Says how many were overwritten.
pub fn overwrite(bytes: &mut Vec<u8>, saved: &mut Vec<u8>, place: usize, written: &[u8]) -> usize
    requires within { place ≤ vec_len bytes.old }
    requires room { place + length written.now ≤ vec_capacity bytes.old }
    requires saved_room { vec_len saved.old + length written.now ≤ vec_capacity saved.old }
    ensures kept { result ≡ length (overwritten place written.now bytes.old.items) }
    ensures small { result ≤ length written.now }
    ensures end { place + result ≤ vec_len bytes.old }
    ensures bytes { bytes.new.items ≡ spliced place written.now bytes.old.items }
    ensures capacity { vec_capacity bytes.old ≤ vec_capacity bytes.new }
    ensures saved { saved.new.items ≡ saved.old.items ++ overwritten place written.now bytes.old.items }
    ensures saved_len { vec_len saved.new ≤ vec_len saved.old + length written.now }
    ensures saved_capacity { vec_capacity saved.old ≤ vec_capacity saved.new }
{
    let kept = overwritten_by(bytes.as_slice(), place, written.len());
    saved
        .extend_from_slice(&bytes[place..place + kept])
        .unwrap();
    bytes[place..place + kept].copy_from_slice(&written[..kept]);
    bytes.extend_from_slice(&written[kept..]).unwrap();
    kept
}

/// Puts back what a write overwrote: the end of `saved`.
pub fn restore(bytes: &mut Vec<u8>, saved: &[u8], write: &Write)
    requires kept { write.now.kept ≤ length saved.now }
    requires size { write.now.place + write.now.kept ≤ write.now.size }
    requires within { write.now.size ≤ vec_len bytes.old }
    ensures bytes { bytes.new.items ≡ restored write.now bytes.old.items saved.now }
    ensures len { vec_len bytes.new ≡ write.now.size }
    ensures capacity { vec_capacity bytes.old ≤ vec_capacity bytes.new }
{
    bytes.truncate(write.size);
    let end = write.place + write.kept;
    bytes[write.place..end].copy_from_slice(&saved[saved.len() - write.kept..]);
}
