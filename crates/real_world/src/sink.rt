//! A standard stream as a sink.
ghost use Rattle.std.specs.Prelude.{[], ◌<◌, ◌≤◌, length, IfSome};

use crate::errors::pause;
use std::io::{ErrorKind, Write};
use std::time::Clock;
use world_api::{Fault, Sink};

/// A standard stream. It tells nothing of what stands printed, only how often it refused.
#[derive(Drop)]
pub struct RealSink<R, W> {
    rt: R,
    stream: W,
    faults: u64,
}

impl<R: Clock + Drop, W: Write + Drop> RealSink<R, W> {
    pub fn new(rt: R, stream: W) -> RealSink<R, W> {
        RealSink {
            rt,
            stream,
            faults: 0,
        }
    }
}

impl<R: Clock + Drop, W: Write + Drop> Sink for RealSink<R, W> {
    ghost meaning = { record { tells = λ s. ⊥; text = λ s. []; faults = λ s. s.faults } };

    fn write(&mut self, bytes: &[u8]) -> Result<usize, Fault> {
        match written(&self.rt, &mut self.stream, bytes) {
            Some(count) => Ok(count),
            None => {
                self.faults = self.faults.saturating_add(1);
                Err(Fault)
            }
        }
    }
}

/// How many bytes were taken, if any. A write that an interrupt cut off is repeated, and so is, a little later, one for which a stream
/// that doesn't wait has no room.
fn written<R: Clock, W: Write>(rt: &R, stream: &mut W, bytes: &[u8]) -> Option<usize>
    ensures some { IfSome result (λ count. 0 < count) }
    ensures within { IfSome result (λ count. count ≤ length bytes.now) }
{
    for _ in 0..u64::MAX {
        match stream.write(bytes) {
            Ok(count) if count > 0 => return Some(count),
            Err(error) if error.kind() == ErrorKind::Interrupted => {}
            Err(error) if error.kind() == ErrorKind::WouldBlock => pause(rt),
            _ => return None,
        }
    }
    None
}
