//! A sink in memory.
ghost use Rattle.std.specs.Prelude.{◌≡◌, ◌+◌, ◌-◌, ◌^◌, min, ◌<◌, ◌≤◌, ◌⊎◌, ◌↔◌, ◌++◌, [], length, vec_len};
ghost use Rattle.std.specs.Prelude.{IfOk, OnOk, OnErr, IsTrue, Contains};
ghost use Rattle.std.specs.Vec.{vec_capacity};

use scons_base::Memory;
use std::alloc::Global;
use world_api::{Fault, Sink};

/// How many bytes a sink keeps.
pub const SINK_ROOM: usize = 4_194_304;

/// A sink in memory. The writes of the listed numbers, counted from 0, fail.
#[derive(Drop)]
pub struct MemSink {
    text: Vec<u8>,
    writes: u64,
    failing: Vec<u32>,
    faults: u64,
    ghost room: { 4194304 ≤ vec_capacity text },
    ghost within: { vec_len text ≤ 4194304 },
}

fn is_listed(failing: &[u32], number: u64) -> bool
    ensures { IsTrue result ↔ Contains failing.now number }
{
    failing.iter().any(|place| u64::from(*place) == number)
}

impl MemSink {
    pub fn new(alloc: Global, failing: Vec<u32>) -> Result<MemSink, Memory>
        ensures text { IfOk result (λ sink. sink.text.items ≡ []) }
        ensures writes { IfOk result (λ sink. sink.writes ≡ 0) }
        ensures failing { IfOk result (λ sink. sink.failing ≡ failing) }
        ensures faults { IfOk result (λ sink. sink.faults ≡ 0) }
    {
        Ok(MemSink {
            text: Vec::with_capacity(alloc, SINK_ROOM)?,
            writes: 0,
            failing,
            faults: 0,
        })
    }

    /// All that was printed.
    pub fn text(&self) -> &[u8]
        ensures { result.now ≡ self.now.text.items }
    {
        self.text.as_slice()
    }
}

impl Sink for MemSink {
    ghost use Rattle.world_api.specs.Printed.{taken};
    ghost use Rattle.scons_base.specs.Rising.{Rose};
    ghost use Rattle.world_mem.specs.SinkMeans.{sink_meaning, IsListedWrite, Prints};

    ghost meaning = { sink_meaning };

    fn write(&mut self, bytes: &[u8]) -> Result<usize, Fault>
        requires { 0 < length bytes.now }
        ensures some { IfOk result (λ count. 0 < count) }
        ensures within { IfOk result (λ count. count ≤ length bytes.now) }
        ensures told { sink_meaning.tells self.new → sink_meaning.tells self.old }
        ensures printed { sink_meaning.tells self.new → Prints (taken result bytes.now) self.old self.new }
        ensures kept { OnOk result (sink_meaning.faults self.new ≡ sink_meaning.faults self.old) }
        ensures rose { OnErr result (Rose (sink_meaning.faults self.old) (sink_meaning.faults self.new)) }
        ensures once { OnErr result (self.new.faults ≡ min (self.old.faults + 1) (2 ^ 64 - 1)) }
        ensures fails { OnErr result (IsListedWrite self.old ⊎ (4194304 < vec_len self.old.text + length bytes.now)) }
        ensures goes { OnOk result ((IsListedWrite self.old → ⊥) × (vec_len self.old.text + length bytes.now ≤ 4194304)) }
        ensures whole { IfOk result (λ count. count ≡ length bytes.now) }
        ensures counted { self.new.writes ≡ min (self.old.writes + 1) (2 ^ 64 - 1) }
        ensures failing { self.new.failing ≡ self.old.failing }
    {
        let listed = is_listed(&self.failing, self.writes);
        let past = bytes.len() > SINK_ROOM - self.text.len();
        self.writes = self.writes.saturating_add(1);
        if listed {
            self.faults = self.faults.saturating_add(1);
            return Err(Fault);
        }
        if past {
            self.faults = self.faults.saturating_add(1);
            return Err(Fault);
        }
        self.text.extend_from_slice(bytes).unwrap();
        Ok(bytes.len())
    }
}
