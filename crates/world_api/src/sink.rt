//! Where text is printed.
ghost use Rattle.std.specs.Prelude.{◌≡◌, ◌<◌, ◌≤◌, ◌++◌, length, IfOk, OnOk, OnErr};
ghost use Rattle.world_api.specs.Printed.{SinkMeaning, taken};
ghost use Rattle.scons_base.specs.Rising.{Rose};

use crate::refusal::Fault;

/// Where text is printed.
pub trait Sink {
    ghost meaning: { SinkMeaning Self };

    /// Prints a part of the bytes from the front on, and says how many. A sink that takes nothing is at fault.
    fn write(&mut self, bytes: &[u8]) -> Result<usize, Fault>
        requires { 0 < length bytes.now }
        ensures some { IfOk result (λ count. 0 < count) }
        ensures within { IfOk result (λ count. count ≤ length bytes.now) }

        ensures told { meaning.tells self.new → meaning.tells self.old }
        ensures printed { meaning.tells self.new → meaning.text self.new ≡ meaning.text self.old ++ taken result bytes.now }

        ensures kept { OnOk result (meaning.faults self.new ≡ meaning.faults self.old) }
        ensures rose { OnErr result (Rose (meaning.faults self.old) (meaning.faults self.new)) };
}
