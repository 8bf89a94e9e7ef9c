//! Why a body isn't run any further.
ghost use Rattle.std.specs.Prelude.{◌≡◌};
ghost use Rattle.py_state.specs.Stops.{value_stop, refusal_stop, refusals_told};

use crate::frame::Frame;
use py_heap::ValueFault;
use py_host::HostRefusal;
use py_meaning::EvalKind;
use scons_base::Memory as NoMemory;
use std::alloc::{AllocError, AllocFailed};

#[derive(Drop)]
pub enum Stop {
    Fault {
        script: u64,
        line: u32,
        kind: EvalKind,
    },
    /// The script that runs ends here.
    End,
    Memory,
}

impl From<NoMemory> for Stop {
    ghost use Rattle.std.specs.Prelude.{◌≡◌};
    ghost use Rattle.py_state.specs.declared.stop.Stop.TheVariants as stop;

    ghost from_gives = { λ _ e. e ≡ stop.Memory };

    fn from(_: NoMemory) -> Self {
        Stop::Memory
    }
}

impl From<AllocError> for Stop {
    ghost use Rattle.std.specs.Prelude.{◌≡◌};
    ghost use Rattle.py_state.specs.declared.stop.Stop.TheVariants as stop;

    ghost from_gives = { λ _ e. e ≡ stop.Memory };

    fn from(_: AllocError) -> Self {
        Stop::Memory
    }
}

impl<T: Drop> From<AllocFailed<T>> for Stop {
    ghost use Rattle.std.specs.Prelude.{◌≡◌};
    ghost use Rattle.py_state.specs.declared.stop.Stop.TheVariants as stop;

    ghost from_gives = { λ _ e. e ≡ stop.Memory };

    fn from(_: AllocFailed<T>) -> Self {
        Stop::Memory
    }
}

/// A fault on a line of the script that a frame is in.
pub fn fault(frame: &Frame, line: u32, kind: EvalKind) -> Stop
    ensures { result ≡ Stop.Fault frame.now.script line kind }
{
    Stop::Fault {
        script: frame.script,
        line,
        kind,
    }
}

/// A fault of an operation on values.
pub fn value_fault(frame: &Frame, line: u32, cause: ValueFault) -> Stop
    ensures stop { result ≡ value_stop frame.now.script line cause }
    ensures own { refusals_told result ≡ 0 }
{
    match cause {
        ValueFault::Memory => Stop::Memory,
        other => fault(frame, line, EvalKind::Value(other)),
    }
}

/// A refusal of the host.
pub fn refused(frame: &Frame, line: u32, refusal: HostRefusal) -> Stop
    ensures { result ≡ refusal_stop frame.now.script line refusal }
{
    match refusal {
        HostRefusal::Memory => Stop::Memory,
        HostRefusal::Host => fault(frame, line, EvalKind::Host),
    }
}
