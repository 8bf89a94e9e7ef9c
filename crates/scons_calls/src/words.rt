//! Arguments that are one of a few values.
ghost use Rattle.std.specs.Prelude.{◌≡◌};
ghost use Rattle.scons_calls.specs.Kinds.{flag_by, mode_by};

use crate::fault::CallFault;
use env_subst::Mode;
use py_heap::Value;

/// True or False, or an integer that is 1 or 0.
pub fn flag(value: Value) -> Result<bool, CallFault>
    ensures { result ≡ flag_by value }
{
    match value {
        Value::Bool(flag) => Ok(flag),
        Value::Int(1) => Ok(true),
        Value::Int(0) => Ok(false),
        _ => Err(CallFault::Arguments),
    }
}

/// How a text is substituted.
pub fn mode(value: Value) -> Result<Mode, CallFault>
    ensures { result ≡ mode_by value }
{
    match value {
        Value::Int(0) => Ok(Mode::Text),
        Value::Int(1) => Ok(Mode::Raw),
        Value::Int(2) => Ok(Mode::Signed),
        _ => Err(CallFault::Arguments),
    }
}
