//! Whether a call can be opened.
ghost use Rattle.std.specs.Prelude.{◌≡◌, ◌≢◌, suc, true, false, IfOk, OnOk, IfErr};
ghost use Rattle.py_host.specs.Calls.{arguments_of};
ghost use Rattle.py_meaning.specs.Calls.{plain_arguments};

use py_host::Args;
use py_meaning::{Called, EvalKind};
use py_state::{Frame, Function, Stop, fault};

/// No argument by name, and a number of arguments that is taken by what is called.
pub(crate) fn plain(
    frame: &Frame,
    line: u32,
    args: &Args,
    taken: bool,
    called: Called,
) -> Result<(), Stop>
    ensures ok { OnOk result (plain_arguments taken (arguments_of args.now) ≡ true) }
    ensures fault { IfErr result (λ e. (plain_arguments taken (arguments_of args.now) ≡ false)
        × (e ≡ Stop.Fault frame.now.script line (EvalKind.Args called))) }
{
    if args.named.len() == 0 && taken {
        Ok(())
    } else {
        Err(fault(frame, line, EvalKind::Args(called)))
    }
}

/// The fault of a call of a function whose parameters the arguments don't fit.
pub(crate) fn unfitting(frame: &Frame, line: u32, function: &Function) -> Stop
    ensures { result ≢ Stop.Memory
        → result ≡ Stop.Fault frame.now.script line (EvalKind.Args (Called.Function function.now.name)) }
{
    match function.name.copy() {
        Ok(name) => fault(frame, line, EvalKind::Args(Called::Function(name))),
        Err(_) => Stop::Memory,
    }
}

/// How many further calls may be open within a call.
pub(crate) fn opened(frame: &Frame, line: u32, calls: u32) -> Result<u32, Stop>
    ensures ok { IfOk result (λ inside. calls ≡ suc inside) }
    ensures fault { IfErr result (λ e. (calls ≡ 0) × (e ≡ Stop.Fault frame.now.script line EvalKind.Depth)) }
{
    if calls == 0 {
        Err(fault(frame, line, EvalKind::Depth))
    } else {
        Ok(calls - 1)
    }
}
