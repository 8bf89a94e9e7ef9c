//! Questions to the host that need global names.
ghost use Rattle.std.specs.Prelude.{◌≡◌, [], Err, IfOk, slice_index_or};
ghost use Rattle.py_host.specs.Calls.{script_done, answers, refuses, arguments_of, given_of};
ghost use Rattle.py_meaning.specs.Calls.{call_question};
ghost use Rattle.py_state.specs.Stores.{store_of, state_of};

use crate::frame::Frame;
use crate::machine::Machine;
use py_heap::HostId;
use py_host::{Args, Host, HostRefusal, Reply, Scope};

/// Calls an object, with the names at a place.
pub fn ask_call<H: Host>(
    machine: &mut Machine,
    host: &mut H,
    frame: &Frame,
    line: u32,
    object: HostId,
    args: &Args,
) -> Result<Reply, HostRefusal>
    ensures ok { IfOk result (λ reply. H.meaning.replies
        (call_question line object.0 (arguments_of args.now) (state_of machine.old frame.now)) host.old
        machine.old.heap (answers (given_of reply)) host.new machine.new.heap) }
    ensures refused { result ≡ Err HostRefusal.Host → H.meaning.replies
        (call_question line object.0 (arguments_of args.now) (state_of machine.old frame.now)) host.old
        machine.old.heap refuses host.new machine.new.heap }
    ensures keeps { H.meaning.keeps host.old host.new }
    ensures stays { store_of machine.new ≡ record (store_of machine.old) { objects = machine.new.heap } }
{
    let no_names = Scope::new(machine.alloc);
    let globals = match machine.globals.get(frame.script as usize) {
        Some(globals) => globals,
        None => &no_names,
    };
    host.call(
        &mut machine.heap,
        frame.place(line),
        &frame.values,
        globals,
        object,
        args,
    )
}

/// Tells that a script has ended.
pub fn ask_done<H: Host>(
    machine: &mut Machine,
    host: &mut H,
    script: u64,
) -> Result<Reply, HostRefusal>
    ensures ok { IfOk result (λ reply. H.meaning.replies
        (script_done (slice_index_or machine.old.globals.items script [])) host.old machine.old.heap
        (answers (given_of reply)) host.new machine.new.heap) }
    ensures refused { result ≡ Err HostRefusal.Host → H.meaning.replies
        (script_done (slice_index_or machine.old.globals.items script [])) host.old machine.old.heap refuses
        host.new machine.new.heap }
    ensures keeps { H.meaning.keeps host.old host.new }
    ensures stays { store_of machine.new ≡ record (store_of machine.old) { objects = machine.new.heap } }
{
    let no_names = Scope::new(machine.alloc);
    let names = match machine.globals.get(script as usize) {
        Some(names) => names,
        None => &no_names,
    };
    host.script_done(&mut machine.heap, names)
}
