//! Printed text, written to the sink part by part.
ghost use Rattle.std.specs.Prelude.{◌≡◌, ◌++◌, OnOk, OnErr};
ghost use Rattle.scons_base.specs.Rising.{Rose};
ghost use Rattle.scons_host.specs.Prints.{Prints};

use world_api::{Fault, Sink};

/// Prints a text whole, or up to where the sink refuses.
pub fn print<S: Sink>(sink: &mut S, text: &str) -> Result<(), Fault>
    ensures prints { Prints S.meaning sink.old sink.new }
    ensures text { S.meaning.tells sink.new → OnOk result (S.meaning.text sink.new ≡ S.meaning.text sink.old ++ text.now) }
    ensures kept { OnOk result (S.meaning.faults sink.new ≡ S.meaning.faults sink.old) }
    ensures rose { OnErr result (Rose (S.meaning.faults sink.old) (S.meaning.faults sink.new)) }
{
    let mut rest = text.as_bytes();
    while !rest.is_empty() {
        let count = sink.write(rest)?;
        rest = rest.split_at(count).1;
    }
    Ok(())
}
