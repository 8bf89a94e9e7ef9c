//! Printing a text whole.
ghost use Rattle.std.specs.Prelude.{OnOk, OnErr};
ghost use Rattle.world_api.specs.Printing.{Prints, Cuts};

use crate::refusal::Fault;
use crate::sink::Sink;

/// Prints a text whole, or up to where the sink refuses.
pub fn print<S: Sink>(sink: &mut S, text: &str) -> Result<(), Fault>
    ensures ok { OnOk result (Prints S.meaning sink.old sink.new text.now) }
    ensures err { OnErr result (Cuts S.meaning sink.old sink.new text.now) }
{
    let mut rest = text.as_bytes();
    while !rest.is_empty() {
        let count = sink.write(rest)?;
        rest = rest.split_at(count).1;
    }
    Ok(())
}
