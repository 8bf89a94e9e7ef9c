//! What a run writes on standard output besides the lines of rules.
ghost use Rattle.std.specs.Prelude.{◌≡◌, ℕ, List, IfErr, IfOk, string_bytes};
ghost use Rattle.scons_top.specs.Faults.{IsLateStop};
ghost use Rattle.scons_top.specs.Sinks.{PrintsUpTo};
ghost use Rattle.scons_top.specs.RunLines.{notice, progress};
ghost use Rattle.scons_top.specs.Stops.{SinkStep};

use crate::stop::Stop;
use scons_base::Memory;
use scons_words::Words;
use world_api::{Sink, print};

/// Writes a line on the progress of the run, unless the words ask for none.
pub(crate) fn say<O: Sink>(
    out: &mut O,
    words: &Words,
    text: Result<String, Memory>,
) -> Result<(), Stop>
    ensures late { IfErr result IsLateStop }
    ensures step { SinkStep (O.meaning.faults out.old) (O.meaning.faults out.new) result }
    ensures prints { (line : List ℕ) → IfOk text (λ t. string_bytes t ≡ line) → PrintsUpTo O.meaning (progress words.now line) out.old out.new result }
{
    if words.quiet || words.silent {
        return Ok(());
    }
    print_text(out, text)
}

/// Writes a line that `-Q` leaves.
pub(crate) fn tell<O: Sink>(
    out: &mut O,
    words: &Words,
    text: Result<String, Memory>,
) -> Result<(), Stop>
    ensures late { IfErr result IsLateStop }
    ensures step { SinkStep (O.meaning.faults out.old) (O.meaning.faults out.new) result }
    ensures prints { (line : List ℕ) → IfOk text (λ t. string_bytes t ≡ line) → PrintsUpTo O.meaning (notice words.now line) out.old out.new result }
{
    if words.silent {
        return Ok(());
    }
    print_text(out, text)
}

/// Prints a text that could be made.
#[tactic(auto, using(crate::proofs::Causing::late))]
pub(crate) fn print_text<O: Sink>(out: &mut O, text: Result<String, Memory>) -> Result<(), Stop>
    ensures late { IfErr result IsLateStop }
    ensures step { SinkStep (O.meaning.faults out.old) (O.meaning.faults out.new) result }
    ensures prints { (line : List ℕ) → IfOk text (λ t. string_bytes t ≡ line) → PrintsUpTo O.meaning (line) out.old out.new result }
{
    let text = text?;
    print(out, text.as_str())?;
    Ok(())
}
