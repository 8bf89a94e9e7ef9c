//! The command.
ghost use Rattle.std.specs.Prelude.{◌≡◌, []};
ghost use Rattle.world_api.specs.Meaning.{Told};
ghost use Rattle.world_api.specs.Statuses.{HasStatus};
ghost use Rattle.one_rule.specs.Promises.{Succeeds, AreExplained, HaveRisen, IsAsCalledFor};
ghost use Rattle.one_rule.specs.Run.{LeavesAllIn, Runs};

use crate::conclusion::{conclude, out_of_memory};
use crate::report::Report;
use crate::run::run;
use scons_base::Text;
use std::alloc::Global;
use world_api::{Sink, World};

/// The command: takes its words, reads the script, builds its target, prints, and reports.
///
/// Over any world and sinks; what they don't tell is claimed of none of them.
pub fn scons<W: World, O: Sink, E: Sink>(
    alloc: Global,
    words: &[Text],
    world: &mut W,
    out: &mut O,
    err: &mut E,
) -> Report
    requires idle { W.meaning.tells world.old → (W.meaning.around world.old).running ≡ [] }
    requires reachable { W.meaning.closed world.old ≡ [] }
    ensures told { Told W.meaning world.old world.new }
    ensures status { HasStatus result.status result.faults }
    ensures skipped { result.skipped ≡ [] }

    // A run with status 0 has made the target of the script's rule as a clean build would.
    ensures success { result.status ≡ 0 → Succeeds W.meaning O.meaning E.meaning words.now world.old world.new out.old out.new err.old err.new }

    // Whatever the status, no other file is changed, nothing runs any more, and a job was started once at most.
    ensures leaves { W.meaning.tells world.new → LeavesAllIn W.meaning words.now world.old world.new }

    // Which faults come, and that no other run is reported where nothing outside was at fault.
    ensures explained { W.meaning.tells world.new → AreExplained words.now (W.meaning.around world.old).tree result.faults }
    ensures risen { HaveRisen W.meaning O.meaning E.meaning world.old world.new out.old out.new err.old err.new result.faults }
    ensures called_for { IsAsCalledFor W.meaning O.meaning E.meaning words.now world.old world.new out.old out.new err.old err.new result.status result.faults }

    // The course as a whole, with all that is printed.
    ensures runs { Runs W.meaning O.meaning E.meaning words.now world.old world.new out.old out.new err.old err.new result.status result.faults }
{
    take_course(alloc, words, world, out, err)
}

fn take_course<W: World, O: Sink, E: Sink>(
    alloc: Global,
    words: &[Text],
    world: &mut W,
    out: &mut O,
    err: &mut E,
) -> Report
    requires idle { W.meaning.tells world.old → (W.meaning.around world.old).running ≡ [] }
    requires reachable { W.meaning.closed world.old ≡ [] }
    ensures told { Told W.meaning world.old world.new }
    ensures skipped { result.skipped ≡ [] }
    ensures leaves { W.meaning.tells world.new → LeavesAllIn W.meaning words.now world.old world.new }
    ensures runs { Runs W.meaning O.meaning E.meaning words.now world.old world.new out.old out.new err.old err.new result.status result.faults }
{
    match Vec::with_capacity(alloc, 2) {
        Ok(faults) => {
            let ending = run(alloc, words, world, out);
            conclude(alloc, ending, faults, out, err)
        }
        Err(_) => out_of_memory(alloc),
    }
}
