//! A run: words, reading, building.
ghost use Rattle.std.specs.Prelude.{◌≡◌, []};
ghost use Rattle.world_api.specs.Meaning.{Told};
ghost use Rattle.one_rule.specs.Run.{LeavesAllIn};
ghost use Rattle.one_rule.specs.Endings.{EndsAs};

use crate::building::build;
use crate::ending::Ending;
use crate::reading::read_rule;
use crate::report::{Top, UsageKind};
use scons_base::Text;
use std::alloc::Global;
use world_api::{Sink, World};

/// Takes the words, reads the script and builds its rule.
pub fn run<W: World, O: Sink>(alloc: Global, words: &[Text], world: &mut W, out: &mut O) -> Ending
    requires idle { W.meaning.tells world.old → (W.meaning.around world.old).running ≡ [] }
    requires reachable { W.meaning.closed world.old ≡ [] }
    ensures told { Told W.meaning world.old world.new }
    ensures leaves { W.meaning.tells world.new → LeavesAllIn W.meaning words.now world.old world.new }
    ensures ends { EndsAs W.meaning O.meaning words.now world.old world.new out.old out.new result }
{
    if !words.is_empty() {
        return Ending::Refused(Top::Usage(0, UsageKind::NotBuilt));
    }
    match read_rule(alloc, world, out) {
        Ok(rule) => Ending::of_build(build(alloc, world, out, rule)),
        Err(stop) => Ending::of_reading(stop),
    }
}
