//! What the lines of a rule know, and the libraries that it names.
ghost use Rattle.std.specs.Prelude.{◌≡◌, ◌≢◌, ◌<◌, Ok, Err, IfOk, IfErr, OnOk, length, map};
ghost use Rattle.scons_host.specs.Files.{Files};
ghost use Rattle.scons_reading.specs.Graphs as spec;
ghost use Rattle.scons_rules.specs.Knowing.{known_of};
ghost use Rattle.scons_rules.specs.Libraries.{found_in};
ghost use Rattle.scons_rules.specs.PathGraphs.{PathGraph};
ghost use Rattle.scons_rules.specs.Ruling.{libraries_of};

use scons_base::Listing;
use scons_rules::{RuleLocals, RuleReadFault, RuleReading, Wanted};

/// Begins a rule; the libraries that it names.
pub fn wanted(
    reading: &RuleReading,
    locals: &mut RuleLocals,
    number: usize,
) -> Result<Listing<Wanted>, RuleReadFault>
    requires there { number < length reading.now.declared.rules }
    requires within { spec.IsWithin reading.now.declared locals.old }
    ensures known { OnOk result (spec.known_at reading.now.declared number ≡ Ok (known_of locals.new)) }
    ensures ok { IfOk result (λ w. (f : Files) → libraries_of (spec.standing_in f) reading.now.declared number locals.new
        ≡ Ok (map (found_in (spec.standing_in f)) w)) }
    ensures fault { IfErr result (λ e. e ≢ RuleReadFault.Memory → (f : Files) (g : PathGraph)
        → spec.Adds f reading.now.declared number g (Err e)) }
    ensures still { OnOk result (spec.IsWithin reading.now.declared locals.new) }
{
    begin(reading, locals, number)?;
    reading.wanted(number, locals)
}

/// Makes what the lines of a rule know that of the rule of a number.
fn begin(reading: &RuleReading, locals: &mut RuleLocals, number: usize) -> Result<(), RuleReadFault>
    requires there { number < length reading.now.declared.rules }
    requires within { spec.IsWithin reading.now.declared locals.old }
    ensures known { OnOk result (spec.known_at reading.now.declared number ≡ Ok (known_of locals.new)) }
    ensures fault { IfErr result (λ e. e ≢ RuleReadFault.Memory → spec.known_at reading.now.declared number ≡ Err e) }
    ensures still { OnOk result (spec.IsWithin reading.now.declared locals.new) }
{
    reading.begin(number, locals)
}
