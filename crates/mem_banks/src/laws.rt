//! Laws of what picks leave: each is the contract of a function that does nothing.
ghost use Rattle.mem_banks.specs.Picks.{EachCutHasPick};

/// Whatever a bank was since it was last synced, a stop by some pick leaves it so, with its newest write then standing, lost
/// or torn in either way.
pub fn each_cut_has_a_pick()
    ensures { EachCutHasPick }
{}
