//! A law of dry runs: the contract of a function that does nothing.
ghost use Rattle.scons_report.specs.Foreseen.{ListsForesee};

/// Each rule that a build starts, where it begins with the files and records that a dry run looked at, was listed, or needs what a listed
/// rule makes.
pub fn lists_foresee()
    ensures { ListsForesee }
{}
