//! Which nodes a command names, and that one which names nothing of what another names finds the same after it.
#![tactic(auto)]

ghost use Rattle.naming_laws.specs.Still.{ApartLaw, UnusedLaw, UntouchedLaw, StillLaw, TornLaw};

/// An accepted command finds the same after one that names nothing of what it names, and an id that wasn't given stays unused.
pub fn apart_law()
    ensures same { ApartLaw }
    ensures unused { UnusedLaw }
{}

/// A command leaves each node that it doesn't name, with its paths and its names.
pub fn untouched_law()
    ensures { UntouchedLaw }
{}

/// A command that finds the same where enough is free is accepted still, with the same need and the same fences.
pub fn still_law()
    ensures { StillLaw }
{}

/// A command that doesn't name a file does the same whatever the file's bytes are.
pub fn torn_law()
    ensures { TornLaw }
{}
