// What a caller may rest on of places, of tallies and of generated scripts, each law as a contract.
ghost use Rattle.crash_replay.specs.Replay.{ReplayLaw};
ghost use Rattle.crash_replay.specs.Tally.{TallyLaw};
ghost use Rattle.crash_replay.specs.Work.{WorkLaw};

/// How many acknowledgements come before the place of a moment: for the calls that are acknowledged one less than the
/// call's number, and all of them behind these.
pub fn replay_law()
    ensures { ReplayLaw }
{}

/// What the counts of a tally tell of the answers whose texts it took: how many were accepted, how many were not, and whether one
/// told of a want of memory.
pub fn tally_law()
    ensures { TallyLaw }
{}

/// A generated script has four lines more than are asked for, each a command, and 148 bytes a line at most. With at most a million
/// lines it is within the limit of a script.
pub fn work_law()
    ensures { WorkLaw }
{}
