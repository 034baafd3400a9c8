// What holds of turns, as contracts.
ghost use Rattle.schedules.specs.Laws.{TurnLaw, HistoryLaw, CrashLaw};

/// Behind a turn the next one may be taken, and fewer are left.
pub fn turn_law()
    ensures { TurnLaw }
{}

/// The entries that turns make are a legal history, in an order that goes by when calls ended and began.
pub fn history_law()
    ensures { HistoryLaw }
{}

/// A crash at any moment leaves the history at some turn, or behind it, with the acknowledgements up to there. No word of the superblock is
/// another behind all turns.
pub fn crash_law()
    ensures { CrashLaw }
{}
