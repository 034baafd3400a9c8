//! The running calls of many sessions, each of which waits beside the others: one of them makes a step, or begins, and all wait again.
#![tactic(auto)]

ghost use Rattle.session_laws.specs.Going.{AsksLaw, PreparedLaw, ReadyLaw, FewKeptLaw, BeginAmongLaw, GoOnAmongLaw, AcknowledgedAmongLaw};
ghost use Rattle.session_laws.specs.Histories.{HistoryBeginsLaw, HistoryGoesOnLaw, IdleEntersLaw, AnswersAlikeLaw, ReadsAlikeLaw, QuietCrashLaw, BeginCrashLaw, GoOnCrashLaw};
ghost use Rattle.session_laws.specs.Moving.{MoveBeginsLaw, MoveStandsLaw, MoveGoesOnLaw, MoveEntersLaw, MoveCrashLaw, MoveAcknowledgedLaw};
ghost use Rattle.session_laws.specs.Order.{TakeOutLaw, PutInLaw};
ghost use Rattle.session_laws.specs.Others.{OthersWaitLaw};

/// A call is taken out of others, and put in among them.
pub fn order_law()
    ensures out { TakeOutLaw }
    ensures in_again { PutInLaw }
{}

/// The others wait still when one makes a step.
pub fn others_law()
    ensures { OthersWaitLaw }
{}

/// A command may be prepared among them that names nothing of theirs, and then it is ready.
pub fn ready_law()
    ensures asks { AsksLaw }
    ensures prepared { PreparedLaw }
    ensures ready { ReadyLaw }
    ensures few { FewKeptLaw }
    ensures acknowledged { AcknowledgedAmongLaw }
{}

/// It begins,
pub fn begin_law()
    ensures { BeginAmongLaw }
{}

/// and goes on.
pub fn going_law()
    ensures { GoOnAmongLaw }
{}

/// The history goes on with it: a step that commits enters its command, and no other does.
pub fn history_law()
    ensures begins { HistoryBeginsLaw }
    ensures goes_on { HistoryGoesOnLaw }
    ensures idle { IdleEntersLaw }
{}

/// A command is refused in the history as in the words, and reads the same there where it names nothing of a running call's.
pub fn alike_law()
    ensures answers { AnswersAlikeLaw }
    ensures reads { ReadsAlikeLaw }
{}

/// A crash leaves the history so far, or in a step that commits the one with its command, but for bytes of running writes.
pub fn crash_law()
    ensures quiet { QuietCrashLaw }
    ensures begins { BeginCrashLaw }
    ensures goes_on { GoOnCrashLaw }
{}

/// A rename runs alone, from its begin to its end.
pub fn moving_law()
    ensures begins { MoveBeginsLaw }
    ensures stands { MoveStandsLaw }
    ensures goes_on { MoveGoesOnLaw }
    ensures enters { MoveEntersLaw }
    ensures crash { MoveCrashLaw }
    ensures acknowledged { MoveAcknowledgedLaw }
{}
