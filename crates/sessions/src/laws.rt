// What holds of many sessions whatever step comes.
ghost use Rattle.sessions.specs.Laws.{WeavesOnLaw, OthersHoldLaw, StartsLaw, AnswersLaw, GoesOnLaw, BeginsLaw, TellsLaw};

/// Where calls wait, the volume stands for the words' state beside what they have left, and they hold as much as that; sessions begin on a
/// mounted volume.
pub fn weaving_law()
    ensures on { WeavesOnLaw }
    ensures held { OthersHoldLaw }
    ensures starts { StartsLaw }
{}

/// A call that is answered at once, one that begins and one that goes on lead from calls that wait to calls that wait.
pub fn step_law()
    ensures answers { AnswersLaw }
    ensures goes_on { GoesOnLaw }
    ensures begins { BeginsLaw }
{}

/// The reply to a call that ended may be written.
pub fn telling_law()
    ensures { TellsLaw }
{}
