//! What a running call has that waits between two fences, beside other calls: its next step may be made, and what its steps leave.
#![tactic(auto)]

ghost use Rattle.waiting_laws.specs.Beside.{HoldsApartLaw, PassesByLaw};
ghost use Rattle.waiting_laws.specs.Begins.{BeginsApartLaw, OwnEnoughLaw, TornKeepsLaw, NothingWrittenLaw, SizeKeptLaw, NamesKeptLaw, IdleLaw};
ghost use Rattle.waiting_laws.specs.Costs.{MakingCosts, LinkingCosts, RemovingCosts, MovingCosts, WritingCosts, ResizingCosts};
ghost use Rattle.waiting_laws.specs.Crashes.{MakingFirstCrashLaw, MakingQuietLaw, MakingCommitsLaw, LinkingFirstCrashLaw, LinkingQuietLaw, LinkingCommitsLaw, RemovingFirstCrashLaw, RemovingQuietLaw, GrowthFirstCrashLaw, GrowthQuietLaw, GrowthCommitsLaw, WritingCrashLaw, CutFirstCrashLaw, CutQuietLaw, MovingQuietLaw, MovingCommitLaw};
ghost use Rattle.waiting_laws.specs.Cutting.{CutLoweredLaw, CutAtOnceLaw, CutHoldsLaw, CutStillLaw, CutStandsLaw, CutTrimmedLaw, CutEndsLaw};
ghost use Rattle.waiting_laws.specs.Growing.{GrowthFilledLaw, GrowthHoldsLaw, GrowthStillLaw, GrowthStandsLaw, GrowthOwnedLaw, GrowthEndsLaw};
ghost use Rattle.waiting_laws.specs.Linking.{LinkingBeginsLaw, LinkingWrittenLaw, LinkingHoldsLaw, LinkingStillLaw, LinkingStandsLaw, LinkingClaimedLaw, LinkingEndsLaw};
ghost use Rattle.waiting_laws.specs.Making.{MakingBeginsLaw, MakingWrittenLaw, MakingHoldsLaw, MakingStillLaw, MakingStandsLaw, MakingClaimedLaw, MakingEndsLaw};
ghost use Rattle.waiting_laws.specs.Moving.{MovingBeginsLaw, MovingStartsLaw, MovingStepsLaw, MovingCommitsLaw, MovingEndsLaw};
ghost use Rattle.waiting_laws.specs.Preparing.{WalksRefuseLaw, FewEventsLaw, PreparedPassesLaw, StandsInOrderLaw, AcknowledgedLaw};
ghost use Rattle.waiting_laws.specs.Removing.{RemovingBeginsLaw, RemovingCommitsLaw, RemovingHoldsLaw, RemovingStillLaw, RemovingStandsLaw, RemovingStepsLaw, RemovingEndsLaw};
ghost use Rattle.waiting_laws.specs.Writing.{WritingBeginsLaw, ResizingBeginsLaw, WritingInsideLaw, WritingStandsLaw, ResizingStandsLaw};

/// Two calls that hold no inode together hold nothing together, and a step of one passes by the other.
pub fn apart_law()
    ensures holds { HoldsApartLaw }
    ensures passes { PassesByLaw }
{}

/// What the walks of a command refuse its whole row refuses, whatever others hold; the events of a plan are few; its preparing passes by what
/// waits, and so does an acknowledgement; and the order doesn't matter in which calls have left places.
pub fn preparing_law()
    ensures walks { WalksRefuseLaw }
    ensures events { FewEventsLaw }
    ensures passes { PreparedPassesLaw }
    ensures order { StandsInOrderLaw }
    ensures acknowledged { AcknowledgedLaw }
{}

/// A call that begins holds nothing that another one holds, where its command names nothing of that; what a call has left fits into what is free
/// beside the others; bytes that are stored before their write is committed are of one file; and a plan without a fence may begin too, and
/// changes nothing.
pub fn beginning_law()
    ensures apart { BeginsApartLaw }
    ensures enough { OwnEnoughLaw }
    ensures torn { TornKeepsLaw }
    ensures nothing { NothingWrittenLaw }
    ensures size { SizeKeptLaw }
    ensures names { NamesKeptLaw }
    ensures idle { IdleLaw }
{}

/// The making of an entry begins beside other calls, waits, and goes on to its end, whatever steps they make.
pub fn making_law()
    ensures begins { MakingBeginsLaw }
    ensures written { MakingWrittenLaw }
    ensures holds { MakingHoldsLaw }
    ensures still { MakingStillLaw }
    ensures stands { MakingStandsLaw }
    ensures claimed { MakingClaimedLaw }
    ensures ends { MakingEndsLaw }
{}

/// So does one more name for a file,
pub fn linking_law()
    ensures begins { LinkingBeginsLaw }
    ensures written { LinkingWrittenLaw }
    ensures holds { LinkingHoldsLaw }
    ensures still { LinkingStillLaw }
    ensures stands { LinkingStandsLaw }
    ensures claimed { LinkingClaimedLaw }
    ensures ends { LinkingEndsLaw }
{}

/// and the taking away of a name,
pub fn removing_law()
    ensures begins { RemovingBeginsLaw }
    ensures commits { RemovingCommitsLaw }
    ensures holds { RemovingHoldsLaw }
    ensures still { RemovingStillLaw }
    ensures stands { RemovingStandsLaw }
    ensures steps { RemovingStepsLaw }
    ensures ends { RemovingEndsLaw }
{}

/// and the growth of a file,
pub fn growing_law()
    ensures filled { GrowthFilledLaw }
    ensures holds { GrowthHoldsLaw }
    ensures still { GrowthStillLaw }
    ensures stands { GrowthStandsLaw }
    ensures owned { GrowthOwnedLaw }
    ensures ends { GrowthEndsLaw }
{}

/// by a write or by a truncation. Both begin beside other calls, a truncation to less too; a write inside the size has one step.
pub fn writing_law()
    ensures begins { WritingBeginsLaw }
    ensures resizing { ResizingBeginsLaw }
    ensures inside { WritingInsideLaw }
    ensures stands { WritingStandsLaw }
    ensures longer { ResizingStandsLaw }
{}

/// And so does a truncation to less.
pub fn cutting_law()
    ensures lowered { CutLoweredLaw }
    ensures at_once { CutAtOnceLaw }
    ensures holds { CutHoldsLaw }
    ensures still { CutStillLaw }
    ensures stands { CutStandsLaw }
    ensures trimmed { CutTrimmedLaw }
    ensures ends { CutEndsLaw }
{}

/// A move of a name begins where nothing is left and runs alone; and it goes on to its end.
pub fn moving_law()
    ensures begins { MovingBeginsLaw }
    ensures starts { MovingStartsLaw }
    ensures steps { MovingStepsLaw }
    ensures commits { MovingCommitsLaw }
    ensures ends { MovingEndsLaw }
{}

/// What a crash in a step leaves follows from where its call waits and from the words that the step makes, also where its fence fails: of an entry
/// and of one more name,
pub fn named_crash_law()
    ensures made_first { MakingFirstCrashLaw }
    ensures made_quiet { MakingQuietLaw }
    ensures made { MakingCommitsLaw }
    ensures linked_first { LinkingFirstCrashLaw }
    ensures linked_quiet { LinkingQuietLaw }
    ensures linked { LinkingCommitsLaw }
{}

/// of a name that goes or moves,
pub fn unnamed_crash_law()
    ensures removed { RemovingFirstCrashLaw }
    ensures removed_quiet { RemovingQuietLaw }
    ensures moved_quiet { MovingQuietLaw }
    ensures moved { MovingCommitLaw }
{}

/// and of a file's bytes and size.
pub fn content_crash_law()
    ensures filled { GrowthFirstCrashLaw }
    ensures grown_quiet { GrowthQuietLaw }
    ensures grown { GrowthCommitsLaw }
    ensures written { WritingCrashLaw }
    ensures cut { CutFirstCrashLaw }
    ensures cut_quiet { CutQuietLaw }
{}

/// What is left of a call takes the events and fences of its next step and those of what is left behind it, from all of its plan's on.
pub fn costs_law()
    ensures making { MakingCosts }
    ensures linking { LinkingCosts }
    ensures removing { RemovingCosts }
    ensures moving { MovingCosts }
    ensures writing { WritingCosts }
    ensures resizing { ResizingCosts }
{}
