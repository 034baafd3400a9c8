//! Laws of recovery: what it makes of the words of an image, and that no crash in it changes what the image means.
#![tactic(auto)]

ghost use Rattle.repair_laws.specs.Laws.{UseLaw, RepairLaw, EndLaw, StoredLaw, StillLaw, NothingLaw};
ghost use Rattle.repair_laws.specs.Laws.{SomeRepair, OneMended, MendedLaw, TidyLaw, IndexLaw};

/// The first two steps change nothing that is held, live, reached, kept or counted.
pub fn use_law()
    ensures { UseLaw }
{}

/// Each mix of the words before and after a step means what the words before the repair mean.
pub fn repair_law()
    ensures { RepairLaw }
{}

/// The words after the last step are what recovery makes of the first.
pub fn end_law()
    ensures { EndLaw }
{}

/// The stores of each step make the words what the step makes them. A step without a store leaves them as they were, and
/// there is no store exactly where nothing is to be repaired.
pub fn stored_law()
    ensures steps { StoredLaw }
    ensures still { StillLaw }
    ensures nothing { NothingLaw }
{}

/// Recovery makes one list of words of each image whose words fit together. It means the same, nothing is to be repaired
/// in it, and it is the same list exactly where nothing is to be repaired in the image.
pub fn mended_law()
    ensures some { SomeRepair }
    ensures one { OneMended }
    ensures means { MendedLaw }
    ensures tidy { TidyLaw }
{}

/// What an index of the words after a repair holds is read off the words before.
pub fn index_law()
    ensures { IndexLaw }
{}
