//! What a rename leaves to be repaired, cut at each of its fences.
#![tactic(auto)]

ghost use Rattle.moving_laws.specs.Moving.{PageFilledLaw, PageOwnedLaw, PointedLaw, MovedLaw, LeftLaw, MoveClearedLaw, MoveGivenLaw, MovedStateLaw};

/// A new page that is filled with the new name is left, and the same once it has its owner.
pub fn opened_law()
    ensures filled { PageFilledLaw }
    ensures owned { PageOwnedLaw }
{}

/// A slot that points at the old name's leaves the pointer, itself where it names nothing, or its new page, and the links that have risen.
pub fn pointed_law()
    ensures { PointedLaw }
{}

/// The commit leaves the pointer, the old name's slot, or its page where no name is left in it, a replaced node with its pages where it
/// goes, and the links that are to fall; and the same is left once that slot has given up its number.
pub fn moved_law()
    ensures moved { MovedLaw }
    ensures left { LeftLaw }
{}

/// Once the pointer and the old name's slot are cleared and a link has fallen, the pages that go are left, and a replaced node that goes;
/// and the same once these pages have no owner.
pub fn cleared_law()
    ensures cleared { MoveClearedLaw }
    ensures given { MoveGivenLaw }
{}

/// The words that the commit leaves read as a state that the step allows.
pub fn entered_law()
    ensures { MovedStateLaw }
{}
