//! What a volume knows behind a step of one call, beside what other calls have left.
#![tactic(auto)]

ghost use Rattle.knowing_laws.specs.Knowing.{QuietKnownLaw, NameKnownLaw, PagesKnownLaw, NameGoneLaw, GivenKnownLaw, CutKnownLaw};

/// Behind a step that commits nothing the volume knows the words once the numbers are taken that came into use.
pub fn quiet_law()
    ensures { QuietKnownLaw }
{}

/// Behind the step that commits a name it knows them once the name is in the index, with the new page that it is in; and behind the one that
/// commits a growth once the file's pages are.
pub fn entered_law()
    ensures name { NameKnownLaw }
    ensures pages { PagesKnownLaw }
{}

/// Behind the step that takes a name away it knows them once the name is out of the index.
pub fn gone_law()
    ensures { NameGoneLaw }
{}

/// Behind the last step of a call it knows them once the numbers are free that went, and out of their lists.
pub fn given_law()
    ensures node { GivenKnownLaw }
    ensures cut { CutKnownLaw }
{}
