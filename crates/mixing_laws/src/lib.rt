//! Two trees while files are being written: what a command finds and does in both.
#![tactic(auto)]

ghost use Rattle.mixing_laws.specs.Mixed.{NoneMixedLaw, MixedInOrderLaw, MoreMixedLaw, UnmixedLaw, StoredBelowLaw, FindsAlikeLaw, DoesAlikeLaw, OwnRangeLaw};

/// Trees without a range that is written are the same; the order of ranges doesn't matter; and bytes of one more range may be stored.
pub fn mixed_law()
    ensures none { NoneMixedLaw }
    ensures order { MixedInOrderLaw }
    ensures more { MoreMixedLaw }
    ensures unmixed { UnmixedLaw }
    ensures below { StoredBelowLaw }
{}

/// A command finds the same in both trees. One that names no file that is being written does the same; and so does the write of a range, behind
/// which nothing of it is mixed.
pub fn alike_law()
    ensures finds { FindsAlikeLaw }
    ensures does { DoesAlikeLaw }
    ensures own { OwnRangeLaw }
{}
