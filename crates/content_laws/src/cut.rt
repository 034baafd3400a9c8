// The laws of a truncation to less.
ghost use Rattle.content_laws.specs.Cut.{LoweringLaw, TrimmingLaw, ReleasingLaw, CutLaw, CutStepLaw, CutIndexLaw};

/// While a file is cut, each interval by what stands before it: the size leaves the words before or the new size, whose tree is
/// without the bytes past the end; the owners of the pages past it, and then the rest of their descriptors, change no meaning. The
/// last words are tidy, and mean what the new size leaves.
pub fn cut_law()
    ensures lowering { LoweringLaw }
    ensures trimming { TrimmingLaw }
    ensures releasing { ReleasingLaw }
    ensures end { CutLaw }
{}

/// What a truncation to less leaves reads as the state after the command, with the room as before.
pub fn cut_step_law()
    ensures { CutStepLaw }
{}

/// What an index of the image holds after a truncation to less.
pub fn cut_index_law()
    ensures { CutIndexLaw }
{}
