//! Laws of what a crash leaves of a write and a truncation.
#![tactic(auto)]

ghost use Rattle.content_laws.specs.Mix.{ContentQuietLaw, ByteMixLaw};
ghost use Rattle.content_laws.specs.Torn.{TornLaw, TornMeansLaw, TornTreeLaw, SameTornLaw};
ghost use Rattle.content_laws.specs.Inside.{InsideLaw};
ghost use Rattle.content_laws.specs.Growth.{FillingLaw, GrowthTakingLaw, GrowthLaw};
ghost use Rattle.content_laws.specs.Steps.{InsideStepLaw, WritePastStepLaw, LengthenStepLaw};
ghost use Rattle.content_laws.specs.Moments.{InsideOnceLaw, GrowthHangsLaw, GrowthOnceLaw};

mod cut;

pub use cut::{cut_index_law, cut_law, cut_step_law};

/// An interval that changes only words of pages that hold bytes, or are free, changes no used word; where no byte of a
/// file below its size changes, each mix of old and new words means the same.
pub fn byte_mix_law()
    ensures quiet { ContentQuietLaw }
    ensures mix { ByteMixLaw }
{}

/// While a range is written, each byte of it below the file's size is by itself the old or the new one, and all else is
/// as it was.
pub fn torn_law()
    ensures torn { TornLaw }
    ensures means { TornMeansLaw }
    ensures tree { TornTreeLaw }
    ensures same { SameTornLaw }
{}

/// A write inside the size: a crash leaves the range torn; the end is tidy, with the range.
pub fn inside_law()
    ensures { InsideLaw }
{}

/// A write past the size and a truncation to more, each interval by what stands before it: until the size is stored a crash
/// leaves the old size, and below it the range torn while the bytes are stored, and whole from then on; the end is tidy, with all
/// the bytes.
pub fn growth_law()
    ensures filling { FillingLaw }
    ensures taking { GrowthTakingLaw }
    ensures end { GrowthLaw }
{}

/// What a write and a truncation to more leave reads as a state that the step allows.
pub fn step_law()
    ensures inside { InsideStepLaw }
    ensures write { WritePastStepLaw }
    ensures truncate { LengthenStepLaw }
{}

/// The reading of a growth that crashed before its size was stored hangs on the bytes of the range below the old one, and is not
/// new. Once all that a crash leaves is new, it stays so: inside the size the words before are new then.
pub fn moment_law()
    ensures hangs { GrowthHangsLaw }
    ensures inside { InsideOnceLaw }
    ensures growth { GrowthOnceLaw }
{}
