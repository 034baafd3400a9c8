// The whole repair of an image.
ghost use Rattle.std.specs.Prelude.{◌≡◌, ◌^◌, ◌<◌, ◌≤◌, OnOk};
ghost use Rattle.pm_trait.specs.Device.{LeavesOnly};
ghost use Rattle.pm_trait.specs.DeviceView.{IsSettledView, MakesIntervals};
ghost use Rattle.pm_trait.specs.Unfolds.{KeepsWords, Unfolds};
ghost use Rattle.layout.specs.Superblock.{IsSuperblockWord};
ghost use Rattle.image_reading.specs.Soundness.{Sound};
ghost use Rattle.image_laws.specs.Frame.{IsSoundAs};
ghost use Rattle.repair_laws.specs.Mended.{IsMended};
ghost use Rattle.recovery.specs.Plans.{IsPlanOf};
ghost use Rattle.recovery.specs.Repairs.{steps_of, events_of_repairs, fences_of_repairs};

use crate::steps::{clear_objects, clear_word, free_objects};
use crate::{Part, Repairs};
use pm_trait::{Pm, PmFault};

/// Makes of a sound image what recovery makes of it, in at most four steps.
///
/// A crash at any moment leaves a sound image that means the same. Where a fence fails nothing is done after it.
pub fn repair<P: Pm>(pm: &mut P, repairs: Repairs) -> Result<(), PmFault>
    requires settled { IsSettledView (P.view pm.old) }
    requires sound { Sound repairs.geometry.pages (P.view pm.old).words }
    requires planned { IsPlanOf (P.view pm.old).words repairs }
    requires room { events_of_repairs repairs ≤ (P.view pm.old).spare }
    requires countable { (P.view pm.old).fences < 2 ^ 63 }

    ensures in_turn { Unfolds (steps_of repairs) (P.view pm.old) (P.view pm.new) result }
    ensures any_moment { LeavesOnly (P.view pm.old).trail (P.view pm.new).trail
        (λ acks image. (acks ≡ 0) × IsSoundAs repairs.geometry.pages (P.view pm.old).words image) }
    ensures mended { OnOk result (IsMended repairs.geometry.pages (P.view pm.old).words (P.view pm.new).words) }
    ensures device { MakesIntervals (P.view pm.old) (P.view pm.new) (events_of_repairs repairs)
        (fences_of_repairs repairs) result }
    ensures beside { KeepsWords IsSuperblockWord (P.view pm.old).words (P.view pm.new).words }
    ensures quiet { fences_of_repairs repairs ≡ 0 → (P.view pm.new) ≡ (P.view pm.old) }
{
    let geometry = &repairs.geometry;
    clear_word(pm, geometry, Part::Number, repairs.left)?;
    clear_word(pm, geometry, Part::Pointer, repairs.pointer)?;
    clear_objects(pm, &repairs)?;
    free_objects(pm, &repairs)
}
