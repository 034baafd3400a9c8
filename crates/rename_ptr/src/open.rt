// The directory of the new name takes a page where it needs one: it is filled, with the name in its first slot, and then gets its owner.
ghost use Rattle.std.specs.Prelude.{◌≡◌, ◌*◌, ℕ, Some, None};
ghost use Rattle.pm_trait.specs.Unfolds.{MayFence, Takes};
ghost use Rattle.dentry_state.specs.States.{IsNamed};
ghost use Rattle.dentry_state.specs.Dentry.{slot_fields_at};
ghost use Rattle.entry_steps.specs.Steps.{MayTake, CanClaim, first_slot};
ghost use Rattle.rename_ptr.specs.Steps.{CanPointSlot};
ghost use Rattle.rename_ptr.specs.Stages.{first_step, claiming_step};

use crate::point::point;
use entry_steps::{claim_page, fill_page};
use layout::Geometry;
use pm_trait::{Pm, PmFault};
use volume::Moving;

// Fills the new page with the name, where there is one, and else points the new name's slot at the old one's.
pub fn fill_or_point<P: Pm>(pm: &mut P, geometry: &Geometry, moving: &Moving) -> Result<(), PmFault>
    requires page { MayTake geometry.now.pages (P.view pm.old).words moving.now.new_page }
    requires ready { moving.now.new_page ≡ None → CanPointSlot geometry.now.pages (P.view pm.old).words moving.now }
    requires begins { MayFence (P.view pm.old) (512 * geometry.now.pages)
        (first_step geometry.now.pages moving.now moving.now.new_page).events 1 }
    ensures takes { Takes (first_step geometry.now.pages moving.now moving.now.new_page) (P.view pm.old)
        (P.view pm.new) result }
{
    match moving.new_page {
        None => point(pm, geometry, moving),
        Some(page) => fill_page(pm, geometry, page, &moving.to_name),
    }
}

// Gives the new page to the new name's directory, where there is one.
pub fn own_page<P: Pm>(pm: &mut P, geometry: &Geometry, moving: &Moving) -> Result<(), PmFault>
    requires ready { (page : ℕ) → moving.now.new_page ≡ Some page
        → CanClaim geometry.now.pages (P.view pm.old).words page moving.now.to_directory
        × IsNamed (slot_fields_at geometry.now.pages (P.view pm.old).words (first_slot page)) }
    requires begins { MayFence (P.view pm.old) (512 * geometry.now.pages)
        (claiming_step geometry.now.pages moving.now moving.now.new_page).events 1 }
    ensures takes { Takes (claiming_step geometry.now.pages moving.now moving.now.new_page) (P.view pm.old)
        (P.view pm.new) result }
{
    match moving.new_page {
        None => Ok(()),
        Some(page) => {
            let _slot = claim_page(pm, geometry, page, moving.to_directory)?;
            Ok(())
        }
    }
}
