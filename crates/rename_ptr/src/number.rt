// The number goes from one slot to the other: it is stored in the new one, and then the old one gives it up.
ghost use Rattle.std.specs.Prelude.{◌*◌};
ghost use Rattle.pm_trait.specs.Unfolds.{MayFence, Takes};
ghost use Rattle.entry_steps.specs.Steps.{naming};
ghost use Rattle.removal_steps.specs.Steps.{unnaming};
ghost use Rattle.rename_ptr.specs.Steps.{CanTakeOver, CanLeave};

use dentry_state::{DentryH, Live, Moved, Pointing};
use fence_token::{Clean, end_interval};
use layout::Geometry;
use pm_trait::{Pm, PmFault};
use volume::{COMMIT_EVENTS, Moving};

// Gives the new name's slot the number: the commit.
pub fn take_number<P: Pm>(pm: &mut P, geometry: &Geometry, moving: &Moving) -> Result<(), PmFault>
    requires ready { CanTakeOver geometry.now.pages (P.view pm.old).words moving.now }
    requires begins { MayFence (P.view pm.old) (512 * geometry.now.pages) COMMIT_EVENTS 1 }
    ensures takes { Takes (naming geometry.now.pages moving.now.to_slot moving.now.inode) (P.view pm.old)
        (P.view pm.new) result }
{
    let source: DentryH<Clean, Live> = DentryH::at(pm, geometry, moving.from_slot);
    let pointing: DentryH<Clean, Pointing> = DentryH::at(pm, geometry, moving.to_slot);
    let moved = pointing.take_over(pm, &source);
    let _committed = moved.flush(pm);
    end_interval(pm)
}

// Takes the number out of the old name's slot.
pub fn leave_number<P: Pm>(pm: &mut P, geometry: &Geometry, moving: &Moving) -> Result<(), PmFault>
    requires ready { CanLeave geometry.now.pages (P.view pm.old).words moving.now }
    requires begins { MayFence (P.view pm.old) (512 * geometry.now.pages) COMMIT_EVENTS 1 }
    ensures takes { Takes (unnaming geometry.now.pages moving.now.from_slot) (P.view pm.old) (P.view pm.new) result }
{
    let destination: DentryH<Clean, Moved> = DentryH::at(pm, geometry, moving.to_slot);
    let source: DentryH<Clean, Live> = DentryH::at(pm, geometry, moving.from_slot);
    let left = source.clear_moved(pm, &destination);
    let _unnamed = left.flush(pm);
    end_interval(pm)
}
