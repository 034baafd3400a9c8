// The steps of a repair. Each is settled by a fence of its own, which it has only where it stores anything.
ghost use Rattle.std.specs.Prelude.{◌*◌};
ghost use Rattle.pm_trait.specs.Unfolds.{MayFence, Takes};
ghost use Rattle.recovery.specs.Changes.{IsOne, changing, one_changes, events_for};
ghost use Rattle.recovery.specs.Repairs.{CanClearWord, HasObjects, clear_changes, free_changes, clearing, freeing};

use crate::span::{clear_all, set_links, set_part};
use crate::{Part, Repairs};
use fence_token::end_interval;
use layout::Geometry;
use pm_trait::{Pm, PmFault};

/// Clears one word of a slot, where there is such a slot.
pub fn clear_word<P: Pm>(
    pm: &mut P,
    geometry: &Geometry,
    part: Part,
    slot: Option<u64>,
) -> Result<(), PmFault>
    requires ready { CanClearWord geometry.now.pages part slot }
    requires begins { MayFence (P.view pm.old) (512 * geometry.now.pages) (events_for (one_changes slot)) 1 }
    ensures takes { Takes (changing (IsOne geometry.now.pages part slot) (one_changes slot)) (P.view pm.old)
        (P.view pm.new) result }
{
    let Some(number) = slot else {
        return Ok(());
    };
    set_part(pm, geometry, part, number, 0);
    end_interval(pm)
}

/// Clears owners and slots, and sets links.
pub fn clear_objects<P: Pm>(pm: &mut P, repairs: &Repairs) -> Result<(), PmFault>
    requires ready { HasObjects repairs.now }
    requires begins { MayFence (P.view pm.old) (512 * repairs.now.geometry.pages)
        (events_for (clear_changes repairs.now)) 1 }
    ensures takes { Takes (clearing repairs.now) (P.view pm.old) (P.view pm.new) result }
{
    if repairs.clear_changes() == 0 {
        return Ok(());
    }
    let geometry = &repairs.geometry;
    clear_all(pm, geometry, Part::Owner, repairs.owners.as_slice());
    clear_all(pm, geometry, Part::Name, repairs.slots.as_slice());
    set_links(
        pm,
        geometry,
        repairs.links.as_slice(),
        repairs.counts.as_slice(),
    );
    end_interval(pm)
}

/// Clears descriptors and inodes.
pub fn free_objects<P: Pm>(pm: &mut P, repairs: &Repairs) -> Result<(), PmFault>
    requires ready { HasObjects repairs.now }
    requires begins { MayFence (P.view pm.old) (512 * repairs.now.geometry.pages)
        (events_for (free_changes repairs.now)) 1 }
    ensures takes { Takes (freeing repairs.now) (P.view pm.old) (P.view pm.new) result }
{
    if repairs.free_changes() == 0 {
        return Ok(());
    }
    let geometry = &repairs.geometry;
    clear_all(
        pm,
        geometry,
        Part::Descriptor(repairs.descriptor_width),
        repairs.descriptors.as_slice(),
    );
    clear_all(
        pm,
        geometry,
        Part::Inode(repairs.inode_width),
        repairs.inodes.as_slice(),
    );
    end_interval(pm)
}
