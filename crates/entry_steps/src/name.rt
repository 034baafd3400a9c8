// A slot gets a name, which names no inode yet.
ghost use Rattle.std.specs.Prelude.{◌≡◌, ◌<◌, ◌≤◌, ◌*◌, ℕ, length, Some};
ghost use Rattle.pm_trait.specs.Device.{IsFlushed, IsClean};
ghost use Rattle.pm_trait.specs.DeviceView.{Stores};
ghost use Rattle.layout.specs.Geometry.{slots_of};
ghost use Rattle.dentry_state.specs.States.{free_fields, named_fields};
ghost use Rattle.dentry_state.specs.declared.dentry.Touched.TheVariants.{BothLines};
ghost use Rattle.dentry_state.specs.Dentry.{IsSlotWord, IsNameWord, slot_fields_at, DentryIsInFlight};

use dentry_state::{DentryH, Free, Named};
use fence_token::{Clean, InFlight};
use layout::{Geometry, Name};
use pm_trait::Pm;
use volume::NAME_EVENTS;

/// Writes a name into a free slot, and flushes it. It takes `NAME_EVENTS` events.
pub fn name_slot<P: Pm>(
    pm: &mut P,
    geometry: &Geometry,
    slot: u64,
    name: &Name,
) -> DentryH<InFlight, Named>
    requires whole { length (P.view pm.old).words ≡ 512 * geometry.now.pages }
    requires in_range { slot < slots_of geometry.now.pages }
    requires free { slot_fields_at geometry.now.pages (P.view pm.old).words slot ≡ free_fields }
    requires settled { (word : ℕ) → IsSlotWord geometry.now.pages slot word
        → IsClean (P.view pm.old).words (P.view pm.old).trail word }
    requires room { NAME_EVENTS ≤ (P.view pm.old).spare }

    ensures object { result ≡ record {
      pages = geometry.now.pages;
      slot = slot;
      fields = named_fields name.now;
      touched = BothLines;
      ticket = Some (P.view pm.new).fences;
    } }
    ensures in_flight { DentryIsInFlight result (P.view pm.new) }
    ensures flushed { (word : ℕ) → IsSlotWord geometry.now.pages slot word → IsFlushed (P.view pm.new).trail word }
    ensures device { Stores (IsNameWord geometry.now.pages slot) (P.view pm.old) (P.view pm.new) NAME_EVENTS }
{
    let free: DentryH<Clean, Free> = DentryH::at(pm, geometry, slot);
    let named = free.set_name(pm, name);
    named.flush(pm)
}
