// The slot that takes the name points at the one that loses it, and a directory that gets a child counts it.
ghost use Rattle.std.specs.Prelude.{◌≡◌, ◌≢◌, ◌+◌, ◌<◌, ◌≤◌, ◌*◌, ◌⊎◌, ℕ, length};
ghost use Rattle.pm_trait.specs.Device.{IsFlushed, IsClean};
ghost use Rattle.pm_trait.specs.DeviceView.{IsSettledView, Stores};
ghost use Rattle.pm_trait.specs.Unfolds.{MayFence, Takes};
ghost use Rattle.layout.specs.Geometry.{slots_of, slot_word_of};
ghost use Rattle.layout.specs.Fields.{slot_inode, slot_pointer, slot_words};
ghost use Rattle.layout.specs.Name.{words_of_name};
ghost use Rattle.inode_state.specs.Inode.{IsInodeWord};
ghost use Rattle.dentry_state.specs.States.{free_fields, IsNamed, IsLive};
ghost use Rattle.dentry_state.specs.Dentry.{slot_fields_at, IsRestWord};
ghost use Rattle.rename_laws.specs.Ready.{HasNewName};
ghost use Rattle.image_laws.specs.Links.{IsLinkWord, Rises};
ghost use Rattle.volume.specs.Costs.{count_of, word_events, fence_events, pointing_events};
ghost use Rattle.volume.specs.Moves.{rising_of};
ghost use Rattle.rename_ptr.specs.Steps.{target_of, MayRise, CanPointSlot, IsPointedWord, pointing};

use dentry_state::{DentryH, Free, Live, Named};
use entry_steps::raise_links;
use fence_token::{Clean, end_interval};
use layout::{Geometry, Name};
use pm_trait::{Pm, PmFault};
use volume::{Moving, SLOT_REST_EVENTS, WORD_EVENTS};

// Gives a free slot a name and a pointer at an entry, and flushes both.
fn point_new<P: Pm>(pm: &mut P, geometry: &Geometry, slot: u64, name: &Name, source: u64)
    requires whole { length (P.view pm.old).words ≡ 512 * geometry.now.pages }
    requires settled { IsSettledView (P.view pm.old) }
    requires in_range { slot < slots_of geometry.now.pages }
    requires source_in_range { source < slots_of geometry.now.pages }
    requires free { slot_fields_at geometry.now.pages (P.view pm.old).words slot ≡ free_fields }
    requires entry { IsLive (slot_fields_at geometry.now.pages (P.view pm.old).words source) }
    requires room { SLOT_REST_EVENTS ≤ (P.view pm.old).spare }
    ensures pointer { slot_pointer geometry.now.pages (P.view pm.new).words slot ≡ source + 1 }
    ensures name { slot_words geometry.now.pages (P.view pm.new).words slot ≡ words_of_name name.now }
    ensures flushed { (word : ℕ) → IsRestWord geometry.now.pages slot word → IsFlushed (P.view pm.new).trail word }
    ensures device { Stores (IsRestWord geometry.now.pages slot) (P.view pm.old) (P.view pm.new) SLOT_REST_EVENTS }
{
    let entry: DentryH<Clean, Live> = DentryH::at(pm, geometry, source);
    let free: DentryH<Clean, Free> = DentryH::at(pm, geometry, slot);
    let named = free.set_name(pm, name);
    let pointing = named.point_at(pm, &entry);
    let _pointed = pointing.flush(pm);
}

// Gives a slot that has a name and no number a pointer at an entry, and flushes it.
fn point_named<P: Pm>(pm: &mut P, geometry: &Geometry, slot: u64, source: u64)
    requires whole { length (P.view pm.old).words ≡ 512 * geometry.now.pages }
    requires settled { IsSettledView (P.view pm.old) }
    requires in_range { slot < slots_of geometry.now.pages }
    requires source_in_range { source < slots_of geometry.now.pages }
    requires named { IsNamed (slot_fields_at geometry.now.pages (P.view pm.old).words slot) }
    requires entry { IsLive (slot_fields_at geometry.now.pages (P.view pm.old).words source) }
    requires room { WORD_EVENTS ≤ (P.view pm.old).spare }
    ensures pointer { slot_pointer geometry.now.pages (P.view pm.new).words slot ≡ source + 1 }
    ensures flushed { IsFlushed (P.view pm.new).trail (slot_word_of geometry.now.pages slot 1) }
    ensures device { Stores (λ word. word ≡ slot_word_of geometry.now.pages slot 1) (P.view pm.old) (P.view pm.new)
        WORD_EVENTS }
{
    let entry: DentryH<Clean, Live> = DentryH::at(pm, geometry, source);
    let named: DentryH<Clean, Named> = DentryH::at(pm, geometry, slot);
    let pointing = named.point_at(pm, &entry);
    let _pointed = pointing.flush(pm);
}

// Gives an entry a pointer at an entry of another inode, and flushes it.
fn point_taken<P: Pm>(pm: &mut P, geometry: &Geometry, slot: u64, source: u64)
    requires whole { length (P.view pm.old).words ≡ 512 * geometry.now.pages }
    requires settled { IsSettledView (P.view pm.old) }
    requires in_range { slot < slots_of geometry.now.pages }
    requires source_in_range { source < slots_of geometry.now.pages }
    requires taken { IsLive (slot_fields_at geometry.now.pages (P.view pm.old).words slot) }
    requires entry { IsLive (slot_fields_at geometry.now.pages (P.view pm.old).words source) }
    requires other_inode { slot_inode geometry.now.pages (P.view pm.old).words source
        ≢ slot_inode geometry.now.pages (P.view pm.old).words slot }
    requires room { WORD_EVENTS ≤ (P.view pm.old).spare }
    ensures pointer { slot_pointer geometry.now.pages (P.view pm.new).words slot ≡ source + 1 }
    ensures flushed { IsFlushed (P.view pm.new).trail (slot_word_of geometry.now.pages slot 1) }
    ensures device { Stores (λ word. word ≡ slot_word_of geometry.now.pages slot 1) (P.view pm.old) (P.view pm.new)
        WORD_EVENTS }
{
    let entry: DentryH<Clean, Live> = DentryH::at(pm, geometry, source);
    let taken: DentryH<Clean, Live> = DentryH::at(pm, geometry, slot);
    let pointing = taken.point_at(pm, &entry);
    let _pointed = pointing.flush(pm);
}

// Gives the slot of the new name its pointer, and its name where it has none yet, and flushes them.
fn point_slot<P: Pm>(pm: &mut P, geometry: &Geometry, moving: &Moving)
    requires whole { length (P.view pm.old).words ≡ 512 * geometry.now.pages }
    requires settled { IsSettledView (P.view pm.old) }
    requires ready { CanPointSlot geometry.now.pages (P.view pm.old).words moving.now }
    requires room { pointing_events moving.now ≤ (P.view pm.old).spare }
    ensures pointer { slot_pointer geometry.now.pages (P.view pm.new).words moving.now.to_slot
        ≡ moving.now.from_slot + 1 }
    ensures name { HasNewName geometry.now.pages (P.view pm.new).words moving.now.to_slot (target_of moving.now) }
    ensures flushed { (word : ℕ) → IsPointedWord geometry.now.pages moving.now word
        → IsFlushed (P.view pm.new).trail word }
    ensures device { Stores (IsPointedWord geometry.now.pages moving.now) (P.view pm.old) (P.view pm.new)
        (pointing_events moving.now) }
{
    match (moving.replaced, moving.new_page) {
        (Some(_), _) => point_taken(pm, geometry, moving.to_slot, moving.from_slot),
        (None, Some(_)) => point_named(pm, geometry, moving.to_slot, moving.from_slot),
        (None, None) => point_new(
            pm,
            geometry,
            moving.to_slot,
            &moving.to_name,
            moving.from_slot,
        ),
    }
}

// Counts one link more of a node, where there is one, and flushes the count.
fn count_link<P: Pm>(pm: &mut P, geometry: &Geometry, inode: Option<u64>)
    requires whole { length (P.view pm.old).words ≡ 512 * geometry.now.pages }
    requires linkable { MayRise geometry.now.pages (P.view pm.old).words inode }
    requires settled { (number : ℕ) → inode ≡ Some number → (word : ℕ) → IsInodeWord number word
        → IsClean (P.view pm.old).words (P.view pm.old).trail word }
    requires room { count_of inode * WORD_EVENTS ≤ (P.view pm.old).spare }
    ensures links { Rises (P.view pm.old).words (P.view pm.new).words inode }
    ensures flushed { (word : ℕ) → IsLinkWord inode word → IsFlushed (P.view pm.new).trail word }
    ensures device { Stores (IsLinkWord inode) (P.view pm.old) (P.view pm.new) (count_of inode * WORD_EVENTS) }
{
    if let Some(inode) = inode {
        let _counted = raise_links(pm, geometry, inode);
    }
}

// Points the new name's slot at the old one's.
pub fn point<P: Pm>(pm: &mut P, geometry: &Geometry, moving: &Moving) -> Result<(), PmFault>
    requires ready { CanPointSlot geometry.now.pages (P.view pm.old).words moving.now }
    requires begins { MayFence (P.view pm.old) (512 * geometry.now.pages)
        (pointing_events moving.now + count_of (rising_of moving.now) * word_events + fence_events) 1 }
    ensures takes { Takes (pointing geometry.now.pages moving.now) (P.view pm.old) (P.view pm.new) result }
{
    point_slot(pm, geometry, moving);
    count_link(pm, geometry, moving.rising());
    end_interval(pm)
}
