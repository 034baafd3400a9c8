// The place of a new name: a slot of its directory, or a new page, of which it gets the first slot.
ghost use Rattle.std.specs.Prelude.{◌≡◌, ◌≤◌, ◌*◌, ℕ, length, IfOk};
ghost use Rattle.std.specs.Option.{ForSome};
ghost use Rattle.pm_trait.specs.Device.{IsFlushed, IsClean};
ghost use Rattle.pm_trait.specs.DeviceView.{Stores};
ghost use Rattle.pm_trait.specs.Unfolds.{MayFence, Unfolds, events_in};
ghost use Rattle.layout.specs.Name.{words_of_name};
ghost use Rattle.fence_token.specs.Ticket.{Settles};
ghost use Rattle.dentry_state.specs.Dentry.{DentryIsClean};
ghost use Rattle.volume.specs.Costs.{place_events};
ghost use Rattle.entry_steps.specs.Steps.{claim_steps};
ghost use Rattle.entry_steps.specs.Placing.{MayPlace, IsPlaceWord, IsWrittenWord, WritesPlace, flying_place, settled_place, ticket_of, page_of, slot_of, PlaceIsInFlight, PlaceIsClean, CanOpen};

use crate::name::name_slot;
use crate::page::{claim_page, fill_named};
use dentry_state::{DentryH, Named};
use fence_token::{Clean, FenceToken, InFlight};
use layout::{Geometry, Name};
use pm_trait::{Pm, PmFault};

/// Where a name was written that names no inode yet: `F` says how far its words have come. Of a new page the place has the number
/// alone.
#[derive(Drop)]
pub enum NamePlace<F> {
    /// A slot that was free.
    Slot(DentryH<F, Named>),
    /// A page that was free and has no owner yet: the name is in its first slot, and the others are free.
    Page(u64),
}

impl NamePlace<InFlight> {
    /// Writes a name into a free slot, or into the first one of a free page, all of whose words are stored then, and flushes it. It takes
    /// `NAME_EVENTS` events, and `PAGE_EVENTS` with a page.
    pub fn write<P: Pm>(
        pm: &mut P,
        geometry: &Geometry,
        slot: u64,
        new_page: Option<u64>,
        name: &Name,
    ) -> NamePlace<InFlight>
        requires whole { length (P.view pm.old).words ≡ 512 * geometry.now.pages }
        requires free { MayPlace geometry.now.pages (P.view pm.old).words slot new_page }
        requires settled { (word : ℕ) → IsPlaceWord geometry.now.pages slot new_page word
            → IsClean (P.view pm.old).words (P.view pm.old).trail word }
        requires room { place_events new_page ≤ (P.view pm.old).spare }

        ensures object { result ≡ flying_place geometry.now.pages slot name.now (P.view pm.new).fences new_page }
        ensures in_flight { PlaceIsInFlight result (P.view pm.new) }
        ensures words { WritesPlace geometry.now.pages (P.view pm.old).words (P.view pm.new).words slot
            (words_of_name name.now) new_page }
        ensures flushed { (word : ℕ) → IsWrittenWord geometry.now.pages slot new_page word
            → IsFlushed (P.view pm.new).trail word }
        ensures device { Stores (IsWrittenWord geometry.now.pages slot new_page) (P.view pm.old) (P.view pm.new)
            (place_events new_page) }
    {
        match new_page {
            None => NamePlace::Slot(name_slot(pm, geometry, slot, name)),
            Some(page) => {
                fill_named(pm, geometry, page, name);
                NamePlace::Page(page)
            }
        }
    }

    /// Takes the place as settled, once a later fence has succeeded.
    pub fn settle<P: Pm>(self, pm: &P, token: &FenceToken) -> NamePlace<Clean>
        requires in_flight { PlaceIsInFlight self (P.view pm.now) }
        requires settles { ForSome (ticket_of self) (λ ticket. Settles ticket token.now (P.view pm.now).fences) }
        ensures object { result ≡ settled_place self }
        ensures clean { PlaceIsClean result (P.view pm.now) }
    {
        match self {
            NamePlace::Slot(slot) => NamePlace::Slot(slot.settle(pm, token)),
            NamePlace::Page(page) => NamePlace::Page(page),
        }
    }
}

impl NamePlace<Clean> {
    /// Takes the slot that has the name. A new page gets its owner first, this directory, in an interval with its fence, which takes
    /// `COMMIT_EVENTS` events.
    pub fn open<P: Pm>(
        self,
        pm: &mut P,
        geometry: &Geometry,
        directory: u64,
    ) -> Result<DentryH<Clean, Named>, PmFault>
        requires clean { PlaceIsClean self (P.view pm.old) }
        requires ready { CanOpen geometry.now.pages (P.view pm.old).words directory self }
        requires begins { MayFence (P.view pm.old) (512 * geometry.now.pages)
            (events_in (claim_steps geometry.now.pages directory (page_of self))) 1 }
        ensures unfolds { Unfolds (claim_steps geometry.now.pages directory (page_of self)) (P.view pm.old)
            (P.view pm.new) result }
        ensures slot { IfOk result (λ slot. slot ≡ slot_of geometry.now.pages (P.view pm.old).words self) }
        ensures clean { IfOk result (λ slot. DentryIsClean slot (P.view pm.new)) }
    {
        match self {
            NamePlace::Slot(slot) => Ok(slot),
            NamePlace::Page(page) => claim_page(pm, geometry, page, directory),
        }
    }
}
