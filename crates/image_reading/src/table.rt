// The table of the reached slots: by number, and then by directory and name.
ghost use Rattle.std.specs.Prelude.{◌≡◌, ◌≤◌, ◌<◌, vec_capacity};
ghost use Rattle.layout.specs.Geometry.{slots_of};
ghost use Rattle.image_reading.specs.Scan.{AreReachedSlots, AreSortedSlots, slot_or_last_of, entry_cmp, slot_cmp};
ghost use Rattle.image_reading.specs.Walk.{IsWalked};

use crate::held::owner_of;
use crate::image::{Image, Walked};
use crate::pages::next_held;
use crate::slots::is_reached_slot;
use layout::cmp_name_words;
use std::cmp::Ordering;

/// Writes the reached slots, in rising order.
pub fn collect_slots(walked: &Walked<'_>, slots: &mut Vec<u32>)
    requires walked { IsWalked walked.now }
    requires room { slots_of walked.now.image.geometry.pages ≤ vec_capacity slots.old }
    ensures slots { AreReachedSlots walked.now.image.geometry.pages walked.now.image.words.now slots.new.items }
    ensures room { vec_capacity slots.new ≡ vec_capacity slots.old }
{
    slots.clear();
    let mut slot = next_held(&walked.image, walked.lists.held, 0);
    while slot < walked.image.geometry.slots() {
        if is_reached_slot(walked, slot) {
            slots.push_reserved(slot as u32);
        }
        slot = next_held(&walked.image, walked.lists.held, slot + 1);
    }
}

/// Sorts the reached slots by directory, then by name, then by number.
pub fn sort_slots(image: &Image<'_>, slots: &mut [u32])
    requires { AreReachedSlots image.now.geometry.pages image.now.words.now slots.old }
    ensures { AreSortedSlots image.now.geometry.pages image.now.words.now slots.new }
{
    slots.sort_unstable_by(|left, right| cmp_slots(image, *left, *right));
}

// The order of two slots.
fn cmp_slots(image: &Image<'_>, left: u32, right: u32) -> Ordering
    ensures { result ≡ slot_cmp image.now.geometry.pages image.now.words.now left right }
{
    cmp_entries(image, left, right).then(left.cmp(&right))
}

/// The order of two slots by directory, and then by name. A number past the last slot stands for that slot.
pub fn cmp_entries(image: &Image<'_>, left: u32, right: u32) -> Ordering
    ensures { result ≡ entry_cmp image.now.geometry.pages image.now.words.now left right }
{
    let first = slot_or_last(image, left);
    let second = slot_or_last(image, right);
    let directories = owner_of(image, first).cmp(&owner_of(image, second));
    if directories != Ordering::Equal {
        return directories;
    }
    cmp_name_words(
        &image.geometry.slot_at(image.words, first).name,
        &image.geometry.slot_at(image.words, second).name,
    )
}

// The slot of this number, and the last one for each number past it.
#[tactic(auto, unfolding(crate::specs::Scan::slot_or_last_of))]
fn slot_or_last(image: &Image<'_>, number: u32) -> u64
    ensures slot { result ≡ slot_or_last_of image.now.geometry.pages number }
    ensures in_range { result < slots_of image.now.geometry.pages }
{
    let slots = image.geometry.slots();
    let slot = u64::from(number);
    if slot < slots { slot } else { slots - 1 }
}
