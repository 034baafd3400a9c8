// The rules, one after another.
ghost use Rattle.std.specs.Prelude.{◌≡◌, ◌*◌, ◌+◌, None, length};
ghost use Rattle.image_reading.specs.Scan.{AreCounted, AreHeld, AreReachedSlots, FindsFault, IsPointerAt, KeepsBelow};
ghost use Rattle.image_reading.specs.Scanned.{AreNames};
ghost use Rattle.image_reading.specs.Walk.{IsWalkedBelow};

use crate::Violation;
use crate::faults::directories::own_directories_broken_at;
use crate::faults::entries::{inodes_broken_at, names_broken_at};
use crate::faults::files::{all_pages_broken_at, own_offsets_broken_at};
use crate::faults::heads::{head_broken_at, root_broken_at};
use crate::faults::inodes::{kinds_broken_at, page_kinds_broken_at, sizes_broken_at};
use crate::faults::links::links_broken_at;
use crate::faults::names::own_names_broken_at;
use crate::faults::pointers::{one_pointer_broken_at, pointers_broken_at};
use crate::image::{Image, Walked};
use crate::table::sort_slots;

/// Rules 1 and 2, which are about the head and the root.
pub fn fault_of_head(image: &Image<'_>) -> Option<Violation>
    ensures { FindsFault image.now.geometry.pages image.now.words.now 3 result }
{
    if let Some(place) = head_broken_at(image) {
        return Some(Violation { rule: 1, place });
    }
    if let Some(place) = root_broken_at(image) {
        return Some(Violation { rule: 2, place });
    }
    None
}

/// Rules 3 and 4, which are about rename pointers. Where they hold, `pointer` is set to the slot that has one.
pub fn fault_of_pointers(
    image: &Image<'_>,
    held: &[u64],
    pointer: &mut Option<u64>,
) -> Option<Violation>
    requires kept { KeepsBelow image.now.geometry.pages image.now.words.now 3 }
    requires held { AreHeld image.now.geometry.pages image.now.words.now held.now }
    ensures found { FindsFault image.now.geometry.pages image.now.words.now 5 result }
    ensures pointer { result ≡ None → IsPointerAt image.now.geometry.pages image.now.words.now pointer.new }
{
    if let Some(place) = pointers_broken_at(image, held) {
        return Some(Violation { rule: 3, place });
    }
    if let Some(place) = one_pointer_broken_at(image, held, pointer) {
        return Some(Violation { rule: 4, place });
    }
    None
}

/// Rules 5 to 9, which are about names. `named` is overwritten. Where they hold, the slots are sorted by directory and name.
pub fn fault_of_names(
    walked: &Walked<'_>,
    named: &mut [bool],
    slots: &mut [u32],
) -> Option<Violation>
    requires walked { IsWalkedBelow 5 walked.now }
    requires marks { length named.old ≡ walked.now.image.geometry.inodes + 1 }
    requires slots { AreReachedSlots walked.now.image.geometry.pages walked.now.image.words.now slots.old }
    ensures found { FindsFault walked.now.image.geometry.pages walked.now.image.words.now 10 result }
    ensures names { result ≡ None → AreNames walked.now.image.geometry.pages walked.now.image.words.now slots.new }
{
    if let Some(place) = inodes_broken_at(&walked.image, slots) {
        return Some(Violation { rule: 5, place });
    }
    if let Some(place) = names_broken_at(&walked.image, slots) {
        return Some(Violation { rule: 6, place });
    }
    if let Some(place) = kinds_broken_at(walked) {
        return Some(Violation { rule: 7, place });
    }
    // Rule 9 goes by number, and rule 8 by name.
    let doubled = own_directories_broken_at(walked, slots, named);
    sort_slots(&walked.image, slots);
    if let Some(place) = own_names_broken_at(&walked.image, slots) {
        return Some(Violation { rule: 8, place });
    }
    if let Some(place) = doubled {
        return Some(Violation { rule: 9, place });
    }
    None
}

/// Rules 10 to 13, which are about pages. `stamps` is overwritten.
pub fn fault_of_pages(walked: &Walked<'_>, stamps: &mut [u64]) -> Option<Violation>
    requires walked { IsWalkedBelow 10 walked.now }
    requires room { length stamps.old ≡ walked.now.image.geometry.data_pages }
    ensures { FindsFault walked.now.image.geometry.pages walked.now.image.words.now 14 result }
{
    if let Some(place) = page_kinds_broken_at(walked) {
        return Some(Violation { rule: 10, place });
    }
    if let Some(place) = sizes_broken_at(walked) {
        return Some(Violation { rule: 11, place });
    }
    if let Some(place) = all_pages_broken_at(walked, stamps) {
        return Some(Violation { rule: 12, place });
    }
    if let Some(place) = own_offsets_broken_at(walked, stamps) {
        return Some(Violation { rule: 13, place });
    }
    None
}

/// Rule 14, which is about links. `tally` is overwritten with those that are counted.
pub fn fault_of_links(walked: &Walked<'_>, names: &[u32], tally: &mut [u64]) -> Option<Violation>
    requires walked { IsWalkedBelow 14 walked.now }
    requires names { AreNames walked.now.image.geometry.pages walked.now.image.words.now names.now }
    requires inodes { length tally.old ≡ walked.now.image.geometry.inodes + 1 }
    ensures found { FindsFault walked.now.image.geometry.pages walked.now.image.words.now 15 result }
    ensures counted { AreCounted walked.now.image.geometry.pages walked.now.image.words.now tally.new }
{
    if let Some(place) = links_broken_at(walked, names, tally) {
        return Some(Violation { rule: 14, place });
    }
    None
}
