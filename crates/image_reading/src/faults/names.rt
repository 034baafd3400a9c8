// Two names of one directory that are the same.
ghost use Rattle.std.specs.Prelude.{ℕ};
ghost use Rattle.image_reading.specs.Images.{In};
ghost use Rattle.image_reading.specs.Soundness.{HasOwnName, HasName};
ghost use Rattle.image_reading.specs.Scan.{Finds, AreSortedSlots};

use crate::image::Image;
use crate::table::cmp_entries;
use std::cmp::Ordering;

/// Rule 8: no two reached slots of one directory have one name. Those that have one stand side by side, the least first.
pub fn own_names_broken_at(image: &Image<'_>, slots: &[u32]) -> Option<u64>
    requires slots { AreSortedSlots image.now.geometry.pages image.now.words.now slots.now }
    requires named { (s : ℕ) → In image.now HasName s }
    ensures { Finds (In image.now HasOwnName) result }
{
    let mut least = image.geometry.slots();
    for k in 1..slots.len() {
        if cmp_entries(image, slots[k - 1], slots[k]) == Ordering::Equal {
            least = least.min(u64::from(slots[k]));
        }
    }
    if least == image.geometry.slots() {
        return None;
    }
    Some(least)
}
