// What reached slots name, and by which names.
ghost use Rattle.image_reading.specs.Images.{In};
ghost use Rattle.image_reading.specs.Soundness.{NamesInode, HasName};
ghost use Rattle.image_reading.specs.Scan.{Finds, AreReachedSlots};

use crate::image::Image;
use layout::{ROOT, name_of_words};

/// Rule 5: a reached slot names an inode, and not the root.
pub fn inodes_broken_at(image: &Image<'_>, slots: &[u32]) -> Option<u64>
    requires { AreReachedSlots image.now.geometry.pages image.now.words.now slots.now }
    ensures { Finds (In image.now NamesInode) result }
{
    for k in 0..slots.len() {
        let slot = u64::from(slots[k]);
        let inode = image.geometry.slot_at(image.words, slot).inode;
        if inode <= ROOT {
            return Some(slot);
        }
        if inode > image.geometry.inodes {
            return Some(slot);
        }
    }
    None
}

/// Rule 6: a reached slot has a name's words.
pub fn names_broken_at(image: &Image<'_>, slots: &[u32]) -> Option<u64>
    requires { AreReachedSlots image.now.geometry.pages image.now.words.now slots.now }
    ensures { Finds (In image.now HasName) result }
{
    for k in 0..slots.len() {
        let slot = u64::from(slots[k]);
        let name = name_of_words(&image.geometry.slot_at(image.words, slot).name);
        if name.is_none() {
            return Some(slot);
        }
    }
    None
}
