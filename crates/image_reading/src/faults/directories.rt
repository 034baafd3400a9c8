// Directories that have two names.
ghost use Rattle.std.specs.Prelude.{◌≡◌, ◌*◌, ◌+◌, ℕ, length};
ghost use Rattle.image_reading.specs.Images.{In};
ghost use Rattle.image_reading.specs.Soundness.{HasOwnDirectory};
ghost use Rattle.image_reading.specs.Scan.{Finds, AreReachedSlots};
ghost use Rattle.image_reading.specs.Walk.{IsNumbered};

use crate::image::Walked;
use layout::DIRECTORY;

/// Rule 9: no two reached slots name one directory. `named` is overwritten.
pub fn own_directories_broken_at(
    walked: &Walked<'_>,
    slots: &[u32],
    named: &mut [bool],
) -> Option<u64>
    requires walked { IsNumbered walked.now }
    requires slots { AreReachedSlots walked.now.image.geometry.pages walked.now.image.words.now slots.now }
    requires inodes { length named.old ≡ walked.now.image.geometry.inodes + 1 }
    ensures { Finds (In walked.now.image HasOwnDirectory) result }
{
    let image = &walked.image;
    named.fill(false);
    for k in 0..slots.len() {
        let slot = u64::from(slots[k]);
        let inode = image.geometry.slot_at(image.words, slot).inode;
        if image.geometry.inode_at(image.words, inode).kind == DIRECTORY {
            if named[inode as usize] {
                return Some(slot);
            }
            named[inode as usize] = true;
        }
    }
    None
}
