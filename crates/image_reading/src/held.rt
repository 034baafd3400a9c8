// Which slots are held, and their rename pointer.
ghost use Rattle.std.specs.Prelude.{◌≡◌, ◌↔◌, ◌*◌, ◌<◌, ℕ, IsTrue, length};
ghost use Rattle.layout.specs.Geometry.{data_pages_of, slots_of};
ghost use Rattle.image_reading.specs.Images.{In};
ghost use Rattle.image_reading.specs.Reading.{IsHeld, IsLive, slot_owner};
ghost use Rattle.image_reading.specs.Soundness.{IsOnlyPointer};
ghost use Rattle.image_reading.specs.Scan.{IsRename, IsPointerAt};
ghost use Rattle.image_reading.specs.Repairs.{IsPointer};
ghost use Rattle.image_reading.specs.Litter.{HasLiveSlot};

use crate::image::Image;
use layout::{PAGE_SLOTS, SLOTS};

/// The owner of the page that the slot stands in.
#[tactic(auto, unfolding(crate::specs::Reading::slot_owner))]
pub fn owner_of(image: &Image<'_>, slot: u64) -> u64
    requires { slot < slots_of image.now.geometry.pages }
    ensures { result ≡ slot_owner image.now.geometry.pages image.now.words.now slot }
{
    let page = image.geometry.page_of(slot);
    image.geometry.descriptor_at(image.words, page).owner
}

/// Whether the slot stands in a page that is held as a directory page.
pub fn is_held(image: &Image<'_>, slot: u64) -> bool
    ensures { IsTrue result ↔ In image.now IsHeld slot }
{
    if slot >= image.geometry.slots() {
        return false;
    }
    let page = image.geometry.page_of(slot);
    let descriptor = image.geometry.descriptor_at(image.words, page);
    if descriptor.kind != SLOTS {
        return false;
    }
    descriptor.owner != 0
}

/// Whether the slot is held and has a rename pointer.
pub fn has_pointer(image: &Image<'_>, slot: u64) -> bool
    ensures { IsTrue result ↔ In image.now IsPointer slot }
{
    if !is_held(image, slot) {
        return false;
    }
    image.geometry.slot_at(image.words, slot).pointer != 0
}

/// The one rename pointer of the held slots.
#[derive(Clone, Copy, Debug, PartialEq, Eq)]
pub struct Rename {
    /// One more than the slot that it names, 0 for none.
    pub target: u64,
    /// The inode number of the slot that it stands in.
    pub inode: u64,
}

/// The rename pointer, where one held slot at most has one: the one at this slot.
pub fn rename_of(image: &Image<'_>, pointer: Option<u64>) -> Rename
    requires only { (s : ℕ) → In image.now IsOnlyPointer s }
    requires pointer { IsPointerAt image.now.geometry.pages image.now.words.now pointer }
    ensures { IsRename image.now.geometry.pages image.now.words.now result.target result.inode }
{
    let Some(slot) = pointer else {
        return Rename {
            target: 0,
            inode: 0,
        };
    };
    let fields = image.geometry.slot_at(image.words, slot);
    Rename {
        target: fields.pointer,
        inode: fields.inode,
    }
}

/// Whether the slot is live.
pub fn is_live(image: &Image<'_>, rename: Rename, slot: u64) -> bool
    requires { IsRename image.now.geometry.pages image.now.words.now rename.target rename.inode }
    ensures { IsTrue result ↔ In image.now IsLive slot }
{
    if !is_held(image, slot) {
        return false;
    }
    let inode = image.geometry.slot_at(image.words, slot).inode;
    if inode == 0 {
        return false;
    }
    rename.target == 0 || rename.target - 1 != slot || rename.inode != inode
}

/// Whether some slot of the page is live.
pub fn has_live_slot(image: &Image<'_>, rename: Rename, page: u64) -> bool
    requires pointer { IsRename image.now.geometry.pages image.now.words.now rename.target rename.inode }
    requires in_range { page < data_pages_of image.now.geometry.pages }
    ensures { IsTrue result ↔ In image.now HasLiveSlot page }
{
    for place in 0..PAGE_SLOTS {
        if is_live(image, rename, image.geometry.slot_in(page, place)) {
            return true;
        }
    }
    false
}
