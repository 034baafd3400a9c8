// Inodes and pages in which nothing is to be repaired.
ghost use Rattle.std.specs.Prelude.{◌↔◌, ◌<◌, IsTrue};
ghost use Rattle.layout.specs.Geometry.{data_pages_of, slots_of};
ghost use Rattle.image_reading.specs.Images.{In};
ghost use Rattle.image_reading.specs.Reading.{IsLive};
ghost use Rattle.image_reading.specs.Repairs.{IsKept};
ghost use Rattle.image_reading.specs.Scanned.{IsScanned};
ghost use Rattle.image_reading.specs.Litter.{IsInode, IsZeroInode, IsZeroDescriptorFrom, IsZeroSlot, HasZeroSlots, IsTidyPage, IsTidyInode};

use crate::image::Image;
use crate::scanned::Scanned;
use layout::{DESCRIPTOR_OWNER, FILE, PAGE_SLOTS, SLOT_WORDS, descriptor_words, inode_words};

/// Whether the inode has the links that are counted where it is reached, and is zero elsewhere.
pub fn is_tidy_inode(scanned: &Scanned<'_>, inode: u64) -> bool
    requires scanned { IsScanned scanned.now }
    requires inode { IsInode scanned.now.image.geometry.pages inode }
    ensures { IsTrue result ↔ In scanned.now.image IsTidyInode inode }
{
    if !scanned.is_reached(inode) {
        return is_zero_inode(&scanned.image, inode);
    }
    let fields = scanned.image.geometry.inode_at(scanned.image.words, inode);
    fields.links == scanned.links(inode)
}

/// Whether the words of the inode that are read are zero.
pub fn is_zero_inode(image: &Image<'_>, inode: u64) -> bool
    requires { IsInode image.now.geometry.pages inode }
    ensures { IsTrue result ↔ IsZeroInode image.now.words.now inode }
{
    for field in 0..inode_words(image.words) {
        if image.words[image.geometry.inode_word(inode, field) as usize] != 0 {
            return false;
        }
    }
    true
}

/// Whether the page is kept and its slots are live or zero, or its descriptor is zero.
pub fn is_tidy_page(scanned: &Scanned<'_>, page: u64) -> bool
    requires scanned { IsScanned scanned.now }
    requires in_range { page < data_pages_of scanned.now.image.geometry.pages }
    ensures { IsTrue result ↔ In scanned.now.image IsTidyPage page }
{
    if !scanned.is_kept(page) {
        return is_zero_descriptor_from(&scanned.image, DESCRIPTOR_OWNER, page);
    }
    is_tidy_kept(scanned, page)
}

/// Whether the words of the page's descriptor that are read are zero, from its field `first` on.
pub fn is_zero_descriptor_from(image: &Image<'_>, first: u64, page: u64) -> bool
    requires { page < data_pages_of image.now.geometry.pages }
    ensures { IsTrue result ↔ IsZeroDescriptorFrom image.now.geometry.pages image.now.words.now
        first page }
{
    for field in first..descriptor_words(image.words) {
        if image.words[image.geometry.descriptor_word(page, field) as usize] != 0 {
            return false;
        }
    }
    true
}

// Whether the kept page is a file's, or its slots are live or zero.
fn is_tidy_kept(scanned: &Scanned<'_>, page: u64) -> bool
    requires scanned { IsScanned scanned.now }
    requires in_range { page < data_pages_of scanned.now.image.geometry.pages }
    requires kept { In scanned.now.image IsKept page }
    ensures { IsTrue result ↔ In scanned.now.image IsTidyPage page }
{
    let image = &scanned.image;
    let owner = image.geometry.descriptor_at(image.words, page).owner;
    if image.geometry.inode_at(image.words, owner).kind == FILE {
        return true;
    }
    has_zero_slots(scanned, page)
}

// Whether each slot of the page is live or zero.
fn has_zero_slots(scanned: &Scanned<'_>, page: u64) -> bool
    requires scanned { IsScanned scanned.now }
    requires in_range { page < data_pages_of scanned.now.image.geometry.pages }
    ensures { IsTrue result ↔ In scanned.now.image HasZeroSlots page }
{
    for place in 0..PAGE_SLOTS {
        if !is_live_or_zero(scanned, scanned.image.geometry.slot_in(page, place)) {
            return false;
        }
    }
    true
}

// Whether the slot is zero, if it isn't live.
fn is_live_or_zero(scanned: &Scanned<'_>, slot: u64) -> bool
    requires scanned { IsScanned scanned.now }
    requires in_range { slot < slots_of scanned.now.image.geometry.pages }
    ensures { IsTrue result ↔ (¬ In scanned.now.image IsLive slot → In scanned.now.image IsZeroSlot slot) }
{
    if scanned.is_live(slot) {
        return true;
    }
    is_zero_slot(&scanned.image, slot)
}

// Whether all words of the slot are zero.
fn is_zero_slot(image: &Image<'_>, slot: u64) -> bool
    requires { slot < slots_of image.now.geometry.pages }
    ensures { IsTrue result ↔ In image.now IsZeroSlot slot }
{
    for field in 0..SLOT_WORDS {
        if image.words[image.geometry.slot_word(slot, field) as usize] != 0 {
            return false;
        }
    }
    true
}
