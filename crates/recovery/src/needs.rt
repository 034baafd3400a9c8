// Which objects of an image a repair stores to.
ghost use Rattle.std.specs.Prelude.{◌≢◌, ◌↔◌, ℕ, ◌<◌, ◌≤◌, IsTrue};
ghost use Rattle.layout.specs.Geometry.{data_pages_of, page_of_slot, slot_word_of, slots_of};
ghost use Rattle.layout.specs.Fields.{word};
ghost use Rattle.image_reading.specs.Images.{In};
ghost use Rattle.image_reading.specs.Repairs.{IsKeptDirectoryPage, IsLitterCount, IsLitterInode};
ghost use Rattle.image_reading.specs.Scanned.{IsScanned};
ghost use Rattle.repair_laws.specs.Stored.{HasNeedlessOwner, HasNeedlessKind, HasDeadName};
ghost use Rattle.recovery.specs.Parts.{IsInode};

use image_reading::{Scanned, is_zero_descriptor_from, is_zero_inode};
use layout::{DESCRIPTOR_KIND, SLOT_NAME, SLOT_WORDS, SLOTS};

/// Whether the page has an owner and isn't kept.
pub fn has_needless_owner(scanned: &Scanned<'_>, page: u64) -> bool
    requires scanned { IsScanned scanned.now }
    requires in_range { page < data_pages_of scanned.now.image.geometry.pages }
    ensures { IsTrue result ↔ In scanned.now.image HasNeedlessOwner page }
{
    if scanned.is_kept(page) {
        return false;
    }
    let image = &scanned.image;
    image.geometry.descriptor_at(image.words, page).owner != 0
}

/// Whether the page has a word other than 0 behind its owner and isn't kept.
pub fn has_needless_kind(scanned: &Scanned<'_>, page: u64) -> bool
    requires scanned { IsScanned scanned.now }
    requires in_range { page < data_pages_of scanned.now.image.geometry.pages }
    ensures { IsTrue result ↔ In scanned.now.image HasNeedlessKind page }
{
    if is_zero_descriptor_from(&scanned.image, DESCRIPTOR_KIND, page) {
        return false;
    }
    !scanned.is_kept(page)
}

/// Whether the page is a kept one of a directory.
pub fn is_kept_directory_page(scanned: &Scanned<'_>, page: u64) -> bool
    requires scanned { IsScanned scanned.now }
    requires in_range { page < data_pages_of scanned.now.image.geometry.pages }
    ensures { IsTrue result ↔ In scanned.now.image IsKeptDirectoryPage page }
{
    let image = &scanned.image;
    if image.geometry.descriptor_at(image.words, page).kind != SLOTS {
        return false;
    }
    scanned.is_kept(page)
}

/// Whether the slot, which stands in a kept page of a directory, has a name and isn't live.
pub fn has_dead_name(scanned: &Scanned<'_>, slot: u64) -> bool
    requires scanned { IsScanned scanned.now }
    requires in_range { slot < slots_of scanned.now.image.geometry.pages }
    requires page { In scanned.now.image IsKeptDirectoryPage (page_of_slot slot) }
    ensures { IsTrue result ↔ In scanned.now.image HasDeadName slot }
{
    if scanned.is_live(slot) {
        return false;
    }
    has_name(scanned, slot)
}

// Whether one of the slot's name words isn't zero.
fn has_name(scanned: &Scanned<'_>, slot: u64) -> bool
    requires { slot < slots_of scanned.now.image.geometry.pages }
    ensures { IsTrue result ↔ ((f : ℕ) × (2 ≤ f) × (f < 16)
        × (word scanned.now.image.words.now (slot_word_of scanned.now.image.geometry.pages slot f) ≢ 0)) }
{
    let image = &scanned.image;
    for field in SLOT_NAME..SLOT_WORDS {
        if image.words[image.geometry.slot_word(slot, field) as usize] != 0 {
            return true;
        }
    }
    false
}

/// Whether the inode is reached and has other links than are counted.
pub fn has_other_links(scanned: &Scanned<'_>, inode: u64) -> bool
    requires scanned { IsScanned scanned.now }
    requires inode { IsInode scanned.now.image.geometry.pages inode }
    ensures { IsTrue result ↔ In scanned.now.image IsLitterCount inode }
{
    if !scanned.is_reached(inode) {
        return false;
    }
    let image = &scanned.image;
    image.geometry.inode_at(image.words, inode).links != scanned.links(inode)
}

/// Whether the inode isn't reached and has a word that isn't zero.
pub fn is_litter_inode(scanned: &Scanned<'_>, inode: u64) -> bool
    requires scanned { IsScanned scanned.now }
    requires inode { IsInode scanned.now.image.geometry.pages inode }
    ensures { IsTrue result ↔ In scanned.now.image IsLitterInode inode }
{
    if scanned.is_reached(inode) {
        return false;
    }
    !is_zero_inode(&scanned.image, inode)
}
