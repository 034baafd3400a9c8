// What a check counts in a sound image: over its inodes, its data pages, and the slots of kept directory pages, each once.
ghost use Rattle.std.specs.Prelude.{◌≡◌, ◌≢◌, ◌↔◌, ℕ, ◌+◌, ◌*◌, ◌<◌, IsTrue};
ghost use Rattle.layout.specs.Geometry.{inodes_of, data_pages_of, page_of_slot, slot_word_of, slots_of};
ghost use Rattle.layout.specs.Fields.{word, inode_kind};
ghost use Rattle.image_reading.specs.Images.{In};
ghost use Rattle.recovery.specs.Parts.{IsInode};
ghost use Rattle.image_reading.specs.Reading.{Reached};
ghost use Rattle.image_reading.specs.Repairs.{IsKeptDirectoryPage, IsLitterPage, IsLitterSlot};
ghost use Rattle.image_reading.specs.Scanned.{IsScanned};
ghost use Rattle.mount_scan.specs.Counting.{AreCountsOf, CountsInodes, CountsPages, CountsSlots};

use image_reading::{Scanned, is_zero_descriptor_from};
use layout::{DESCRIPTOR_OWNER, DIRECTORY, FILE, PAGE_SLOTS, SLOT_WORDS};
use recovery::{has_other_links, is_kept_directory_page, is_litter_inode};
use script::CheckCounts;

// What is counted of inodes.
#[derive(Clone, Copy)]
struct InodeCounts {
    // The reached ones, by their kind.
    directories: u64,
    files: u64,
    // Those that aren't reached and aren't zero.
    litter: u64,
    // The reached ones that have other links than are counted.
    links: u64,
}

// What is counted of the slots of kept directory pages.
#[derive(Clone, Copy)]
struct SlotCounts {
    // The live ones.
    names: u64,
    // Those that aren't live and aren't zero.
    litter: u64,
}

// What is counted of data pages.
#[derive(Clone, Copy)]
struct PageCounts {
    // Those that aren't kept and whose descriptor isn't zero.
    litter: u64,
    slots: SlotCounts,
}

/// The counts of the tree that the image reads as, and of what recovery would repair.
pub(crate) fn check_counts(scanned: &Scanned<'_>) -> CheckCounts
    requires { IsScanned scanned.now }
    ensures { AreCountsOf scanned.now.image.geometry.pages scanned.now.image.words.now result }
{
    let inodes = count_inodes(scanned);
    let pages = count_pages(scanned);
    CheckCounts {
        directories: inodes.directories,
        files: inodes.files,
        names: pages.slots.names,
        pointers: u64::from(scanned.pointer().is_some()),
        slots: pages.slots.litter,
        pages: pages.litter,
        inodes: inodes.litter,
        counts: inodes.links,
    }
}

// Counts over the inodes.
fn count_inodes(scanned: &Scanned<'_>) -> InodeCounts
    requires { IsScanned scanned.now }
    ensures { CountsInodes scanned.now.image.geometry.pages scanned.now.image.words.now
        (inodes_of scanned.now.image.geometry.pages + 1) result }
{
    let mut counts = InodeCounts {
        directories: 0,
        files: 0,
        litter: 0,
        links: 0,
    };
    for number in 0..scanned.image.geometry.inodes {
        let inode = number + 1;
        counts.directories += u64::from(is_reached_of_kind(scanned, inode, DIRECTORY));
        counts.files += u64::from(is_reached_of_kind(scanned, inode, FILE));
        counts.litter += u64::from(is_litter_inode(scanned, inode));
        counts.links += u64::from(has_other_links(scanned, inode));
    }
    counts
}

// Whether the inode is reached and of this kind.
fn is_reached_of_kind(scanned: &Scanned<'_>, inode: u64, kind: u64) -> bool
    requires scanned { IsScanned scanned.now }
    requires inode { IsInode scanned.now.image.geometry.pages inode }
    ensures { IsTrue result ↔ (In scanned.now.image Reached inode
        × (inode_kind scanned.now.image.words.now inode ≡ kind)) }
{
    if !scanned.is_reached(inode) {
        return false;
    }
    let image = &scanned.image;
    image.geometry.inode_at(image.words, inode).kind == kind
}

// Counts over the data pages, and the slots of kept directory pages.
fn count_pages(scanned: &Scanned<'_>) -> PageCounts
    requires { IsScanned scanned.now }
    ensures { CountsPages scanned.now.image.geometry.pages scanned.now.image.words.now
        (data_pages_of scanned.now.image.geometry.pages) (slots_of scanned.now.image.geometry.pages) result }
{
    let mut litter = 0;
    let mut slots = SlotCounts {
        names: 0,
        litter: 0,
    };
    for page in 0..scanned.image.geometry.data_pages {
        litter += u64::from(is_litter_page(scanned, page));
        slots = count_slots(scanned, page, slots);
    }
    PageCounts { litter, slots }
}

// Whether the page isn't kept and its descriptor isn't zero.
fn is_litter_page(scanned: &Scanned<'_>, page: u64) -> bool
    requires scanned { IsScanned scanned.now }
    requires in_range { page < data_pages_of scanned.now.image.geometry.pages }
    ensures { IsTrue result ↔ In scanned.now.image IsLitterPage page }
{
    if scanned.is_kept(page) {
        return false;
    }
    !is_zero_descriptor_from(&scanned.image, DESCRIPTOR_OWNER, page)
}

// Counts over the slots of the page, besides those of the pages before it, if it is a kept directory page.
fn count_slots(scanned: &Scanned<'_>, page: u64, before: SlotCounts) -> SlotCounts
    requires scanned { IsScanned scanned.now }
    requires in_range { page < data_pages_of scanned.now.image.geometry.pages }
    requires before { CountsSlots scanned.now.image.geometry.pages scanned.now.image.words.now (32 * page) before }
    ensures { CountsSlots scanned.now.image.geometry.pages scanned.now.image.words.now (32 * (page + 1)) result }
{
    if !is_kept_directory_page(scanned, page) {
        return before;
    }
    let mut counts = before;
    for place in 0..PAGE_SLOTS {
        let slot = scanned.image.geometry.slot_in(page, place);
        counts.names += u64::from(scanned.is_live(slot));
        counts.litter += u64::from(is_litter_slot(scanned, slot));
    }
    counts
}

// Whether the slot, which stands in a kept directory page, isn't live and isn't zero.
fn is_litter_slot(scanned: &Scanned<'_>, slot: u64) -> bool
    requires scanned { IsScanned scanned.now }
    requires in_range { slot < slots_of scanned.now.image.geometry.pages }
    requires page { In scanned.now.image IsKeptDirectoryPage (page_of_slot slot) }
    ensures { IsTrue result ↔ In scanned.now.image IsLitterSlot slot }
{
    if scanned.is_live(slot) {
        return false;
    }
    has_word(scanned, slot)
}

// Whether one of the slot's words isn't zero.
fn has_word(scanned: &Scanned<'_>, slot: u64) -> bool
    requires { slot < slots_of scanned.now.image.geometry.pages }
    ensures { IsTrue result ↔ ((f : ℕ) × (f < 16)
        × (word scanned.now.image.words.now (slot_word_of scanned.now.image.geometry.pages slot f) ≢ 0)) }
{
    let image = &scanned.image;
    for field in 0..SLOT_WORDS {
        if image.words[image.geometry.slot_word(slot, field) as usize] != 0 {
            return true;
        }
    }
    false
}
