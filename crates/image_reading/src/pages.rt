// The data pages of each owner, as lists by their numbers, and those that are held as directory pages.
ghost use Rattle.std.specs.Prelude.{◌≡◌, ◌*◌, ◌+◌, ◌≤◌, ◌<◌, ◌↔◌, ℕ, IsTrue, length};
ghost use Rattle.layout.specs.Geometry.{data_pages_of, slots_of};
ghost use Rattle.image_reading.specs.Images.{In};
ghost use Rattle.image_reading.specs.Reading.{IsHeld};
ghost use Rattle.image_reading.specs.Scan.{IsLinked, AreHeld, IsHeldPage, IsNextHeld};

use crate::image::Image;
use layout::{PAGE_SLOTS, SLOTS};

/// The lists of pages. A link is one more than a page, or 0 for none.
#[derive(Clone, Copy)]
pub struct Lists<'a> {
    /// For each inode number the link to its first page.
    pub first: &'a [u64],
    /// For each page the link to the next of the same owner.
    pub next: &'a [u64],
    /// For each page, and behind the last, the link to the first held page from there on.
    pub held: &'a [u64],
}

/// Writes the lists: for each inode number one more than its first page, for each page one more than the next page of the
/// same owner, 0 where there is none. Pages of owners past the last inode are left out. In `held` for each page, and behind
/// the last, one more than the first held page from there on.
pub fn link_pages(image: &Image<'_>, first: &mut [u64], next: &mut [u64], held: &mut [u64])
    requires inodes { length first.old ≡ image.now.geometry.inodes + 1 }
    requires pages { length next.old ≡ image.now.geometry.data_pages }
    requires room { length held.old ≡ image.now.geometry.data_pages + 1 }
    ensures linked { IsLinked image.now.geometry.pages image.now.words.now first.new next.new }
    ensures held { AreHeld image.now.geometry.pages image.now.words.now held.new }
{
    first.fill(0);
    let mut page = image.geometry.data_pages;
    held[page as usize] = 0;
    while page > 0 {
        let later = held[page as usize];
        page -= 1;
        held[page as usize] = held_from(image, page, later);
        let owner = image.geometry.descriptor_at(image.words, page).owner;
        if owner <= image.geometry.inodes {
            next[page as usize] = first[owner as usize];
            first[owner as usize] = page + 1;
        }
    }
}

// One more than the first held page from this one on, where `later` is that from the next one on.
fn held_from(image: &Image<'_>, page: u64, later: u64) -> u64
    requires page { page < data_pages_of image.now.geometry.pages }
    requires later { IsNextHeld image.now.geometry.pages image.now.words.now (page + 1) later }
    ensures { IsNextHeld image.now.geometry.pages image.now.words.now page result }
{
    // A geometry that is read bounds its pages' numbers.
    let _data_pages = image.geometry.data_pages;
    if is_held_page(image, page) {
        return page + 1;
    }
    later
}

// Whether the page is held as a directory page.
fn is_held_page(image: &Image<'_>, page: u64) -> bool
    requires { page < data_pages_of image.now.geometry.pages }
    ensures { IsTrue result ↔ In image.now IsHeldPage page }
{
    let descriptor = image.geometry.descriptor_at(image.words, page);
    if descriptor.kind != SLOTS {
        return false;
    }
    descriptor.owner != 0
}

/// The first slot from this one on that stands in a held page. The number of slots where there is none.
pub fn next_held(image: &Image<'_>, held: &[u64], slot: u64) -> u64
    requires held { AreHeld image.now.geometry.pages image.now.words.now held.now }
    requires in_range { slot ≤ slots_of image.now.geometry.pages }
    ensures later { slot ≤ result }
    ensures in_range { result ≤ slots_of image.now.geometry.pages }
    ensures passed { (x : ℕ) → slot ≤ x → x < result → In image.now IsHeld x → ⊥ }
{
    let link = held[(slot / PAGE_SLOTS) as usize];
    if link == 0 {
        return image.geometry.slots();
    }
    slot.max(image.geometry.slot_in(link - 1, 0))
}
