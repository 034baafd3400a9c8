// What is known of a volume from its words.
ghost use Rattle.std.specs.Prelude.{◌≡◌, ◌↔◌, ℕ, ◌+◌, ◌<◌, false, length, IfOk};
ghost use Rattle.layout.specs.Superblock.{has_mark};
ghost use Rattle.layout.specs.Geometry.{inodes_of, data_pages_of};
ghost use Rattle.image_reading.specs.Images.{In};
ghost use Rattle.image_reading.specs.Reading.{Reached};
ghost use Rattle.image_reading.specs.Repairs.{IsKept};
ghost use Rattle.image_reading.specs.Scanned.{IsScanned};
ghost use Rattle.allocators.specs.Numbers.{IsFree};
ghost use Rattle.volume.specs.Stands.{Knows};
ghost use Rattle.mount_scan.specs.Building.{OfMended};

use crate::index::index_of_words;
use allocators::Numbers;
use image_reading::Scanned;
use layout::superblock::has_mark;
use pm_trait::NoMemory;
use std::alloc::Global;
use volume::Volume;

/// The volume of the words that recovery makes of these. It is made of these words alone.
pub(crate) fn volume_of_words(alloc: Global, scanned: &Scanned<'_>) -> Result<Volume, NoMemory>
    requires { IsScanned scanned.now }
    ensures knows { IfOk result (λ volume. OfMended scanned.now (λ P K. Knows volume K)) }
    ensures size { IfOk result (λ volume. volume.size ≡ scanned.now.image.geometry.pages) }
    ensures going { IfOk result (λ volume. volume.stopped ≡ false) }
    ensures marked { IfOk result (λ volume. volume.marked ≡ has_mark scanned.now.image.words.now) }
    ensures no_call { IfOk result (λ volume. volume.kept ≡ 0) }
{
    let index = index_of_words(alloc, scanned)?;
    let inodes = free_inodes(alloc, scanned)?;
    let data_pages = free_pages(alloc, scanned)?;
    let marked = has_mark(scanned.image.words);
    Ok(Volume::from_parts(
        alloc,
        scanned.image.geometry,
        index,
        inodes,
        data_pages,
        marked,
    ))
}

// Which inodes aren't reached, inode i as number i - 1.
fn free_inodes(alloc: Global, scanned: &Scanned<'_>) -> Result<Numbers, NoMemory>
    requires { IsScanned scanned.now }
    ensures size { IfOk result (λ numbers. length numbers ≡ inodes_of scanned.now.image.geometry.pages) }
    ensures free { IfOk result (λ numbers. (number : ℕ) → number < inodes_of scanned.now.image.geometry.pages
        → IsFree numbers number ↔ ¬ In scanned.now.image Reached (number + 1)) }
{
    let count = scanned.image.geometry.inodes;
    let mut numbers = Numbers::new(alloc, count)?;
    for number in 0..count {
        if scanned.is_reached(number + 1) {
            numbers.take(number);
        }
    }
    Ok(numbers)
}

// Which data pages aren't kept.
fn free_pages(alloc: Global, scanned: &Scanned<'_>) -> Result<Numbers, NoMemory>
    requires { IsScanned scanned.now }
    ensures size { IfOk result (λ numbers. length numbers ≡ data_pages_of scanned.now.image.geometry.pages) }
    ensures free { IfOk result (λ numbers. (page : ℕ) → page < data_pages_of scanned.now.image.geometry.pages
        → IsFree numbers page ↔ ¬ In scanned.now.image IsKept page) }
{
    let count = scanned.image.geometry.data_pages;
    let mut numbers = Numbers::new(alloc, count)?;
    for page in 0..count {
        if scanned.is_kept(page) {
            numbers.take(page);
        }
    }
    Ok(numbers)
}
