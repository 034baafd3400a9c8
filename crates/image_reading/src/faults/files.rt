// The pages of files, by their offsets.
ghost use Rattle.std.specs.Prelude.{◌≡◌, ◌↔◌, ◌+◌, ◌<◌, ◌≤◌, ℕ, IsTrue, length, slice_index};
ghost use Rattle.layout.specs.Fields.{page_owner};
ghost use Rattle.image_reading.specs.Images.{In};
ghost use Rattle.image_reading.specs.Soundness.{HasAllPages, HasOwnOffset};
ghost use Rattle.image_reading.specs.Scan.{Finds, AreStamps, IsStamped, StampsPage};
ghost use Rattle.image_reading.specs.Walk.{IsWalked};

use crate::image::{Image, Walked};
use layout::{BYTES, FILE, PAGE_BYTES};

/// Rule 12: a reached file has each page below its end. `stamps` is overwritten.
pub fn all_pages_broken_at(walked: &Walked<'_>, stamps: &mut [u64]) -> Option<u64>
    requires walked { IsWalked walked.now }
    requires room { length stamps.old ≡ walked.now.image.geometry.data_pages }
    ensures { Finds (In walked.now.image HasAllPages) result }
{
    stamps.fill(0);
    let end = walked.image.geometry.inodes + 1;
    for inode in 1..end {
        if !has_all_pages(walked, inode, stamps) {
            return Some(inode);
        }
    }
    None
}

// Whether the inode, if it is a reached file, has each page below its end. The stamps are of earlier inodes, and then of this one too.
fn has_all_pages(walked: &Walked<'_>, inode: u64, stamps: &mut [u64]) -> bool
    requires walked { IsWalked walked.now }
    requires stamps { AreStamps walked.now.image.geometry.pages inode stamps.old }
    ensures complete { IsTrue result ↔ In walked.now.image HasAllPages inode }
    ensures stamps { AreStamps walked.now.image.geometry.pages (inode + 1) stamps.new }
{
    if !walked.reach.has(inode) {
        return true;
    }
    let fields = walked.image.geometry.inode_at(walked.image.words, inode);
    if fields.kind != FILE {
        return true;
    }
    stamp_pages(walked, inode, stamps);
    all_stamped(stamps, inode, fields.size.div_ceil(PAGE_BYTES))
}

// Stamps the offsets at which the file has a page.
fn stamp_pages(walked: &Walked<'_>, inode: u64, stamps: &mut [u64])
    requires walked { IsWalked walked.now }
    requires in_range { inode ≤ walked.now.image.geometry.inodes }
    requires stamps { AreStamps walked.now.image.geometry.pages inode stamps.old }
    ensures stamped { IsStamped walked.now.image.geometry.pages walked.now.image.words.now inode stamps.new }
    ensures stamps { AreStamps walked.now.image.geometry.pages (inode + 1) stamps.new }
{
    let mut link = walked.lists.first[inode as usize];
    while link != 0 {
        let _is_new = stamp_page(
            &walked.image,
            link - 1,
            walked.image.geometry.data_pages,
            inode,
            stamps,
        );
        link = walked.lists.next[(link - 1) as usize];
    }
}

// Stamps the page's offset, if it is below the limit and the page has a file's bytes. Whether it had no stamp of this inode.
fn stamp_page(image: &Image<'_>, page: u64, limit: u64, inode: u64, stamps: &mut [u64]) -> bool
    requires page_in_range { page < image.now.geometry.data_pages }
    requires owner { page_owner image.now.geometry.pages image.now.words.now page ≡ inode }
    requires room { limit ≤ length stamps.old }
    ensures { StampsPage image.now.geometry.pages image.now.words.now inode page limit stamps.old stamps.new result }
{
    let descriptor = image.geometry.descriptor_at(image.words, page);
    if descriptor.kind != BYTES || descriptor.offset >= limit {
        return true;
    }
    let offset = descriptor.offset as usize;
    if stamps[offset] == inode {
        return false;
    }
    stamps[offset] = inode;
    true
}

// Whether so many first offsets have a stamp of this inode.
fn all_stamped(stamps: &[u64], inode: u64, pages: u64) -> bool
    ensures { IsTrue result ↔ ((pages ≤ length stamps.now) × ((k : ℕ) → k < pages → slice_index stamps.now k ≡ inode)) }
{
    if pages > stamps.len() as u64 {
        return false;
    }
    for k in 0..pages as usize {
        if stamps[k] != inode {
            return false;
        }
    }
    true
}

/// Rule 13: no two pages of one reached file have one offset below its end. `stamps` is overwritten.
pub fn own_offsets_broken_at(walked: &Walked<'_>, stamps: &mut [u64]) -> Option<u64>
    requires walked { IsWalked walked.now }
    requires room { length stamps.old ≡ walked.now.image.geometry.data_pages }
    requires complete { (i : ℕ) → In walked.now.image HasAllPages i }
    ensures { Finds (In walked.now.image HasOwnOffset) result }
{
    stamps.fill(0);
    let mut least = walked.image.geometry.data_pages;
    let end = walked.image.geometry.inodes + 1;
    for inode in 1..end {
        let found = doubled_page_of(walked, inode, stamps);
        least = least.min(found.unwrap_or(walked.image.geometry.data_pages));
    }
    if least == walked.image.geometry.data_pages {
        return None;
    }
    Some(least)
}

// The least page of the inode, if it is a reached file, that has the offset of an earlier page of it, below its end.
fn doubled_page_of(walked: &Walked<'_>, inode: u64, stamps: &mut [u64]) -> Option<u64>
    requires walked { IsWalked walked.now }
    requires stamps { AreStamps walked.now.image.geometry.pages inode stamps.old }
    requires complete { In walked.now.image HasAllPages inode }
    ensures least { Finds (λ j. page_owner walked.now.image.geometry.pages walked.now.image.words.now j ≡ inode
        → In walked.now.image HasOwnOffset j) result }
    ensures stamps { AreStamps walked.now.image.geometry.pages (inode + 1) stamps.new }
{
    if !walked.reach.has(inode) {
        return None;
    }
    let fields = walked.image.geometry.inode_at(walked.image.words, inode);
    if fields.kind != FILE {
        return None;
    }
    let limit = fields.size.div_ceil(PAGE_BYTES);
    let mut link = walked.lists.first[inode as usize];
    while link != 0 {
        if !stamp_page(&walked.image, link - 1, limit, inode, stamps) {
            return Some(link - 1);
        }
        link = walked.lists.next[(link - 1) as usize];
    }
    None
}
