// What the inodes that are reached say of themselves, and the pages that they own.
ghost use Rattle.std.specs.Prelude.{◌≡◌, ◌↔◌, ◌*◌, ◌<◌, ℕ, IsTrue, length};
ghost use Rattle.image_reading.specs.Images.{In};
ghost use Rattle.image_reading.specs.Soundness.{IsWellFormed, HasOwnersKind, IsNotTooBig};
ghost use Rattle.image_reading.specs.Scan.{Finds};
ghost use Rattle.image_reading.specs.Walk.{IsWalked};

use crate::image::Walked;
use layout::{FILE, NodeKind};

// No file has more bytes.
const MOST_BYTES: u64 = 1 << 40;

/// Rule 7: a reached inode is a file or a directory, with its own number.
pub fn kinds_broken_at(walked: &Walked<'_>) -> Option<u64>
    requires { IsWalked walked.now }
    ensures { Finds (In walked.now.image IsWellFormed) result }
{
    let end = walked.image.geometry.inodes + 1;
    for inode in 0..end {
        if !is_well_formed(walked, inode) {
            return Some(inode);
        }
    }
    None
}

// Whether the inode, if it is reached, is a file or a directory with its own number.
fn is_well_formed(walked: &Walked<'_>, inode: u64) -> bool
    requires { IsWalked walked.now }
    ensures { IsTrue result ↔ In walked.now.image IsWellFormed inode }
{
    if !walked.reach.has(inode) {
        return true;
    }
    let fields = walked.image.geometry.inode_at(walked.image.words, inode);
    match NodeKind::of_code(fields.kind) {
        Some(_) => fields.own == inode,
        None => false,
    }
}

/// Rule 10: a page of a reached file has kind 1, one of a reached directory kind 2.
pub fn page_kinds_broken_at(walked: &Walked<'_>) -> Option<u64>
    requires { IsWalked walked.now }
    ensures { Finds (In walked.now.image HasOwnersKind) result }
{
    for page in 0..walked.image.geometry.data_pages {
        if !has_owners_kind(walked, page) {
            return Some(page);
        }
    }
    None
}

// Whether the page, if a reached inode owns it, has the kind that the inode asks for.
fn has_owners_kind(walked: &Walked<'_>, page: u64) -> bool
    requires walked { IsWalked walked.now }
    requires in_range { page < walked.now.image.geometry.data_pages }
    ensures { IsTrue result ↔ In walked.now.image HasOwnersKind page }
{
    let descriptor = walked
        .image
        .geometry
        .descriptor_at(walked.image.words, page);
    if !walked.reach.has(descriptor.owner) {
        return true;
    }
    let owner = walked
        .image
        .geometry
        .inode_at(walked.image.words, descriptor.owner);
    match NodeKind::of_code(owner.kind) {
        Some(kind) => descriptor.kind == kind.page_kind().code(),
        None => true,
    }
}

/// Rule 11: a reached file has at most 2^40 bytes.
pub fn sizes_broken_at(walked: &Walked<'_>) -> Option<u64>
    requires { IsWalked walked.now }
    ensures { Finds (In walked.now.image IsNotTooBig) result }
{
    let end = walked.image.geometry.inodes + 1;
    for inode in 0..end {
        if !is_not_too_big(walked, inode) {
            return Some(inode);
        }
    }
    None
}

// Whether the inode, if it is a reached file, has at most 2^40 bytes.
fn is_not_too_big(walked: &Walked<'_>, inode: u64) -> bool
    requires { IsWalked walked.now }
    ensures { IsTrue result ↔ In walked.now.image IsNotTooBig inode }
{
    if !walked.reach.has(inode) {
        return true;
    }
    let fields = walked.image.geometry.inode_at(walked.image.words, inode);
    if fields.kind != FILE {
        return true;
    }
    fields.size <= MOST_BYTES
}
