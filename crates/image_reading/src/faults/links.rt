// The links that names give an inode, against those that it has.
ghost use Rattle.std.specs.Prelude.{◌≡◌, ◌↔◌, ◌*◌, ◌+◌, ◌<◌, ◌≤◌, ℕ, IsTrue, length};
ghost use Rattle.image_reading.specs.Images.{In};
ghost use Rattle.image_reading.specs.Soundness.{HasEnoughLinks};
ghost use Rattle.image_reading.specs.Scan.{Finds, HasNumber, credited as credited_of, AreCounted};
ghost use Rattle.image_reading.specs.Scanned.{AreNames};
ghost use Rattle.image_reading.specs.Walk.{IsWalked, IsNumbered};

use crate::held::owner_of;
use crate::image::{Image, Walked};
use layout::{DIRECTORY, FILE};

/// Rule 14: a reached inode's link word is at least its counted links. `tally` is overwritten with them.
pub fn links_broken_at(walked: &Walked<'_>, names: &[u32], tally: &mut [u64]) -> Option<u64>
    requires walked { IsNumbered walked.now }
    requires names { AreNames walked.now.image.geometry.pages walked.now.image.words.now names.now }
    requires inodes { length tally.old ≡ walked.now.image.geometry.inodes + 1 }
    ensures found { Finds (In walked.now.image HasEnoughLinks) result }
    ensures counted { AreCounted walked.now.image.geometry.pages walked.now.image.words.now tally.new }
{
    count_links(walked, names, tally);
    let end = walked.image.geometry.inodes + 1;
    for inode in 0..end {
        if !has_enough_links(walked, tally, inode) {
            return Some(inode);
        }
    }
    None
}

// Whether the inode, if it is reached, has at least the links that are counted.
fn has_enough_links(walked: &Walked<'_>, tally: &[u64], inode: u64) -> bool
    requires walked { IsWalked walked.now }
    requires counted { AreCounted walked.now.image.geometry.pages walked.now.image.words.now tally.now }
    ensures { IsTrue result ↔ In walked.now.image HasEnoughLinks inode }
{
    if !walked.reach.has(inode) {
        return true;
    }
    let fields = walked.image.geometry.inode_at(walked.image.words, inode);
    let counted = tally[inode as usize];
    if fields.kind == FILE {
        return fields.links >= counted;
    }
    if fields.kind != DIRECTORY {
        return true;
    }
    if fields.links < 2 {
        return false;
    }
    fields.links - 2 >= counted
}

/// Counts the links of each inode. `tally` is overwritten with them.
pub fn count_links(walked: &Walked<'_>, names: &[u32], tally: &mut [u64])
    requires walked { IsNumbered walked.now }
    requires names { AreNames walked.now.image.geometry.pages walked.now.image.words.now names.now }
    requires inodes { length tally.old ≡ walked.now.image.geometry.inodes + 1 }
    ensures { AreCounted walked.now.image.geometry.pages walked.now.image.words.now tally.new }
{
    tally.fill(0);
    for k in 0..names.len() {
        let inode = credited(&walked.image, u64::from(names[k])) as usize;
        tally[inode] += 1;
    }
}

// The inode that a reached slot counts for: the directory that it stands in where it names a directory, and else what it names.
fn credited(image: &Image<'_>, slot: u64) -> u64
    requires { In image.now HasNumber slot }
    ensures { result ≡ credited_of image.now.geometry.pages image.now.words.now slot }
{
    let inode = image.geometry.slot_at(image.words, slot).inode;
    if image.geometry.inode_at(image.words, inode).kind == DIRECTORY {
        return owner_of(image, slot);
    }
    inode
}
