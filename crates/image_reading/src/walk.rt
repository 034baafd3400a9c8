// The walk over the directories, from the root on.
ghost use Rattle.std.specs.Prelude.{◌≡◌, ◌+◌, vec_len};
ghost use Rattle.image_reading.specs.Images.{In};
ghost use Rattle.image_reading.specs.Reading.{Reached};
ghost use Rattle.image_reading.specs.Scan.{IsLinked, IsRename};
ghost use Rattle.image_reading.specs.Walk.{IsWalk, IsDirectorySlot, IsDirectoryPage, IsTaken, IsPageTaken, IsClosed, GoesOn, Knows};

use crate::held::{Rename, is_live};
use crate::image::Image;
use crate::pages::Lists;
use crate::reach::Reach;
use layout::{DIRECTORY, PAGE_SLOTS, ROOT};

// Takes what a slot of a reached directory names.
fn visit_slot(image: &Image<'_>, slot: u64, reach: &mut Reach)
    requires slot { In image.now IsDirectorySlot slot }
    requires walk { IsWalk image.now.geometry.pages image.now.words.now reach.old }
    ensures { GoesOn image.now.geometry.pages image.now.words.now reach.old reach.new
        (λ found. IsTaken image.now.geometry.pages image.now.words.now found slot) }
{
    if !is_live(image, reach.rename, slot) {
        return;
    }
    let inode = image.geometry.slot_at(image.words, slot).inode;
    if inode <= image.geometry.inodes {
        reach.mark(inode);
    }
}

// Takes what the slots of a page of a reached directory name.
fn visit_page(image: &Image<'_>, page: u64, reach: &mut Reach)
    requires page { In image.now IsDirectoryPage page }
    requires walk { IsWalk image.now.geometry.pages image.now.words.now reach.old }
    ensures { GoesOn image.now.geometry.pages image.now.words.now reach.old reach.new
        (λ found. IsPageTaken image.now.geometry.pages image.now.words.now found page) }
{
    for entry in 0..PAGE_SLOTS {
        visit_slot(image, image.geometry.slot_in(page, entry), reach);
    }
}

// Takes what the slots of a reached directory name.
fn visit(image: &Image<'_>, lists: Lists<'_>, inode: u64, reach: &mut Reach)
    requires linked { IsLinked image.now.geometry.pages image.now.words.now lists.first.now lists.next.now }
    requires reached { In image.now Reached inode }
    requires walk { IsWalk image.now.geometry.pages image.now.words.now reach.old }
    ensures { GoesOn image.now.geometry.pages image.now.words.now reach.old reach.new
        (λ found. IsClosed image.now.geometry.pages image.now.words.now found inode) }
{
    if image.geometry.inode_at(image.words, inode).kind != DIRECTORY {
        return;
    }
    let mut link = lists.first[inode as usize];
    while link != 0 {
        visit_page(image, link - 1, reach);
        link = lists.next[(link - 1) as usize];
    }
}

/// Finds what is reached: the root, and what live slots of reached directories name.
pub fn walk_tree(image: &Image<'_>, rename: Rename, lists: Lists<'_>, reach: &mut Reach)
    requires pointer { IsRename image.now.geometry.pages image.now.words.now rename.target rename.inode }
    requires linked { IsLinked image.now.geometry.pages image.now.words.now lists.first.now lists.next.now }
    requires marks { vec_len reach.old.reached ≡ image.now.geometry.inodes + 1 }
    ensures { Knows image.now.geometry.pages image.now.words.now reach.new }
{
    reach.clear(rename);
    reach.mark(ROOT);
    let mut place = 0;
    while place < reach.seen {
        let inode = reach.order[place];
        visit(image, lists, inode, reach);
        place += 1;
    }
}
