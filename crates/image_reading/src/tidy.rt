// Whether a volume needs recovery.
ghost use Rattle.std.specs.Prelude.{◌↔◌, ℕ, IsTrue};
ghost use Rattle.image_reading.specs.Images.{In};
ghost use Rattle.image_reading.specs.Scanned.{IsScanned};
ghost use Rattle.image_reading.specs.Tidy.{IsTidied};
ghost use Rattle.image_reading.specs.Litter.{IsTidyPage, IsTidyInode};

use crate::litter::{is_tidy_inode, is_tidy_page};
use crate::scanned::Scanned;

/// Whether nothing is to be repaired.
pub fn has_no_repairs(scanned: &Scanned<'_>) -> bool
    requires { IsScanned scanned.now }
    ensures { IsTrue result ↔ IsTidied scanned.now.image.geometry.pages scanned.now.image.words.now }
{
    if scanned.reach.rename.target != 0 {
        return false;
    }
    if !has_tidy_inodes(scanned) {
        return false;
    }
    has_tidy_pages(scanned)
}

// Whether each inode that is reached has the links that are counted, and the others are zero.
fn has_tidy_inodes(scanned: &Scanned<'_>) -> bool
    requires { IsScanned scanned.now }
    ensures { IsTrue result ↔ ((i : ℕ) → In scanned.now.image IsTidyInode i) }
{
    for number in 0..scanned.image.geometry.inodes {
        if !is_tidy_inode(scanned, number + 1) {
            return false;
        }
    }
    true
}

// Whether no data page has litter, and none of its slots.
fn has_tidy_pages(scanned: &Scanned<'_>) -> bool
    requires { IsScanned scanned.now }
    ensures { IsTrue result ↔ ((j : ℕ) → In scanned.now.image IsTidyPage j) }
{
    for page in 0..scanned.image.geometry.data_pages {
        if !is_tidy_page(scanned, page) {
            return false;
        }
    }
    true
}
