// The superblock's words and the root.
ghost use Rattle.std.specs.Prelude.{◌≡◌, ◌*◌, ℕ, length};
ghost use Rattle.image_reading.specs.Images.{In};
ghost use Rattle.image_reading.specs.Soundness.{HasHead, HasRoot};
ghost use Rattle.image_reading.specs.Scan.{Finds};

use crate::image::Image;
use layout::superblock::HEAD_WORDS;
use layout::{DIRECTORY, ROOT};

/// Rule 1: the first five words are those of a volume of this size.
pub fn head_broken_at(image: &Image<'_>) -> Option<u64>
    ensures { Finds (In image.now HasHead) result }
{
    let head = image.geometry.head();
    for k in 0..HEAD_WORDS {
        if image.words[k] != head[k] {
            return Some(k as u64);
        }
    }
    None
}

/// Rule 2: the root is a directory with its own number.
pub fn root_broken_at(image: &Image<'_>) -> Option<u64>
    ensures { Finds (HasRoot image.now.words.now) result }
{
    let root = image.geometry.inode_at(image.words, ROOT);
    if root.kind != DIRECTORY || root.own != ROOT {
        return Some(ROOT);
    }
    None
}
