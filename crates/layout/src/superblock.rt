ghost use Rattle.std.specs.Prelude.{◌≡◌, ◌≤◌, length};
ghost use Rattle.layout.specs.Superblock.{head_of, has_mark};

use crate::geometry::Geometry;

/// The bytes `SQRLPM01`, the first the least significant.
pub const MAGIC: u64 = 0x3130_4D50_4C52_5153;

/// The version of this layout.
pub const VERSION: u64 = 1;

/// The address of the magic.
pub const MAGIC_WORD: u64 = 0;

/// The address of the word that says whether the volume was closed.
pub const MARK_WORD: u64 = 5;

/// Its value in a volume that was closed. Every other value is that of one that wasn't.
pub const CLOSED_MARK: u64 = 1;

/// The value that it gets before a closed volume is changed.
pub const OPEN_MARK: u64 = 0;

/// The words that tell which volume this is: the magic, the version, and the numbers of pages, inodes and data pages.
pub const HEAD_WORDS: usize = 5;

impl Geometry {
    /// The words that tell which volume this is, from the superblock's first on.
    pub fn head(&self) -> [u64; HEAD_WORDS]
        ensures { result ≡ head_of self.now.pages }
    {
        [MAGIC, VERSION, self.pages, self.inodes, self.data_pages]
    }
}

/// Whether the words have the mark of a volume that was closed.
pub fn has_mark(words: &[u64]) -> bool
    requires { 512 ≤ length words.now }
    ensures { result ≡ has_mark words.now }
{
    words[MARK_WORD as usize] == CLOSED_MARK
}
