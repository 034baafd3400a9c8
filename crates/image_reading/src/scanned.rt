// An image whose words fit together, read by what the scan knows of it.
use crate::held;
use crate::image::Image;
use crate::reach::Reach;
use layout::{DIRECTORY, FILE, PAGE_BYTES};

/// An image whose words fit together, with what the scan knows of it.
#[derive(Clone, Copy)]
pub struct Scanned<'a> {
    /// The words, and the size of their volume.
    pub image: Image<'a>,
    pub(crate) reach: &'a Reach,
    // The held slot with a rename pointer.
    pub(crate) pointer: Option<u64>,
    pub(crate) names: &'a [u32],
    pub(crate) tally: &'a [u64],
}

impl<'a> Scanned<'a> {
    ghost use Rattle.std.specs.Prelude.{◌≡◌, ◌↔◌, ℕ, IsTrue, Some};
    ghost use Rattle.image_reading.specs.Images.{In};
    ghost use Rattle.image_reading.specs.Reading.{IsLinkCount, IsLive, Reached};
    ghost use Rattle.image_reading.specs.Repairs.{IsKept, IsLeft, IsPointer};
    ghost use Rattle.image_reading.specs.Scanned.{AreNames, IsScanned};

    /// Whether the inode is reached.
    pub fn is_reached(&self, inode: u64) -> bool
        requires { IsScanned self.now }
        ensures { IsTrue result ↔ In self.now.image Reached inode }
    {
        self.reach.has(inode)
    }

    /// Whether the slot is live.
    pub fn is_live(&self, slot: u64) -> bool
        requires { IsScanned self.now }
        ensures { IsTrue result ↔ In self.now.image IsLive slot }
    {
        held::is_live(&self.image, self.reach.rename, slot)
    }

    /// Whether the page is kept.
    pub fn is_kept(&self, page: u64) -> bool
        requires { IsScanned self.now }
        ensures { IsTrue result ↔ In self.now.image IsKept page }
    {
        if page >= self.image.geometry.data_pages {
            return false;
        }
        let descriptor = self.image.geometry.descriptor_at(self.image.words, page);
        if !self.reach.has(descriptor.owner) {
            return false;
        }
        let inode = self
            .image
            .geometry
            .inode_at(self.image.words, descriptor.owner);
        if inode.kind == FILE {
            return descriptor.offset < inode.size.div_ceil(PAGE_BYTES);
        }
        held::has_live_slot(&self.image, self.reach.rename, page)
    }

    /// How many links of a reached inode are counted.
    pub fn links(&self, inode: u64) -> u64
        requires known { IsScanned self.now }
        requires reached { In self.now.image Reached inode }
        ensures { IsLinkCount self.now.image.geometry.pages self.now.image.words.now inode result }
    {
        let counted = self.tally[inode as usize];
        let fields = self.image.geometry.inode_at(self.image.words, inode);
        if fields.kind == DIRECTORY {
            return 2 + counted;
        }
        counted
    }

    /// The reached slots, each once, by directory and then by name.
    pub fn names(&self) -> &'a [u32]
        requires { IsScanned self.now }
        ensures { AreNames self.now.image.geometry.pages self.now.image.words.now result.now }
    {
        self.names
    }

    /// The one held slot with a rename pointer.
    pub fn pointer(&self) -> Option<u64>
        requires { IsScanned self.now }
        ensures { (slot : ℕ) → (result ≡ Some slot) ↔ In self.now.image IsPointer slot }
    {
        self.pointer
    }

    /// The slot that a committed rename left.
    pub fn left(&self) -> Option<u64>
        requires { IsScanned self.now }
        ensures { (slot : ℕ) → (result ≡ Some slot) ↔ In self.now.image IsLeft slot }
    {
        let rename = self.reach.rename;
        if rename.target == 0 {
            return None;
        }
        let slot = rename.target - 1;
        if rename.inode == 0 {
            return None;
        }
        if self.image.geometry.slot_at(self.image.words, slot).inode != rename.inode {
            return None;
        }
        Some(slot)
    }
}
