//! What is counted in the words of an image is what is counted in the tree that the image reads as.
#![tactic(auto)]

ghost use Rattle.image_counts.specs.Laws.{EntryLaw, AbsenceLaw, NameCountLaw};
ghost use Rattle.image_counts.specs.Laws.{SizeLaw, InodeCountLaw, FreeInodeLaw, LinkLaw, LinkWordLaw};
ghost use Rattle.image_counts.specs.Laws.{RoomBesideLaw, LinkWordBesideLaw, FilePagesBesideLaw, FreeInodeBesideLaw, PageCountBesideLaw};
ghost use Rattle.image_counts.specs.Laws.{RoomLaw, FilePagesLaw, KeptPageLaw, PageCountLaw, StateLaw};

/// The names in a directory are the reached slots of its pages.
pub fn entry_law()
    ensures { EntryLaw }
{}

/// A node is of the kind and the size that its inode's words say.
pub fn size_law()
    ensures { SizeLaw }
{}

/// The inodes in use are those that are reached, and each is in the inode table.
pub fn inode_count_law()
    ensures { InodeCountLaw }
{}

/// In a tidy image an inode is free exactly where its kind is 0. Beside calls that run those aren't free either that they have left.
pub fn free_inode_law()
    ensures beside { FreeInodeBesideLaw }
    ensures tidy { FreeInodeLaw }
{}

/// A directory has as many names as reached slots.
pub fn name_count_law()
    ensures { NameCountLaw }
{}

/// There is no path where there is no slot.
pub fn absence_law()
    ensures { AbsenceLaw }
{}

/// A reached inode has as many links as are counted in the image.
pub fn link_law()
    ensures { LinkLaw }
{}

/// In a tidy image it has as many as its link word says, and beside calls that run where these have left nothing of it.
pub fn link_word_law()
    ensures beside { LinkWordBesideLaw }
    ensures tidy { LinkWordLaw }
{}

/// The pages in use are those that are kept.
pub fn kept_page_law()
    ensures { KeptPageLaw }
{}

/// In a tidy image a directory's room is the number of its pages, and it is full where each slot of them has an inode
/// number; and so it is beside calls that run, where these have left nothing of the directory.
pub fn room_law()
    ensures beside { RoomBesideLaw }
    ensures tidy { RoomLaw }
{}

/// In a tidy image the pages in use are those that have an owner. Beside calls that run those aren't free either that they have left.
pub fn page_count_law()
    ensures beside { PageCountBesideLaw }
    ensures tidy { PageCountLaw }
{}

/// In a tidy image a file's pages are one for each page of its size, and beside calls that run where these have left nothing of it.
pub fn file_pages_law()
    ensures beside { FilePagesBesideLaw }
    ensures tidy { FilePagesLaw }
{}

/// What a coherent image reads as is a state that a volume of its size may have.
pub fn state_law()
    ensures { StateLaw }
{}
