// The words of an inode, a page's descriptor or a slot that one step of a repair stores.
ghost use Rattle.std.specs.Prelude.{◌≡◌, ◌*◌, ◌<◌, ◌≤◌};
ghost use Rattle.recovery.specs.Parts.{IsNumber, first_of, last_of, events_of_part};

use layout::{
    DESCRIPTOR_KIND, DESCRIPTOR_OWNER, Geometry, INODE_KIND, INODE_LINKS, LINE_WORDS, SLOT_INODE,
    SLOT_POINTER, SLOT_WORDS,
};

/// Words of an object that are stored together.
#[derive(Clone, Copy, Debug, PartialEq, Eq)]
pub enum Part {
    /// A slot's inode number.
    Number,
    /// A slot's rename pointer.
    Pointer,
    /// A page's owner.
    Owner,
    /// A slot's words but the first.
    Name,
    /// An inode's links.
    Links,
    /// Of so many first words of a page's descriptor those behind its owner.
    Descriptor(u64),
    /// So many first words of an inode.
    Inode(u64),
}

impl Part {
    /// The address of its first word, in the object of this number.
    pub fn first_word(self, geometry: &Geometry, number: u64) -> u64
        requires number { IsNumber geometry.now.pages self number }
        ensures value { result ≡ first_of geometry.now.pages self number }
    {
        match self {
            Part::Number => geometry.slot_word(number, SLOT_INODE),
            Part::Pointer => geometry.slot_word(number, SLOT_POINTER),
            Part::Owner => geometry.descriptor_word(number, DESCRIPTOR_OWNER),
            Part::Name => geometry.slot_word(number, SLOT_POINTER),
            Part::Links => geometry.inode_word(number, INODE_LINKS),
            Part::Descriptor(_words) => geometry.descriptor_word(number, DESCRIPTOR_KIND),
            Part::Inode(_words) => geometry.inode_word(number, INODE_KIND),
        }
    }

    /// The address of its last word.
    pub fn last_word(self, geometry: &Geometry, number: u64) -> u64
        requires number { IsNumber geometry.now.pages self number }
        ensures value { result ≡ last_of geometry.now.pages self number }
        ensures in_device { result < 512 * geometry.now.pages }
    {
        match self {
            Part::Number => geometry.slot_word(number, SLOT_INODE),
            Part::Pointer => geometry.slot_word(number, SLOT_POINTER),
            Part::Owner => geometry.descriptor_word(number, DESCRIPTOR_OWNER),
            Part::Name => geometry.slot_word(number, SLOT_WORDS - 1),
            Part::Links => geometry.inode_word(number, INODE_LINKS),
            Part::Descriptor(words) => geometry.descriptor_word(number, words - 1),
            Part::Inode(words) => geometry.inode_word(number, words - 1),
        }
    }

    /// How many stores it takes, with a flush of each of its lines.
    pub(crate) fn events(self) -> u64
        requires { events_of_part self ≤ 18 }
        ensures { result ≡ events_of_part self }
    {
        match self {
            Part::Number | Part::Pointer | Part::Owner | Part::Links => 2,
            Part::Name => 17,
            Part::Descriptor(words) => words,
            Part::Inode(words) => words + words.div_ceil(LINE_WORDS),
        }
    }
}
