ghost use Rattle.std.specs.Prelude.{◌≡◌, ◌*◌, ◌+◌, ◌<◌, ◌≤◌, length};
ghost use Rattle.layout.specs.Geometry.{slots_of};
ghost use Rattle.layout.specs.Fields.{word, words_from, inode_words, descriptor_words, inode_kind, inode_links, inode_size, inode_own, page_owner, page_kind, page_offset, slot_inode, slot_pointer, slot_words};

use crate::geometry::Geometry;
use crate::name::NAME_WORDS;
use crate::units::{
    DESCRIPTOR_FIELDS, DESCRIPTOR_KIND, DESCRIPTOR_OFFSET, DESCRIPTOR_OWNER, INODE_FIELDS,
    INODE_KIND, INODE_LINKS, INODE_OWN, INODE_SIZE, SLOT_INODE, SLOT_NAME, SLOT_POINTER,
};

/// What the words of an inode say.
#[derive(Clone, Copy, Debug, PartialEq, Eq)]
pub struct InodeFields {
    /// 0 for a free inode, `FILE` or `DIRECTORY`.
    pub kind: u64,
    /// A file's names, or a directory's 2 and its subdirectories; more where recovery has still to count them.
    pub links: u64,
    /// In bytes; 0 for a directory.
    pub size: u64,
    /// The inode's own number.
    pub own: u64,
}

/// What the words of a data page's descriptor say.
#[derive(Clone, Copy, Debug, PartialEq, Eq)]
pub struct DescriptorFields {
    /// The number of the inode that the page belongs to, 0 for none.
    pub owner: u64,
    /// `BYTES` or `SLOTS`, 0 for a free page.
    pub kind: u64,
    /// In pages from the file's first; 0 for a page of slots.
    pub offset: u64,
}

/// What the words of a slot say.
#[derive(Clone, Copy, Debug, PartialEq, Eq)]
pub struct SlotFields {
    /// The number of the inode that the slot names, 0 for none.
    pub inode: u64,
    /// One more than the slot that this one takes over, 0 for none.
    pub pointer: u64,
    /// The name, as `name_words` writes it.
    pub name: [u64; NAME_WORDS],
}

impl Geometry {
    /// Reads an inode. Inodes are numbered from 1.
    #[tactic(auto, unfolding(crate::specs::Fields::inode_kind, crate::specs::Fields::inode_links, crate::specs::Fields::inode_size, crate::specs::Fields::inode_own))]
    pub fn inode_at(&self, words: &[u64], inode: u64) -> InodeFields
        requires whole { length words.now ≡ 512 * self.now.pages }
        requires from_one { 1 ≤ inode }
        requires inode_in_range { inode ≤ self.now.inodes }
        ensures kind { result.kind ≡ inode_kind words.now inode }
        ensures links { result.links ≡ inode_links words.now inode }
        ensures size { result.size ≡ inode_size words.now inode }
        ensures own { result.own ≡ inode_own words.now inode }
    {
        InodeFields {
            kind: word_at(words, self.inode_word(inode, INODE_KIND)),
            links: word_at(words, self.inode_word(inode, INODE_LINKS)),
            size: word_at(words, self.inode_word(inode, INODE_SIZE)),
            own: word_at(words, self.inode_word(inode, INODE_OWN)),
        }
    }

    /// Reads the descriptor of a data page. Data pages are numbered from 0.
    #[tactic(auto, unfolding(crate::specs::Fields::page_owner, crate::specs::Fields::page_kind, crate::specs::Fields::page_offset))]
    pub fn descriptor_at(&self, words: &[u64], page: u64) -> DescriptorFields
        requires whole { length words.now ≡ 512 * self.now.pages }
        requires page_in_range { page < self.now.data_pages }
        ensures owner { result.owner ≡ page_owner self.now.pages words.now page }
        ensures kind { result.kind ≡ page_kind self.now.pages words.now page }
        ensures offset { result.offset ≡ page_offset self.now.pages words.now page }
    {
        DescriptorFields {
            owner: word_at(words, self.descriptor_word(page, DESCRIPTOR_OWNER)),
            kind: word_at(words, self.descriptor_word(page, DESCRIPTOR_KIND)),
            offset: word_at(words, self.descriptor_word(page, DESCRIPTOR_OFFSET)),
        }
    }

    /// Reads a slot. Slots are numbered from 0, 32 to a data page.
    #[tactic(auto, using(crate::proofs::GeometryLaws::slot_words_within), unfolding(crate::specs::Fields::slot_inode, crate::specs::Fields::slot_pointer, crate::specs::Fields::slot_words))]
    pub fn slot_at(&self, words: &[u64], slot: u64) -> SlotFields
        requires whole { length words.now ≡ 512 * self.now.pages }
        requires slot_in_range { slot < slots_of self.now.pages }
        ensures inode { result.inode ≡ slot_inode self.now.pages words.now slot }
        ensures pointer { result.pointer ≡ slot_pointer self.now.pages words.now slot }
        ensures name { result.name ≡ slot_words self.now.pages words.now slot }
    {
        SlotFields {
            inode: word_at(words, self.slot_word(slot, SLOT_INODE)),
            pointer: word_at(words, self.slot_word(slot, SLOT_POINTER)),
            name: fourteen_words(words, self.slot_word(slot, SLOT_NAME)),
        }
    }
}

/// How many first words of an inode are read in a volume of these words.
#[tactic(auto, unfolding(crate::specs::Fields::inode_words))]
pub fn inode_words(words: &[u64]) -> u64
    ensures { result ≡ inode_words words.now }
{
    INODE_FIELDS
}

/// How many first words of a data page's descriptor are read in a volume of these words.
#[tactic(auto, unfolding(crate::specs::Fields::descriptor_words))]
pub fn descriptor_words(words: &[u64]) -> u64
    ensures { result ≡ descriptor_words words.now }
{
    DESCRIPTOR_FIELDS
}

// The word of this address.
#[tactic(auto, unfolding(crate::specs::Fields::word))]
fn word_at(words: &[u64], address: u64) -> u64
    requires { address < length words.now }
    ensures { result ≡ word words.now address }
{
    words[address as usize]
}

// The words from this address on.
#[tactic(auto, using(crate::proofs::FieldLaws::words_from_range))]
fn fourteen_words(words: &[u64], first: u64) -> [u64; NAME_WORDS]
    requires { first + 14 ≤ length words.now }
    ensures { result ≡ words_from words.now first 14 }
{
    let start = first as usize;
    let mut found = [0u64; NAME_WORDS];
    found.copy_from_slice(&words[start..start + NAME_WORDS]);
    found
}
