// What is to be stored, as lists of objects.
ghost use Rattle.std.specs.Prelude.{◌≡◌, ◌*◌, ◌≤◌, vec_len};

use layout::Geometry;

/// What a repair of an image stores, step by step. In each list every number stands once, in rising order.
#[derive(Drop)]
pub struct Repairs {
    /// The volume that it is for.
    pub geometry: Geometry,
    /// First: the slot that a committed rename left loses its inode number.
    pub left: Option<u64>,
    /// Second: the slot with the rename pointer loses it.
    pub pointer: Option<u64>,
    /// Third: these pages lose their owner,
    pub owners: Vec<u64>,
    /// these slots all words but the first,
    pub slots: Vec<u64>,
    /// and these inodes get the links
    pub links: Vec<u64>,
    /// that stand here in the same places.
    pub counts: Vec<u64>,
    /// Fourth: these pages lose the words behind their owner,
    pub descriptors: Vec<u64>,
    /// of so many that are read,
    pub descriptor_width: u64,
    /// and these inodes become free,
    pub inodes: Vec<u64>,
    /// in so many words.
    pub inode_width: u64,
    pub ghost few_owners: { vec_len owners ≤ geometry.pages },
    pub ghost few_slots: { vec_len slots ≤ 32 * geometry.pages },
    pub ghost few_links: { vec_len links ≤ geometry.pages },
    pub ghost counted: { vec_len counts ≡ vec_len links },
    pub ghost few_descriptors: { vec_len descriptors ≤ geometry.pages },
    pub ghost few_inodes: { vec_len inodes ≤ geometry.pages },
    pub ghost descriptor_bounds: { (3 ≤ descriptor_width) × (descriptor_width ≤ 8) },
    pub ghost inode_bounds: { (4 ≤ inode_width) × (inode_width ≤ 16) },
}
