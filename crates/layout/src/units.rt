// How large the parts of a volume are, and which field of a structure is which.

/// The number of the root's inode.
pub const ROOT: u64 = 1;

/// Bytes of a word.
pub const WORD_BYTES: u64 = 8;

/// Words of a cache line.
pub const LINE_WORDS: u64 = 8;

/// Bytes of a cache line.
pub const LINE_BYTES: u64 = 64;

/// Words of a page.
pub const PAGE_WORDS: u64 = 512;

/// Bytes of a page.
pub const PAGE_BYTES: u64 = 4_096;

/// Cache lines of a page.
pub const PAGE_LINES: u64 = 64;

/// Slots of a page.
pub const PAGE_SLOTS: u64 = 32;

/// Words of an inode.
pub const INODE_WORDS: u64 = 16;

/// Words of an inode that a call writes: its first ones.
pub const INODE_FIELDS: u64 = 4;

/// Words of a data page's descriptor.
pub const DESCRIPTOR_WORDS: u64 = 8;

/// Words of a data page's descriptor that a call writes: its first ones.
pub const DESCRIPTOR_FIELDS: u64 = 3;

/// Words of a slot.
pub const SLOT_WORDS: u64 = 16;

/// The field of an inode that says its kind.
pub const INODE_KIND: u64 = 0;

/// The field of an inode that says its links.
pub const INODE_LINKS: u64 = 1;

/// The field of an inode that says its size.
pub const INODE_SIZE: u64 = 2;

/// The field of an inode that says its own number.
pub const INODE_OWN: u64 = 3;

/// The field of a descriptor that says whose the page is.
pub const DESCRIPTOR_OWNER: u64 = 0;

/// The field of a descriptor that says the page's kind.
pub const DESCRIPTOR_KIND: u64 = 1;

/// The field of a descriptor that says the page's offset.
pub const DESCRIPTOR_OFFSET: u64 = 2;

/// The field of a slot that says which inode it names.
pub const SLOT_INODE: u64 = 0;

/// The field of a slot that is its rename pointer.
pub const SLOT_POINTER: u64 = 1;

/// The first field of a slot's name.
pub const SLOT_NAME: u64 = 2;
