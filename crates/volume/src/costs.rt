// What plans cost on the device: the parts of their stores, flushes and fences.
use layout::INODE_FIELDS;

/// A fence.
pub const FENCE_EVENTS: u64 = 1;

/// One word, and the flush of its line.
pub const WORD_EVENTS: u64 = 1 + 1;

/// The words of an inode, in one line.
pub const INODE_EVENTS: u64 = INODE_FIELDS + 1;

/// The fourteen words of a name, in two lines.
pub const NAME_EVENTS: u64 = 14 + 2;

/// The 512 words of a page in 64 lines, and the kind and the offset in its descriptor.
pub const PAGE_EVENTS: u64 = 512 + 64 + 2 + 1;

/// The fifteen words of a slot behind its number, in two lines.
pub const SLOT_REST_EVENTS: u64 = 15 + 2;

/// The kind and the offset of a descriptor, in one line.
pub const DESCRIPTOR_REST_EVENTS: u64 = 2 + 1;

/// A word that is settled by a fence of its own.
pub const COMMIT_EVENTS: u64 = WORD_EVENTS + FENCE_EVENTS;

/// A page that a move fills and then gives its owner, each settled by a fence.
pub const NEW_PAGE_EVENTS: u64 = PAGE_EVENTS + FENCE_EVENTS + COMMIT_EVENTS;

/// The mark, settled by a fence of its own.
pub const MARK_EVENTS: u64 = COMMIT_EVENTS;
