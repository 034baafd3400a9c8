//! The parts of which the events of a line or of a mount's repairs are added up: stores, flushes of lines, and fences. From the order of
//! stores and from the format, and not from the program.

pub const FENCE: u64 = 1;

/// A word and its line.
pub const FIELD: u64 = 1 + 1;

/// A node's 4 words and their line.
pub const NODE: u64 = 4 + 1;

/// A name's 14 words and their 2 lines.
pub const NAME: u64 = 14 + 2;

/// A word of links.
pub const LINKS: u64 = FIELD;

/// The inode number of a slot, with a fence.
pub const NUMBER: u64 = FIELD + FENCE;

/// A file's size, with a fence.
pub const SIZE: u64 = FIELD + FENCE;

/// The rename pointer of a slot.
pub const POINTER: u64 = FIELD;

/// The pointer and the name of a slot: its other 15 words and their 2 lines.
pub const SLOT_REST: u64 = 15 + 2;

/// The owner of a page.
pub const OWNER: u64 = FIELD;

/// Kind and offset of a page, and their line.
pub const PAGE_REST: u64 = 2 + 1;

/// A page's 512 words and their 64 lines, and its kind and offset.
pub const PAGE: u64 = 512 + 64 + PAGE_REST;

/// A page that is given back by itself: its owner, then the rest.
pub const GIVEN_BACK: u64 = OWNER + FENCE + PAGE_REST + FENCE;
