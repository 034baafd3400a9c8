//! An inode as a value that stands for its words, with what they mean and how far they have come in its type.
#![tactic(auto)]

mod inode;
mod laws;
mod states;

pub use inode::InodeH;
pub use laws::inode_law;
pub use states::{Cut, Free, Grown, Init, InodeState, Linked, Live, Unlinked};
