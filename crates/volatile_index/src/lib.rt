//! What a mounted volume knows of each inode without a look at the device: the entries of a directory, and the pages of a
//! file or a directory.
#![tactic(auto)]

mod entry;
mod fills;
mod index;
mod laws;
mod node;
mod search;

pub use entry::Entry;
pub use index::Index;
pub use laws::{one_entry_of_a_name, same_entries};
