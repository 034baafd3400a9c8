//! A slot of a directory as a value that stands for its words, with what they mean and how far they have come in its type.
#![tactic(auto)]

mod dentry;
mod laws;
mod states;

pub use dentry::{DentryH, Touched};
pub use laws::dentry_law;
pub use states::{Cleared, DentryState, Free, HasName, Left, Live, Moved, Named, Pointing};
