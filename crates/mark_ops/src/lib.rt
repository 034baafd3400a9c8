//! The mark of a volume that was closed: it is taken away before the first change, and given back at the end.
#![tactic(auto)]

mod marking;

pub use marking::{close, unmark};
