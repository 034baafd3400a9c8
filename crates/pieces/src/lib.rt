//! A long list kept in pieces, so that an insert among many items moves those of one piece at most.
#![tactic(auto)]

mod counts;
mod list;
mod many;

pub use list::Pieces;
