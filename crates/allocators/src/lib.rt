//! Which numbers are free.
#![tactic(auto)]

mod numbers;
mod words;

pub use numbers::Numbers;
