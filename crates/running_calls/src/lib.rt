//! A running call, whatever its command: it begins by a plan, and goes on step by step, each with its fence.
#![tactic(auto)]

mod running;

pub use running::{Running, begin};
