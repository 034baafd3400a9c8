//! The calls that make a file or a directory on a mounted volume, each step of them settled by a fence of its own.
#![tactic(auto)]

mod calls;
mod make;
mod node;
mod run;

pub use calls::{apply_create, apply_mkdir};
pub use run::{Running, advance, begin};
