//! The words of a command line: which job they ask for, and which device it needs.
#![tactic(auto)]

mod hex_bytes;
mod job;
mod split;
mod wanted;
mod words;

pub use hex_bytes::HexBytes;
pub use job::{Again, Job, job_of};
pub use wanted::{Wanted, device_of};
pub use words::{ImagePath, Words};
