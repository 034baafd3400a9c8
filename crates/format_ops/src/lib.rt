//! Makes a device an empty volume, so that a crash at any moment leaves the old words, no volume, or the whole new one.
#![tactic(auto)]

mod error;
mod formatting;
mod tables;

pub use error::FormatError;
pub use formatting::format;
