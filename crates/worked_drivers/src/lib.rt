//! Whole jobs of the program on a device in memory, and how rows of them are compared, for the crates of worked rows.
#![tactic(auto)]

pub mod crashes;
pub mod images;
pub mod jobs;
pub mod parts;
pub mod replays;
pub mod rows;
pub mod scarce;
pub mod texts;
pub mod volumes;
