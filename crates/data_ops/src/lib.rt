//! The calls that read a file of a mounted volume, write bytes into it and give it another size.
#![tactic(auto)]

mod grow;
mod reading;
pub mod truncate;
pub mod write;

pub use reading::read;
pub use truncate::apply_truncate;
pub use write::apply_write;
