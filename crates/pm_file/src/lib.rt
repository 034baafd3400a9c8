//! Persistent memory in a file: its words are read once and kept in memory, and each fence gives it the flushed lines back.
#![tactic(auto)]

mod access;
mod backing;
mod bytes;
mod cause;
mod device;
mod fault;
mod file_medium;
mod folder;
mod image_file;
mod lock;
mod medium;
mod mirror;
mod sizes;

pub use cause::Cause;
pub use device::FilePm;
pub use fault::FileFault;
pub use folder::folder_of;
pub use image_file::ImageFile;

#[cfg(test)]
mod tests;
