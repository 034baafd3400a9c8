// Each rule as a search for the least place at which the words break it.
pub mod directories;
pub mod entries;
pub mod files;
pub mod heads;
pub mod inodes;
pub mod links;
pub mod names;
pub mod pointers;
