use layout::Name;

/// An entry of a directory.
#[derive(Drop)]
pub struct Entry {
    pub name: Name,
    /// The slot that holds the name.
    pub slot: u64,
}
