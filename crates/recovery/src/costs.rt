// How many events a repair makes.
ghost use Rattle.std.specs.Prelude.{◌≡◌, ◌^◌, ◌≤◌};
ghost use Rattle.recovery.specs.Repairs.{clear_changes, free_changes, events_of_repairs};
ghost use Rattle.recovery.specs.Changes.{events_for, one_changes};

use crate::{Part, Repairs};

// A step with stores has one fence.
fn with_fence(changes: u64) -> u64
    requires { changes ≤ 2 ^ 32 }
    ensures { result ≡ events_for changes }
{
    if changes == 0 { 0 } else { changes + 1 }
}

// The events of a step that clears at most one word.
fn events_of_one(number: Option<u64>) -> u64
    ensures { result ≡ events_for (one_changes number) }
{
    match number {
        None => 0,
        Some(_number) => 3,
    }
}

impl Repairs {
    /// The third step's stores and flushes.
    pub(crate) fn clear_changes(&self) -> u64
        ensures value { result ≡ clear_changes self.now }
        ensures small { result ≤ 2 ^ 32 }
    {
        Part::Owner.events() * self.owners.len() as u64
            + Part::Name.events() * self.slots.len() as u64
            + Part::Links.events() * self.links.len() as u64
    }

    /// The fourth step's.
    pub(crate) fn free_changes(&self) -> u64
        ensures value { result ≡ free_changes self.now }
        ensures small { result ≤ 2 ^ 32 }
    {
        Part::Descriptor(self.descriptor_width).events() * self.descriptors.len() as u64
            + Part::Inode(self.inode_width).events() * self.inodes.len() as u64
    }

    /// How many stores, flushes and fences a repair makes.
    pub fn events(&self) -> u64
        ensures { result ≡ events_of_repairs self.now }
    {
        let renames = events_of_one(self.left) + events_of_one(self.pointer);
        renames + with_fence(self.clear_changes()) + with_fence(self.free_changes())
    }
}
