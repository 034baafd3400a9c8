// What the words of a slot mean.
ghost use Rattle.layout.specs.declared.fields.SlotFields.{SlotFields};
ghost use Rattle.layout.specs.Name.{IsNameWords};
ghost use Rattle.dentry_state.specs.States.{IsFree, IsNamed, IsLive, IsPointing, IsMoved};

/// A meaning that the words of a slot may have.
pub trait DentryState {
    /// A slot has this meaning where its words say so.
    ghost Reads: { SlotFields → Type 0 };
}

/// A meaning of a slot that has a name, so that a rename may give it a rename pointer.
pub trait HasName: DentryState {
    /// The fields have a name wherever they have this meaning.
    ghost named: { (fields : SlotFields) → Self.Reads fields → IsNameWords fields.name };
}

/// It is no entry of a directory: its words are 0.
#[derive(Drop)]
pub struct Free;

/// It has a name, and names no inode yet.
#[derive(Drop)]
pub struct Named;

/// It is an entry of its directory: its name stands for an inode.
#[derive(Drop)]
pub struct Live;

/// Its number was taken from it: it names no inode, and has still its name.
#[derive(Drop)]
pub struct Cleared;

/// Its rename pointer names the slot that a rename is to take the number from. It has a name, and names that slot's inode not yet.
#[derive(Drop)]
pub struct Pointing;

/// It has taken over the number of the slot that its rename pointer names.
#[derive(Drop)]
pub struct Moved;

/// A rename took its number from it: it names no inode, and has still its name.
#[derive(Drop)]
pub struct Left;

impl DentryState for Free {
    ghost Reads = { IsFree };
}

impl DentryState for Named {
    ghost Reads = { IsNamed };
}

impl DentryState for Live {
    ghost Reads = { IsLive };
}

impl DentryState for Cleared {
    ghost Reads = { IsNamed };
}

impl DentryState for Pointing {
    ghost Reads = { IsPointing };
}

impl DentryState for Moved {
    ghost Reads = { IsMoved };
}

impl DentryState for Left {
    ghost Reads = { IsNamed };
}

impl HasName for Named {
    ghost named = { λ fields reads. reads.2 };
}

impl HasName for Live {
    ghost named = { λ fields reads. reads.2 };
}
