// What the words of an inode mean.
ghost use Rattle.std.specs.Prelude.{ℕ};
ghost use Rattle.layout.specs.declared.fields.InodeFields.{InodeFields};
ghost use Rattle.inode_state.specs.States.{IsFree, IsInit, IsLive, IsLinked};

/// A meaning that the words of an inode may have.
pub trait InodeState {
    /// The fields that mean this, in the inode of this number.
    ghost Reads: { (number : ℕ) → InodeFields → Type 0 };
}

/// It is no file and no directory: its words are 0.
#[derive(Drop)]
pub struct Free;

/// It was made a file or a directory, and no slot names it yet.
#[derive(Drop)]
pub struct Init;

/// It is a file or a directory.
#[derive(Drop)]
pub struct Live;

/// A file or a directory whose link count was raised for a name or a subdirectory that comes.
#[derive(Drop)]
pub struct Linked;

/// A file or a directory from which a link was taken.
#[derive(Drop)]
pub struct Unlinked;

/// A file whose size was raised over pages that it has.
#[derive(Drop)]
pub struct Grown;

/// A file whose size was lowered.
#[derive(Drop)]
pub struct Cut;

impl InodeState for Free {
    ghost Reads = { IsFree };
}

impl InodeState for Init {
    ghost Reads = { IsInit };
}

impl InodeState for Live {
    ghost Reads = { IsLive };
}

impl InodeState for Linked {
    ghost Reads = { IsLinked };
}

impl InodeState for Unlinked {
    ghost Reads = { IsLive };
}

impl InodeState for Grown {
    ghost Reads = { IsLive };
}

impl InodeState for Cut {
    ghost Reads = { IsLive };
}
