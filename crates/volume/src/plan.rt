// Plans of accepted commands. A plan can't be copied, and none is made but by `prepare`.
ghost use Rattle.std.specs.Prelude.{◌≡◌, ◌+◌, ◌^◌, ◌<◌, ◌≤◌, length};
ghost use Rattle.layout.specs.Geometry.{most_data_pages, pieces as pieces_in};
ghost use Rattle.tree_model.specs.Capacity.{file_limit};
ghost use Rattle.volume.specs.Costs.{events_of, place_events as events_of_place, claim_events as events_of_claim, new_page_events as events_of_new_page, loss_events as events_of_loss, span_events as events_of_span, growth_events as events_of_growth};

use crate::costs::{
    COMMIT_EVENTS, DESCRIPTOR_REST_EVENTS, FENCE_EVENTS, INODE_EVENTS, NAME_EVENTS,
    NEW_PAGE_EVENTS, PAGE_EVENTS, SLOT_REST_EVENTS, WORD_EVENTS,
};
use layout::{LINE_BYTES, Name, NodeKind, PAGE_BYTES, WORD_BYTES};
use std::marker::Model;

/// An entry that is to be made, and the node that it names.
#[derive(Drop)]
pub struct NewEntry {
    /// What the node is.
    pub kind: NodeKind,
    /// The inode of the directory that it is made in.
    pub directory: u64,
    /// The name that the directory gets.
    pub name: Name,
    /// A free inode, for the node. Inodes are numbered from 1.
    pub inode: u64,
    /// The slot for the name. Slots are numbered from 0, 32 for each data page.
    pub slot: u64,
    /// The data page that the directory takes for the slot, where its pages are full. They are numbered from 0.
    pub new_page: Option<u64>,
}

impl NewEntry {
    /// How many stores, flushes and fences the making takes.
    pub fn events(&self) -> u64
        ensures { result ≡ events_of (Action.Make self.now) }
    {
        let links = match self.kind {
            NodeKind::File => 0,
            NodeKind::Directory => WORD_EVENTS,
        };
        (place_events(self.new_page) + INODE_EVENTS + links + FENCE_EVENTS)
            + claim_events(self.new_page)
            + COMMIT_EVENTS
    }
}

/// One more name for a file.
#[derive(Drop)]
pub struct NewName {
    /// The inode of the directory that gets the name.
    pub directory: u64,
    /// The name.
    pub name: Name,
    /// The file's inode. Inodes are numbered from 1.
    pub inode: u64,
    /// The slot for the name. Slots are numbered from 0, 32 for each data page.
    pub slot: u64,
    /// The data page that the directory takes for the slot, where its pages are full. They are numbered from 0.
    pub new_page: Option<u64>,
}

impl NewName {
    /// How many stores, flushes and fences the naming takes.
    pub fn events(&self) -> u64
        ensures { result ≡ events_of (Action.Name self.now) }
    {
        (place_events(self.new_page) + WORD_EVENTS + FENCE_EVENTS)
            + claim_events(self.new_page)
            + COMMIT_EVENTS
    }
}

/// What a node loses whose name is taken away.
#[derive(Clone, Copy, Debug, PartialEq, Eq)]
pub struct Loss {
    /// The node's inode. Inodes are numbered from 1.
    pub inode: u64,
    /// What the node is.
    pub kind: NodeKind,
    /// Whether this was its last name. Then the inode is free afterwards.
    pub goes: bool,
    /// How many data pages it gives up: all that it has where it goes, else 0.
    pub pages: u64,
}

/// A name that is taken away.
#[derive(Drop)]
pub struct Removal {
    /// The inode of the directory that loses the name.
    pub directory: u64,
    /// The name.
    pub name: Name,
    /// The slot in which it stands. Slots are numbered from 0, 32 for each data page.
    pub slot: u64,
    /// What the node loses that it names.
    pub loss: Loss,
    /// The slot's data page, where no other name stands in it. They are numbered from 0.
    pub given_back: Option<u64>,
}

impl Removal {
    /// How many stores, flushes and fences the removal takes.
    pub fn events(&self) -> u64
        requires { self.now.loss.pages ≤ most_data_pages }
        ensures { result ≡ events_of (Action.Remove self.now) }
    {
        let pages = match self.given_back {
            None => self.loss.pages,
            Some(_) => self.loss.pages + 1,
        };
        COMMIT_EVENTS
            + (SLOT_REST_EVENTS + WORD_EVENTS + FENCE_EVENTS)
            + loss_events(pages, self.loss.goes)
    }
}

/// A name that moves, in place of another node's name or to a new place.
#[derive(Drop)]
pub struct Moving {
    /// The inode of the node whose name moves. Inodes are numbered from 1.
    pub inode: u64,
    /// What the node is.
    pub kind: NodeKind,
    /// The inode of the directory that loses the old name.
    pub from_directory: u64,
    /// The old name.
    pub from_name: Name,
    /// The slot in which it stands. Slots are numbered from 0, 32 for each data page.
    pub from_slot: u64,
    /// The inode of the directory that gets the new name, or has it.
    pub to_directory: u64,
    /// The new name.
    pub to_name: Name,
    /// The slot for it: that of the node that is replaced, where there is one.
    pub to_slot: u64,
    /// The data page that the directory takes for the slot, where its pages are full. They are numbered from 0.
    pub new_page: Option<u64>,
    /// What the node loses that had the new name, where there is one.
    pub replaced: Option<Loss>,
    /// The old slot's data page, where no name is left in it, the new one neither.
    pub given_back: Option<u64>,
}

impl Moving {
    ghost use Rattle.volume.specs.Costs.{pages_of_loss, pages_replaced, pointing_events as events_of_pointing};
    ghost use Rattle.volume.specs.Moves.{rising_of, falling_of};

    /// How many stores, flushes and fences the move takes.
    pub fn events(&self) -> u64
        requires { pages_of_loss self.now.replaced ≤ most_data_pages }
        ensures { result ≡ events_of (Action.Move self.now) }
    {
        let (lost, goes) = match self.replaced {
            None => (0, false),
            Some(loss) => (loss.pages, loss.goes),
        };
        let pages = match self.given_back {
            None => lost,
            Some(_) => lost + 1,
        };
        let rising = if self.rising().is_some() {
            WORD_EVENTS
        } else {
            0
        };
        let falling = if self.falling().is_some() {
            WORD_EVENTS
        } else {
            0
        };
        new_page_events(self.new_page)
            + (self.pointing_events() + rising + FENCE_EVENTS)
            + (COMMIT_EVENTS + COMMIT_EVENTS)
            + (WORD_EVENTS + (SLOT_REST_EVENTS + falling + FENCE_EVENTS))
            + loss_events(pages, goes)
    }

    // The events by which the new slot gets its pointer, and its name where it has none yet.
    fn pointing_events(&self) -> u64
        ensures { result ≡ events_of_pointing self.now }
    {
        if self.replaced.is_some() || self.new_page.is_some() {
            WORD_EVENTS
        } else {
            SLOT_REST_EVENTS
        }
    }

    /// The inode that gets a link more: the new parent's, where a directory gets another parent and replaces none.
    pub fn rising(&self) -> Option<u64>
        ensures { result ≡ rising_of self.now }
    {
        let gains = self.kind == NodeKind::Directory
            && self.from_directory != self.to_directory
            && self.replaced.is_none();
        if gains { Some(self.to_directory) } else { None }
    }

    /// The inode that gets a link less: the old parent's, where a directory gets another parent or replaces a directory, or that of a
    /// file that is replaced.
    pub fn falling(&self) -> Option<u64>
        ensures { result ≡ falling_of self.now }
    {
        match self.kind {
            NodeKind::File => self.replaced.map(|loss| loss.inode),
            NodeKind::Directory => {
                let leaves = self.from_directory != self.to_directory || self.replaced.is_some();
                if leaves {
                    Some(self.from_directory)
                } else {
                    None
                }
            }
        }
    }
}

/// Data pages that a plan takes for a file, in rising order. They are numbered from 0.
#[derive(Drop)]
pub struct NewPages {
    pages: Vec<u64>,
}

impl Model for NewPages {
    ghost use Rattle.std.specs.Prelude.{List, ℕ};

    ghost Value = { List ℕ };

    ghost view = { λ new_pages. new_pages.pages.items };
}

impl NewPages {
    // These pages.
    pub(crate) fn of(pages: Vec<u64>) -> NewPages
        ensures { result ≡ pages.items }
    {
        NewPages { pages }
    }

    /// The pages.
    pub fn as_slice(&self) -> &[u64]
        ensures { result.now ≡ self.now }
    {
        &self.pages
    }

    /// How many pages there are.
    pub fn count(&self) -> u64
        ensures { result ≡ length self.now }
    {
        self.pages.len() as u64
    }
}

/// Bytes that are written into a file.
#[derive(Drop)]
pub struct Writing {
    /// The file's inode. Inodes are numbered from 1.
    pub inode: u64,
    /// Where the bytes begin in the file, in bytes.
    pub offset: u64,
    /// How many bytes are written, at least one.
    pub count: u64,
    /// The file's size before, in bytes.
    pub old_size: u64,
    /// The data pages by which the file grows.
    pub new_pages: NewPages,
}

impl Writing {
    ghost use Rattle.volume.specs.Prepared.{IsBoundedWriting};

    /// How many stores, flushes and fences the writing takes.
    pub fn events(&self) -> u64
        requires { IsBoundedWriting self.now }
        ensures { result ≡ events_of (Action.Write self.now) }
    {
        let end = self.offset + self.count;
        if end <= self.old_size {
            span_events(self.offset, end) + FENCE_EVENTS
        } else {
            growth_events(self.old_size, self.offset, self.new_pages.count())
        }
    }
}

/// A file's change to another size.
#[derive(Drop)]
pub struct Resizing {
    /// The file's inode. Inodes are numbered from 1.
    pub inode: u64,
    /// The size before, in bytes.
    pub old_size: u64,
    /// The size after, in bytes: another one.
    pub new_size: u64,
    /// The data pages by which the file grows.
    pub new_pages: NewPages,
    /// How many of its last data pages it loses.
    pub cut: u64,
}

impl Resizing {
    ghost use Rattle.volume.specs.Prepared.{IsBoundedResizing};

    /// How many stores, flushes and fences the change takes.
    pub fn events(&self) -> u64
        requires { IsBoundedResizing self.now }
        ensures { result ≡ events_of (Action.Resize self.now) }
    {
        if self.old_size < self.new_size {
            growth_events(self.old_size, self.old_size, self.new_pages.count())
        } else {
            COMMIT_EVENTS + loss_events(self.cut, false)
        }
    }
}

/// Bytes of a file that are read.
#[derive(Clone, Copy, Debug, PartialEq, Eq)]
pub struct Reading {
    /// The file's inode. Inodes are numbered from 1.
    pub inode: u64,
    /// Where the bytes begin in the file, in bytes. It may be past the end.
    pub offset: u64,
    /// At most so many bytes are read, up to `LONGEST_READ`.
    pub count: u64,
}

// How many pieces of a size, at most a page, hold so many bytes.
fn pieces(bytes: u64, size: u64) -> u64
    requires some { 1 ≤ size }
    requires small { size ≤ 4096 }
    requires bytes { bytes ≤ 2 ^ 41 }
    ensures { result ≡ pieces_in bytes size }
{
    (bytes + (size - 1)) / size
}

/// The events by which the words of the bytes from `first` to before `end` are stored.
pub fn span_events(first: u64, end: u64) -> u64
    requires { end ≤ 2 ^ 41 }
    ensures { result ≡ events_of_span first end }
{
    if first < end {
        let words = pieces(end, WORD_BYTES) - first / WORD_BYTES;
        let lines = pieces(end, LINE_BYTES) - first / LINE_BYTES;
        words + lines
    } else {
        0
    }
}

// The events by which a file grows over so many new pages, and gets bytes from an offset on.
fn growth_events(old_size: u64, offset: u64, new_pages: u64) -> u64
    requires size { old_size ≤ file_limit }
    requires pages { new_pages ≤ most_data_pages }
    ensures { result ≡ events_of_growth old_size offset new_pages }
{
    let old_end = pieces(old_size, PAGE_BYTES) * PAGE_BYTES;
    let old_pages = span_events(offset.min(old_size), old_end);
    let owners = if new_pages > 0 {
        new_pages * WORD_EVENTS + FENCE_EVENTS
    } else {
        0
    };
    old_pages + new_pages * PAGE_EVENTS + FENCE_EVENTS + owners + COMMIT_EVENTS
}

// The events by which a new name's words are stored: those of a slot, or of all of the new page that it stands in.
fn place_events(new_page: Option<u64>) -> u64
    ensures { result ≡ events_of_place new_page }
{
    match new_page {
        None => NAME_EVENTS,
        Some(_) => PAGE_EVENTS,
    }
}

// The events by which a new page, where there is one, gets its owner.
fn claim_events(new_page: Option<u64>) -> u64
    ensures { result ≡ events_of_claim new_page }
{
    match new_page {
        None => 0,
        Some(_) => COMMIT_EVENTS,
    }
}

// The events of a moving name's new page, where there is one: filled in an interval of its own, and then its owner.
fn new_page_events(page: Option<u64>) -> u64
    ensures { result ≡ events_of_new_page page }
{
    match page {
        None => 0,
        Some(_) => NEW_PAGE_EVENTS,
    }
}

// The events by which so many pages lose their owners, and then the rest of their descriptors, with an inode that goes.
fn loss_events(pages: u64, goes: bool) -> u64
    requires { pages ≤ 2 ^ 28 }
    ensures { result ≡ events_of_loss pages goes }
{
    let inode = if goes { INODE_EVENTS } else { 0 };
    if pages > 0 {
        let owners = pages * WORD_EVENTS + FENCE_EVENTS;
        owners + (pages * DESCRIPTOR_REST_EVENTS + inode + FENCE_EVENTS)
    } else if goes {
        inode + FENCE_EVENTS
    } else {
        0
    }
}

/// What an accepted command does.
#[derive(Drop)]
pub enum Action {
    /// Makes an entry and its node.
    Make(NewEntry),
    /// Gives a file one more name.
    Name(NewName),
    /// Takes a name away, and its node where that was the last one.
    Remove(Removal),
    /// Moves a name.
    Move(Moving),
    /// Writes bytes into a file.
    Write(Writing),
    /// Writes no bytes into a file.
    WriteNothing,
    /// Gives a file another size.
    Resize(Resizing),
    /// Leaves a file the size that it has.
    KeepSize,
    /// Leaves two names of one node as they are, or one name.
    KeepNames,
    /// Reads bytes of a file.
    Read(Reading),
    /// Tells what the node of an inode is.
    Status(u64),
    /// Gives the names of the directory of an inode.
    Names(u64),
    /// Tells what is free.
    Space,
}

/// The plan of an accepted command, for which all is found and reserved. It is of one volume, as this stands now, and is
/// spent by the call that carries it out.
#[derive(Drop)]
pub struct Plan {
    action: Action,
}

impl Model for Plan {
    ghost use Rattle.volume.specs.declared.plan.Action.{Action};

    ghost Value = { Action };

    ghost view = { λ plan. plan.action };
}

impl Plan {
    ghost use Rattle.volume.specs.Prepared.{IsMaking, IsNaming, IsRemoving};

    // The plan of an action.
    pub(crate) fn of(action: Action) -> Plan
        ensures { result ≡ action }
    {
        Plan { action }
    }

    /// What the command does.
    pub fn action(&self) -> &Action
        ensures { result.now ≡ self.now }
    {
        &self.action
    }

    /// The entry that the command makes. The plan is spent.
    pub fn into_entry(self) -> NewEntry
        requires { IsMaking self }
        ensures { self ≡ Action.Make result }
    {
        match self.action {
            Action::Make(entry) => entry,
            _other => unreachable!(),
        }
    }

    /// The name that the command gives a file. The plan is spent.
    pub fn into_name(self) -> NewName
        requires { IsNaming self }
        ensures { self ≡ Action.Name result }
    {
        match self.action {
            Action::Name(link) => link,
            _other => unreachable!(),
        }
    }

    /// The name that the command takes away. The plan is spent.
    pub fn into_removal(self) -> Removal
        requires { IsRemoving self }
        ensures { self ≡ Action.Remove result }
    {
        match self.action {
            Action::Remove(removal) => removal,
            _other => unreachable!(),
        }
    }

    /// What the command does. The plan is spent.
    pub fn into_action(self) -> Action
        ensures { result ≡ self }
    {
        self.action
    }
}
