ghost use Rattle.std.specs.Prelude.{◌≡◌, ◌+◌, ◌-◌, ◌^◌, ◌<◌, ◌≤◌, false, true};
ghost use Rattle.allocators.specs.Numbers.{IsFree};
ghost use Rattle.volatile_index.specs.Index.{inodes_of_index, pages_of};
ghost use Rattle.volume.specs.Costs.{kept_events};
ghost use Rattle.volume.specs.Entered.{pages_of_option, HasNamePlace, MayTakePages, MayPutName, EntersInode, TakesPages, PutsName};

use crate::costs::MARK_EVENTS;
use allocators::Numbers;
use layout::{Geometry, Name};
use std::alloc::Global;
use std::marker::Model;
use volatile_index::Index;

/// What is known of a mounted volume without a look at the device: the entries and pages of its inodes, and what is free.
#[derive(Drop)]
pub struct Volume {
    pub(crate) alloc: Global,
    pub(crate) geometry: Geometry,
    pub(crate) index: Index,
    // Inode i is number i - 1.
    pub(crate) inodes: Numbers,
    pub(crate) data_pages: Numbers,
    // Whether a fence has failed.
    stopped: bool,
    // Whether the device has the mark of a volume that was closed.
    marked: bool,
    // How many events running calls have left.
    kept: u64,
}

impl Model for Volume {
    ghost use Rattle.volume.specs.Volume.{VolumeView};

    ghost Value = { VolumeView };

    ghost view = { λ volume. record { size = volume.geometry.pages; index = volume.index; inodes = volume.inodes; data_pages = volume.data_pages; stopped = volume.stopped; marked = volume.marked; kept = volume.kept } };
}

impl Volume {
    /// A volume of what was found on a device: which entries and pages each inode has, which inodes and data pages are free, and
    /// whether it has the mark of a volume that was closed.
    pub fn from_parts(
        alloc: Global,
        geometry: Geometry,
        index: Index,
        inodes: Numbers,
        data_pages: Numbers,
        marked: bool,
    ) -> Volume
        ensures { result ≡ record {
          size = geometry.pages;
          index = index;
          inodes = inodes;
          data_pages = data_pages;
          stopped = false;
          marked = marked;
          kept = 0;
        } }
    {
        Volume {
            alloc,
            geometry,
            index,
            inodes,
            data_pages,
            stopped: false,
            marked,
            kept: 0,
        }
    }

    /// Whether a fence has failed. Then nothing more is done on the volume.
    pub fn stopped(&self) -> bool
        ensures { result ≡ self.now.stopped }
    {
        self.stopped
    }

    /// Ends all work on the volume, after a failed fence.
    pub fn stop(&mut self)
        ensures { self.new ≡ record self.old { stopped = true } }
    {
        self.stopped = true;
    }

    /// Whether the device has the mark of a volume that was closed. It is taken away before the first change.
    pub fn marked(&self) -> bool
        ensures { result ≡ self.now.marked }
    {
        self.marked
    }

    /// Takes in that the device has no mark any more.
    pub fn clear_mark(&mut self)
        ensures { self.new ≡ record self.old { marked = false } }
    {
        self.marked = false;
    }

    /// Keeps so many events of a call that begins: `prepare` has room for them beside those of a later plan.
    pub fn keep(&mut self, events: u64)
        requires countable { self.old.kept + events < 2 ^ 64 }
        ensures { self.new ≡ record self.old { kept = self.old.kept + events } }
    {
        self.kept += events;
    }

    /// Keeps so many events no more, behind a step of a call that has made them.
    pub fn spend(&mut self, events: u64)
        requires kept { events ≤ self.old.kept }
        ensures { self.new ≡ record self.old { kept = self.old.kept - events } }
    {
        self.kept -= events;
    }

    // The events for which there is room beside those of a plan: those of the mark, and what running calls have left.
    pub(crate) fn events_beside(&self) -> u64
        requires countable { self.now.kept ≤ 2 ^ 62 }
        ensures { result ≡ kept_events self.now.marked + self.now.kept }
    {
        let mark = if self.marked {
            2 * MARK_EVENTS
        } else {
            MARK_EVENTS
        };
        mark + self.kept
    }

    /// The regions of the volume.
    pub fn geometry(&self) -> &Geometry
        ensures { result.now.pages ≡ self.now.size }
    {
        &self.geometry
    }

    /// The pages of an inode: a file's by offset, a directory's in no order that is told.
    pub fn pages(&self, inode: u64) -> &[u64]
        requires from_one { 1 ≤ inode }
        requires in_range { inode ≤ inodes_of_index self.now.index }
        ensures { result.now ≡ pages_of self.now.index inode }
    {
        self.index.pages(inode)
    }

    /// Takes the inode of a new node: it is no longer free.
    pub fn take_inode(&mut self, inode: u64)
        requires from_one { 1 ≤ inode }
        requires free { IsFree self.old.inodes (inode - 1) }
        ensures { EntersInode self.old self.new inode }
    {
        self.inodes.take(inode - 1);
    }

    /// Takes the new page of a directory, where there is one: it is no longer free.
    pub fn take_page(&mut self, new_page: Option<u64>)
        requires free { MayTakePages self.old (pages_of_option new_page) }
        ensures { TakesPages self.old self.new (pages_of_option new_page) }
    {
        if let Some(page) = new_page {
            self.data_pages.take(page);
        }
    }

    /// Puts a name into its directory, with the new page that it may have needed, which the call has taken. It takes no memory:
    /// `prepare` has reserved the places.
    pub fn put_name(&mut self, directory: u64, name: Name, slot: u64, new_page: Option<u64>)
        requires may_put { MayPutName self.old directory name }
        requires reserved { HasNamePlace self.old directory new_page }
        ensures { PutsName self.old self.new directory name slot new_page }
    {
        if let Some(page) = new_page {
            self.index.push_page(directory, page);
        }
        self.index.put(directory, name, slot);
    }
}
