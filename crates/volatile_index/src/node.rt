// What is held of one inode.
ghost use Rattle.std.specs.Prelude.{◌≡◌, ◌+◌, ◌-◌, ◌*◌, ◌^◌, ◌<◌, ◌≤◌, ℕ, [], ◌∷◌, ◌++◌, length, take, slice_get, slice_set, Contains, MatchOption, IsTrue, Some};
ghost use Rattle.volatile_index.specs.Entries.{IsSorted, IsAbsent, IsPresent, IsOpen, IsLeastOpen};
ghost use Rattle.volatile_index.specs.Index.{IsEmpty, ReservesEntry, PutsEntry, RemovesEntry, ReservesPages, IsWithPages, DropsPage};

use crate::entry::Entry;
use crate::fills::Fills;
use crate::search::{search, search_from_end, search_uncounted};
use counting::Steps;
use layout::{Name, PAGE_SLOTS};
use pieces::Pieces;
use pm_trait::NoMemory;
use std::alloc::Global;
use std::marker::{Brand, Model};
use std::sync::ledger::{Blank, Ledger};

/// The entries of a directory, sorted by name, and the pages of a file or a directory.
#[derive(Drop)]
pub struct Node {
    entries: Pieces<Entry>,
    // How many of the entries stand in each page.
    fills: Fills,
    pages: Vec<u64>,
}

impl Model for Node {
    ghost use Rattle.std.specs.Prelude.{◌&&◌};
    ghost use Rattle.std.specs.Vec.{vec_capacity};
    ghost use Rattle.volatile_index.specs.Fills.{AreCounted};
    ghost use Rattle.volatile_index.specs.Index.{NodeView};

    ghost Value = { NodeView };

    ghost view = { λ node. record { entries = node.entries.items; has_place = node.entries.has_room && node.fills.has_room; pages = node.pages.items; page_places = vec_capacity node.pages } };

    ghost invariant = { λ node. AreCounted node.entries.items node.fills.fills };
}

impl Node {
    /// Nothing is held.
    pub fn new(alloc: Global) -> Node
        ensures { IsEmpty result }
    {
        Node {
            entries: Pieces::new(alloc),
            fills: Fills::new(alloc),
            pages: Vec::new(alloc),
        }
    }

    /// How many entries there are.
    pub fn count(&self) -> u64
        ensures count { result ≡ length self.now.entries }
        ensures sorted { IsSorted self.now.entries }
    {
        self.entries.len() as u64
    }

    /// One entry, counted from 0 in the order of names.
    pub fn nth(&self, k: u64) -> &Entry
        requires place { k < length self.now.entries }
        ensures entry { slice_get self.now.entries k ≡ Some result.now }
        ensures sorted { IsSorted self.now.entries }
    {
        self.entries.get(k as usize)
    }

    /// The slot of a name. A step is a comparison of two names.
    pub fn find_counted<L: Ledger>(&self, name: &Name, steps: &mut Steps<L>) -> Option<u64>
        ensures slot { MatchOption result (IsAbsent self.now.entries name.now)
            (λ slot. Contains self.now.entries (record { name = name.now; slot = slot })) }
        ensures sorted { IsSorted self.now.entries }
        ensures cost { 2 ^ (steps.new - steps.old) ≤ 2 * length self.now.entries + 1 }
    {
        match search(&self.entries, name, steps) {
            Ok(place) => Some(self.entries.get(place).slot),
            Err(_) => None,
        }
    }

    /// Takes memory for one more entry.
    pub fn reserve_one(&mut self) -> Result<(), NoMemory>
        ensures { ReservesEntry result self.old self.new }
    {
        self.entries.reserve_one()?;
        self.fills.reserve_one()?;
        Ok(())
    }

    /// Puts an entry in its place.
    pub fn put(&mut self, name: Name, slot: u64)
        requires absent { IsAbsent self.old.entries name }
        requires room { IsTrue self.old.has_place }
        ensures { PutsEntry (record { name = name; slot = slot }) self.old self.new }
    {
        if let Err(place) = search_from_end::<Brand>(&self.entries, &name, Blank::new(1)) {
            self.entries.insert(place, Entry { name, slot });
            // The entries can be counted, and so can those of the page.
            let _count = self.entries.len();
            self.fills.raise(slot / PAGE_SLOTS);
        }
    }

    /// Removes the entry of a name.
    pub fn remove(&mut self, name: &Name)
        requires present { IsPresent self.old.entries name.now }
        ensures { RemovesEntry name.now self.old self.new }
    {
        if let Ok(place) = search_uncounted::<Brand>(&self.entries, name, Blank::new(1)) {
            let entry = self.entries.remove(place);
            self.fills.lower(entry.slot / PAGE_SLOTS);
        }
    }

    /// The least page in whose slots some entries stand, but fewer than 32.
    pub fn page_with_room(&self) -> Option<u64>
        ensures page { MatchOption result ((page : ℕ) → ¬ IsOpen self.now.entries page) (λ page. IsLeastOpen self.now.entries page) }
        ensures sorted { IsSorted self.now.entries }
    {
        self.fills.least_open()
    }

    /// The pages.
    pub fn pages(&self) -> &[u64]
        ensures { result.now ≡ self.now.pages }
    {
        &self.pages
    }

    /// Takes memory for `n` more pages.
    pub fn reserve_pages(&mut self, n: u64) -> Result<(), NoMemory>
        ensures { ReservesPages n result self.old self.new }
    {
        self.pages.reserve(n as usize)?;
        Ok(())
    }

    /// Adds a page at the end.
    pub fn push_page(&mut self, page: u64)
        requires room { length self.old.pages < self.old.page_places }
        ensures { IsWithPages (self.old.pages ++ page ∷ []) self.old self.new }
    {
        // Unlike `push`, `insert` says that it grows no vector that has room.
        let end = self.pages.len();
        let _ = self.pages.insert(end, page);
    }

    /// Puts a page in the place of the one that stands there.
    pub fn swap_page(&mut self, place: u64, page: u64)
        requires place { place < length self.old.pages }
        ensures { IsWithPages (slice_set self.old.pages place page) self.old self.new }
    {
        self.pages[place as usize] = page;
    }

    /// Drops the last `n` pages.
    pub fn cut_pages(&mut self, n: u64)
        requires count { n ≤ length self.old.pages }
        ensures { IsWithPages (take (length self.old.pages - n) self.old.pages) self.old self.new }
    {
        self.pages.truncate(self.pages.len() - n as usize);
    }

    /// Drops a page, wherever it stands.
    pub fn drop_page(&mut self, page: u64)
        requires there { Contains self.old.pages page }
        ensures { DropsPage page self.old self.new }
    {
        if let Some(place) = self.pages.iter().position(|other| *other == page) {
            let _ = self.pages.remove(place);
        }
    }
}
