// What is held of each inode.
ghost use Rattle.std.specs.Prelude.{◌≡◌, ◌+◌, ◌-◌, ◌*◌, ◌^◌, ◌<◌, ◌≤◌, ℕ, [], ◌∷◌, ◌++◌, length, take, slice_get, slice_set, Contains, MatchOption, IsTrue, IfOk, Some};
ghost use Rattle.volatile_index.specs.Entries.{IsSorted, IsAbsent, IsPresent, IsOpen, IsLeastOpen};
ghost use Rattle.volatile_index.specs.Index.{inodes_of_index, node_of, entries_of, has_place_of, pages_of, page_places_of, IsEmpty, ReservesEntry, PutsEntry, RemovesEntry, ReservesPages, IsWithPages, DropsPage, ChangesNode};

use crate::entry::Entry;
use crate::node::Node;
use counting::Steps;
use layout::{Geometry, Name};
use pm_trait::NoMemory;
use std::alloc::Global;
use std::marker::{Brand, Model};
use std::sync::ledger::{Blank, Ledger};

/// For each inode, numbered from 1, the entries of the directory and the pages of the file or the directory.
#[derive(Drop)]
pub struct Index {
    nodes: Vec<Node>,
}

impl Model for Index {
    ghost use Rattle.std.specs.Prelude.{List};
    ghost use Rattle.volatile_index.specs.Index.{NodeView};

    ghost Value = { List NodeView };

    ghost view = { λ index. index.nodes.items };
}

impl Index {
    /// An index of all inodes of the volume, of each of which nothing is held.
    pub fn new(alloc: Global, geometry: &Geometry) -> Result<Index, NoMemory>
        ensures inodes { IfOk result (λ index. inodes_of_index index ≡ geometry.now.inodes) }
        ensures empty { IfOk result (λ index. (inode : ℕ) → IsEmpty (node_of index inode)) }
    {
        let mut nodes = Vec::new(alloc);
        for _ in 0..geometry.inodes {
            nodes.push(Node::new(alloc))?;
        }
        Ok(Index { nodes })
    }

    /// How many entries a directory has.
    pub fn count(&self, directory: u64) -> u64
        requires from_one { 1 ≤ directory }
        requires in_range { directory ≤ inodes_of_index self.now }
        ensures count { result ≡ length (entries_of self.now directory) }
        ensures sorted { IsSorted (entries_of self.now directory) }
    {
        self.nodes[place_of(directory)].count()
    }

    /// One entry of a directory, counted from 0 in the order of names.
    pub fn nth(&self, directory: u64, k: u64) -> &Entry
        requires from_one { 1 ≤ directory }
        requires in_range { directory ≤ inodes_of_index self.now }
        requires place { k < length (entries_of self.now directory) }
        ensures entry { slice_get (entries_of self.now directory) k ≡ Some result.now }
        ensures sorted { IsSorted (entries_of self.now directory) }
    {
        self.nodes[place_of(directory)].nth(k)
    }

    /// The slot of a name in a directory, or `None` where the name isn't there.
    pub fn find(&self, directory: u64, name: &Name) -> Option<u64>
        requires from_one { 1 ≤ directory }
        requires in_range { directory ≤ inodes_of_index self.now }
        ensures slot { MatchOption result (IsAbsent (entries_of self.now directory) name.now)
            (λ slot. Contains (entries_of self.now directory) (record { name = name.now; slot = slot })) }
        ensures sorted { IsSorted (entries_of self.now directory) }
    {
        find_uncounted::<Brand>(self, directory, name, Blank::new(1))
    }

    /// The same in few steps. A step is a comparison of two names: there are no more of them than the number of entries has binary digits.
    pub fn find_counted<L: Ledger>(
        &self,
        directory: u64,
        name: &Name,
        steps: &mut Steps<L>,
    ) -> Option<u64>
        requires from_one { 1 ≤ directory }
        requires in_range { directory ≤ inodes_of_index self.now }
        ensures slot { MatchOption result (IsAbsent (entries_of self.now directory) name.now)
            (λ slot. Contains (entries_of self.now directory) (record { name = name.now; slot = slot })) }
        ensures sorted { IsSorted (entries_of self.now directory) }
        ensures cost { 2 ^ (steps.new - steps.old) ≤ 2 * length (entries_of self.now directory) + 1 }
    {
        self.nodes[place_of(directory)].find_counted(name, steps)
    }

    /// Takes memory for one more entry of a directory. Whether there is any or not, what is held stays.
    ///
    /// Fails only where memory is out, and never where the place is there already.
    pub fn reserve_one(&mut self, directory: u64) -> Result<(), NoMemory>
        requires from_one { 1 ≤ directory }
        requires in_range { directory ≤ inodes_of_index self.old }
        ensures { ChangesNode directory self.old self.new (ReservesEntry result) }
    {
        self.nodes[place_of(directory)].reserve_one()
    }

    /// Puts an entry into a directory. Its place is reserved before, so that it takes no memory.
    pub fn put(&mut self, directory: u64, name: Name, slot: u64)
        requires from_one { 1 ≤ directory }
        requires in_range { directory ≤ inodes_of_index self.old }
        requires absent { IsAbsent (entries_of self.old directory) name }
        requires room { IsTrue (has_place_of self.old directory) }
        ensures { ChangesNode directory self.old self.new (PutsEntry (record { name = name; slot = slot })) }
    {
        self.nodes[place_of(directory)].put(name, slot);
    }

    /// Removes the entry of a name from a directory.
    pub fn remove(&mut self, directory: u64, name: &Name)
        requires from_one { 1 ≤ directory }
        requires in_range { directory ≤ inodes_of_index self.old }
        requires present { IsPresent (entries_of self.old directory) name.now }
        ensures { ChangesNode directory self.old self.new (RemovesEntry name.now) }
    {
        self.nodes[place_of(directory)].remove(name);
    }

    /// The least page in whose slots some entries of a directory stand, but fewer than 32.
    pub fn page_with_room(&self, directory: u64) -> Option<u64>
        requires from_one { 1 ≤ directory }
        requires in_range { directory ≤ inodes_of_index self.now }
        ensures page { MatchOption result ((page : ℕ) → ¬ IsOpen (entries_of self.now directory) page)
            (λ page. IsLeastOpen (entries_of self.now directory) page) }
        ensures sorted { IsSorted (entries_of self.now directory) }
    {
        self.nodes[place_of(directory)].page_with_room()
    }

    /// The pages of an inode: a file's by offset, a directory's in the order in which they were added.
    pub fn pages(&self, inode: u64) -> &[u64]
        requires from_one { 1 ≤ inode }
        requires in_range { inode ≤ inodes_of_index self.now }
        ensures pages { result.now ≡ pages_of self.now inode }
    {
        self.nodes[place_of(inode)].pages()
    }

    /// Takes memory for `n` more pages of an inode. Whether there is any or not, what is held stays.
    ///
    /// Fails only where memory is out, and never where the places are there already.
    pub fn reserve_pages(&mut self, inode: u64, n: u64) -> Result<(), NoMemory>
        requires from_one { 1 ≤ inode }
        requires in_range { inode ≤ inodes_of_index self.old }
        ensures { ChangesNode inode self.old self.new (ReservesPages n result) }
    {
        self.nodes[place_of(inode)].reserve_pages(n)
    }

    /// Adds a page at the end of an inode's pages. Its place is reserved before, so that it takes no memory.
    pub fn push_page(&mut self, inode: u64, page: u64)
        requires from_one { 1 ≤ inode }
        requires in_range { inode ≤ inodes_of_index self.old }
        requires room { length (pages_of self.old inode) < page_places_of self.old inode }
        ensures { ChangesNode inode self.old self.new (λ old new. IsWithPages (old.pages ++ page ∷ []) old new) }
    {
        self.nodes[place_of(inode)].push_page(page);
    }

    /// Puts a page in the place of the one that stands there among an inode's pages, counted from 0.
    pub fn swap_page(&mut self, inode: u64, place: u64, page: u64)
        requires from_one { 1 ≤ inode }
        requires in_range { inode ≤ inodes_of_index self.old }
        requires place { place < length (pages_of self.old inode) }
        ensures { ChangesNode inode self.old self.new (λ old new.
            IsWithPages (slice_set old.pages place page) old new) }
    {
        self.nodes[place_of(inode)].swap_page(place, page);
    }

    /// Drops the last `n` of an inode's pages.
    pub fn cut_pages(&mut self, inode: u64, n: u64)
        requires from_one { 1 ≤ inode }
        requires in_range { inode ≤ inodes_of_index self.old }
        requires count { n ≤ length (pages_of self.old inode) }
        ensures { ChangesNode inode self.old self.new (λ old new.
            IsWithPages (take (length old.pages - n) old.pages) old new) }
    {
        self.nodes[place_of(inode)].cut_pages(n);
    }

    /// Drops one page of a directory, wherever it stands. It takes no memory.
    ///
    /// A file's pages aren't dropped so: they stand by their offsets, and those behind the page would move to lower ones.
    pub fn drop_page(&mut self, inode: u64, page: u64)
        requires from_one { 1 ≤ inode }
        requires in_range { inode ≤ inodes_of_index self.old }
        requires there { Contains (pages_of self.old inode) page }
        ensures { ChangesNode inode self.old self.new (DropsPage page) }
    {
        self.nodes[place_of(inode)].drop_page(page);
    }
}

// What `find` answers, with steps that nobody reads.
fn find_uncounted<L: Ledger>(
    index: &Index,
    directory: u64,
    name: &Name,
    blank: Blank,
) -> Option<u64>
    requires from_one { 1 ≤ directory }
    requires in_range { directory ≤ inodes_of_index index.now }
    requires name { blank.name ≡ L.name }
    requires parts { blank.parts ≡ L.parts }
    requires some { 0 < blank.parts }
    ensures slot { MatchOption result (IsAbsent (entries_of index.now directory) name.now)
        (λ slot. Contains (entries_of index.now directory) (record { name = name.now; slot = slot })) }
    ensures sorted { IsSorted (entries_of index.now directory) }
{
    index.find_counted(directory, name, &mut Steps::<L>::new(blank))
}

// Where an inode stands in the list.
fn place_of(inode: u64) -> usize
    requires from_one { 1 ≤ inode }
    ensures place { result + 1 ≡ inode }
{
    (inode - 1) as usize
}
