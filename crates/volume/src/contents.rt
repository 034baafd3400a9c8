// What a volume takes in of a file that grew, and forgets of one that was cut.
ghost use Rattle.std.specs.Prelude.{◌≡◌, ◌++◌, ◌+◌, ◌<◌, ◌≤◌, ℕ, length, Contains};
ghost use Rattle.image_reading.specs.Counts.{IsDistinct};
ghost use Rattle.allocators.specs.Numbers.{IsFree};
ghost use Rattle.volatile_index.specs.Index.{inodes_of_index, pages_of, page_places_of, ChangesNode, IsWithPages};
ghost use Rattle.volume.specs.Entered.{HasPagePlaces, MayTakePages, MayLosePages, TakesPages, PutsPages, LeavesLastPages, with_taken};

use crate::leaving::give_all;
use crate::volume::Volume;
use allocators::Numbers;
use volatile_index::Index;

impl Volume {
    /// Takes the new pages of a file: they are no longer free.
    pub fn take_pages(&mut self, pages: &[u64])
        requires free { MayTakePages self.old pages.now }
        ensures { TakesPages self.old self.new pages.now }
    {
        take_all(&mut self.data_pages, pages);
    }

    /// Puts pages, which the call has taken, at the end of a file's, in the order in which they are listed. It takes no memory: `prepare`
    /// has reserved the places.
    pub fn put_pages(&mut self, inode: u64, pages: &[u64])
        requires from_one { 1 ≤ inode }
        requires in_range { inode ≤ inodes_of_index self.old.index }
        requires reserved { HasPagePlaces self.old inode pages.now }
        ensures { PutsPages self.old self.new inode pages.now }
    {
        push_all(&mut self.index, inode, pages);
    }

    /// Gives back the last `count` pages of a file. It takes no memory.
    pub fn leave_pages(&mut self, inode: u64, count: u64)
        requires may_lose { MayLosePages self.old inode count }
        ensures { LeavesLastPages self.old self.new inode count }
    {
        let pages = self.index.pages(inode);
        let kept = pages.len() - count as usize;
        give_all(&mut self.data_pages, &pages[kept..]);
        self.index.cut_pages(inode, count);
    }
}

// Takes numbers, each of which stands once.
fn take_all(free: &mut Numbers, numbers: &[u64])
    requires once { IsDistinct numbers.now }
    requires free { (k : ℕ) → Contains numbers.now k → IsFree free.old k }
    ensures { free.new ≡ with_taken free.old numbers.now }
{
    for number in numbers {
        free.take(*number);
    }
}

// Adds pages at the end of an inode's, in places that are there.
fn push_all(index: &mut Index, inode: u64, pages: &[u64])
    requires from_one { 1 ≤ inode }
    requires in_range { inode ≤ inodes_of_index index.old }
    requires room { 0 < length pages.now → length (pages_of index.old inode) + length pages.now ≤ page_places_of index.old inode }
    ensures { ChangesNode inode index.old index.new (λ old new. IsWithPages (old.pages ++ pages.now) old new) }
{
    for page in pages {
        index.push_page(inode, *page);
    }
}
