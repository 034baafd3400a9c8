// What a volume forgets of a name that was taken away.
ghost use Rattle.std.specs.Prelude.{◌≡◌, ◌≤◌, ℕ, true, Contains};
ghost use Rattle.image_reading.specs.Counts.{IsDistinct};
ghost use Rattle.volatile_index.specs.Index.{inodes_of_index};
ghost use Rattle.volume.specs.Entered.{IsTaken, with_given, MayRemoveName, MayGiveBack, MayGo, LeavesName, LeavesPageOf, LeavesInodeIf};

use crate::plan::Loss;
use crate::volume::Volume;
use allocators::Numbers;
use layout::Name;

impl Volume {
    /// Takes a name out of its directory. It takes no memory.
    pub fn remove_name(&mut self, directory: u64, name: &Name)
        requires may_remove { MayRemoveName self.old directory name.now }
        ensures { LeavesName self.old self.new directory name.now }
    {
        self.index.remove(directory, name);
    }

    /// Gives back a page of a directory, where there is one. It takes no memory.
    pub fn give_page(&mut self, directory: u64, given_back: Option<u64>)
        requires least { 1 ≤ directory }
        requires most { directory ≤ inodes_of_index self.old.index }
        requires may_give { MayGiveBack self.old directory given_back }
        ensures { LeavesPageOf self.old self.new directory given_back }
    {
        if let Some(page) = given_back {
            self.index.drop_page(directory, page);
            self.data_pages.give(page);
        }
    }

    /// Gives back the inode of a node that goes, and all its pages. It takes no memory.
    pub fn give_inode(&mut self, loss: &Loss)
        requires may_go { loss.now.goes ≡ true → MayGo self.old loss.now.inode }
        ensures { LeavesInodeIf loss.now.goes self.old self.new loss.now.inode }
    {
        if !loss.goes {
            return;
        }
        let pages = self.index.pages(loss.inode);
        let count = pages.len() as u64;
        give_all(&mut self.data_pages, pages);
        self.index.cut_pages(loss.inode, count);
        self.inodes.give(loss.inode - 1);
    }
}

// Gives back numbers, each of which stands once.
pub(crate) fn give_all(free: &mut Numbers, numbers: &[u64])
    requires once { IsDistinct numbers.now }
    requires taken { (k : ℕ) → Contains numbers.now k → IsTaken free.old k }
    ensures { free.new ≡ with_given free.old numbers.now }
{
    for number in numbers {
        free.give(*number);
    }
}
