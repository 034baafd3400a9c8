// What is in the whole tree.
ghost use Rattle.std.specs.Prelude.{◌≡◌, ◌≤◌, length, false};
ghost use Rattle.layout.specs.Geometry.{inodes_of};
ghost use Rattle.tree_model.specs.Tree.{bytes_of};
ghost use Rattle.tree_model.specs.Run.{State};
ghost use Rattle.volume.specs.Stands.{StandsFor, IsStanding};
ghost use Rattle.volume.specs.Totals.{totals_of};

use crate::volume::Volume;
use layout::FILE;
use pm_trait::Pm;

/// What is in a whole tree.
#[derive(Clone, Copy, Debug, PartialEq, Eq)]
pub struct Totals {
    /// How many names there are, the root not counted.
    pub names: u64,
    /// How many bytes the files have, each file counted once however many names it has.
    pub bytes: u64,
}

impl Volume {
    /// How many names the tree has, the root not counted, and how many bytes its files have, each file counted once.
    pub fn totals<P: Pm>(&self, pm: &P) -> Totals
        requires going { self.now.stopped ≡ false }
        requires stands { IsStanding self.now (P.view pm.now) }
        ensures { (state : State) → StandsFor self.now (P.view pm.now) state → result ≡ totals_of state.tree }
    {
        let mut totals = Totals { names: 0, bytes: 0 };
        for number in 0..self.geometry.inodes {
            let inode = number + 1;
            totals.names += self.index.count(inode);
            totals.bytes += self.size_of_file(inode, pm);
        }
        totals
    }

    // The bytes of a file, and none where the inode is no file's.
    fn size_of_file<P: Pm>(&self, inode: u64, pm: &P) -> u64
        requires stands { IsStanding self.now (P.view pm.now) }
        requires least { 1 ≤ inode }
        requires most { inode ≤ inodes_of self.now.size }
        ensures { (state : State) → StandsFor self.now (P.view pm.now) state
            → result ≡ length (bytes_of state.tree inode) }
    {
        let fields = self.geometry.inode_at(pm.image(), inode);
        if fields.kind != FILE {
            return 0;
        }
        fields.size
    }
}
