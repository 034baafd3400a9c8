// Which inodes are reached.
ghost use Rattle.std.specs.Prelude.{◌≡◌, ◌+◌, vec_len};
ghost use Rattle.image_reading.specs.Marks.{marked};

use crate::held::Rename;
use pm_trait::NoMemory;
use std::alloc::Global;

/// The rename pointer, and the inodes that a walk has found.
#[derive(Drop)]
pub struct Reach {
    pub rename: Rename,
    /// Whether each inode number has been found.
    pub reached: Vec<bool>,
    /// The numbers in the order in which they were found, up to `seen` of them.
    pub order: Vec<u64>,
    pub seen: usize,
    pub ghost counted: { marked reached.items ≡ seen },
    pub ghost room: { vec_len order ≡ vec_len reached },
}

impl Reach {
    ghost use Rattle.std.specs.Prelude.{◌≡◌, ◌↔◌, ◌<◌, IsTrue, IfOk, vec_len};
    ghost use Rattle.image_reading.specs.Walk.{IsFound, IsCleared, Marks};

    /// Marks for so many inode numbers.
    pub fn new(alloc: Global, numbers: usize) -> Result<Reach, NoMemory>
        ensures { IfOk result (λ reach. vec_len reach.reached ≡ numbers) }
    {
        let reached = vec![in alloc; false; numbers]?;
        let order = vec![in alloc; 0; numbers]?;
        let rename = Rename {
            target: 0,
            inode: 0,
        };
        Ok(Reach {
            rename,
            reached,
            order,
            seen: 0,
        })
    }

    /// Whether the inode has been found.
    pub fn has(&self, inode: u64) -> bool
        ensures { IsTrue result ↔ IsFound self.now inode }
    {
        if inode >= self.reached.len() as u64 {
            return false;
        }
        self.reached[inode as usize]
    }

    /// Forgets all, and takes this rename pointer.
    pub fn clear(&mut self, rename: Rename)
        ensures { IsCleared rename self.old self.new }
    {
        self.reached.as_mut_slice().fill(false);
        self.seen = 0;
        self.rename = rename;
    }

    /// Adds an inode, at the end of the order if it is new.
    pub fn mark(&mut self, inode: u64)
        requires { inode < vec_len self.old.reached }
        ensures { Marks inode self.old self.new }
    {
        let place = inode as usize;
        if self.reached[place] {
            return;
        }
        let end = self.seen;
        self.reached[place] = true;
        self.order[end] = inode;
        self.seen = end + 1;
    }
}
