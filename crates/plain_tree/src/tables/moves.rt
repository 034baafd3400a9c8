// The room where a directory gains a name and one loses one.
ghost use Rattle.std.specs.Prelude.{◌≡◌, IfOk};
ghost use Rattle.plain_tree.specs.Entries.{pages_moved, room_moved};

use crate::parts::{PagesEntry, PlainNode};
use crate::tables::{Rooms, Tables};
use pm_trait::NoMemory;
use std::alloc::Global;

/// The directory that gains a name, the one that loses one, and the pages that the new name takes.
#[derive(Clone, Copy)]
pub struct NameMoves {
    pub gaining: Option<u64>,
    pub losing: Option<u64>,
    pub taken: u64,
}

impl Rooms {
    // The pages of a directory after its names moved. That many names would not be in memory where the number is too large.
    fn pages_moved(&self, moves: &NameMoves, gives: bool, directory: u64) -> Result<u64, NoMemory>
        ensures { IfOk result (λ pages. pages ≡ pages_moved self.now moves.now.gaining moves.now.losing moves.now.taken gives directory) }
    {
        let taken = if moves.gaining == Some(directory) {
            moves.taken
        } else {
            0
        };
        let gained = self.pages_in(directory).checked_add(taken).ok_or(NoMemory)?;
        if moves.losing == Some(directory) && gives {
            Ok(gained.saturating_sub(1))
        } else {
            Ok(gained)
        }
    }

    /// The room of a tree's directories after names moved. Where `gives`, the directory that loses one gives a page back.
    ///
    /// Fails only where memory is out.
    pub fn moved(
        &self,
        alloc: Global,
        tree: &Tables,
        moves: &NameMoves,
        gives: bool,
    ) -> Result<Rooms, NoMemory>
        ensures { IfOk result (λ rooms. rooms ≡ room_moved self.now moves.now.gaining moves.now.losing moves.now.taken gives tree.now) }
    {
        let mut pages = Vec::new(alloc);
        for entry in &tree.nodes {
            if let PlainNode::Directory = entry.node {
                let after = self.pages_moved(moves, gives, entry.id)?;
                pages.push(PagesEntry {
                    directory: entry.id,
                    pages: after,
                })?;
            }
        }
        Ok(Rooms { pages })
    }
}
