// The tree and the room as lists of entries, the newest first.
ghost use Rattle.std.specs.Prelude.{◌≡◌, IfOk, IfSome};
ghost use Rattle.tree_model.specs.Tree.{fresh, fresh_room, id_at, is_directory as is_directory_of, is_file as is_file_of, path_count as path_count_of, pages_in as pages_in_of};
ghost use Rattle.tree_model.specs.Capacity.{inodes_in_use};
ghost use Rattle.tree_model.specs.Step.{least_free_id as least_free_id_of};
ghost use Rattle.plain_tree.specs.Fronts.{front_of, IsWithin, CanGrow};

mod changes;
pub mod counts;
mod fits;
pub mod moves;

use crate::fronts::Front;
use crate::lookups::{has_id, id_at_front, is_directory_id, is_file_id, pages_of_id, paths_of};
use crate::parts::{NameEntry, NodeEntry, PagesEntry, PlainNode};
use pm_trait::NoMemory;
use std::alloc::Global;
use std::marker::Model;
use tree_model::Path;

pub const ROOT_ID: u64 = 1;

// New nodes get ids from here on.
const FIRST_FREE_ID: u64 = 2;

/// From paths to ids, and from ids to nodes.
#[derive(Drop)]
pub struct Tables {
    names: Vec<NameEntry>,
    nodes: Vec<NodeEntry>,
}

impl Model for Tables {
    ghost use Rattle.std.proofs.Common.{nat_cmp};
    ghost use Rattle.tree_model.specs.Tree.{Tree, route_cmp};
    ghost use Rattle.plain_tree.specs.Entries.{AreDistinct, tree_of};

    ghost Value = { Tree };

    ghost view = { λ tables. tree_of tables.names.items tables.nodes.items };

    ghost invariant = { λ tables. AreDistinct route_cmp tables.names.items × AreDistinct nat_cmp tables.nodes.items };
}

/// The pages of each directory.
#[derive(Drop)]
pub struct Rooms {
    pages: Vec<PagesEntry>,
}

impl Model for Rooms {
    ghost use Rattle.std.proofs.Common.{nat_cmp};
    ghost use Rattle.tree_model.specs.Tree.{Room};
    ghost use Rattle.plain_tree.specs.Entries.{AreDistinct, room_of};

    ghost Value = { Room };

    ghost view = { λ rooms. room_of rooms.pages.items };

    ghost invariant = { λ rooms. AreDistinct nat_cmp rooms.pages.items };
}

impl Tables {
    /// The root alone.
    pub fn fresh(alloc: Global) -> Result<Tables, NoMemory>
        ensures { IfOk result (λ tables. tables ≡ fresh) }
    {
        let mut names = Vec::new(alloc);
        let mut nodes = Vec::new(alloc);
        names.push(NameEntry {
            path: Vec::new(alloc),
            id: ROOT_ID,
        })?;
        nodes.push(NodeEntry {
            id: ROOT_ID,
            node: PlainNode::Directory,
        })?;
        Ok(Tables { names, nodes })
    }

    /// The id that a front of a path names.
    pub fn id_at(&self, path: &Path, front: Front) -> Option<u64>
        requires within { IsWithin front path.now }
        ensures is { result ≡ id_at self.now (front_of front path.now) }
        ensures grows { IfSome result (λ _. CanGrow front) }
    {
        id_at_front(&self.names, path, front)
    }

    /// Whether an id is a directory's.
    pub fn is_directory(&self, id: u64) -> bool
        ensures { result ≡ is_directory_of self.now id }
    {
        is_directory_id(&self.nodes, id)
    }

    /// Whether an id is a file's.
    pub fn is_file(&self, id: u64) -> bool
        ensures { result ≡ is_file_of self.now id }
    {
        is_file_id(&self.nodes, id)
    }

    /// How many paths name an id.
    pub fn path_count(&self, id: u64) -> u64
        ensures { result ≡ path_count_of self.now id }
    {
        paths_of(&self.names, id)
    }

    /// How many nodes there are.
    pub fn node_count(&self) -> u64
        ensures { result ≡ inodes_in_use self.now }
    {
        self.nodes.len() as u64
    }

    /// The least number from 2 on that is no id.
    pub fn least_free_id(&self) -> u64
        ensures { result ≡ least_free_id_of self.now }
    {
        let mut id = FIRST_FREE_ID;
        for _ in 0..self.nodes.len() {
            if !has_id(&self.nodes, id) {
                return id;
            }
            id += 1;
        }
        id
    }
}

impl Rooms {
    /// That of the root alone.
    pub fn fresh(alloc: Global) -> Result<Rooms, NoMemory>
        ensures { IfOk result (λ rooms. rooms ≡ fresh_room) }
    {
        let mut pages = Vec::new(alloc);
        pages.push(PagesEntry {
            directory: ROOT_ID,
            pages: 0,
        })?;
        Ok(Rooms { pages })
    }

    /// The pages of a directory; 0 where it has no entry.
    pub fn pages_in(&self, directory: u64) -> u64
        ensures { result ≡ pages_in_of self.now directory }
    {
        pages_of_id(&self.pages, directory).unwrap_or(0)
    }
}
