// What is counted over the names.
ghost use Rattle.std.specs.Prelude.{◌≡◌, ◌-◌, ◌&&◌, length, count_by, sum_by, Some};
ghost use Rattle.std.proofs.Common.{nat_cmp};
ghost use Rattle.std.specs.FinMap.Entries.{find};
ghost use Rattle.layout.specs.Geometry.{pieces};
ghost use Rattle.tree_model.specs.Tree.{is_in as is_in_of, is_number as is_number_of, name_count as name_count_of, link_count as link_count_of, bytes_of, bytes_of_node, page_bytes, node_pages, is_directory as is_directory_of};
ghost use Rattle.plain_tree.specs.Entries.{node_of};
ghost use Rattle.tree_model.specs.Capacity.{untaken, free_inodes as free_inodes_of, free_pages as free_pages_of};

use super::{Rooms, Tables};
use crate::lookups::{id_at_route, node_of_id};
use crate::parts::{NameEntry, NodeEntry, PagesEntry, PlainNode};
use crate::routes::parent;
use layout::{Geometry, Name};

// A directory has its own name, and the one in itself.
const OWN_LINKS: u64 = 2;

const PAGE_BYTES: u64 = 4096;

/// How many pages hold so many bytes.
pub fn pages_for(bytes: u64) -> u64
    ensures { result ≡ pieces bytes page_bytes }
{
    bytes.div_ceil(PAGE_BYTES)
}

/// Whether an id is there and is this one.
pub fn is_number(found: Option<u64>, id: u64) -> bool
    ensures { result ≡ is_number_of found id }
{
    match found {
        Some(other) => other == id,
        None => false,
    }
}

impl Tables {
    // Whether a route is a name in a directory.
    fn is_in(&self, directory: u64, route: &[Name]) -> bool
        ensures { result ≡ is_in_of self.now directory route.now }
    {
        if route.is_empty() {
            return false;
        }
        is_number(id_at_route(&self.names, parent(route)), directory)
    }

    // How many of the entries are names in a directory.
    fn names_among(&self, entries: &[NameEntry], directory: u64) -> u64
        ensures { result ≡ count_by (λ e. is_in_of self.now directory e.0) entries.now }
    {
        let mut count = 0;
        for entry in entries {
            if self.is_in(directory, &entry.path) {
                count += 1;
            }
        }
        count
    }

    // How many of them are directories' names.
    fn subdirectories_among(&self, entries: &[NameEntry], directory: u64) -> u64
        ensures { result ≡ count_by (λ e. is_in_of self.now directory e.0 && is_directory_of self.now e.1) entries.now }
    {
        let mut count = 0;
        for entry in entries {
            if self.is_in(directory, &entry.path) && self.is_directory(entry.id) {
                count += 1;
            }
        }
        count
    }

    /// How many names a directory has.
    pub fn name_count(&self, directory: u64) -> u64
        ensures { result ≡ name_count_of self.now directory }
    {
        self.names_among(&self.names, directory)
    }

    /// The paths of a file; 2 and the subdirectories of a directory.
    pub fn link_count(&self, id: u64) -> u64
        ensures { result ≡ link_count_of self.now id }
    {
        if self.is_directory(id) {
            OWN_LINKS + self.subdirectories_among(&self.names, id)
        } else {
            self.path_count(id)
        }
    }

    /// How many bytes an id's file has; none where it is no file.
    pub fn size_of(&self, id: u64) -> u64
        ensures { result ≡ length (bytes_of self.now id) }
    {
        size_of_id(&self.nodes, id)
    }
}

// The size of an id's file.
fn size_of_id(entries: &[NodeEntry], id: u64) -> u64
    ensures { result ≡ length (bytes_of_node (find nat_cmp id entries.now)) }
{
    match node_of_id(entries, id) {
        Some(node) => size_of_node(node),
        None => 0,
    }
}

// The size of a file.
fn size_of_node(node: &PlainNode) -> u64
    ensures { result ≡ length (bytes_of_node (Some (node_of node.now))) }
{
    match node {
        PlainNode::Directory => 0,
        PlainNode::File(bytes) => bytes.len() as u64,
    }
}

// The pages of a node.
fn pages_of_node(node: &PlainNode) -> u64
    ensures { result ≡ node_pages (node_of node.now) }
{
    match node {
        PlainNode::Directory => 0,
        PlainNode::File(bytes) => pages_for(bytes.len() as u64),
    }
}

// So many pages without those of the files.
fn without_files(entries: &[NodeEntry], pages: u64) -> u64
    ensures { result ≡ pages - sum_by (λ e. node_pages e.1) entries.now }
{
    let mut left = pages;
    for entry in entries {
        left = left.saturating_sub(pages_of_node(&entry.node));
    }
    left
}

// So many pages without those of the directories.
fn without_directories(entries: &[PagesEntry], pages: u64) -> u64
    ensures { result ≡ pages - sum_by (λ e. e.1) entries.now }
{
    let mut left = pages;
    for entry in entries {
        left = left.saturating_sub(entry.pages);
    }
    left
}

/// How many inodes of a volume are free.
pub fn free_inodes(tree: &Tables, geometry: &Geometry) -> u64
    ensures { result ≡ free_inodes_of (untaken geometry.now.pages) tree.now }
{
    geometry.inodes.saturating_sub(tree.node_count())
}

/// How many data pages of a volume are free.
pub fn free_pages(tree: &Tables, rooms: &Rooms, geometry: &Geometry) -> u64
    ensures { result ≡ free_pages_of (untaken geometry.now.pages) tree.now rooms.now }
{
    without_directories(
        &rooms.pages,
        without_files(&tree.nodes, geometry.data_pages),
    )
}
