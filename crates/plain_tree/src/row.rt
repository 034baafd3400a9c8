// The tests of a row.
ghost use Rattle.std.specs.Prelude.{◌≡◌, ◌≤◌, ◌+◌, length, nat_lt, if◌then◌else◌, ◌==◌, Some};
ghost use Rattle.layout.specs.Geometry.{pieces};
ghost use Rattle.tree_model.specs.Tree.{parent, page_bytes, bytes_of, names_per_page};
ghost use Rattle.tree_model.specs.Capacity.{untaken, free_inodes as free_inodes_of, free_pages as free_pages_of, file_limit};
ghost use Rattle.tree_model.specs.Step.{first as first_of, at as at_of, is_full as is_full_of, page_for_name, gaining, rise as rise_of, id_of as id_of_path, lacks_pages as lacks_pages_of, need};
ghost use Rattle.tree_model.specs.declared.command.Command.TheVariants as command;

use crate::tables::counts::{free_pages, pages_for};
use crate::tables::{Rooms, Tables};
use crate::walks::{is_there, parent_id};
use layout::Geometry;
use tree_model::{Path, Refusal};

const NAMES_PER_PAGE: u64 = 32;

/// A file has at most so many bytes.
pub const FILE_LIMIT: u64 = 1 << 40;

/// A read gives at most so many bytes.
pub const READ_LIMIT: u64 = 16_384;

/// The first fault of a row.
pub fn first(faults: &[Option<Refusal>]) -> Option<Refusal>
    ensures { result ≡ first_of faults.now }
{
    let mut left = faults;
    while let [fault, others @ ..] = left {
        if fault.is_some() {
            return *fault;
        }
        left = others;
    }
    None
}

/// This refusal, where its test holds.
pub fn at(refusal: Refusal, holds: bool) -> Option<Refusal>
    ensures { result ≡ at_of refusal holds }
{
    if holds { Some(refusal) } else { None }
}

// Whether a directory's names fill its pages.
fn is_full(tree: &Tables, rooms: &Rooms, directory: u64) -> bool
    ensures { result ≡ is_full_of tree.now rooms.now directory }
{
    let names = tree.name_count(directory);
    names % NAMES_PER_PAGE == 0 && names / NAMES_PER_PAGE == rooms.pages_in(directory)
}

/// How many pages a new name takes in the directory that would hold a path's last name.
pub fn page_for(tree: &Tables, rooms: &Rooms, path: &Path) -> u64
    ensures { result ≡ page_for_name tree.now rooms.now (Some (id_of_path tree.now (parent path.now))) }
{
    if is_full(tree, rooms, parent_id(tree, path)) {
        1
    } else {
        0
    }
}

/// How many pages a new name takes for a rename: none where it is there.
pub fn page_for_rename(tree: &Tables, rooms: &Rooms, from: &Path, to: &Path) -> u64
    ensures { result ≡ page_for_name tree.now rooms.now (gaining tree.now (command.Rename from.now to.now)) }
{
    if is_there(tree, to) {
        0
    } else {
        page_for(tree, rooms, to)
    }
}

/// By how many pages a file grows that gets this size.
pub fn rise(tree: &Tables, id: u64, size: u64) -> u64
    ensures { result ≡ rise_of (bytes_of tree.now id) size }
{
    pages_for(size).saturating_sub(pages_for(tree.size_of(id)))
}

/// Whether fewer pages are free than a command takes.
pub fn lacks_pages(tree: &Tables, rooms: &Rooms, geometry: &Geometry, taken: u64) -> bool
    ensures { result ≡ nat_lt (free_pages_of (untaken geometry.now.pages) tree.now rooms.now) taken }
{
    free_pages(tree, rooms, geometry) < taken
}

/// Whether a write would end behind the longest file.
pub fn ends_too_far(offset: u64, count: u64) -> bool
    ensures { result ≡ nat_lt file_limit (offset + count) }
{
    offset > FILE_LIMIT || count > FILE_LIMIT - offset
}
