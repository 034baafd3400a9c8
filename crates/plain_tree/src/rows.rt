// Why a command is refused: its row, read from left to right.
ghost use Rattle.std.specs.Prelude.{◌≡◌, ℕ};
ghost use Rattle.tree_model.specs.Tree.{Room};
ghost use Rattle.tree_model.specs.Capacity.{untaken};
ghost use Rattle.tree_model.specs.Step.{first as first_of, faults_of_rename, refusal_of};
ghost use Rattle.plain_tree.specs.Rows.{faults_before_rename};
ghost use Rattle.tree_model.specs.declared.command.Command.TheVariants as command;

use crate::row::{
    FILE_LIMIT, READ_LIMIT, at, ends_too_far, first, lacks_pages, page_for, page_for_rename, rise,
};
use crate::tables::counts::free_inodes;
use crate::tables::{Rooms, Tables};
use crate::walks::{
    id_of, is_above, is_one_root, is_root, is_same_node, is_there, parent_fault, walk_fault,
};
use layout::Geometry;
use tree_model::{Command, FileBytes, Path, Refusal};

fn fault_of_new(tree: &Tables, rooms: &Rooms, geometry: &Geometry, path: &Path) -> Option<Refusal>
    ensures create { result ≡ refusal_of geometry.now.pages tree.now rooms.now (command.Create path.now) }
    ensures mkdir { result ≡ refusal_of geometry.now.pages tree.now rooms.now (command.Mkdir path.now) }
{
    first(&[
        parent_fault(tree, path),
        at(Refusal::Root, is_root(path)),
        at(Refusal::Exists, is_there(tree, path)),
        at(Refusal::NoInodes, free_inodes(tree, geometry) == 0),
        at(
            Refusal::NoPages,
            lacks_pages(tree, rooms, geometry, page_for(tree, rooms, path)),
        ),
    ])
}

fn fault_of_link(
    tree: &Tables,
    rooms: &Rooms,
    geometry: &Geometry,
    from: &Path,
    to: &Path,
) -> Option<Refusal>
    ensures { result ≡ refusal_of geometry.now.pages tree.now rooms.now (command.Link from.now to.now) }
{
    first(&[
        walk_fault(tree, from),
        parent_fault(tree, to),
        at(Refusal::Root, is_root(to)),
        at(Refusal::Exists, is_there(tree, to)),
        at(Refusal::IsDir, tree.is_directory(id_of(tree, from))),
        at(
            Refusal::NoPages,
            lacks_pages(tree, rooms, geometry, page_for(tree, rooms, to)),
        ),
    ])
}

fn fault_of_unlink(tree: &Tables, path: &Path) -> Option<Refusal>
    ensures { (volume : ℕ) (room : Room) → result ≡ refusal_of volume tree.now room (command.Unlink path.now) }
{
    first(&[
        walk_fault(tree, path),
        at(Refusal::Root, is_root(path)),
        at(Refusal::IsDir, tree.is_directory(id_of(tree, path))),
    ])
}

fn fault_of_rmdir(tree: &Tables, path: &Path) -> Option<Refusal>
    ensures { (volume : ℕ) (room : Room) → result ≡ refusal_of volume tree.now room (command.Rmdir path.now) }
{
    let id = id_of(tree, path);
    first(&[
        walk_fault(tree, path),
        at(Refusal::Root, is_root(path)),
        at(Refusal::NotDir, tree.is_file(id)),
        at(Refusal::NotEmpty, tree.name_count(id) > 0),
    ])
}

// Where the paths name two nodes.
fn fault_of_move(
    tree: &Tables,
    rooms: &Rooms,
    geometry: &Geometry,
    from: &Path,
    to: &Path,
) -> Option<Refusal>
    ensures { result ≡ first_of (faults_of_rename (untaken geometry.now.pages) tree.now rooms.now from.now to.now) }
{
    let source = id_of(tree, from);
    let target = id_of(tree, to);
    let there = is_there(tree, to);
    let is_directory = tree.is_directory(source);
    let replaces_directory = there && tree.is_directory(target);
    first(&[
        at(
            Refusal::NotDir,
            is_directory && there && tree.is_file(target),
        ),
        at(Refusal::IsDir, tree.is_file(source) && replaces_directory),
        at(
            Refusal::NotEmpty,
            is_directory && replaces_directory && tree.name_count(target) > 0,
        ),
        at(Refusal::IntoItself, is_directory && is_above(from, to)),
        at(
            Refusal::NoPages,
            lacks_pages(
                tree,
                rooms,
                geometry,
                page_for_rename(tree, rooms, from, to),
            ),
        ),
    ])
}

fn fault_of_walks(tree: &Tables, from: &Path, to: &Path) -> Option<Refusal>
    ensures { result ≡ first_of (faults_before_rename tree.now from.now to.now) }
{
    first(&[
        walk_fault(tree, from),
        parent_fault(tree, to),
        at(Refusal::Root, is_one_root(from, to)),
    ])
}

// Two paths of one node end the row.
fn fault_of_rename(
    tree: &Tables,
    rooms: &Rooms,
    geometry: &Geometry,
    from: &Path,
    to: &Path,
) -> Option<Refusal>
    ensures { result ≡ refusal_of geometry.now.pages tree.now rooms.now (command.Rename from.now to.now) }
{
    let fault = fault_of_walks(tree, from, to);
    if fault.is_some() {
        return fault;
    }
    if is_same_node(tree, from, to) {
        return None;
    }
    fault_of_move(tree, rooms, geometry, from, to)
}

fn fault_of_write(
    tree: &Tables,
    rooms: &Rooms,
    geometry: &Geometry,
    path: &Path,
    offset: u64,
    bytes: &FileBytes,
) -> Option<Refusal>
    ensures { result ≡ refusal_of geometry.now.pages tree.now rooms.now (command.Write path.now offset bytes.now) }
{
    let id = id_of(tree, path);
    let count = bytes.as_slice().len() as u64;
    let fault = first(&[
        walk_fault(tree, path),
        at(Refusal::IsDir, tree.is_directory(id)),
        at(Refusal::TooBig, ends_too_far(offset, count)),
    ]);
    if fault.is_some() || count == 0 {
        return fault;
    }
    let taken = rise(tree, id, offset + count);
    at(Refusal::NoPages, lacks_pages(tree, rooms, geometry, taken))
}

fn fault_of_truncate(
    tree: &Tables,
    rooms: &Rooms,
    geometry: &Geometry,
    path: &Path,
    size: u64,
) -> Option<Refusal>
    ensures { result ≡ refusal_of geometry.now.pages tree.now rooms.now (command.Truncate path.now size) }
{
    let id = id_of(tree, path);
    first(&[
        walk_fault(tree, path),
        at(Refusal::IsDir, tree.is_directory(id)),
        at(Refusal::TooBig, size > FILE_LIMIT),
        at(
            Refusal::NoPages,
            lacks_pages(tree, rooms, geometry, rise(tree, id, size)),
        ),
    ])
}

fn fault_of_read(tree: &Tables, path: &Path, count: u64) -> Option<Refusal>
    ensures { (volume : ℕ) (room : Room) (offset : ℕ) → result ≡ refusal_of volume tree.now room (command.Read path.now offset count) }
{
    first(&[
        walk_fault(tree, path),
        at(Refusal::IsDir, tree.is_directory(id_of(tree, path))),
        at(Refusal::TooBig, count > READ_LIMIT),
    ])
}

fn fault_of_list(tree: &Tables, path: &Path) -> Option<Refusal>
    ensures { (volume : ℕ) (room : Room) → result ≡ refusal_of volume tree.now room (command.List path.now) }
{
    first(&[
        walk_fault(tree, path),
        at(Refusal::NotDir, tree.is_file(id_of(tree, path))),
    ])
}

/// Why a command is refused.
pub fn refusal_for(
    tree: &Tables,
    rooms: &Rooms,
    geometry: &Geometry,
    command: &Command,
) -> Option<Refusal>
    ensures { result ≡ refusal_of geometry.now.pages tree.now rooms.now command.now }
{
    match command {
        Command::Create { path } | Command::Mkdir { path } => {
            fault_of_new(tree, rooms, geometry, path)
        }
        Command::Link { from, to } => fault_of_link(tree, rooms, geometry, from, to),
        Command::Unlink { path } => fault_of_unlink(tree, path),
        Command::Rmdir { path } => fault_of_rmdir(tree, path),
        Command::Rename { from, to } => fault_of_rename(tree, rooms, geometry, from, to),
        Command::Write {
            path,
            offset,
            bytes,
        } => fault_of_write(tree, rooms, geometry, path, *offset, bytes),
        Command::Truncate { path, size } => {
            fault_of_truncate(tree, rooms, geometry, path, *size)
        }
        Command::Read { path, count, .. } => fault_of_read(tree, path, *count),
        Command::Stat { path } => walk_fault(tree, path),
        Command::List { path } => fault_of_list(tree, path),
        Command::Df => None,
    }
}
