// What is answered where a command is accepted.
ghost use Rattle.std.specs.Prelude.{◌≡◌};
ghost use Rattle.tree_model.specs.Tree.{is_directory as is_directory_of, name_count as name_count_of};
ghost use Rattle.tree_model.specs.Capacity.{untaken};
ghost use Rattle.tree_model.specs.Step.{answer_of, page_for_name, gaining, space_of, status_of};
ghost use Rattle.tree_model.specs.Replies.{reply_of};
ghost use Rattle.tree_model.specs.Run.{is_changing as is_changing_of};

use crate::row::{page_for, page_for_rename};
use crate::tables::counts::{free_inodes, free_pages};
use crate::tables::{Rooms, Tables};
use crate::walks::id_of;
use layout::Geometry;
use tree_model::{Command, Free, Reply, Stat};

/// Whether a command may change the tree where it is not refused.
pub fn is_changing(command: &Command) -> bool
    ensures { result ≡ is_changing_of command.now }
{
    match command {
        Command::Create { .. }
        | Command::Mkdir { .. }
        | Command::Link { .. }
        | Command::Unlink { .. }
        | Command::Rmdir { .. }
        | Command::Rename { .. }
        | Command::Write { .. }
        | Command::Truncate { .. } => true,
        Command::Read { .. } | Command::Stat { .. } | Command::List { .. } | Command::Df => false,
    }
}

/// How many pages the name takes that a command gives.
pub fn page_of_name(tree: &Tables, rooms: &Rooms, command: &Command) -> u64
    ensures { result ≡ page_for_name tree.now rooms.now (gaining tree.now command.now) }
{
    match command {
        Command::Create { path } | Command::Mkdir { path } | Command::Link { to: path, .. } => {
            page_for(tree, rooms, path)
        }
        Command::Rename { from, to } => page_for_rename(tree, rooms, from, to),
        Command::Unlink { .. }
        | Command::Rmdir { .. }
        | Command::Write { .. }
        | Command::Truncate { .. }
        | Command::Read { .. }
        | Command::Stat { .. }
        | Command::List { .. }
        | Command::Df => 0,
    }
}

// What is told of a node.
fn status(tree: &Tables, id: u64) -> Stat
    ensures { result ≡ status_of tree.now id }
{
    let dir = tree.is_directory(id);
    Stat {
        dir,
        inode: id,
        links: tree.link_count(id),
        amount: if dir {
            tree.name_count(id)
        } else {
            tree.size_of(id)
        },
    }
}

// What is free.
fn space(tree: &Tables, rooms: &Rooms, geometry: &Geometry) -> Free
    ensures { result ≡ space_of (untaken geometry.now.pages) tree.now rooms.now }
{
    Free {
        inodes: free_inodes(tree, geometry),
        inodes_all: geometry.inodes,
        pages: free_pages(tree, rooms, geometry),
        pages_all: geometry.data_pages,
    }
}

/// The answer to an accepted command.
pub fn answer(tree: &Tables, rooms: &Rooms, geometry: &Geometry, command: &Command) -> Reply
    ensures { result ≡ reply_of (answer_of (untaken geometry.now.pages) tree.now rooms.now command.now) }
{
    match command {
        Command::Write { bytes, .. } => Reply::Count(bytes.as_slice().len() as u64),
        Command::Read {
            path,
            offset,
            count,
        } => {
            let behind = tree.size_of(id_of(tree, path)).saturating_sub(*offset);
            Reply::Bytes(behind.min(*count))
        }
        Command::Stat { path } => Reply::Status(status(tree, id_of(tree, path))),
        Command::List { path } => {
            let inode = id_of(tree, path);
            Reply::Names {
                inode,
                count: tree.name_count(inode),
            }
        }
        Command::Df => Reply::Space(space(tree, rooms, geometry)),
        Command::Create { .. }
        | Command::Mkdir { .. }
        | Command::Link { .. }
        | Command::Unlink { .. }
        | Command::Rmdir { .. }
        | Command::Rename { .. }
        | Command::Truncate { .. } => Reply::Done,
    }
}
