// The state after an accepted command, built beside the old one.
ghost use Rattle.std.specs.Prelude.{◌≡◌, ◌+◌, ◌<◌, ◌^◌, ◌==◌, ℕ, true, false, length, is_some, None, if◌then◌else◌, IfOk};
ghost use Rattle.tree_model.specs.PathText.{Route};
ghost use Rattle.tree_model.specs.Tree.{id_at, bytes_of, rest_after};
ghost use Rattle.tree_model.specs.Step.{page_for_name, gaining as gaining_of, losing as losing_of, refusal_of, tree_after as tree_after_of, least_free_id as least_free_id_of, id_of as id_of_path, is_same_node as are_one, with_new as new_put, with_path as path_put, without_path as path_left, without_unnamed as named_only, with_moved as path_moved, with_bytes as bytes_put, overwritten as overwritten_of, resized as resized_of};
ghost use Rattle.tree_model.specs.Run.{IsVolumeState, plain_state};
ghost use Rattle.plain_tree.specs.Entries.{node_of};

use crate::bytes::{overwritten, resized};
use crate::parts::PlainNode;
use crate::routes::route_of;
use crate::tables::moves::NameMoves;
use crate::tables::{Rooms, Tables};
use crate::walks::{id_of, is_same_node, is_there, parent_id};
use pm_trait::NoMemory;
use std::alloc::Global;
use tree_model::{Command, Path};

// A new node at a path.
fn with_new(alloc: Global, tree: Tables, path: &Path, node: PlainNode) -> Result<Tables, NoMemory>
    ensures { IfOk result (λ new. new ≡ new_put tree path.now (least_free_id_of tree) (node_of node)) }
{
    let id = tree.least_free_id();
    let route = route_of(alloc, path)?;
    tree.with_path(route, id)?.with_node(id, node)
}

// A name of a node that there is.
fn with_link(alloc: Global, tree: Tables, from: &Path, to: &Path) -> Result<Tables, NoMemory>
    ensures { IfOk result (λ new. new ≡ path_put tree to.now (id_of_path tree from.now)) }
{
    let id = id_of(&tree, from);
    let route = route_of(alloc, to)?;
    tree.with_path(route, id)
}

// A path less.
fn removed(alloc: Global, tree: Tables, path: &Path) -> Result<Tables, NoMemory>
    ensures { IfOk result (λ new. new ≡ named_only (path_left tree path.now)) }
{
    let route = route_of(alloc, path)?;
    Ok(tree.without_path(&route).without_unnamed())
}

// A path moved with all below it, unless both paths name one node.
fn renamed(alloc: Global, tree: Tables, from: &Path, to: &Path) -> Result<Tables, NoMemory>
    requires clear { are_one tree from.now to.now ≡ false
        → (path : Route) → is_some (id_at (path_left tree to.now) path) ≡ true → rest_after to.now path ≡ None }
    ensures { IfOk result (λ new. new ≡ (if are_one tree from.now to.now then tree
        else named_only (path_moved (path_left tree to.now) from.now to.now))) }
{
    if is_same_node(&tree, from, to) {
        return Ok(tree);
    }
    let old = route_of(alloc, from)?;
    let new = route_of(alloc, to)?;
    let moved = tree.without_path(&new).with_moved(alloc, &old, &new)?;
    Ok(moved.without_unnamed())
}

// A file with bytes written to it.
fn written(
    alloc: Global,
    tree: Tables,
    path: &Path,
    offset: u64,
    bytes: &[u8],
) -> Result<Tables, NoMemory>
    requires within { offset + length bytes.now < 2 ^ 64 }
    ensures { IfOk result (λ new. new ≡ (if length bytes.now == 0 then tree
        else bytes_put tree (id_of_path tree path.now) (overwritten_of (bytes_of tree (id_of_path tree path.now)) offset bytes.now))) }
{
    if bytes.is_empty() {
        return Ok(tree);
    }
    let id = id_of(&tree, path);
    let new = overwritten(alloc, tree.bytes_of(id), offset, bytes)?;
    tree.with_node(id, PlainNode::File(new))
}

// A file of another size.
fn truncated(alloc: Global, tree: Tables, path: &Path, size: u64) -> Result<Tables, NoMemory>
    ensures { IfOk result (λ new. new ≡ bytes_put tree (id_of_path tree path.now) (resized_of (bytes_of tree (id_of_path tree path.now)) size)) }
{
    let id = id_of(&tree, path);
    let new = resized(alloc, tree.bytes_of(id), size)?;
    tree.with_node(id, PlainNode::File(new))
}

// The tree after an accepted command.
fn tree_after(
    alloc: Global,
    tree: &Tables,
    rooms: &Rooms,
    command: &Command,
) -> Result<Tables, NoMemory>
    requires accepted { (volume : ℕ) × IsVolumeState volume (record { tree = tree.now; room = rooms.now })
        × (refusal_of volume tree.now rooms.now command.now ≡ None) }
    ensures { IfOk result (λ new. new ≡ tree_after_of (least_free_id_of tree.now) tree.now command.now) }
{
    let copy = tree.copied(alloc)?;
    match command {
        Command::Create { path } => {
            with_new(alloc, copy, path, PlainNode::File(Vec::new(alloc)))
        }
        Command::Mkdir { path } => with_new(alloc, copy, path, PlainNode::Directory),
        Command::Link { from, to } => with_link(alloc, copy, from, to),
        Command::Unlink { path } | Command::Rmdir { path } => removed(alloc, copy, path),
        Command::Rename { from, to } => renamed(alloc, copy, from, to),
        Command::Write {
            path,
            offset,
            bytes,
        } => written(alloc, copy, path, *offset, bytes.as_slice()),
        Command::Truncate { path, size } => truncated(alloc, copy, path, *size),
        Command::Read { .. } | Command::Stat { .. } | Command::List { .. } | Command::Df => Ok(
            copy,
        ),
    }
}

// The directory that gains a name.
fn gaining(tree: &Tables, command: &Command) -> Option<u64>
    ensures { result ≡ gaining_of tree.now command.now }
{
    match command {
        Command::Create { path } | Command::Mkdir { path } | Command::Link { to: path, .. } => {
            Some(parent_id(tree, path))
        }
        Command::Rename { to, .. } => {
            if is_there(tree, to) {
                None
            } else {
                Some(parent_id(tree, to))
            }
        }
        Command::Unlink { .. }
        | Command::Rmdir { .. }
        | Command::Write { .. }
        | Command::Truncate { .. }
        | Command::Read { .. }
        | Command::Stat { .. }
        | Command::List { .. }
        | Command::Df => None,
    }
}

// The directory that loses a name.
fn losing(tree: &Tables, command: &Command) -> Option<u64>
    ensures { result ≡ losing_of tree.now command.now }
{
    match command {
        Command::Unlink { path } | Command::Rmdir { path } => Some(parent_id(tree, path)),
        Command::Rename { from, to } => {
            if is_same_node(tree, from, to) {
                None
            } else {
                Some(parent_id(tree, from))
            }
        }
        Command::Create { .. }
        | Command::Mkdir { .. }
        | Command::Link { .. }
        | Command::Write { .. }
        | Command::Truncate { .. }
        | Command::Read { .. }
        | Command::Stat { .. }
        | Command::List { .. }
        | Command::Df => None,
    }
}

/// The tree and the room after an accepted command; `page` is 1 where the name that it gives takes a page, else 0.
///
/// Fails only where memory is out.
pub fn state_after(
    alloc: Global,
    tree: &Tables,
    rooms: &Rooms,
    command: &Command,
    page: u64,
) -> Result<(Tables, Rooms), NoMemory>
    requires accepted { (volume : ℕ) × IsVolumeState volume (record { tree = tree.now; room = rooms.now })
        × (refusal_of volume tree.now rooms.now command.now ≡ None) }
    requires page { page ≡ page_for_name tree.now rooms.now (gaining_of tree.now command.now) }
    ensures { IfOk result (λ new. (volume : ℕ) → record { tree = new.0; room = new.1 }
        ≡ plain_state true volume (record { tree = tree.now; room = rooms.now }) command.now) }
{
    let new = tree_after(alloc, tree, rooms, command)?;
    let moves = NameMoves {
        gaining: gaining(tree, command),
        losing: losing(tree, command),
        taken: page,
    };
    let kept = rooms.moved(alloc, &new, &moves, false)?;
    if kept.fits(&new) {
        return Ok((new, kept));
    }
    let given = rooms.moved(alloc, &new, &moves, true)?;
    Ok((new, given))
}
