// Edits of lists of entries.
ghost use Rattle.std.specs.Prelude.{◌≡◌, not, IfOk};
ghost use Rattle.std.proofs.Common.{nat_cmp};
ghost use Rattle.std.specs.Ordering.{eq_by_cmp};
ghost use Rattle.std.specs.FinMap.Entries.{where_key};
ghost use Rattle.tree_model.specs.Tree.{route_cmp};
ghost use Rattle.plain_tree.specs.Entries.{is_other, has_name, moved_entries, node_of};

use crate::lookups::{has_path, is_same_route};
use crate::parts::{NameEntry, NodeEntry, PlainNode};
use crate::routes::{moved_route, with_names};
use layout::Name;
use pm_trait::NoMemory;
use std::alloc::Global;

/// The entries of other routes.
pub fn without_route(mut entries: Vec<NameEntry>, route: &[Name]) -> Vec<NameEntry>
    ensures { result.items ≡ where_key route_cmp (is_other route.now) entries.items }
{
    entries.retain(|entry| !is_same_route(&entry.path, route));
    entries
}

/// The entries of other ids.
pub fn without_id(mut entries: Vec<NodeEntry>, id: u64) -> Vec<NodeEntry>
    ensures { result.items ≡ where_key nat_cmp (λ key. not (eq_by_cmp nat_cmp id key)) entries.items }
{
    entries.retain(|entry| entry.id != id);
    entries
}

/// The nodes that have a name.
pub fn only_named(mut entries: Vec<NodeEntry>, names: &[NameEntry]) -> Vec<NodeEntry>
    ensures { result.items ≡ where_key nat_cmp (has_name names.now) entries.items }
{
    entries.retain(|entry| has_path(names, entry.id));
    entries
}

/// The entries, where a route moved with all below it.
///
/// Fails only where memory is out.
pub fn with_moved_routes(
    alloc: Global,
    entries: Vec<NameEntry>,
    from: &[Name],
    to: &[Name],
) -> Result<Vec<NameEntry>, NoMemory>
    ensures { IfOk result (λ moved. moved.items ≡ moved_entries from.now to.now entries.items) }
{
    let mut moved = Vec::new(alloc);
    for entry in entries {
        moved.push(NameEntry {
            path: moved_route(alloc, entry.path, from, to)?,
            id: entry.id,
        })?;
    }
    Ok(moved)
}

// A node once more.
fn copied_node(alloc: Global, node: &PlainNode) -> Result<PlainNode, NoMemory>
    ensures { IfOk result (λ copy. node_of copy ≡ node_of node.now) }
{
    match node {
        PlainNode::Directory => Ok(PlainNode::Directory),
        PlainNode::File(bytes) => Ok(PlainNode::File(bytes.as_slice().to_vec(alloc)?)),
    }
}

/// The nodes once more.
///
/// Fails only where memory is out.
pub fn copied_nodes(alloc: Global, entries: &[NodeEntry]) -> Result<Vec<NodeEntry>, NoMemory>
    ensures { IfOk result (λ copy. copy.items ≡ entries.now) }
{
    let mut copy = Vec::new(alloc);
    for entry in entries {
        copy.push(NodeEntry {
            id: entry.id,
            node: copied_node(alloc, &entry.node)?,
        })?;
    }
    Ok(copy)
}

/// The names once more.
///
/// Fails only where memory is out.
pub fn copied_names(alloc: Global, entries: &[NameEntry]) -> Result<Vec<NameEntry>, NoMemory>
    ensures { IfOk result (λ copy. copy.items ≡ entries.now) }
{
    let mut copy = Vec::new(alloc);
    for entry in entries {
        copy.push(NameEntry {
            path: with_names(Vec::new(alloc), &entry.path)?,
            id: entry.id,
        })?;
    }
    Ok(copy)
}
