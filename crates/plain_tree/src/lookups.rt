// What stands in lists of entries.
ghost use Rattle.std.specs.Prelude.{◌≡◌, ◌==◌, ℕ, MatchOption, IfSome, Some, None, is_some, count_by};
ghost use Rattle.std.proofs.Common.{nat_cmp};
ghost use Rattle.std.specs.Ordering.{eq_by_cmp};
ghost use Rattle.std.specs.List.{list_any};
ghost use Rattle.std.specs.FinMap.Entries.{find};
ghost use Rattle.tree_model.specs.Tree.{route_cmp, is_directory_node, is_file_node};
ghost use Rattle.plain_tree.specs.Entries.{node_of};
ghost use Rattle.plain_tree.specs.Fronts.{front_of, IsWithin, CanGrow};

use crate::fronts::{Front, is_front};
use crate::parts::{NameEntry, NodeEntry, PagesEntry, PlainNode};
use layout::Name;
use tree_model::Path;

// Whether two routes are one.
pub fn is_same_route(route: &[Name], other: &[Name]) -> bool
    ensures { result ≡ eq_by_cmp route_cmp other.now route.now }
{
    route == other
}

// The id at a front of a path.
pub fn id_at_front(entries: &[NameEntry], path: &Path, front: Front) -> Option<u64>
    requires within { IsWithin front path.now }
    ensures is { result ≡ find route_cmp (front_of front path.now) entries.now }
    ensures grows { IfSome result (λ _. CanGrow front) }
{
    let mut left = entries;
    while let [entry, others @ ..] = left {
        if is_front(&entry.path, path, front) {
            return Some(entry.id);
        }
        left = others;
    }
    None
}

// The id at a route.
pub fn id_at_route(entries: &[NameEntry], route: &[Name]) -> Option<u64>
    ensures { result ≡ find route_cmp route.now entries.now }
{
    let mut left = entries;
    while let [entry, others @ ..] = left {
        if is_same_route(&entry.path, route) {
            return Some(entry.id);
        }
        left = others;
    }
    None
}

// The node of an id.
pub fn node_of_id(entries: &[NodeEntry], id: u64) -> Option<&PlainNode>
    ensures { MatchOption result (find nat_cmp id entries.now ≡ None) (λ node. find nat_cmp id entries.now ≡ Some (node_of node.now)) }
{
    let mut left = entries;
    while let [entry, others @ ..] = left {
        if entry.id == id {
            return Some(&entry.node);
        }
        left = others;
    }
    None
}

// Whether there is such an id.
pub fn has_id(entries: &[NodeEntry], id: u64) -> bool
    ensures { result ≡ is_some (find nat_cmp id entries.now) }
{
    node_of_id(entries, id).is_some()
}

// Whether an id is a directory's.
pub fn is_directory_id(entries: &[NodeEntry], id: u64) -> bool
    ensures { result ≡ is_directory_node (find nat_cmp id entries.now) }
{
    matches!(node_of_id(entries, id), Some(PlainNode::Directory))
}

// Whether an id is a file's.
pub fn is_file_id(entries: &[NodeEntry], id: u64) -> bool
    ensures { result ≡ is_file_node (find nat_cmp id entries.now) }
{
    matches!(node_of_id(entries, id), Some(PlainNode::File(_)))
}

// The pages of a directory, where it has an entry.
pub fn pages_of_id(entries: &[PagesEntry], directory: u64) -> Option<u64>
    ensures { result ≡ find nat_cmp directory entries.now }
{
    let mut left = entries;
    while let [entry, others @ ..] = left {
        if entry.directory == directory {
            return Some(entry.pages);
        }
        left = others;
    }
    None
}

// How many paths name an id.
pub fn paths_of(entries: &[NameEntry], id: u64) -> u64
    ensures { result ≡ count_by (λ e. e.1 == id) entries.now }
{
    let mut count = 0;
    for entry in entries {
        if entry.id == id {
            count += 1;
        }
    }
    count
}

// Whether a path names an id.
pub fn has_path(entries: &[NameEntry], id: u64) -> bool
    ensures { result ≡ list_any (λ e. e.1 == id) entries.now }
{
    let mut left = entries;
    while let [entry, others @ ..] = left {
        if entry.id == id {
            return true;
        }
        left = others;
    }
    false
}
