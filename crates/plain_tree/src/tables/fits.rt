// Whether a room is one of a tree.
ghost use Rattle.std.specs.Prelude.{◌≡◌, ◌&&◌, ◌||◌, not, is_some, Some};
ghost use Rattle.std.proofs.Common.{nat_cmp};
ghost use Rattle.std.specs.List.{list_all};
ghost use Rattle.std.specs.FinMap.Entries.{find};
ghost use Rattle.tree_model.specs.Tree.{is_directory, is_directory_node, may_have as may_have_of, name_count, room_fits};

use crate::lookups::pages_of_id;
use crate::parts::{NodeEntry, PagesEntry, PlainNode};
use crate::tables::{Rooms, Tables};

const NAMES_PER_PAGE: u64 = 32;

// Whether a directory of so many names may have so many pages.
fn may_have(names: u64, pages: u64) -> bool
    ensures { result ≡ may_have_of names pages }
{
    pages <= names && names <= pages.saturating_mul(NAMES_PER_PAGE)
}

// Whether each entry is a directory's, with a number within its bounds.
fn are_within(entries: &[PagesEntry], tree: &Tables) -> bool
    ensures { result ≡ list_all (λ e. is_directory tree.now e.0 && may_have_of (name_count tree.now e.0) e.1) entries.now }
{
    let mut left = entries;
    while let [entry, others @ ..] = left {
        let is = tree.is_directory(entry.directory);
        if !is || !may_have(tree.name_count(entry.directory), entry.pages) {
            return false;
        }
        left = others;
    }
    true
}

// Whether each directory has an entry.
fn have_each(nodes: &[NodeEntry], entries: &[PagesEntry]) -> bool
    ensures { result ≡ list_all (λ e. not (is_directory_node (Some e.1)) || is_some (find nat_cmp e.0 entries.now)) nodes.now }
{
    let mut left = nodes;
    while let [node, others @ ..] = left {
        if is_directory_entry(node) && pages_of_id(entries, node.id).is_none() {
            return false;
        }
        left = others;
    }
    true
}

// Whether an entry is a directory's.
fn is_directory_entry(entry: &NodeEntry) -> bool
    ensures { result ≡ is_directory_node (Some entry.now.1) }
{
    matches!(entry.node, PlainNode::Directory)
}

impl Rooms {
    /// Whether this is a room of a tree.
    pub fn fits(&self, tree: &Tables) -> bool
        ensures { result ≡ room_fits tree.now self.now }
    {
        are_within(&self.pages, tree) && have_each(&tree.nodes, &self.pages)
    }
}
