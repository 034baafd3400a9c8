// The entries of the plain tree's maps.
use layout::Name;
use std::marker::Model;

/// A path and the id that it names.
#[derive(Drop)]
pub struct NameEntry {
    pub path: Vec<Name>,
    pub id: u64,
}

impl Model for NameEntry {
    ghost use Rattle.std.specs.Prelude.{ℕ};
    ghost use Rattle.tree_model.specs.PathText.{Route};

    ghost Value = { Route × ℕ };

    ghost view = { λ entry. (entry.path.items, entry.id) };
}

/// A directory, or a file with its bytes.
#[derive(Drop)]
pub enum PlainNode {
    Directory,
    File(Vec<u8>),
}

/// An id and its node.
#[derive(Drop)]
pub struct NodeEntry {
    pub id: u64,
    pub node: PlainNode,
}

impl Model for NodeEntry {
    ghost use Rattle.std.specs.Prelude.{ℕ};
    ghost use Rattle.tree_model.specs.Tree.{Node};
    ghost use Rattle.plain_tree.specs.Entries.{node_of};

    ghost Value = { ℕ × Node };

    ghost view = { λ entry. (entry.id, node_of entry.node) };
}

/// A directory and its pages.
#[derive(Drop)]
pub struct PagesEntry {
    pub directory: u64,
    pub pages: u64,
}

impl Model for PagesEntry {
    ghost use Rattle.std.specs.Prelude.{ℕ};

    ghost Value = { ℕ × ℕ };

    ghost view = { λ entry. (entry.directory, entry.pages) };
}
