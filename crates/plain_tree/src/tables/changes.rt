// The tree with a change.
ghost use Rattle.std.specs.Prelude.{◌≡◌, Option, true, None, is_some, IfOk};
ghost use Rattle.std.specs.Cmp.{nat_cmp_total};
ghost use Rattle.tree_model.specs.PathText.{Route};
ghost use Rattle.tree_model.specs.Table.{insert};
ghost use Rattle.tree_model.specs.Tree.{id_at as id_at_of, node_at, bytes_of_node, rest_after};
ghost use Rattle.tree_model.specs.Step.{with_path as path_put, without_path as path_left, without_unnamed as named_only, with_moved as path_moved};
ghost use Rattle.plain_tree.specs.Entries.{node_of};

use crate::bytes::bytes_of_id;
use crate::edits::{
    copied_names, copied_nodes, only_named, with_moved_routes, without_id, without_route,
};
use crate::parts::{NameEntry, NodeEntry, PlainNode};
use crate::tables::Tables;
use layout::Name;
use pm_trait::NoMemory;
use std::alloc::Global;

impl Tables {
    /// The bytes of an id's file; none where it is no file.
    pub fn bytes_of(&self, id: u64) -> &[u8]
        ensures { result.now ≡ bytes_of_node (node_at self.now id) }
    {
        bytes_of_id(&self.nodes, id)
    }

    /// The same tree once more.
    ///
    /// Fails only where memory is out.
    pub fn copied(&self, alloc: Global) -> Result<Tables, NoMemory>
        ensures { IfOk result (λ copy. copy ≡ self.now) }
    {
        let names = copied_names(alloc, &self.names)?;
        let nodes = copied_nodes(alloc, &self.nodes)?;
        Ok(Tables { names, nodes })
    }

    /// The tree with an id at a path.
    ///
    /// Fails only where memory is out.
    pub fn with_path(self, path: Vec<Name>, id: u64) -> Result<Tables, NoMemory>
        ensures { IfOk result (λ tree. tree ≡ path_put self path.items id) }
    {
        let Tables { names, nodes } = self;
        let mut names = without_route(names, &path);
        names.insert(0, NameEntry { path, id })?;
        Ok(Tables { names, nodes })
    }

    /// The tree with a node of an id.
    ///
    /// Fails only where memory is out.
    pub fn with_node(self, id: u64, node: PlainNode) -> Result<Tables, NoMemory>
        ensures { IfOk result (λ tree. tree ≡ record { names = self.names; nodes = insert nat_cmp_total self.nodes id (node_of node) }) }
    {
        let Tables { names, nodes } = self;
        let mut nodes = without_id(nodes, id);
        nodes.insert(0, NodeEntry { id, node })?;
        Ok(Tables { names, nodes })
    }

    /// The tree without a path.
    pub fn without_path(self, path: &[Name]) -> Tables
        ensures { result ≡ path_left self path.now }
    {
        let Tables { names, nodes } = self;
        let names = without_route(names, path);
        Tables { names, nodes }
    }

    /// The tree without the ids that have no path.
    pub fn without_unnamed(self) -> Tables
        ensures { result ≡ named_only self }
    {
        let Tables { names, nodes } = self;
        let nodes = only_named(nodes, &names);
        Tables { names, nodes }
    }

    /// The tree with a path moved and all below it; no path begins with the new one.
    ///
    /// Fails only where memory is out.
    pub fn with_moved(self, alloc: Global, from: &[Name], to: &[Name]) -> Result<Tables, NoMemory>
        requires clear { (path : Route) → is_some (id_at_of self path) ≡ true → rest_after to.now path ≡ None }
        ensures { IfOk result (λ tree. tree ≡ path_moved self from.now to.now) }
    {
        let Tables { names, nodes } = self;
        let names = with_moved_routes(alloc, names, from, to)?;
        Ok(Tables { names, nodes })
    }
}
