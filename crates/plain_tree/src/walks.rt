// Walks of paths, and what paths name.
ghost use Rattle.std.specs.Prelude.{◌≡◌, ◌≤◌, ◌||◌, length, take, MatchResult, Ok, Err};
ghost use Rattle.tree_model.specs.Tree.{parent, is_root as is_root_of, is_above as is_above_of};
ghost use Rattle.tree_model.specs.Walk.{walk as walk_of, walk_to_parent};
ghost use Rattle.tree_model.specs.Step.{fault_of, id_of as id_of_path, is_there as is_there_in, is_same_node as is_same_node_in};

use crate::fronts::{Front, behind_first};
use crate::tables::counts::is_number;
use crate::tables::{ROOT_ID, Tables};
use tree_model::{Path, PathNames, Refusal};

/// Whether a path has no names.
pub fn is_root(path: &Path) -> bool
    ensures { result ≡ is_root_of path.now }
{
    path.names().next().is_none()
}

/// Whether one of two paths is the root.
pub fn is_one_root(from: &Path, to: &Path) -> bool
    ensures { result ≡ is_root_of from.now || is_root_of to.now }
{
    is_root(from) || is_root(to)
}

/// Whether the names of one path begin those of another, which has more.
pub fn is_above(path: &Path, other: &Path) -> bool
    ensures { result ≡ is_above_of path.now other.now }
{
    let mut others = other.names();
    let mut names = path.names();
    while let Some(name) = names.next() {
        let Some(same) = others.next() else {
            return false;
        };
        if name != same {
            return false;
        }
    }
    others.next().is_some()
}

// Where the first names of a path lead, as many of them as there are steps.
fn walk(tree: &Tables, path: &Path, steps: PathNames) -> Result<u64, Refusal>
    requires within { length steps ≤ length path.now }
    ensures { MatchResult result
        (λ id. walk_of tree.now (take (length steps.entry) path.now) ≡ Ok (record { path = take (length steps.entry) path.now; id = id }))
        (λ fault. walk_of tree.now (take (length steps.entry) path.now) ≡ Err fault) }
{
    let mut id = ROOT_ID;
    let mut depth = 0;
    for _ in steps {
        if !tree.is_directory(id) {
            return Err(Refusal::NotDir);
        }
        depth += 1;
        let Some(next) = tree.id_at(path, Front::First(depth)) else {
            return Err(Refusal::NotFound);
        };
        id = next;
    }
    Ok(id)
}

/// Why a path leads nowhere.
pub fn walk_fault(tree: &Tables, path: &Path) -> Option<Refusal>
    ensures { result ≡ fault_of (walk_of tree.now path.now) }
{
    match walk(tree, path, path.names()) {
        Ok(_) => None,
        Err(fault) => Some(fault),
    }
}

/// Why no directory would hold the last name of a path.
pub fn parent_fault(tree: &Tables, path: &Path) -> Option<Refusal>
    ensures { result ≡ fault_of (walk_to_parent tree.now path.now) }
{
    match walk(tree, path, behind_first(path)) {
        Ok(id) if tree.is_directory(id) => None,
        Ok(_) => Some(Refusal::NotDir),
        Err(fault) => Some(fault),
    }
}

/// Whether a path names something.
pub fn is_there(tree: &Tables, path: &Path) -> bool
    ensures { result ≡ is_there_in tree.now path.now }
{
    tree.id_at(path, Front::Whole).is_some()
}

/// The id that a path names, where it names one.
pub fn id_of(tree: &Tables, path: &Path) -> u64
    ensures { result ≡ id_of_path tree.now path.now }
{
    tree.id_at(path, Front::Whole).unwrap_or(ROOT_ID)
}

/// The id that the parent of a path names, where it names one.
pub fn parent_id(tree: &Tables, path: &Path) -> u64
    ensures { result ≡ id_of_path tree.now (parent path.now) }
{
    tree.id_at(path, Front::Parent).unwrap_or(ROOT_ID)
}

/// Whether both paths name one node.
pub fn is_same_node(tree: &Tables, from: &Path, to: &Path) -> bool
    ensures { result ≡ is_same_node_in tree.now from.now to.now }
{
    is_number(tree.id_at(from, Front::Whole), id_of(tree, to)) && is_there(tree, to)
}
