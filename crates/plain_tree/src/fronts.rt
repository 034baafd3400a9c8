// A path, or its first names, compared with a route.
ghost use Rattle.std.specs.Prelude.{◌≡◌, ◌≤◌, ◌==◌, length, take, true};
ghost use Rattle.std.specs.Ordering.{eq_by_cmp};
ghost use Rattle.tree_model.specs.Tree.{route_cmp, parent};
ghost use Rattle.plain_tree.specs.Fronts.{front_of, IsWithin, CanGrow};

use layout::Name;
use tree_model::{Path, PathNames};

/// Which names of a path are meant.
#[derive(Clone, Copy)]
pub enum Front {
    /// All.
    Whole,
    /// All but the last.
    Parent,
    /// So many from the root on.
    First(usize),
}

/// As many names as the parent of a path has.
pub fn behind_first<'a>(path: &Path<'a>) -> PathNames<'a>
    ensures count { length result ≡ length (parent path.now) }
    ensures within { length result ≤ length path.now }
    ensures is { take (length result) path.now ≡ parent path.now }
{
    let mut names = path.names();
    let _ = names.next();
    names
}

// Whether so many names are left.
fn has_count(mut names: PathNames, count: usize) -> bool
    ensures { result ≡ (length names.entry == count) }
{
    for _ in 0..count {
        if names.next().is_none() {
            return false;
        }
    }
    names.next().is_none()
}

// Whether a front has so many names.
fn is_long(path: &Path, front: Front, count: usize) -> bool
    requires within { IsWithin front path.now }
    ensures { result ≡ (length (front_of front path.now) == count) }
{
    match front {
        Front::Whole => has_count(path.names(), count),
        Front::Parent => has_count(behind_first(path), count),
        Front::First(names) => names == count,
    }
}

// Whether a route is the first names of those that are left of a path.
fn begins_with(mut names: PathNames, route: &[Name]) -> bool
    ensures { result ≡ eq_by_cmp route_cmp (take (length route.now) names.entry) route.now }
{
    for name in route {
        match names.next() {
            Some(next) if next == *name => {}
            _ => return false,
        }
    }
    true
}

/// Whether a route is this front of a path.
pub fn is_front(route: &[Name], path: &Path, front: Front) -> bool
    requires within { IsWithin front path.now }
    ensures is { result ≡ eq_by_cmp route_cmp (front_of front path.now) route.now }
    ensures grows { result ≡ true → CanGrow front }
{
    is_long(path, front, route.len()) && begins_with(path.names(), route)
}
