// Routes, held as vectors of names.
ghost use Rattle.std.specs.Prelude.{◌≡◌, ◌++◌, IfOk, MatchOption, None, Some};
ghost use Rattle.tree_model.specs.Tree.{rest_after as rest_after_of, parent as parent_of};
ghost use Rattle.tree_model.specs.Step.{moved_path};

use layout::Name;
use pm_trait::NoMemory;
use std::alloc::Global;
use tree_model::Path;

/// The names of a path.
///
/// Fails only where memory is out.
pub fn route_of(alloc: Global, path: &Path) -> Result<Vec<Name>, NoMemory>
    ensures { IfOk result (λ route. route.items ≡ path.now) }
{
    let mut route = Vec::new(alloc);
    for name in path.names() {
        route.push(name)?;
    }
    Ok(route)
}

/// A route with more names behind it.
///
/// Fails only where memory is out.
pub fn with_names(mut route: Vec<Name>, more: &[Name]) -> Result<Vec<Name>, NoMemory>
    ensures { IfOk result (λ longer. longer.items ≡ route.items ++ more.now) }
{
    for name in more {
        route.push(name.copied())?;
    }
    Ok(route)
}

/// The route without its last name.
pub fn parent(route: &[Name]) -> &[Name]
    ensures { result.now ≡ parent_of route.now }
{
    match route {
        [front @ .., _] => front,
        [] => route,
    }
}

// What follows a route in another that begins with it.
fn rest_after<'a>(front: &[Name], route: &'a [Name]) -> Option<&'a [Name]>
    ensures { MatchOption result (rest_after_of front.now route.now ≡ None) (λ rest. rest_after_of front.now route.now ≡ Some rest.now) }
{
    let mut left = route;
    for name in front {
        match left {
            [first, others @ ..] if name == first => left = others,
            _ => return None,
        }
    }
    Some(left)
}

/// Where a route is after one moved with all below it.
///
/// Fails only where memory is out.
pub fn moved_route(
    alloc: Global,
    route: Vec<Name>,
    from: &[Name],
    to: &[Name],
) -> Result<Vec<Name>, NoMemory>
    ensures { IfOk result (λ moved. moved.items ≡ moved_path to.now (rest_after_of from.now route.items) route.items) }
{
    match rest_after(from, &route) {
        Some(rest) => {
            let start = with_names(Vec::new(alloc), to)?;
            with_names(start, rest)
        }
        None => Ok(route),
    }
}
