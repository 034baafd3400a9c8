// The running call of a session.
ghost use Rattle.std.specs.Prelude.{◌≡◌, ◌↔◌, ◌<◌, MatchOption, IsTrue};
ghost use Rattle.session_laws.specs.Calls.{IsNamed};
ghost use Rattle.session_laws.specs.Going.{behind_commit as fences_behind};
ghost use Rattle.sessions.specs.Busy.{IsLeastOfBoth, AreNoneOfBoth};

use layout::ROOT;
use running_calls::Running;
use volume::{Action, MOST_NAMED, NamedNodes, Plan};

/// A call that runs in a session, with what it was found to be at its begin.
#[derive(Drop)]
pub struct Task {
    /// The number of the call.
    pub number: u64,
    /// The nodes that it names.
    pub named: NamedNodes,
    /// How many of its fences come behind its commit.
    pub behind: u64,
    /// What of it is settled.
    pub running: Running,
}

// How many fences come behind the commit of a plan.
pub fn behind_commit(plan: &Plan) -> u64
    ensures { result ≡ fences_behind plan.now }
{
    match plan.action() {
        Action::Remove(_) => plan.fences() - 1,
        Action::Move(moving) => {
            let opening = if moving.new_page.is_some() { 2 } else { 0 };
            plan.fences() - opening - 2
        }
        Action::Resize(resizing) => {
            if resizing.old_size < resizing.new_size {
                0
            } else {
                plan.fences() - 1
            }
        }
        Action::Make(_)
        | Action::Name(_)
        | Action::Write(_)
        | Action::WriteNothing
        | Action::KeepSize
        | Action::KeepNames
        | Action::Read(_)
        | Action::Status(_)
        | Action::Names(_)
        | Action::Space => 0,
    }
}

// Whether the node of an inode is among these. Inodes are numbered from 1.
fn names(nodes: &NamedNodes, inode: u64) -> bool
    ensures { IsTrue result ↔ IsNamed nodes.now inode }
{
    match nodes {
        NamedNodes::All => inode >= 1,
        NamedNodes::These(inodes) => inodes.contains(&Some(inode)),
    }
}

// The least of these inodes that is among the nodes.
fn least_of(inodes: &[Option<u64>; MOST_NAMED], nodes: &NamedNodes) -> Option<u64>
    ensures { MatchOption result (AreNoneOfBoth (NamedNodes.These inodes.now) nodes.now) (IsLeastOfBoth (NamedNodes.These inodes.now) nodes.now) }
{
    let mut least = None;
    for k in 0..MOST_NAMED {
        if let Some(inode) = inodes[k] {
            if names(nodes, inode) && is_less(inode, least) {
                least = Some(inode);
            }
        }
    }
    least
}

// The least inode that is among both. A rename names all, so beside another one it is the root's.
pub fn least_of_both(one: &NamedNodes, other: &NamedNodes) -> Option<u64>
    ensures { MatchOption result (AreNoneOfBoth one.now other.now) (IsLeastOfBoth one.now other.now) }
{
    match (one, other) {
        (NamedNodes::All, NamedNodes::All) => Some(ROOT),
        (NamedNodes::These(inodes), nodes) | (nodes, NamedNodes::These(inodes)) => least_of(
            inodes, nodes,
        ),
    }
}

// Whether a number is less than what was found, or nothing was.
fn is_less(number: u64, found: Option<u64>) -> bool
    ensures { IsTrue result ↔ MatchOption found (Unit {0}) (λ other. number < other) }
{
    match found {
        None => true,
        Some(other) => number < other,
    }
}
