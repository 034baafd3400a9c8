// The places on the way to a path of a listing.
ghost use Rattle.std.specs.Prelude.{◌≡◌, ◌<◌, ◌≤◌, [], ◌∷◌, ◌++◌, vec_len, MatchOption};
ghost use Rattle.std.specs.Vec.{vec_capacity};
ghost use Rattle.tree_model.specs.Run.{State};
ghost use Rattle.volume.specs.Stands.{StandsFor};
ghost use Rattle.engine.specs.Places.{IsLeft, IsPassed, IsWay, StepsOnto, StepsUp};

use pm_trait::Pm;
use volume::Volume;

// A directory on the way to a path, and which of its names comes next, counted from 0.
#[derive(Clone, Copy)]
pub struct Place {
    pub directory: u64,
    pub next: u64,
}

// Adds a place at a directory's first name. It takes no memory where there is room.
pub fn enter(places: &mut Vec<Place>, directory: u64)
    requires room { vec_len places.old < vec_capacity places.old }
    ensures items { places.new.items ≡ places.old.items ++ record { directory = directory; next = 0 } ∷ [] }
    ensures room { vec_capacity places.new ≡ vec_capacity places.old }
{
    // Unlike `push`, `insert` says that it grows no vector that has room.
    let end = places.len();
    let _ = places.insert(end, Place { directory, next: 0 });
}

// Passes the next name of the deepest place, and gives the inode that it names. A place that has no next name is left.
pub fn next_inode<P: Pm>(volume: &Volume, places: &mut Vec<Place>, pm: &P) -> Option<u64>
    requires some { 1 ≤ vec_len places.old }
    requires way { (state : State) × StandsFor volume.now (P.view pm.now) state
        × IsWay state.tree places.old.items }
    ensures steps { (state : State) → StandsFor volume.now (P.view pm.now) state →
        IsWay state.tree places.old.items → MatchOption result
        (StepsUp state.tree places.old.items places.new.items)
        (StepsOnto state.tree places.old.items places.new.items) }
    ensures places { MatchOption result (IsLeft places.old.items places.new.items)
        (λ _. IsPassed volume.now.index places.old.items places.new.items) }
    ensures room { vec_capacity places.new ≡ vec_capacity places.old }
{
    let last = places.len() - 1;
    let place = places[last];
    if place.next == volume.count(place.directory) {
        let _ = places.pop();
        return None;
    }
    let slot = volume.nth(place.directory, place.next).slot;
    places[last].next = place.next + 1;
    Some(volume.geometry().slot_at(pm.image(), slot).inode)
}
