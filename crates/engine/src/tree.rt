// The listing of the whole tree.
ghost use Rattle.std.specs.Prelude.{◌≡◌, ◌≤◌, [], false, length, OnOk};
ghost use Rattle.std.specs.Vec.{vec_capacity};
ghost use Rattle.layout.specs.Geometry.{inodes_of};
ghost use Rattle.pm_trait.specs.DeviceView.{DeviceView};
ghost use Rattle.io_edge.specs.Bytes.{Writes};
ghost use Rattle.tree_model.specs.Run.{State};
ghost use Rattle.tree_model.specs.Tree.{bytes_of};
ghost use Rattle.tree_model.specs.Step.{status_of};
ghost use Rattle.script.specs.Texts.{bytes_text, entry_words, line_text, listing_text, path_text};
ghost use Rattle.data_ops.specs.Reading.{HasFile};
ghost use Rattle.volume.specs.Stands.{StandsFor, IsStanding, HasNode};
ghost use Rattle.engine.specs.Places.{AreAllPassed, AreWithin, IsSameOrEntered, IsWayFrom, LeadsTo, StepsInto, contents_text, route_through};

use crate::places::{Place, enter, next_inode};
use data_ops::read;
use io_edge::{Sink, WriteFault};
use layout::ROOT;
use pm_trait::Pm;
use script::{
    LONGEST_PIECE, write_below, write_front, write_newline, write_no_bytes, write_piece,
    write_root, write_space,
};
use tree_model::Stat;
use volume::Volume;

/// Writes the listing of the tree: a line for each path, in the order of paths. The places are room for its work.
pub fn write_tree<P: Pm, K: Sink>(
    volume: &Volume,
    places: &mut Vec<Place>,
    sink: &mut K,
    pm: &P,
) -> Result<(), WriteFault>
    requires going { volume.now.stopped ≡ false }
    requires stands { IsStanding volume.now (P.view pm.now) }
    requires room { inodes_of volume.now.size ≤ vec_capacity places.old }
    ensures room { vec_capacity places.new ≡ vec_capacity places.old }
    ensures writes { (state : State) → StandsFor volume.now (P.view pm.now) state →
        Writes (K.took sink.old) (K.took sink.new) (K.faults sink.old) (K.faults sink.new)
        (listing_text state.tree) result }
{
    places.clear();
    list_node(volume, places, ROOT, sink, pm)?;
    'paths: while !places.is_empty() {
        if let Some(inode) = next_inode(volume, places, pm) {
            list_node(volume, places, inode, sink, pm)?;
        }
    }
    Ok(())
}

// Writes the line of the path through the places. A directory is entered.
fn list_node<P: Pm, K: Sink>(
    volume: &Volume,
    places: &mut Vec<Place>,
    inode: u64,
    sink: &mut K,
    pm: &P,
) -> Result<(), WriteFault>
    requires going { volume.now.stopped ≡ false }
    requires leads { (state : State) × StandsFor volume.now (P.view pm.now) state
        × LeadsTo state.tree places.old.items inode }
    requires within { AreWithin volume.now.index places.old.items }
    requires room { inodes_of volume.now.size ≤ vec_capacity places.old }
    ensures writes { (state : State) → StandsFor volume.now (P.view pm.now) state →
        LeadsTo state.tree places.old.items inode →
        Writes (K.took sink.old) (K.took sink.new) (K.faults sink.old) (K.faults sink.new)
        (line_text (entry_words state.tree (route_through state.tree places.old.items, inode))) result }
    ensures steps { (state : State) → StandsFor volume.now (P.view pm.now) state →
        LeadsTo state.tree places.old.items inode →
        OnOk result (StepsInto state.tree places.old.items places.new.items inode) }
    ensures places { IsSameOrEntered inode places.old.items places.new.items }
    ensures room { vec_capacity places.new ≡ vec_capacity places.old }
{
    let stat = volume.stat(inode, pm);
    write_line(volume, places, &stat, sink, pm)?;
    if stat.dir {
        enter(places, inode);
    }
    Ok(())
}

// Writes the line of a node, by the path through the places.
fn write_line<P: Pm, K: Sink>(
    volume: &Volume,
    places: &[Place],
    stat: &Stat,
    sink: &mut K,
    pm: &P,
) -> Result<(), WriteFault>
    requires going { volume.now.stopped ≡ false }
    requires leads { (state : State) × StandsFor volume.now (P.view pm.now) state
        × LeadsTo state.tree places.now stat.now.inode }
    requires within { AreWithin volume.now.index places.now }
    requires told { (state : State) → StandsFor volume.now (P.view pm.now) state →
        stat.now ≡ status_of state.tree stat.now.inode }
    ensures { (state : State) → StandsFor volume.now (P.view pm.now) state →
        LeadsTo state.tree places.now stat.now.inode →
        Writes (K.took sink.old) (K.took sink.new) (K.faults sink.old) (K.faults sink.new)
        (line_text (entry_words state.tree (route_through state.tree places.now, stat.now.inode))) result }
{
    write_front(stat, sink)?;
    write_path(volume, places, sink)?;
    write_contents(volume, stat, sink, pm)?;
    write_newline(sink)
}

// Writes the path through the places.
fn write_path<K: Sink>(volume: &Volume, places: &[Place], sink: &mut K) -> Result<(), WriteFault>
    requires within { AreWithin volume.now.index places.now }
    requires way { (device : DeviceView) × (state : State) × StandsFor volume.now device state
        × IsWayFrom state.tree [] places.now × AreAllPassed places.now }
    ensures { (device : DeviceView) (state : State) → StandsFor volume.now device state →
        IsWayFrom state.tree [] places.now → AreAllPassed places.now →
        Writes (K.took sink.old) (K.took sink.new) (K.faults sink.old) (K.faults sink.new)
        (path_text (route_through state.tree places.now)) result }
{
    if places.is_empty() {
        return write_root(sink);
    }
    for place in places {
        write_below(&volume.nth(place.directory, place.next - 1).name, sink)?;
    }
    Ok(())
}

// Writes what stands behind the path of a node: of a file its bytes.
fn write_contents<P: Pm, K: Sink>(
    volume: &Volume,
    stat: &Stat,
    sink: &mut K,
    pm: &P,
) -> Result<(), WriteFault>
    requires going { volume.now.stopped ≡ false }
    requires there { HasNode volume.now (P.view pm.now) stat.now.inode }
    requires told { (state : State) → StandsFor volume.now (P.view pm.now) state →
        stat.now ≡ status_of state.tree stat.now.inode }
    ensures { (state : State) → StandsFor volume.now (P.view pm.now) state →
        Writes (K.took sink.old) (K.took sink.new) (K.faults sink.old) (K.faults sink.new)
        (contents_text state.tree stat.now.inode) result }
{
    if stat.dir {
        return Ok(());
    }
    if stat.amount == 0 {
        return write_no_bytes(sink);
    }
    write_space(sink)?;
    write_bytes(volume, stat, sink, pm)
}

// Writes all bytes of a file, a piece at a time.
fn write_bytes<P: Pm, K: Sink>(
    volume: &Volume,
    stat: &Stat,
    sink: &mut K,
    pm: &P,
) -> Result<(), WriteFault>
    requires going { volume.now.stopped ≡ false }
    requires file { HasFile volume.now (P.view pm.now) stat.now.inode }
    requires some { 1 ≤ stat.now.amount }
    ensures { (state : State) → StandsFor volume.now (P.view pm.now) state →
        stat.now.amount ≡ length (bytes_of state.tree stat.now.inode) →
        Writes (K.took sink.old) (K.took sink.new) (K.faults sink.old) (K.faults sink.new)
        (bytes_text (bytes_of state.tree stat.now.inode)) result }
{
    let mut piece = [0; LONGEST_PIECE];
    for k in 0..stat.amount.div_ceil(LONGEST_PIECE as u64) {
        let offset = k * LONGEST_PIECE as u64;
        let count = read(volume, stat.inode, offset, &mut piece, pm);
        write_piece(&piece[..count as usize], sink)?;
    }
    Ok(())
}
