// What the volume takes in of a move, behind each of its steps.
ghost use Rattle.std.specs.Prelude.{◌≡◌};
ghost use Rattle.rename_ptr.specs.Stages.{HasNames, HasLosses, KnowsMove, MovesName, LosesReplaced, GivesBack, EntersMoving};

use crate::rename::Progress;
use volume::{Moving, Volume};

// Takes the old name out of the index, and puts the new one in, where no node is replaced that has it.
fn move_name(volume: &mut Volume, moving: &Moving)
    requires names { HasNames volume.old moving.now }
    ensures { MovesName volume.old volume.new moving.now }
{
    volume.remove_name(moving.from_directory, &moving.from_name);
    match moving.replaced {
        None => volume.put_name(
            moving.to_directory,
            moving.to_name.copied(),
            moving.to_slot,
            moving.new_page,
        ),
        Some(_) => {}
    }
}

// Gives back a replaced node that goes, with its pages.
fn give_node(volume: &mut Volume, moving: &Moving)
    requires losses { HasLosses volume.old moving.now }
    ensures { LosesReplaced volume.old volume.new moving.now.replaced }
{
    match &moving.replaced {
        None => {}
        Some(loss) => volume.give_inode(loss),
    }
}

// Gives back a replaced node that goes, and the page of the old slot.
fn give_back(volume: &mut Volume, moving: &Moving)
    requires losses { HasLosses volume.old moving.now }
    ensures { GivesBack volume.old volume.new moving.now }
{
    give_node(volume, moving);
    volume.give_page(moving.from_directory, moving.given_back);
}

// Takes in what a step has made.
pub fn take_in(volume: &mut Volume, moving: &Moving, progress: Progress)
    requires knows { KnowsMove volume.old moving.now progress }
    ensures { EntersMoving moving.now progress volume.old volume.new }
{
    match progress {
        Progress::Begun => volume.take_page(moving.new_page),
        Progress::Pointed => move_name(volume, moving),
        Progress::Disowned => give_back(volume, moving),
        Progress::Filled
        | Progress::Opened
        | Progress::Moved
        | Progress::Left
        | Progress::Cleared => {}
    }
}
