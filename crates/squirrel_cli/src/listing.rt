// The tree of a volume.
ghost use Rattle.std.specs.Prelude.{◌⊎◌};
ghost use Rattle.pm_trait.specs.Device.{HasRisen};
ghost use Rattle.pm_trait.specs.DeviceView.{IsSettledView};
ghost use Rattle.squirrel_cli.specs.Causes.{TellsFaults};
ghost use Rattle.squirrel_cli.specs.Ends.{IsStart};
ghost use Rattle.squirrel_cli.specs.GoingOn.{GoesOn, UnlessShort, LeavesGoing, ListsOn};
ghost use Rattle.squirrel_cli.specs.Rows.{Lists};
ghost use Rattle.squirrel_cli.specs.Seen.{seen_alone};

use crate::refused::refuse;
use crate::scripted::close_session;
use crate::status::Status;
use engine::Session;
use io_edge::{Sink, WriteFault};
use mount_scan::mount;
use pm_trait::Pm;
use std::alloc::Global;
use volume::Volume;

/// Mounts the volume that the device holds, and lists its tree.
pub fn list_volume<P: Pm, K: Sink>(alloc: Global, out: &mut K, pm: &mut P) -> Status
    requires start { IsStart (P.view pm.old) }
    ensures lists { Lists (seen_alone K.Sink (P.view pm.old) out.old) (seen_alone K.Sink (P.view pm.new) out.new) result }
    ensures cause { TellsFaults (seen_alone K.Sink (P.view pm.old) out.old) (seen_alone K.Sink (P.view pm.new) out.new) result }
    ensures settled { HasRisen (P.view pm.old).faults (P.view pm.new).faults ⊎ IsSettledView (P.view pm.new) }
{
    match mount(alloc, pm) {
        Ok(volume) => list_tree(alloc, volume, out, pm),
        Err(error) => refuse(error, out),
    }
}

// Lists the tree of a mounted volume, and closes it.
fn list_tree<P: Pm, K: Sink>(alloc: Global, volume: Volume, out: &mut K, pm: &mut P) -> Status
    requires goes_on { GoesOn volume (P.view pm.old) }
    ensures lists { UnlessShort (ListsOn volume) (seen_alone K.Sink (P.view pm.old) out.old)
        (seen_alone K.Sink (P.view pm.new) out.new) result }
    ensures cause { TellsFaults (seen_alone K.Sink (P.view pm.old) out.old) (seen_alone K.Sink (P.view pm.new) out.new) result }
    ensures leaves { LeavesGoing volume.size (P.view pm.old) (P.view pm.new) }
{
    let Ok(mut session) = Session::start(alloc, volume) else {
        return Status::NoMemory;
    };
    match session.listing(out, pm) {
        Ok(()) => close_session(session, pm),
        Err(WriteFault) => Status::WriteFault,
    }
}
