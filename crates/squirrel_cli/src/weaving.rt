// The script of many sessions on a volume.
ghost use Rattle.std.specs.Prelude.{◌≡◌, ◌⊎◌, ◌^◌, ◌<◌, false};
ghost use Rattle.pm_trait.specs.Device.{HasRisen};
ghost use Rattle.pm_trait.specs.DeviceView.{IsSettledView};
ghost use Rattle.tree_model.specs.Run.{State};
ghost use Rattle.volume.specs.Stands.{StandsFor};
ghost use Rattle.sessions.specs.Interleave.{HaveEnded};
ghost use Rattle.squirrel_cli.specs.Causes.{TellsFaults};
ghost use Rattle.squirrel_cli.specs.Ends.{IsStart};
ghost use Rattle.squirrel_cli.specs.GoingOn.{GoesOn};
ghost use Rattle.squirrel_cli.specs.Mounts.{ClosesAs};
ghost use Rattle.squirrel_cli.specs.Rows.{Weaves};
ghost use Rattle.squirrel_cli.specs.Seen.{seen};
ghost use Rattle.squirrel_cli.specs.WeaveSteps.{LeavesWoven, WeavesOn};

use crate::chosen_schedule::ChosenSchedule;
use crate::refused::refuse;
use crate::status::Status;
use crate::whole::read_whole;
use io_edge::{Sink, Source};
use mount_scan::mount;
use pm_trait::{NoMemory, Pm, PmFault};
use schedules::{WeaveEnd, run_schedule};
use sessions::Interleave;
use std::alloc::Global;
use volume::Volume;

/// Mounts the volume that the device holds, reads the whole script, and executes the lines of its sessions by the schedule.
pub fn weave_script<P: Pm, S: Source, K: Sink>(
    alloc: Global,
    chosen: ChosenSchedule<'_>,
    script: &mut S,
    out: &mut K,
    pm: &mut P,
) -> Status
    requires start { IsStart (P.view pm.old) }
    ensures weaves { Weaves chosen.entry.sessions chosen.entry.schedule.now (seen S.Source K.Sink (P.view pm.old) script.old out.old)
        (seen S.Source K.Sink (P.view pm.new) script.new out.new) result }
    ensures cause { TellsFaults (seen S.Source K.Sink (P.view pm.old) script.old out.old)
        (seen S.Source K.Sink (P.view pm.new) script.new out.new) result }
    ensures settled { HasRisen (P.view pm.old).faults (P.view pm.new).faults ⊎ IsSettledView (P.view pm.new) }
{
    match mount(alloc, pm) {
        Ok(volume) => weave_lines(alloc, chosen, volume, script, out, pm),
        Err(error) => refuse(error, out),
    }
}

// Reads the whole script and executes it on a mounted volume, and closes that where it came to its end.
fn weave_lines<P: Pm, S: Source, K: Sink>(
    alloc: Global,
    chosen: ChosenSchedule<'_>,
    volume: Volume,
    script: &mut S,
    out: &mut K,
    pm: &mut P,
) -> Status
    requires goes_on { GoesOn volume (P.view pm.old) }
    ensures weaves { (state : State) → StandsFor volume (P.view pm.old) state →
        WeavesOn volume state chosen.entry.sessions chosen.entry.schedule.now (seen S.Source K.Sink (P.view pm.old) script.old out.old)
        (seen S.Source K.Sink (P.view pm.new) script.new out.new) result }
    ensures cause { TellsFaults (seen S.Source K.Sink (P.view pm.old) script.old out.old)
        (seen S.Source K.Sink (P.view pm.new) script.new out.new) result }
    ensures leaves { LeavesWoven volume.size (P.view pm.old) (P.view pm.new) result }
{
    let script = match read_whole(alloc, script) {
        Ok(script) => script,
        Err(status) => return status,
    };
    let Ok(mut interleave) = Interleave::start(alloc, volume, chosen.sessions) else {
        return Status::NoMemory;
    };
    match run_schedule(
        alloc,
        &mut interleave,
        script.as_slice(),
        chosen.schedule,
        out,
        pm,
    ) {
        Ok(WeaveEnd::Done) => close_sessions(interleave, pm),
        Ok(WeaveEnd::Faulted) => Status::DeviceFault,
        Ok(WeaveEnd::WriteFault) => Status::WriteFault,
        Err(NoMemory) => Status::NoMemory,
    }
}

// Closes the volume of sessions none of which runs a call.
fn close_sessions<P: Pm>(interleave: Interleave, pm: &mut P) -> Status
    requires going { interleave.volume.stopped ≡ false }
    requires ended { (history : State) × HaveEnded interleave (P.view pm.old) history }
    requires fences { (P.view pm.old).fences < 2 ^ 62 }
    ensures { (history : State) → HaveEnded interleave (P.view pm.old) history →
        ClosesAs interleave.volume.size history (P.view pm.old) (P.view pm.new) result }
{
    match interleave.close(pm) {
        Ok(()) => Status::Done,
        Err(PmFault) => Status::DeviceFault,
    }
}
