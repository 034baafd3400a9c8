// The generated script on a volume.
ghost use Rattle.std.specs.Prelude.{◌≡◌, ◌⊎◌, ◌≤◌, MatchOption, false};
ghost use Rattle.pm_trait.specs.Device.{HasRisen};
ghost use Rattle.pm_trait.specs.DeviceView.{IsSettledView};
ghost use Rattle.tree_model.specs.Run.{State};
ghost use Rattle.io_edge.specs.Bytes.{Writes};
ghost use Rattle.script.specs.Buffers.{AreNew};
ghost use Rattle.script.specs.Work.{work_text};
ghost use Rattle.volume.specs.Stands.{IsStanding, StandsFor};
ghost use Rattle.engine.specs.Script.{LeavesRun};
ghost use Rattle.engine.specs.Session.{on};
ghost use Rattle.crash_replay.specs.Tally.{accepted_count, refused_count};
ghost use Rattle.squirrel_cli.specs.Causes.{TellsFaults};
ghost use Rattle.squirrel_cli.specs.Ends.{IsStart};
ghost use Rattle.squirrel_cli.specs.GoingOn.{GoesOn, UnlessShort, LeavesGoing};
ghost use Rattle.squirrel_cli.specs.Rows.{Works as WorksRow};
ghost use Rattle.squirrel_cli.specs.Seen.{seen_alone};
ghost use Rattle.squirrel_cli.specs.Works.{summary_of};
ghost use Rattle.squirrel_cli.specs.WorkSteps.{CountsGenerated, RunsGenerated, WorksOn};

use crate::generated::Generated;
use crate::refused::refuse;
use crate::scripted::close_session;
use crate::status::Status;
use crash_replay::{Tally, Work};
use engine::{Session, run};
use io_edge::{Sink, WriteFault};
use mount_scan::mount;
use pm_trait::Pm;
use script::{Buffers, RunEnd, WorkSummary, write_work};
use std::alloc::Global;
use volume::Volume;

/// Mounts the volume that the device holds, runs the generated script on it, and writes its sums.
pub fn work_volume<P: Pm, K: Sink>(
    alloc: Global,
    generated: Generated,
    out: &mut K,
    pm: &mut P,
) -> Status
    requires start { IsStart (P.view pm.old) }
    ensures works { WorksRow generated.seed generated.count (seen_alone K.Sink (P.view pm.old) out.old)
        (seen_alone K.Sink (P.view pm.new) out.new) result }
    ensures cause { TellsFaults (seen_alone K.Sink (P.view pm.old) out.old) (seen_alone K.Sink (P.view pm.new) out.new) result }
    ensures settled { HasRisen (P.view pm.old).faults (P.view pm.new).faults ⊎ IsSettledView (P.view pm.new) }
{
    match mount(alloc, pm) {
        Ok(volume) => work_lines(alloc, generated, volume, out, pm),
        Err(error) => refuse(error, out),
    }
}

// Runs the generated script on a mounted volume, and writes its sums. Nothing is written where a fence failed.
fn work_lines<P: Pm, K: Sink>(
    alloc: Global,
    generated: Generated,
    volume: Volume,
    out: &mut K,
    pm: &mut P,
) -> Status
    requires goes_on { GoesOn volume (P.view pm.old) }
    ensures works { UnlessShort (WorksOn volume.size generated.seed generated.count) (seen_alone K.Sink (P.view pm.old) out.old)
        (seen_alone K.Sink (P.view pm.new) out.new) result }
    ensures cause { TellsFaults (seen_alone K.Sink (P.view pm.old) out.old) (seen_alone K.Sink (P.view pm.new) out.new) result }
    ensures leaves { LeavesGoing volume.size (P.view pm.old) (P.view pm.new) }
{
    let Ok(mut buffers) = Buffers::new(alloc) else {
        return Status::NoMemory;
    };
    let Ok(mut session) = Session::start(alloc, volume) else {
        return Status::NoMemory;
    };
    match run_generated(&mut session, &mut buffers, generated, pm) {
        Some(tally) => {
            let written = write_sums(generated.count, &tally, session.volume(), out, pm);
            match written {
                Ok(()) => close_session(session, pm),
                Err(WriteFault) => Status::WriteFault,
            }
        }
        None => Status::DeviceFault,
    }
}

// Runs the generated script, and counts its answers. None where a fence failed.
fn run_generated<P: Pm>(
    session: &mut Session,
    buffers: &mut Buffers,
    generated: Generated,
    pm: &mut P,
) -> Option<Tally>
    requires goes_on { GoesOn session.old.volume (P.view pm.old) }
    requires buffers { AreNew buffers.old }
    ensures runs { MatchOption result
        (RunsGenerated session.old.volume.size generated.seed generated.count (P.view pm.old) (P.view pm.new) RunEnd.Faulted)
        (CountsGenerated session.old.volume.size generated.seed generated.count (P.view pm.old) (P.view pm.new)) }
    ensures leaves { MatchOption result
        (LeavesRun RunEnd.Faulted (on session.old (P.view pm.old)) (on session.new (P.view pm.new)))
        (λ _. LeavesRun RunEnd.Done (on session.old (P.view pm.old)) (on session.new (P.view pm.new))) }
{
    let mut work = Work::new(generated.seed, generated.count);
    let mut tally = Tally::new();
    match run(session, buffers, &mut work, &mut tally, pm) {
        RunEnd::Done => Some(tally),
        RunEnd::Faulted => None,
        RunEnd::ReadFault => unreachable!(),
        RunEnd::WriteFault => unreachable!(),
        RunEnd::Limit => unreachable!(),
    }
}

// Writes the sums of so many lines and the four before them.
fn write_sums<P: Pm, K: Sink>(
    count: u64,
    tally: &Tally,
    volume: &Volume,
    out: &mut K,
    pm: &P,
) -> Result<(), WriteFault>
    requires going { volume.now.stopped ≡ false }
    requires stands { IsStanding volume.now (P.view pm.now) }
    requires few { count ≤ 1000000 }
    ensures { (state : State) → StandsFor volume.now (P.view pm.now) state →
        Writes (K.took out.old) (K.took out.new) (K.faults out.old) (K.faults out.new)
        (work_text (summary_of volume.now.size count (accepted_count tally.now) (refused_count tally.now) state))
        result }
{
    let totals = volume.totals(pm);
    let summary = WorkSummary {
        lines: count + 4,
        accepted: tally.accepted(),
        refused: tally.refused(),
        space: volume.free(pm),
        names: totals.names,
        bytes: totals.bytes,
    };
    write_work(&summary, out)
}
