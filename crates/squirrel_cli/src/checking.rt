// Tells what a volume holds, and what a mount would repair.
ghost use Rattle.std.specs.Prelude.{◌≡◌};
ghost use Rattle.squirrel_cli.specs.Causes.{TellsFaults};
ghost use Rattle.squirrel_cli.specs.Rows.{Checks};
ghost use Rattle.squirrel_cli.specs.Seen.{seen_alone};
ghost use Rattle.squirrel_cli.specs.Told.{refusal_of as told_refusal};

use crate::refused::refuse;
use crate::status::Status;
use image_reading::Violation;
use io_edge::Sink;
use mount_scan::{HEAD_RULE, MountError, ReportError, report};
use pm_trait::Pm;
use std::alloc::Global;

/// Writes what the device's volume holds and what a mount would repair, or why it is none. The device is only read.
pub fn check_volume<P: Pm, K: Sink>(alloc: Global, out: &mut K, pm: &P) -> Status
    ensures checks { Checks (seen_alone K.Sink (P.view pm.now) out.old) (seen_alone K.Sink (P.view pm.now) out.new) result }
    ensures cause { TellsFaults (seen_alone K.Sink (P.view pm.now) out.old) (seen_alone K.Sink (P.view pm.now) out.new) result }
{
    match report(alloc, pm, out) {
        Ok(None) => Status::Done,
        Ok(Some(violation)) => refuse(refusal_of(violation), out),
        Err(ReportError::WriteFault) => Status::WriteFault,
        Err(ReportError::NoMemory) => Status::NoMemory,
    }
}

// What a mount refuses words with that break a rule there.
fn refusal_of(violation: Violation) -> MountError
    ensures { result ≡ told_refusal violation }
{
    if violation.rule == HEAD_RULE {
        MountError::NotVolume
    } else {
        MountError::Damaged(violation)
    }
}
