// What is told of a device that is not mounted.
ghost use Rattle.std.specs.Prelude.{◌≡◌, ◌⊎◌};
ghost use Rattle.squirrel_cli.specs.Told.{IsToldOf, TellsWrites};

use crate::status::{Status, status_of_write};
use io_edge::Sink;
use mount_scan::MountError;
use script::{write_damaged, write_not_a_volume};

/// Tells why the device was not mounted. Of a fence that failed, and where memory is short, nothing is
/// written.
pub fn refuse<K: Sink>(error: MountError, out: &mut K) -> Status
    ensures told { IsToldOf error result (K.took out.old) (K.took out.new) }
    ensures cause { TellsWrites result (K.faults out.old) (K.faults out.new) }
    ensures unwritten { (result ≡ Status.NoMemory) ⊎ (result ≡ Status.DeviceFault) → out.new ≡ out.old }
{
    match error {
        MountError::NotVolume => status_of_write(write_not_a_volume(out), Status::NotVolume),
        MountError::Damaged(violation) => status_of_write(
            write_damaged(violation.rule, violation.place, out),
            Status::Damaged(violation),
        ),
        MountError::PmFault => Status::DeviceFault,
        MountError::NoMemory => Status::NoMemory,
    }
}
