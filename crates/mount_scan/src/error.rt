// How a mount and a report fail.
ghost use Rattle.std.specs.Prelude.{◌≡◌};
ghost use Rattle.mount_scan.specs.declared.error.MountError.TheVariants.{NoMemory, PmFault};

use image_reading::Violation;
use io_edge::WriteFault;
use pm_trait::{NoMemory, PmFault};
use thiserror::Error;

/// Why a device was not mounted.
#[derive(Clone, Copy, Debug, PartialEq, Eq, Error)]
pub enum MountError {
    /// Its length or its first words are no volume's.
    #[error("not a volume")]
    NotVolume,
    /// It breaks a rule, the first of them at this place.
    #[error("a damaged volume")]
    Damaged(Violation),
    /// The device failed while the volume was repaired.
    #[error("the device failed")]
    PmFault,
    /// There is no memory for the volume, or no room on the device for its repairs.
    #[error("out of memory")]
    NoMemory,
}

impl From<NoMemory> for MountError {
    ghost from_gives = { λ _ error. error ≡ NoMemory };

    fn from(_refused: NoMemory) -> MountError {
        MountError::NoMemory
    }
}

impl From<PmFault> for MountError {
    ghost from_gives = { λ _ error. error ≡ PmFault };

    fn from(_fault: PmFault) -> MountError {
        MountError::PmFault
    }
}

/// Why the words of a device were not told.
#[derive(Clone, Copy, Debug, PartialEq, Eq, Error)]
pub enum ReportError {
    /// There is no memory to look at the words. Nothing was written.
    #[error("out of memory")]
    NoMemory,
    /// The output failed after a part of the text.
    #[error("the output failed")]
    WriteFault,
}

impl From<NoMemory> for ReportError {
    ghost use Rattle.mount_scan.specs.declared.error.ReportError.{ReportError};

    ghost from_gives = { λ _ error. error ≡ ReportError.NoMemory };

    fn from(_refused: NoMemory) -> ReportError {
        ReportError::NoMemory
    }
}

impl From<WriteFault> for ReportError {
    ghost use Rattle.mount_scan.specs.declared.error.ReportError.{ReportError};

    ghost from_gives = { λ _ error. error ≡ ReportError.WriteFault };

    fn from(_fault: WriteFault) -> ReportError {
        ReportError::WriteFault
    }
}
