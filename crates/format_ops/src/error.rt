// How a format is refused.
ghost use Rattle.std.specs.Prelude.{◌≡◌};
ghost use Rattle.format_ops.specs.declared.error.FormatError.TheVariants.{NoMemory, PmFault};

use pm_trait::{NoMemory, PmFault};
use thiserror::Error;

/// Why a device was not formatted.
#[derive(Clone, Copy, Debug, PartialEq, Eq, Error)]
pub enum FormatError {
    /// The device is not of so many words as a volume has.
    #[error("not the size of a volume")]
    BadSize,
    /// A fence failed. What a crash may leave is no volume, or the old one or the new one whole.
    #[error("the device failed")]
    PmFault,
    /// The device had no room for the events. It was not written.
    #[error("out of memory")]
    NoMemory,
}

impl From<NoMemory> for FormatError {
    ghost from_gives = { λ _ error. error ≡ NoMemory };

    fn from(_refused: NoMemory) -> FormatError {
        FormatError::NoMemory
    }
}

impl From<PmFault> for FormatError {
    ghost from_gives = { λ _ error. error ≡ PmFault };

    fn from(_fault: PmFault) -> FormatError {
        FormatError::PmFault
    }
}
