// Why a file gave no device.
ghost use Rattle.std.specs.Prelude.{◌≡◌};
ghost use Rattle.std.specs.IoError.{error_kind};
ghost use Rattle.pm_file.specs.declared.cause.Cause.{Cause as TheCause};
ghost use Rattle.pm_file.specs.Causes.{IsCauseOf};
ghost use Rattle.pm_file.specs.declared.fault.FileFault.TheVariants.{NoMemory, Failed};

use crate::cause::{Cause, cause_of};
use pm_trait::NoMemory as OutOfMemory;
use std::alloc::AllocError;
use std::io;
use thiserror::Error;

/// Why a file gave no device.
#[derive(Clone, Copy, Debug, PartialEq, Eq, Error)]
pub enum FileFault {
    /// There was no memory for the words.
    #[error("out of memory")]
    NoMemory,
    /// The file could not be opened, read or written, for this cause.
    #[error("the file failed")]
    Failed(Cause),
}

impl From<AllocError> for FileFault {
    ghost from_gives = { λ _ fault. fault ≡ NoMemory };

    fn from(_error: AllocError) -> FileFault {
        FileFault::NoMemory
    }
}

impl From<io::Error> for FileFault {
    ghost from_gives = { λ error fault. (cause : TheCause) × (fault ≡ Failed cause) × IsCauseOf (error_kind error) cause };

    fn from(error: io::Error) -> FileFault {
        FileFault::Failed(cause_of(&error))
    }
}

impl From<OutOfMemory> for FileFault {
    ghost from_gives = { λ _ fault. fault ≡ NoMemory };

    fn from(_error: OutOfMemory) -> FileFault {
        FileFault::NoMemory
    }
}
