// Why a file failed, as far as the system tells it.
ghost use Rattle.std.specs.Prelude.{◌≡◌};
ghost use Rattle.std.specs.IoError.{error_kind};
ghost use Rattle.pm_file.specs.Causes.{IsCauseOf};

use std::io::{Error, ErrorKind};

/// Why a file failed, as far as the system tells it.
#[derive(Clone, Copy, Debug, PartialEq, Eq)]
pub enum Cause {
    /// There is no such file.
    Missing,
    /// It may not be read, or not be written.
    Denied,
    /// Another device has it.
    Held,
    /// It hasn't the length that its device gave it.
    OtherLength,
    /// There is no room for it.
    Full,
    /// A call failed otherwise.
    Failed,
}

/// The cause that an error tells.
pub fn cause_of(error: &Error) -> Cause
    ensures { IsCauseOf (error_kind error.now) result }
{
    let kind = error.kind();
    if kind == ErrorKind::NotFound {
        Cause::Missing
    } else if kind == ErrorKind::PermissionDenied || kind == ErrorKind::ReadOnlyFilesystem {
        Cause::Denied
    } else if kind == ErrorKind::WouldBlock {
        Cause::Held
    } else if kind == ErrorKind::InvalidData {
        Cause::OtherLength
    } else if kind == ErrorKind::StorageFull || kind == ErrorKind::QuotaExceeded {
        Cause::Full
    } else {
        Cause::Failed
    }
}
