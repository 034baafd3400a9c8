ghost use Rattle.std.specs.Prelude.{◌≡◌};
ghost use Rattle.squirrel_cli.specs.Status.{number_of_status};
ghost use Rattle.squirrel_cli.specs.Told.{status_of_write as told_status};

use image_reading::Violation;
use io_edge::WriteFault;

/// How a job ended.
#[derive(Clone, Copy, Debug, PartialEq, Eq)]
pub enum Status {
    /// The work is done. A script was read to its end.
    Done,
    /// The words ask for no job, or for a volume of another size than the device.
    Usage,
    /// Out of memory, before anything was written.
    NoMemory,
    /// The device's length or its first words are no volume's.
    NotVolume,
    /// The volume breaks a rule, the first of them at this place.
    Damaged(Violation),
    /// A fence failed.
    DeviceFault,
    /// A read of the script failed.
    ReadFault,
    /// A write of the output failed.
    WriteFault,
    /// The script has 2^32 bytes or more; or of `weave` more than 2^24, or more than 65,536 lines.
    ScriptLimit,
}

impl Status {
    /// The exit status of the program.
    pub fn number(self) -> u8
        ensures { result ≡ number_of_status self }
    {
        match self {
            Status::Done => 0,
            Status::Usage => 2,
            Status::NoMemory => 3,
            Status::NotVolume | Status::Damaged(_) => 4,
            Status::DeviceFault => 5,
            Status::ReadFault => 6,
            Status::WriteFault => 7,
            Status::ScriptLimit => 8,
        }
    }
}

// This status where its text was written, and else that of a write that failed.
pub fn status_of_write(written: Result<(), WriteFault>, status: Status) -> Status
    ensures { result ≡ told_status written status }
{
    match written {
        Ok(()) => status,
        Err(WriteFault) => Status::WriteFault,
    }
}
