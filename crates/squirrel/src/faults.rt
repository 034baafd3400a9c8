// What the ends of a job are told as.
ghost use Rattle.std.specs.Prelude.{◌≡◌, ◌≢◌, [], None, Some, true, false};
ghost use Rattle.std.specs.Process.{exit_status};
ghost use Rattle.squirrel_cli.specs.Status.{number_of_status};
ghost use Rattle.pm_file.specs.declared.cause.Cause.{Cause as TheCause};
ghost use Rattle.squirrel.specs.Faults.{fault_text, cause_text};

use pm_file::{Cause, FileFault};
use squirrel_cli::Status;
use std::process::ExitCode;

// Each command's words, and what it does.
const COMMANDS: &str = "\
mkfs IMAGE PAGES  makes IMAGE an empty volume of 16 to 65536 pages
run IMAGE         answers the script on standard input
tree IMAGE        lists the volume, with the bytes of its files
check IMAGE       tells what the next mount will repair, and stores nothing
crash IMAGE --keep HEX (--at K | --call I --fence F) [--again J --keep2 HEX]  \
lists what a crash in the script on standard input would leave, and stores nothing
work IMAGE SEED COUNT  runs COUNT generated commands, 1 to 1000000, and tells their sums
weave IMAGE SESSIONS --schedule HEX  executes the script of 1 to 16 sessions step by step
";

/// The program's exit status.
pub fn exit_of(status: Status) -> ExitCode
    ensures { exit_status result ≡ number_of_status status }
{
    ExitCode::from(status.number())
}

/// The line for standard error, without its newline. Empty where the output tells how the job ended.
pub fn fault_line(status: Status) -> &'static str
    ensures { result.now ≡ fault_text status }
{
    match status {
        Status::Done | Status::NotVolume | Status::Damaged(_) => "",
        Status::Usage => "squirrel: usage",
        Status::NoMemory => "squirrel: no memory",
        Status::DeviceFault => "squirrel: device fault",
        Status::ReadFault => "squirrel: read fault",
        Status::WriteFault => "squirrel: write fault",
        Status::ScriptLimit => "squirrel: script too long",
    }
}

/// What standard error is told behind that line: where it is a terminal and no job was asked for, a line for each command.
pub fn lines_behind(status: Status, is_terminal: bool) -> &'static str
    ensures elsewhere { is_terminal ≡ false → result.now ≡ [] }
    ensures others { status ≢ Status.Usage → result.now ≡ [] }
{
    match status {
        Status::Usage if is_terminal => COMMANDS,
        _ => "",
    }
}

/// The line behind that one which says why a device failed, with its newline: where standard error is a terminal, and the cause
/// is known.
pub fn cause_line(status: Status, cause: Option<Cause>, is_terminal: bool) -> &'static str
    ensures elsewhere { is_terminal ≡ false → result.now ≡ [] }
    ensures others { status ≢ Status.DeviceFault → result.now ≡ [] }
    ensures told { (it : TheCause) → is_terminal ≡ true → status ≡ Status.DeviceFault → cause ≡ Some it →
        result.now ≡ cause_text it }
{
    match (status, cause) {
        (Status::DeviceFault, Some(cause)) if is_terminal => text_of_cause(cause),
        _ => "",
    }
}

// What a cause is told as.
fn text_of_cause(cause: Cause) -> &'static str
    ensures { result.now ≡ cause_text cause }
{
    match cause {
        Cause::Missing => "squirrel: there is no such file\n",
        Cause::Denied => "squirrel: the file may not be read, or not be written\n",
        Cause::Held => "squirrel: another job has the file\n",
        Cause::OtherLength => {
            "squirrel: the file's length is not its volume's (16 to 65536 pages of 4096 bytes)\n"
        }
        Cause::Full => "squirrel: the disk is full\n",
        Cause::Failed => "squirrel: a read, a write or a sync of the file failed\n",
    }
}

/// How a job ends whose file gave no device.
pub fn status_of_file_fault(fault: FileFault) -> Status
    ensures no_memory { fault ≡ FileFault.NoMemory → result ≡ Status.NoMemory }
    ensures failed { (cause : TheCause) → fault ≡ FileFault.Failed cause → result ≡ Status.DeviceFault }
{
    match fault {
        FileFault::NoMemory => Status::NoMemory,
        FileFault::Failed(_) => Status::DeviceFault,
    }
}

/// Why a file gave no device, where it isn't for want of memory. That has no cause, and its status is no device fault.
pub fn cause_of_file_fault(fault: FileFault) -> Option<Cause>
    ensures no_memory { fault ≡ FileFault.NoMemory → result ≡ None }
    ensures failed { (cause : TheCause) → fault ≡ FileFault.Failed cause → result ≡ Some cause }
{
    match fault {
        FileFault::NoMemory => None,
        FileFault::Failed(cause) => Some(cause),
    }
}
