//! The program: the words of the command line, the device in a file, standard input and output, and the exit status.
#![tactic(auto)]

ghost use Rattle.std.specs.Prelude.{◌≡◌, ◌⊎◌, None};
ghost use Rattle.command_line.specs.Job.{job_of};

mod device;
mod faults;
mod watched;
mod words;

use device::{Images, device_for};
use faults::{
    cause_line, cause_of_file_fault, exit_of, fault_line, lines_behind, status_of_file_fault,
};
use io_edge::{StdSink, StdSource};
use pm_file::{Cause, ImageFile};
use squirrel_cli::{Status, Words, squirrel};
use std::alloc::Global;
use std::io;
use std::io::IsTerminal;
use std::process::ExitCode;
use std::rt::Files;
use words::words_of;

// How a job ended, and why its device failed, where one did.
struct End {
    status: Status,
    cause: Option<Cause>,
}

fn main(rt: HostRuntime) -> ExitCode {
    let End { status, cause } = end_of_run(&rt);
    tell(&rt.stderr(), status, cause);
    exit_of(status)
}

// How the job ended that the command line asks for.
fn end_of_run(rt: &HostRuntime) -> End {
    match words_of(rt, rt.alloc()) {
        Ok(words) => do_job(rt, &rt.stderr(), rt.alloc(), &words),
        Err(status) => End {
            status,
            cause: None,
        },
    }
}

// Does what the words ask for, on the file that they name.
fn do_job<R: Files + Input + Print, E: Eprint + IsTerminal>(
    rt: &R,
    error: &E,
    alloc: Global,
    words: &Words,
) -> End
where
    R::File: ImageFile,
    ensures usage { result.status ≡ Status.Usage → job_of words.now ≡ None }
    ensures no_job { job_of words.now ≡ None → (result.status ≡ Status.Usage) ⊎ (result.status ≡ Status.NoMemory) }
{
    match device_for(&Images { rt, error, alloc }, alloc, words) {
        Ok(mut pm) => {
            let mut script = StdSource::new(rt.reader());
            let mut out = StdSink::new(io::writer(rt));
            let status = squirrel(alloc, words, &mut pm, &mut script, &mut out);
            let cause = pm.pm.cause();
            End { status, cause }
        }
        Err(fault) => End {
            status: status_of_file_fault(fault),
            cause: cause_of_file_fault(fault),
        },
    }
}

// Tells a fault on standard error; at a terminal also who asks for no job what can be asked for, and why a device failed. A failure
// to do so changes nothing.
fn tell<E: Eprint + IsTerminal>(error: &E, status: Status, cause: Option<Cause>) {
    let line = fault_line(status);
    if !line.is_empty() {
        let is_terminal = error.is_terminal();
        let behind = lines_behind(status, is_terminal);
        let why = cause_line(status, cause, is_terminal);
        let _ = eprint!(error; "{line}\n{why}{behind}");
    }
}
