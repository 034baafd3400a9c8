// The words of the command line.
ghost use Rattle.std.specs.Prelude.{◌≡◌, ◌≢◌, ◌⊎◌, map, IfOk, IfErr};
ghost use Rattle.std.specs.String.{string_bytes};
ghost use Rattle.std.specs.IoError.{error_kind};

use pm_trait::NoMemory;
use squirrel_cli::{Status, Words};
use std::alloc::Global;
use std::env;
use std::env::Env;
use std::io::{Error, ErrorKind};

/// The words, the program's name first. They fail as `Usage` where one isn't UTF-8, and as `NoMemory`.
pub fn words_of<R: Env + AllocGlobal>(rt: &R, alloc: Global) -> Result<Words, Status>
    ensures { IfErr result (λ status. (status ≡ Status.Usage) ⊎ (status ≡ Status.NoMemory)) }
{
    let arguments = match env::args(rt) {
        Ok(arguments) => arguments,
        Err(fault) => return Err(status_of_fault(&fault)),
    };
    let Ok(arguments) = arguments.collect::<Vec<String>>(alloc) else {
        return Err(Status::NoMemory);
    };
    match words_from(alloc, &arguments) {
        Ok(words) => Ok(words),
        Err(NoMemory) => Err(Status::NoMemory),
    }
}

// The arguments as words, in their order.
fn words_from(alloc: Global, arguments: &[String]) -> Result<Words, NoMemory>
    ensures { IfOk result (λ words. words ≡ map string_bytes arguments.now) }
{
    let mut words = Words::new(alloc);
    for argument in arguments {
        words.push(argument.as_str())?;
    }
    Ok(words)
}

// How a job ends whose words can't be had: out of memory, or one isn't UTF-8.
fn status_of_fault(fault: &Error) -> Status
    ensures no_memory { error_kind fault.now ≡ ErrorKind.OutOfMemory → result ≡ Status.NoMemory }
    ensures usage { error_kind fault.now ≢ ErrorKind.OutOfMemory → result ≡ Status.Usage }
{
    if fault.kind() == ErrorKind::OutOfMemory {
        Status::NoMemory
    } else {
        Status::Usage
    }
}
