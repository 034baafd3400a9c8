// The device that the words of a command line need.
ghost use Rattle.std.specs.Prelude.{◌≡◌, IfOk};
ghost use Rattle.command_line.specs.Wanted.{Wants};

use crate::job::{Job, job_of_split};
use crate::split::Split;
use crate::words::{ImagePath, Words};
use pm_trait::NoMemory;
use std::alloc::Global;

/// The device that a job needs.
#[derive(Drop)]
pub enum Wanted {
    /// None: the words ask for no job.
    Nothing,
    /// A file that is given this many pages, and made where it isn't there.
    Make { path: ImagePath, pages: u64 },
    /// A file that is there, and whether the job may change it.
    Existing { path: ImagePath, stores: bool },
}

/// The device that the words need: none exactly where they ask for no job. `NoMemory` may come for any words.
pub fn device_of(alloc: Global, words: &Words) -> Result<Wanted, NoMemory>
    ensures { IfOk result (λ wanted. Wants words.now wanted) }
{
    let split = Split::of(alloc, words)?;
    match job_of_split(alloc, &split)? {
        None => Ok(Wanted::Nothing),
        Some(Job::Mkfs { pages }) => {
            let path = ImagePath::new(alloc, split.image())?;
            Ok(Wanted::Make { path, pages })
        }
        Some(job) => {
            let path = ImagePath::new(alloc, split.image())?;
            let stores = job.stores();
            Ok(Wanted::Existing { path, stores })
        }
    }
}
