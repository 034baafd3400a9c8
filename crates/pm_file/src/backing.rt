// What stands behind the words of a device.
ghost use Rattle.std.specs.Prelude.{◌≡◌, ◌+◌, ◌*◌, ◌^◌, ◌<◌, ◌≤◌, None, length, IsErr, OnOk, vec_len};
ghost use Rattle.std.specs.Vec.{vec_capacity};
ghost use Rattle.pm_file.specs.Faults.{CountsFaults};

use crate::file_medium::FileMedium;
use crate::image_file::ImageFile;
use crate::medium::Medium;
use std::fs::OpenFile;
use std::io;
use std::io::ErrorKind;

/// A file, or nothing where a device has no words. Nothing has a length of no bytes, and neither gives nor takes a word.
#[derive(Drop)]
pub enum Backing<F> {
    File(FileMedium<F>),
    /// Its calls that failed are counted.
    Nothing { faults: u64 },
}

// A call fails that nothing can answer.
fn refuse(faults: &mut u64) -> io::Result<()>
    ensures err { IsErr result }
    ensures faults { CountsFaults faults.old faults.new result }
{
    *faults = faults.saturating_add(1);
    Err(io::Error::from(ErrorKind::Unsupported))
}

impl<F: ImageFile + OpenFile + Drop> Medium for Backing<F> {
    ghost use Rattle.pm_file.specs.Calls.{failed_behind, words_behind, HasLength};

    ghost held = { words_behind };

    ghost safe = { words_behind };

    ghost faults = { failed_behind };

    ghost is_length = { HasLength F.is_length };

    fn read_pages(&mut self, page: u64, count: usize, words: &mut Vec<u64>) -> io::Result<()> {
        match self {
            Backing::File(medium) => medium.read_pages(page, count, words),
            Backing::Nothing { faults } => refuse(faults),
        }
    }

    fn write_run(&mut self, line: u64, words: &[u64]) -> io::Result<()> {
        match self {
            Backing::File(medium) => medium.write_run(line, words),
            Backing::Nothing { faults } => refuse(faults),
        }
    }

    fn sync(&mut self, bytes: u64) -> io::Result<()> {
        match self {
            Backing::File(medium) => medium.sync(bytes),
            Backing::Nothing { faults: _ } if bytes == 0 => Ok(()),
            Backing::Nothing { faults } => refuse(faults),
        }
    }
}
