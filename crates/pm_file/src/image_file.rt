// The file behind an image.
ghost use Rattle.std.specs.Prelude.{◌≡◌, ℕ, Bool, true, List, Option, None, IsTrue, IfOk, OnOk, OnErr};
ghost use Rattle.pm_file.specs.Placed.{HasBytes, TakesBytes};

use std::fs::{File, OpenFile};
use std::io;
use std::io::{ErrorKind, Seek, SeekFrom};
use std::os::unix::fs::FileExt;

/// A file that can be locked against everybody else who locks it before use, or against those alone who want it alone, and
/// whose bytes are read and written at places, wherever an earlier call ended.
pub trait ImageFile {
    /// Whether its lock was taken. A file of the system doesn't show it.
    ghost is_locked: { Self → Bool };

    /// Whether its lock was taken together with others.
    ghost is_shared: { Self → Bool };

    /// What is known of a file whose lock is refused, and from nothing else.
    ghost is_refused: { Self → Type 0 };

    /// It has so many bytes, which only its own answer gives.
    ghost is_length: { Self → ℕ → Type 0 };

    /// Its bytes as a read finds them, where it tells them.
    ghost bytes: { Self → Option (List ℕ) };

    /// Takes the lock, or fails at once where another open file has it. It is held until the file is closed.
    fn lock(self) -> io::Result<Self>
    where
        Self: Sized,
        ensures locked { IfOk result (λ file. IsTrue (is_locked file)) }
        ensures refused { OnErr result (is_refused self) };

    /// Takes the lock together with others who take it so, or fails at once where another open file has it alone.
    fn lock_shared(self) -> io::Result<Self>
    where
        Self: Sized,
        ensures shared { IfOk result (λ file. IsTrue (is_shared file)) }
        ensures refused { OnErr result (is_refused self) };

    /// How many bytes the open file has, whatever its path names by now. What is no file of bytes has none, and for a folder
    /// it fails.
    fn length(&self) -> io::Result<u64>
        ensures { IfOk result (is_length self.now) };

    /// The place where a file of bytes ends, which is its length.
    fn end(&mut self) -> io::Result<u64>
        ensures end { IfOk result (is_length self.new) }
        ensures bytes { bytes self.new ≡ bytes self.old };

    /// Reads the bytes from a place on, until the buffer is full.
    fn read_place(&self, place: u64, buffer: &mut [u8]) -> io::Result<()>
        ensures { OnOk result (HasBytes (bytes self.now) place buffer.new) };

    /// Writes all the bytes from a place on.
    fn write_place(&mut self, place: u64, run: &[u8]) -> io::Result<()>
        ensures written { OnOk result (TakesBytes (bytes self.old) (bytes self.new) place run.now) }
        ensures lock { is_locked self.new ≡ is_locked self.old };
}

/// No contract says what the system's lock does, so every file counts as locked here, and only tests show that it is. Nor
/// does a file of the system tell its bytes.
impl ImageFile for File {
    ghost is_locked = { λ _. true };

    ghost is_shared = { λ _. true };

    ghost is_refused = { λ _. Unit {0} };

    ghost is_length = { λ _ _. Unit {0} };

    ghost bytes = { λ _. None };

    fn lock(self) -> io::Result<File> {
        self.try_lock()?;
        Ok(self)
    }

    fn lock_shared(self) -> io::Result<File> {
        self.try_lock_shared()?;
        Ok(self)
    }

    fn length(&self) -> io::Result<u64> {
        let metadata = self.metadata()?;
        if metadata.is_dir() {
            return Err(io::Error::from(ErrorKind::IsADirectory));
        }
        Ok(metadata.len())
    }

    fn end(&mut self) -> io::Result<u64> {
        self.seek(SeekFrom::End(0))
    }

    fn read_place(&self, place: u64, buffer: &mut [u8]) -> io::Result<()> {
        self.read_exact_at(buffer, place)
    }

    fn write_place(&mut self, place: u64, run: &[u8]) -> io::Result<()> {
        self.write_all_at(run, place)
    }
}

#[cfg(test)]
mod tests;
