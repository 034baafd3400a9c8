// A file that nobody else uses meanwhile.
ghost use Rattle.std.specs.Prelude.{◌≡◌, ◌<◌, ℕ, IsTrue, IfOk, OnOk, OnErr, length};
ghost use Rattle.pm_file.specs.Placed.{AreZeros, HasBytes, TakesBytes, TakesZeros};

use crate::image_file::ImageFile;
use std::fs::OpenFile;
use std::io;

/// A file whose lock was taken. No other module sees its field, so `new` and `shared` alone make one.
#[derive(Drop)]
pub struct Locked<F> {
    file: F,
}

impl<F: ImageFile + OpenFile + Drop> Locked<F> {
    /// Locks a file.
    pub fn new(file: F) -> io::Result<Locked<F>>
        ensures locked { IfOk result (λ locked. IsTrue (F.is_locked locked.file)) }
        ensures refused { OnErr result (F.is_refused file) }
    {
        Ok(Locked { file: file.lock()? })
    }

    /// Locks a file together with others who do just that.
    pub fn shared(file: F) -> io::Result<Locked<F>>
        ensures shared { IfOk result (λ locked. IsTrue (F.is_shared locked.file)) }
        ensures refused { OnErr result (F.is_refused file) }
    {
        Ok(Locked {
            file: file.lock_shared()?,
        })
    }

    /// Cuts it to so many bytes, or writes zeros behind its end, so that the system has room for all of them, and waits until
    /// that is safe. What isn't a file of bytes has no length to be set, and is left alone.
    pub fn resize(&mut self, bytes: u64, zeros: &[u8]) -> io::Result<()>
        requires some { 0 < length zeros.now }
        requires zeros { AreZeros zeros.now }
        ensures zeros { OnOk result ((had : ℕ) × F.is_length self.old.file had ×
            TakesZeros (F.bytes self.old.file) (F.bytes self.new.file) had bytes) }
        ensures lock { F.is_locked self.new.file ≡ F.is_locked self.old.file }
    {
        let had = self.file.length()?;
        self.file.set_len(had.min(bytes))?;
        self.put_zeros(had, bytes, zeros)?;
        self.file.sync_all()
    }
}

impl<F: ImageFile + OpenFile> Locked<F> {
    /// Waits until what was written is safe. Of the length nothing is known behind it until it is asked again.
    pub fn sync(&mut self) -> io::Result<()>
        ensures { F.bytes self.new.file ≡ F.bytes self.old.file }
    {
        self.file.sync_data()
    }
}

impl<F: ImageFile> Locked<F> {
    /// How many bytes the open file has, whatever its path names by now.
    pub fn length(&self) -> io::Result<u64>
        ensures { IfOk result (F.is_length self.now.file) }
    {
        self.file.length()
    }

    /// The place where it ends.
    pub fn end(&mut self) -> io::Result<u64>
        ensures end { IfOk result (F.is_length self.new.file) }
        ensures bytes { F.bytes self.new.file ≡ F.bytes self.old.file }
    {
        self.file.end()
    }

    /// Reads the bytes from a place on, until the buffer is full.
    pub fn read_place(&self, place: u64, buffer: &mut [u8]) -> io::Result<()>
        ensures { OnOk result (HasBytes (F.bytes self.now.file) place buffer.new) }
    {
        self.file.read_place(place, buffer)
    }

    // Writes zeros from a place to another, as many as there are at a time.
    fn put_zeros(&mut self, from: u64, to: u64, zeros: &[u8]) -> io::Result<()>
        requires some { 0 < length zeros.now }
        requires zeros { AreZeros zeros.now }
        ensures zeros { OnOk result (TakesZeros (F.bytes self.old.file) (F.bytes self.new.file) from to) }
        ensures lock { F.is_locked self.new.file ≡ F.is_locked self.old.file }
    {
        let mut place = from;
        while place < to {
            let count = (to - place).min(zeros.len() as u64);
            self.file.write_place(place, &zeros[..count as usize])?;
            place += count;
        }
        Ok(())
    }

    /// Writes all the bytes from a place on.
    pub fn write_place(&mut self, place: u64, run: &[u8]) -> io::Result<()>
        ensures written { OnOk result (TakesBytes (F.bytes self.old.file) (F.bytes self.new.file) place run.now) }
        ensures lock { F.is_locked self.new.file ≡ F.is_locked self.old.file }
    {
        self.file.write_place(place, run)
    }
}
