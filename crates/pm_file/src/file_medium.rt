// A locked file as a medium of words.
ghost use Rattle.std.specs.Prelude.{◌≡◌, ◌+◌, ◌*◌, ◌^◌, ◌<◌, ◌≤◌, None, length, IfOk, OnOk, vec_len};
ghost use Rattle.std.specs.Vec.{vec_capacity};
ghost use Rattle.pm_file.specs.Bytes.{place_of_line as line_place, bytes_of_words};
ghost use Rattle.pm_file.specs.Faults.{CountsFaults};
ghost use Rattle.pm_file.specs.Placed.{AppendsFrom, AreZeros, TakesBytes};

use crate::bytes::{append_words, place_of_line, place_of_page, put_words};
use crate::image_file::ImageFile;
use crate::lock::Locked;
use crate::medium::Medium;
use crate::sizes::{BYTES_OF_A_PAGE, BYTES_OF_A_READ, BYTES_OF_A_WORD};
use std::alloc::{AllocError, Global};
use std::fs::OpenFile;
use std::io;
use std::io::ErrorKind;

/// A locked file, whose bytes go through a buffer. Its calls that fail are counted.
#[derive(Drop)]
pub struct FileMedium<F> {
    file: Locked<F>,
    /// A read takes up to a mebibyte. What an earlier call left in it is never written.
    buffer: Vec<u8>,
    faults: u64,
    ghost holds_a_read: { length buffer.items ≡ 1048576 },
}

/// Takes the memory for a buffer, which is zeros as long as nothing went through it.
pub fn take_buffer(alloc: Global) -> Result<Vec<u8>, AllocError>
    ensures length { IfOk result (λ buffer. length buffer.items ≡ 1048576) }
    ensures zeros { IfOk result (λ buffer. AreZeros buffer.items) }
{
    take_zeros(alloc, BYTES_OF_A_READ)
}

// Takes the memory for so many zeros.
fn take_zeros(alloc: Global, count: usize) -> Result<Vec<u8>, AllocError>
    ensures length { IfOk result (λ bytes. length bytes.items ≡ count) }
    ensures zeros { IfOk result (λ bytes. AreZeros bytes.items) }
{
    let bytes = vec![in alloc; 0u8; count]?;
    Ok(bytes)
}

impl<F> FileMedium<F> {
    /// A file with its buffer.
    pub fn new(file: Locked<F>, buffer: Vec<u8>) -> FileMedium<F>
        requires buffer { length buffer.items ≡ 1048576 }
        ensures file { result.file ≡ file }
    {
        FileMedium {
            file,
            buffer,
            faults: 0,
        }
    }

    // Counts a call if it failed.
    fn counted<T>(&mut self, answer: io::Result<T>) -> io::Result<T>
        ensures answer { result ≡ answer }
        ensures file { self.new.file ≡ self.old.file }
        ensures faults { CountsFaults self.old.faults self.new.faults result }
    {
        if answer.is_err() {
            self.faults = self.faults.saturating_add(1);
        }
        answer
    }
}

impl<F: ImageFile> FileMedium<F> {
    // Reads the words of so many pages from a page on.
    fn append_pages(&mut self, page: u64, count: usize, words: &mut Vec<u64>) -> io::Result<()>
        requires most { count ≤ 256 }
        requires in_file { 4096 * (page + count) < 2 ^ 63 }
        requires room { vec_len words.old + 512 * count ≤ vec_capacity words.old }
        ensures read { OnOk result
            (AppendsFrom (F.bytes self.old.file.file) (512 * page) (512 * count) words.old.items words.new.items) }
        ensures capacity { vec_capacity words.old ≤ vec_capacity words.new }
        ensures faults { self.new.faults ≡ self.old.faults }
    {
        let bytes = &mut self.buffer[0..BYTES_OF_A_PAGE * count];
        self.file.read_place(place_of_page(page), bytes)?;
        append_words(bytes, words);
        Ok(())
    }

    // Writes words from a line on.
    fn write_words(&mut self, line: u64, words: &[u64]) -> io::Result<()>
        requires most { length words.now ≤ 8 * 512 }
        requires in_range { 64 * line < 2 ^ 63 }
        ensures written { OnOk result (TakesBytes (F.bytes self.old.file.file) (F.bytes self.new.file.file)
            (line_place line) (bytes_of_words words.now)) }
        ensures faults { self.new.faults ≡ self.old.faults }
    {
        let bytes = &mut self.buffer[0..BYTES_OF_A_WORD * words.len()];
        put_words(words, bytes);
        self.file.write_place(place_of_line(line), bytes)
    }
}

impl<F: ImageFile + OpenFile + Drop> FileMedium<F> {
    // Waits until what was written is safe. It fails where the file has another length by then: another program cut or
    // lengthened it.
    fn sync_whole(&mut self, bytes: u64) -> io::Result<()>
        ensures whole { OnOk result (F.is_length self.new.file.file bytes) }
        ensures bytes { F.bytes self.new.file.file ≡ F.bytes self.old.file.file }
        ensures faults { self.new.faults ≡ self.old.faults }
    {
        self.file.sync()?;
        if self.file.end()? != bytes {
            return Err(io::Error::from(ErrorKind::InvalidData));
        }
        Ok(())
    }
}

/// A file, which tells none of its words. They are little-endian.
impl<F: ImageFile + OpenFile + Drop> Medium for FileMedium<F> {
    ghost use Rattle.pm_file.specs.Calls.{failed_calls};

    ghost held = { λ _. None };

    ghost safe = { λ _. None };

    ghost faults = { failed_calls };

    ghost is_length = { λ medium. F.is_length medium.file.file };

    fn read_pages(&mut self, page: u64, count: usize, words: &mut Vec<u64>) -> io::Result<()>
        requires settled { (⟦<FileMedium<F> as Medium>⟧.safe self.old) ≡ (⟦<FileMedium<F> as Medium>⟧.held self.old) }
        requires most { count ≤ 256 }
        requires in_file { 4096 * (page + count) < 2 ^ 63 }
        requires room { vec_len words.old + 512 * count ≤ vec_capacity words.old }
        ensures read { OnOk result
            (AppendsFrom (F.bytes self.old.file.file) (512 * page) (512 * count) words.old.items words.new.items) }
        ensures capacity { vec_capacity words.old ≤ vec_capacity words.new }
        ensures faults { CountsFaults self.old.faults self.new.faults result }
    {
        let read = self.append_pages(page, count, words);
        self.counted(read)
    }

    fn write_run(&mut self, line: u64, words: &[u64]) -> io::Result<()>
        requires most { length words.now ≤ 8 * 512 }
        requires in_range { 64 * line < 2 ^ 63 }
        ensures written { OnOk result (TakesBytes (F.bytes self.old.file.file) (F.bytes self.new.file.file)
            (line_place line) (bytes_of_words words.now)) }
        ensures faults { CountsFaults self.old.faults self.new.faults result }
    {
        let written = self.write_words(line, words);
        self.counted(written)
    }

    fn sync(&mut self, bytes: u64) -> io::Result<()>
        ensures whole { OnOk result (F.is_length self.new.file.file bytes) }
        ensures bytes { F.bytes self.new.file.file ≡ F.bytes self.old.file.file }
        ensures faults { CountsFaults self.old.faults self.new.faults result }
    {
        let synced = self.sync_whole(bytes);
        self.counted(synced)
    }
}
