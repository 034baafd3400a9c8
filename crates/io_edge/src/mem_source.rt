// Bytes out of memory.
ghost use Rattle.std.specs.Prelude.{◌≤◌, Some, vec_len};
ghost use Rattle.io_edge.specs.Bytes.{Reads};

use crate::calls::is_next_listed;
use crate::{ReadFault, Source};

/// A source of the bytes of a list. It gives up to `step` bytes in a read, and the reads with the numbers in
/// `failing`, counted from 1, fail.
#[derive(Drop)]
pub struct MemSource {
    bytes: Vec<u8>,
    at: usize,
    step: usize,
    failing: Vec<u64>,
    reads: u64,
    faults: u64,
    ghost in_range: { at ≤ vec_len bytes },
    ghost moves: { 1 ≤ step },
}

impl MemSource {
    ghost use Rattle.io_edge.specs.MemSource.{IsNew};

    /// A source that has all of these bytes left. A step is at least one byte.
    pub fn new(bytes: Vec<u8>, step: usize, failing: Vec<u64>) -> MemSource
        requires { 1 ≤ step }
        ensures { IsNew bytes.items step failing.items result }
    {
        MemSource {
            bytes,
            at: 0,
            step,
            failing,
            reads: 0,
            faults: 0,
        }
    }
}

impl Source for MemSource {
    ghost use Rattle.io_edge.specs.MemSource.{IsNextRead, bytes_left, read_faults};

    ghost left = { λ source. Some (bytes_left source) };

    ghost faults = { read_faults };

    /// Gives the next bytes: the least of the step, the buffer's length and the bytes left. It fails exactly where
    /// its number is listed, and then leaves the buffer as it was.
    fn read(&mut self, buf: &mut [u8]) -> Result<usize, ReadFault>
        ensures gives { Reads (Some (bytes_left self.old)) (Some (bytes_left self.new))
            (read_faults self.old) (read_faults self.new) buf.new result }
        ensures next { IsNextRead self.old self.new buf.old buf.new result }
    {
        let fails = is_next_listed(&self.failing, self.reads);
        self.reads = self.reads.saturating_add(1);
        if fails {
            self.faults = self.faults.saturating_add(1);
            return Err(ReadFault);
        }
        let rest = &self.bytes[self.at..];
        let count = self.step.min(buf.len().min(rest.len()));
        buf[..count].copy_from_slice(&rest[..count]);
        self.at += count;
        Ok(count)
    }
}
