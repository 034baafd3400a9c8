// Bytes into memory.
ghost use Rattle.std.specs.Prelude.{◌≡◌, ◌≤◌, vec_len, IsOk, IfOk};
ghost use Rattle.std.specs.Vec.{vec_capacity};
ghost use Rattle.io_edge.specs.Bytes.{WritesSome};

use crate::calls::is_next_listed;
use crate::{Sink, WriteFault};
use pm_trait::NoMemory;
use std::alloc::Global;

/// A sink that takes `room` bytes in all. The writes with the numbers in `failing`, counted from 1, fail, and so
/// does each write of a byte once the sink is full.
#[derive(Drop)]
pub struct MemSink {
    bytes: Vec<u8>,
    room: usize,
    failing: Vec<u64>,
    writes: u64,
    faults: u64,
    ghost fits: { vec_len bytes ≤ room },
    ghost reserved: { room ≤ vec_capacity bytes },
}

impl MemSink {
    ghost use Rattle.io_edge.specs.MemSink.{IsNew, bytes_taken};

    /// A sink that took nothing yet. It takes the memory for its room here and none later, and fails where there is
    /// none.
    pub fn new(alloc: Global, room: usize, failing: Vec<u64>) -> Result<MemSink, NoMemory>
        ensures new { IfOk result (IsNew room failing.items) }
        ensures no_room { room ≡ 0 → IsOk result }
    {
        let bytes = Vec::with_capacity(alloc, room).map_err(|_| NoMemory)?;
        Ok(MemSink {
            bytes,
            room,
            failing,
            writes: 0,
            faults: 0,
        })
    }

    /// The bytes that it took.
    pub fn bytes(&self) -> &[u8]
        ensures { result.now ≡ bytes_taken self.now }
    {
        &self.bytes
    }
}

impl Sink for MemSink {
    ghost use Rattle.io_edge.specs.MemSink.{IsNextWrite, bytes_taken, write_faults};

    ghost took = { λ sink bytes. bytes ≡ bytes_taken sink };

    ghost faults = { write_faults };

    /// Takes of the piece what still fits. It fails exactly where its number is listed, and where the piece has a
    /// byte and none fits.
    fn write(&mut self, piece: &[u8]) -> Result<usize, WriteFault>
        ensures takes { WritesSome (λ bytes. bytes ≡ bytes_taken self.old) (λ bytes. bytes ≡ bytes_taken self.new)
            (write_faults self.old) (write_faults self.new) piece.now result }
        ensures next { IsNextWrite self.old self.new piece.now result }
    {
        let listed = is_next_listed(&self.failing, self.writes);
        self.writes = self.writes.saturating_add(1);
        let count = piece.len().min(self.room - self.bytes.len());
        if listed || (count == 0 && !piece.is_empty()) {
            self.faults = self.faults.saturating_add(1);
            return Err(WriteFault);
        }
        let _ = self.bytes.extend_from_slice(&piece[..count]);
        Ok(count)
    }
}
