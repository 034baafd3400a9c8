// Bytes from a reader of the standard library.
ghost use Rattle.std.specs.Prelude.{◌≡◌, ◌≤◌, ℕ, None, length, IfOk, OnErr};
ghost use Rattle.std.specs.Io.KnownBytes.{ReadConsumes};
ghost use Rattle.io_edge.specs.Bytes.{Reads};
ghost use Rattle.io_edge.specs.Count.{one_more};

use crate::{ReadFault, Source};
use std::io::{ErrorKind, Read};

/// A source over a reader of the standard library. It doesn't tell which bytes are left. A read that a signal
/// interrupts is made again, up to 2^64 - 1 times.
#[derive(Drop)]
pub struct StdSource<R> {
    reader: R,
    faults: u64,
}

impl<R: Read> StdSource<R> {
    ghost use Rattle.io_edge.specs.StdSource.{reader_of};

    /// A source of what the reader gives.
    pub fn new(reader: R) -> StdSource<R>
        ensures reader { reader_of result ≡ reader }
        ensures faults { ⟦<StdSource<R> as Source>⟧.faults result ≡ 0 }
    {
        StdSource { reader, faults: 0 }
    }
}

impl<R: Read> Source for StdSource<R> {
    ghost use Rattle.io_edge.specs.StdSource.{reader_of, failed_reads};

    ghost left = { λ _. None };

    ghost faults = { failed_reads };

    /// Passes a read on to the reader. Each failure but an interruption is a fault.
    fn read(&mut self, buf: &mut [u8]) -> Result<usize, ReadFault>
        ensures gives { Reads None None (failed_reads self.old) (failed_reads self.new) buf.new result }
        ensures one_fault { OnErr result (failed_reads self.new ≡ one_more (failed_reads self.old)) }
        ensures reader { ReadConsumes (R.remaining (reader_of self.old)) (R.remaining (reader_of self.new))
            result buf.new }
    {
        let answer = read_uninterrupted(&mut self.reader, buf);
        if answer.is_err() {
            self.faults = self.faults.saturating_add(1);
        }
        answer
    }
}

// One read, again where a signal interrupts it.
fn read_uninterrupted<R: Read>(reader: &mut R, buf: &mut [u8]) -> Result<usize, ReadFault>
    ensures count { IfOk result (λ count. count ≤ length buf.new) }
    ensures reader { ReadConsumes (R.remaining reader.old) (R.remaining reader.new) result buf.new }
{
    for _ in 0..u64::MAX {
        match reader.read(buf) {
            Ok(count) => return Ok(count),
            Err(fault) => {
                if fault.kind() != ErrorKind::Interrupted {
                    return Err(ReadFault);
                }
            }
        }
    }
    Err(ReadFault)
}
