// Bytes to a writer of the standard library.
ghost use Rattle.std.specs.Prelude.{◌≡◌, ◌<◌, ◌≤◌, ℕ, length, IfOk, OnErr};
ghost use Rattle.std.specs.Io.KnownBytes.{Keeps, WriteAppends};
ghost use Rattle.io_edge.specs.Bytes.{WritesSome};
ghost use Rattle.io_edge.specs.Count.{one_more};
ghost use Rattle.io_edge.specs.Writer.{WritesThrough};

use crate::{Sink, WriteFault};
use std::io::{ErrorKind, Write};

/// A sink over a writer of the standard library, which it flushes after each write. It doesn't tell which bytes it
/// took, and after a fault the writer may hold a prefix of the piece. A write or a flush that a signal interrupts is made
/// again, up to 2^64 - 1 times.
#[derive(Drop)]
pub struct StdSink<W> {
    writer: W,
    faults: u64,
}

impl<W: Write> StdSink<W> {
    ghost use Rattle.io_edge.specs.StdSink.{writer_of};

    /// A sink that hands its bytes to the writer.
    pub fn new(writer: W) -> StdSink<W>
        ensures writer { writer_of result ≡ writer }
        ensures faults { ⟦<StdSink<W> as Sink>⟧.faults result ≡ 0 }
    {
        StdSink { writer, faults: 0 }
    }
}

impl<W: Write> Sink for StdSink<W> {
    ghost use Rattle.io_edge.specs.StdSink.{writer_of, failed_writes};

    /// It keeps no bytes, so it may be said to have taken any: what is proved of them tells nothing, and each clause on
    /// output holds.
    ghost took = { λ _ _. Unit {0} };

    ghost faults = { failed_writes };

    /// Passes a write on to the writer and flushes it. Each failure of either but an interruption is a fault, and so is
    /// a writer that takes no byte of a piece that has one.
    fn write(&mut self, piece: &[u8]) -> Result<usize, WriteFault>
        ensures writes { WritesSome (λ _. Unit {0}) (λ _. Unit {0})
            (failed_writes self.old) (failed_writes self.new) piece.now result }
        ensures one_fault { OnErr result (failed_writes self.new ≡ one_more (failed_writes self.old)) }
        ensures writer { WritesThrough (W.contents (writer_of self.old)) (W.contents (writer_of self.new))
            piece.now result }
    {
        let answer = write_through(&mut self.writer, piece);
        if answer.is_err() {
            self.faults = self.faults.saturating_add(1);
        }
        answer
    }
}

// Writes a prefix of the piece and flushes the writer.
fn write_through<W: Write>(writer: &mut W, piece: &[u8]) -> Result<usize, WriteFault>
    ensures count { IfOk result (λ count. count ≤ length piece.now) }
    ensures some { 0 < length piece.now → IfOk result (λ count. 1 ≤ count) }
    ensures writer { WritesThrough (W.contents writer.old) (W.contents writer.new) piece.now result }
{
    let count = write_uninterrupted(writer, piece)?;
    if count == 0 && !piece.is_empty() {
        return Err(WriteFault);
    }
    match flush_uninterrupted(writer) {
        Ok(()) => Ok(count),
        Err(fault) => Err(fault),
    }
}

// One write, again where a signal interrupts it.
fn write_uninterrupted<W: Write>(writer: &mut W, piece: &[u8]) -> Result<usize, WriteFault>
    ensures count { IfOk result (λ count. count ≤ length piece.now) }
    ensures writer { WriteAppends (W.contents writer.old) (W.contents writer.new) result piece.now }
{
    for _ in 0..u64::MAX {
        match writer.write(piece) {
            Ok(count) => return Ok(count),
            Err(fault) => {
                if fault.kind() != ErrorKind::Interrupted {
                    return Err(WriteFault);
                }
            }
        }
    }
    Err(WriteFault)
}

// One flush, again where a signal interrupts it.
fn flush_uninterrupted<W: Write>(writer: &mut W) -> Result<(), WriteFault>
    ensures { Keeps (W.contents writer.old) (W.contents writer.new) }
{
    for _ in 0..u64::MAX {
        match writer.flush() {
            Ok(()) => return Ok(()),
            Err(fault) => {
                if fault.kind() != ErrorKind::Interrupted {
                    return Err(WriteFault);
                }
            }
        }
    }
    Err(WriteFault)
}
