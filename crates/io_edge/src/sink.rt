// Where bytes go.
ghost use Rattle.std.specs.Prelude.{List, ℕ};
ghost use Rattle.io_edge.specs.Bytes.{WritesSome, Writes};

use thiserror::Error;

/// A write failed. None of the piece counts as taken, though what stands under the sink may hold a prefix of it.
#[derive(Clone, Copy, Debug, PartialEq, Eq, Error)]
#[error("write failed")]
pub struct WriteFault;

/// What takes bytes, a prefix of each piece.
pub trait Sink {
    /// The sink may be said to have taken these bytes in all. What it keeps of them decides: one that keeps the bytes
    /// may be said to have taken just those, one that counts lines any bytes of so many lines, one that keeps nothing
    /// any bytes.
    ghost took: { Self → List ℕ → Type 0 };

    /// How often a write has failed.
    ghost faults: { Self → ℕ };

    /// Takes a prefix of the piece, and answers how many bytes it took: at least one of a piece that has one.
    fn write(&mut self, piece: &[u8]) -> Result<usize, WriteFault>
        ensures { WritesSome (took self.old) (took self.new) (faults self.old) (faults self.new) piece.now result };
}

/// Writes the whole text, or fails after a prefix of it.
pub fn write_all<K: Sink>(sink: &mut K, text: &[u8]) -> Result<(), WriteFault>
    ensures { Writes (K.took sink.old) (K.took sink.new) (K.faults sink.old) (K.faults sink.new) text.now result }
{
    let mut count = 0;
    while count < text.len() {
        count += sink.write(&text[count..])?;
    }
    Ok(())
}
