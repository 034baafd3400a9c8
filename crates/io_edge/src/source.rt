// Where bytes come from.
ghost use Rattle.std.specs.Prelude.{List, ℕ, Option};
ghost use Rattle.io_edge.specs.Bytes.{Reads};

use thiserror::Error;

/// A read failed. It took no byte.
#[derive(Clone, Copy, Debug, PartialEq, Eq, Error)]
#[error("read failed")]
pub struct ReadFault;

/// What gives bytes, in pieces of any size.
pub trait Source {
    /// The bytes that are left, where they are known.
    ghost left: { Self → Option (List ℕ) };

    /// How often a read has failed.
    ghost faults: { Self → ℕ };

    /// Fills a prefix of the buffer, and answers how many bytes it gave: none only at the end of the input or
    /// where the buffer is empty.
    fn read(&mut self, buf: &mut [u8]) -> Result<usize, ReadFault>
        ensures { Reads (left self.old) (left self.new) (faults self.old) (faults self.new) buf.new result };
}
