// A sink that counts answers.
ghost use Rattle.std.specs.Prelude.{◌≡◌, ◌∷◌, [], ℕ, length, Ok, if◌then◌else◌};
ghost use Rattle.io_edge.specs.Bytes.{Takes, WritesSome};
ghost use Rattle.io_edge.specs.Count.{one_more};
ghost use Rattle.script.specs.Answers.{begins_with as begins_with_word};
ghost use Rattle.script.specs.Lines.{newline};
ghost use Rattle.crash_replay.specs.Tally.{IsTallyOf, accepted_count, refused_count, lacking_count};

use arrayvec::ArrayVec;
use io_edge::{Sink, WriteFault};

/// A sink that counts the lines that end in what it takes: those that begin with `ok`, those that begin with `error`, and
/// those that are `error NoMemory`. It keeps no more of the bytes, takes no memory, and never fails. A count stands still at
/// 2^64 - 1.
#[derive(Drop)]
pub struct Tally {
    accepted: u64,
    refused: u64,
    lacking: u64,
    // The line that has not ended yet, up to a byte more than `error NoMemory` has.
    begun: ArrayVec<u8, 15>,
}

impl Tally {
    /// A tally that took nothing yet.
    pub fn new() -> Tally
        ensures { IsTallyOf result [] }
    {
        Tally {
            accepted: 0,
            refused: 0,
            lacking: 0,
            begun: ArrayVec::new(),
        }
    }

    /// How many lines began with `ok`.
    pub fn accepted(&self) -> u64
        ensures { result ≡ accepted_count self.now }
    {
        self.accepted
    }

    /// How many lines began with `error`.
    pub fn refused(&self) -> u64
        ensures { result ≡ refused_count self.now }
    {
        self.refused
    }

    /// How many lines were `error NoMemory`.
    pub fn lacking(&self) -> u64
        ensures { result ≡ lacking_count self.now }
    {
        self.lacking
    }

    // Takes a byte.
    fn take_byte(&mut self, byte: u8)
        ensures { Takes (IsTallyOf self.old) (byte ∷ []) (IsTallyOf self.new) }
    {
        if byte == b'\n' {
            self.end_line();
        } else if !self.begun.is_full() {
            self.begun.push(byte);
        }
    }

    // Counts the line that ends here.
    fn end_line(&mut self)
        ensures { Takes (IsTallyOf self.old) (newline ∷ []) (IsTallyOf self.new) }
    {
        let line = self.begun.as_slice();
        let accepted = begins_with(line, b"ok");
        let refused = begins_with(line, b"error");
        let lacking = line == b"error NoMemory".as_slice();
        self.accepted = counted(self.accepted, accepted);
        self.refused = counted(self.refused, refused);
        self.lacking = counted(self.lacking, lacking);
        self.begun.clear();
    }
}

fn begins_with(line: &[u8], word: &[u8]) -> bool
    ensures { result ≡ begins_with_word word.now line.now }
{
    line.starts_with(word)
}

// A count after one that counts or doesn't.
fn counted(count: u64, counts: bool) -> u64
    ensures { result ≡ (if counts then one_more count else count) }
{
    if counts {
        count.saturating_add(1)
    } else {
        count
    }
}

impl Sink for Tally {
    ghost took = { IsTallyOf };

    ghost faults = { λ _. 0 };

    /// Takes the whole piece.
    fn write(&mut self, piece: &[u8]) -> Result<usize, WriteFault>
        ensures takes { WritesSome (IsTallyOf self.old) (IsTallyOf self.new) 0 0 piece.now result }
        ensures whole { result ≡ Ok (length piece.now) }
    {
        for byte in piece {
            self.take_byte(*byte);
        }
        Ok(piece.len())
    }
}
