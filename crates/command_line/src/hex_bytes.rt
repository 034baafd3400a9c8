// Bytes that a word of a command line spells.
ghost use Rattle.std.specs.Prelude.{◌≡◌, ◌≢◌, [], IfOk};
ghost use Rattle.command_line.specs.Job.{hex_bytes_of};

use hex::{FromHexError, decode};
use pm_trait::NoMemory;
use std::alloc::Global;
use std::marker::Model;

/// Bytes that a word spells in hexadecimal, at least one, seen as the list of them.
#[derive(Drop)]
pub struct HexBytes {
    bytes: Vec<u8>,
}

impl Model for HexBytes {
    ghost use Rattle.std.specs.Prelude.{◌≢◌, [], List, ℕ};

    ghost Value = { List ℕ };

    ghost view = { λ spelled. spelled.bytes.items };

    ghost invariant = { λ spelled. spelled.bytes.items ≢ [] };
}

impl HexBytes {
    /// The bytes that the word spells in hexadecimal. None where it spells none, or can't be read.
    pub fn of_word(alloc: Global, word: &str) -> Result<Option<HexBytes>, NoMemory>
        ensures { IfOk result (λ bytes. bytes ≡ hex_bytes_of word.now) }
    {
        if word == "-" {
            return Ok(None);
        }
        match decode(alloc, word) {
            Ok(bytes) if bytes.is_empty() => Ok(None),
            Ok(bytes) => Ok(Some(HexBytes { bytes })),
            Err(FromHexError::OutOfMemory) => Err(NoMemory),
            Err(_) => Ok(None),
        }
    }

    /// The bytes.
    pub fn as_slice(&self) -> &[u8]
        ensures bytes { result.now ≡ self.now }
        ensures filled { result.now ≢ [] }
    {
        self.bytes.as_slice()
    }
}
