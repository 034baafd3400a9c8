// The bytes of the last read, and the text of the reply to it.
ghost use Rattle.std.specs.Prelude.{◌≡◌, ◌≤◌, [], take, drop, length, vec_len, IfOk, false};
ghost use Rattle.io_edge.specs.Bytes.{Writes};
ghost use Rattle.script.specs.Texts.{answer_text};
ghost use Rattle.tree_model.specs.Run.{State};
ghost use Rattle.tree_model.specs.Step.{Answer};
ghost use Rattle.tree_model.specs.Tree.{bytes_of};
ghost use Rattle.data_ops.specs.Reading.{HasFile};
ghost use Rattle.image_reading.specs.Residue.{Residue};
ghost use Rattle.volume.specs.Beside.{StandsBeside};
ghost use Rattle.volume.specs.declared.prepare.contents.TheConstants.{LONGEST_READ};
ghost use Rattle.engine.specs.declared.last_read.TheConstants.{REPLY_BYTES};

use data_ops::read;
use io_edge::{Sink, WriteFault};
use pm_trait::{NoMemory, Pm};
use script::write_bytes;
use std::alloc::Global;
use std::marker::Model;
use volume::{LONGEST_READ, Reading, Volume};

// What the longest reply to a read has room in: two digits for each byte, and what stands around them.
const REPLY_BYTES: usize = 2 * LONGEST_READ as usize + 32;

/// The bytes that were read last, and room for the text of the reply, in buffers that are made once.
#[derive(Drop)]
pub struct LastRead {
    buffer: Vec<u8>,
    count: usize,
    text: Vec<u8>,
    ghost whole: { vec_len buffer ≡ LONGEST_READ },
    ghost inside: { count ≤ LONGEST_READ },
    ghost text_whole: { vec_len text ≡ REPLY_BYTES },
}

impl Model for LastRead {
    ghost use Rattle.std.specs.Prelude.{List, ℕ, take};

    ghost Value = { List ℕ };

    ghost view = { λ last. take last.count last.buffer.items };
}

impl LastRead {
    /// Nothing is read yet. All the memory is taken here.
    pub fn new(alloc: Global) -> Result<LastRead, NoMemory>
        ensures { IfOk result (λ last. last ≡ []) }
    {
        let buffer = room(alloc, LONGEST_READ as usize)?;
        let text = room(alloc, REPLY_BYTES)?;
        Ok(LastRead {
            buffer,
            count: 0,
            text,
        })
    }

    /// The bytes.
    pub fn as_slice(&self) -> &[u8]
        ensures { result.now ≡ self.now }
    {
        &self.buffer[..self.count]
    }

    /// Reads bytes of a file, which no running call touches, and gives their number: as many as are asked for, at most 16,384, and the file
    /// has from the offset on.
    pub fn fill<P: Pm>(&mut self, volume: &Volume, reading: &Reading, pm: &P) -> u64
        requires going { volume.now.stopped ≡ false }
        requires file { HasFile volume.now (P.view pm.now) reading.now.inode }
        requires short { reading.now.count ≤ LONGEST_READ }
        ensures bytes { (state : State) (residue : Residue) → StandsBeside volume.now (P.view pm.now) state residue →
            self.new ≡ take reading.now.count (drop reading.now.offset (bytes_of state.tree reading.now.inode)) }
        ensures count { result ≡ length self.new }
    {
        // From 0 on: of a vector's `[..end]` nothing is known once it was lent.
        let room = &mut self.buffer[0..reading.count as usize];
        let count = read(volume, reading.inode, reading.offset, room, pm);
        self.count = count as usize;
        count
    }

    /// Writes the line of the bytes: two hexadecimal digits for each.
    pub fn write<K: Sink>(&mut self, sink: &mut K) -> Result<(), WriteFault>
        ensures same { self.new ≡ self.old }
        ensures writes { Writes (K.took sink.old) (K.took sink.new) (K.faults sink.old) (K.faults sink.new)
            (answer_text (Answer.Bytes self.old)) result }
    {
        write_bytes(&self.buffer[..self.count], self.text.as_mut_slice(), sink)
    }
}

// Room for so many bytes.
fn room(alloc: Global, count: usize) -> Result<Vec<u8>, NoMemory>
    ensures { IfOk result (λ room. vec_len room ≡ count) }
{
    vec![in alloc; 0; count].map_err(|_| NoMemory)
}
