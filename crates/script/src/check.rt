// The text of a check of a sound volume.
ghost use Rattle.std.specs.Prelude.{◌≡◌, ◌≤◌};
ghost use Rattle.arrayvec.specs.ArrayVec.{array_vec_len};
ghost use Rattle.io_edge.specs.Bytes.{Writes};
ghost use Rattle.script.specs.Tables.{table_text, table_room};
ghost use Rattle.script.specs.Check.{check_text};

use crate::texts::push_text;
use arrayvec::ArrayVec;
use io_edge::{Sink, WriteFault, write_all};
use itoa::Buffer;

// No text of counts is longer. The words of a check have 86 bytes, and its eight numbers at most 20 digits each.
pub type CountsText = ArrayVec<u8, 256>;

/// What a check counts in a sound volume.
#[derive(Clone, Copy, Debug, PartialEq, Eq)]
pub struct CheckCounts {
    /// The directories of the tree, the root too.
    pub directories: u64,
    /// The files of the tree.
    pub files: u64,
    /// The paths of the tree but the root's.
    pub names: u64,
    /// The held slots with a rename pointer.
    pub pointers: u64,
    /// The slots of kept directory pages that aren't live and have a word that isn't zero.
    pub slots: u64,
    /// The pages that aren't kept and have a descriptor that isn't zero.
    pub pages: u64,
    /// The inodes that aren't reached and have a word that isn't zero.
    pub inodes: u64,
    /// The reached inodes that have other links than are counted.
    pub counts: u64,
}

/// Writes the text of a check: `sound`, and a line each of the tree and of the repairs.
pub fn write_check<K: Sink>(counts: &CheckCounts, sink: &mut K) -> Result<(), WriteFault>
    ensures { Writes (K.took sink.old) (K.took sink.new) (K.faults sink.old) (K.faults sink.new)
        (check_text counts.now) result }
{
    write_all(sink, text_of(counts).as_slice())
}

// The text of a check.
fn text_of(counts: &CheckCounts) -> CountsText
    ensures { result.items ≡ check_text counts.now }
{
    let mut text = text_of_table(&[
        (b"sound\ntree directories ", counts.directories),
        (b" files ", counts.files),
        (b" names ", counts.names),
    ]);
    let repairs = text_of_table(&[
        (b"repairs pointers ", counts.pointers),
        (b" slots ", counts.slots),
        (b" pages ", counts.pages),
        (b" inodes ", counts.inodes),
        (b" counts ", counts.counts),
    ]);
    push_text(&mut text, repairs.as_slice());
    text
}

// The text of a table: the words and the number of each row, and a newline behind them.
pub fn text_of_table(table: &[(&[u8], u64)]) -> CountsText
    requires room { table_room table.now ≤ 256 }
    ensures items { result.items ≡ table_text table.now }
    ensures short { array_vec_len result ≤ table_room table.now }
{
    let mut text = ArrayVec::new();
    for (words, number) in table {
        push_text(&mut text, words);
        push_text(&mut text, Buffer::new().format(*number).as_bytes());
    }
    push_text(&mut text, b"\n");
    text
}
