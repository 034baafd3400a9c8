// The pieces of a line in the listing of a tree.
ghost use Rattle.std.specs.Prelude.{◌≡◌, ◌≤◌, [], ◌∷◌, ◌++◌, length, codes, if◌then◌else◌};
ghost use Rattle.io_edge.specs.Bytes.{Writes};
ghost use Rattle.script.specs.Entries.{entry_front, below_text, digits_text, no_bytes_text};
ghost use Rattle.script.specs.declared.listing.TheConstants.{LONGEST_PIECE};

use crate::digits::encode;
use crate::texts::{LineText, push_number, push_text, write_name};
use arrayvec::ArrayVec;
use io_edge::{Sink, WriteFault, write_all};
use layout::Name;
use tree_model::Stat;

/// The most bytes that `write_piece` writes.
pub const LONGEST_PIECE: usize = 512;

/// Writes the words of a listing's line before the path: `d` or `f`, the inode, its links, and a directory's names or a file's
/// bytes.
pub fn write_front<K: Sink>(stat: &Stat, sink: &mut K) -> Result<(), WriteFault>
    ensures { Writes (K.took sink.old) (K.took sink.new) (K.faults sink.old) (K.faults sink.new)
        (entry_front stat.now) result }
{
    write_all(sink, front(stat).as_slice())
}

/// Writes the path of the root.
pub fn write_root<K: Sink>(sink: &mut K) -> Result<(), WriteFault>
    ensures { Writes (K.took sink.old) (K.took sink.new) (K.faults sink.old) (K.faults sink.new) (codes "/") result }
{
    write_all(sink, b"/")
}

/// Writes a slash and a name of a path.
pub fn write_below<K: Sink>(name: &Name, sink: &mut K) -> Result<(), WriteFault>
    ensures { Writes (K.took sink.old) (K.took sink.new) (K.faults sink.old) (K.faults sink.new)
        (below_text name.now) result }
{
    write_all(sink, b"/")?;
    write_name(name, sink)
}

/// Writes a piece of a file's bytes, each in two hexadecimal digits. It has at most 512 bytes.
pub fn write_piece<K: Sink>(bytes: &[u8], sink: &mut K) -> Result<(), WriteFault>
    requires short { length bytes.now ≤ LONGEST_PIECE }
    ensures { Writes (K.took sink.old) (K.took sink.new) (K.faults sink.old) (K.faults sink.new)
        (digits_text bytes.now) result }
{
    let mut text = [0; 2 * LONGEST_PIECE];
    let digits = &mut text[..2 * bytes.len()];
    encode(bytes, digits);
    write_all(sink, digits)
}

/// Writes what stands behind the path of a file without bytes.
pub fn write_no_bytes<K: Sink>(sink: &mut K) -> Result<(), WriteFault>
    ensures { Writes (K.took sink.old) (K.took sink.new) (K.faults sink.old) (K.faults sink.new) no_bytes_text result }
{
    write_all(sink, b" -")
}

// The words before the path.
fn front(stat: &Stat) -> LineText
    ensures { result.items ≡ entry_front stat.now }
{
    let mut line = ArrayVec::new();
    push_text(&mut line, kind_letter(stat.dir));
    push_text(&mut line, b" ");
    push_number(&mut line, stat.inode);
    push_text(&mut line, b" ");
    push_number(&mut line, stat.links);
    push_text(&mut line, b" ");
    push_number(&mut line, stat.amount);
    push_text(&mut line, b" ");
    line
}

fn kind_letter(dir: bool) -> &'static [u8]
    ensures letter { result.now ≡ (if dir then codes "d" else codes "f") }
    ensures short { length result.now ≤ 1 }
{
    if dir { b"d" } else { b"f" }
}
