// The line of the bytes that were read.
ghost use Rattle.std.specs.Prelude.{◌≡◌, ◌≤◌, ◌+◌, ◌*◌, ◌++◌, take, length};
ghost use Rattle.hex.specs.Hex.{encode_lower};
ghost use Rattle.io_edge.specs.Bytes.{Writes};
ghost use Rattle.script.specs.Texts.{answer_text, bytes_text};
ghost use Rattle.tree_model.specs.Step.{Answer};

use crate::digits::encode;
use crate::texts::count_text;
use io_edge::{Sink, WriteFault, write_all};

/// Writes the line of the bytes of a read: how many there are, and each in two hexadecimal digits, or `-` for none.
/// The whole line is put together in `text` first, whatever stands there, and goes out in as few writes as the sink takes
/// it in.
pub fn write_bytes<K: Sink>(bytes: &[u8], text: &mut [u8], sink: &mut K) -> Result<(), WriteFault>
    requires room { 2 * length bytes.now + 32 ≤ length text.old }
    ensures { Writes (K.took sink.old) (K.took sink.new) (K.faults sink.old) (K.faults sink.new)
        (answer_text (Answer.Bytes bytes.now)) result }
{
    let end = put_line(bytes, text);
    write_all(sink, &text[..end])
}

// Puts the line at the text's front, and gives its length.
fn put_line(bytes: &[u8], text: &mut [u8]) -> usize
    requires room { 2 * length bytes.now + 32 ≤ length text.old }
    ensures within { result ≤ length text.new }
    ensures line { take result text.new ≡ answer_text (Answer.Bytes bytes.now) }
{
    let count = count_text(bytes.len() as u64);
    let end = put(count.as_slice(), text, 0);
    let end = put(b" ", text, end);
    let end = put_digits_or_none(bytes, text, end);
    put(b"\n", text, end)
}

// Puts the digits of each byte behind what stands before `end`, or `-` for none.
fn put_digits_or_none(bytes: &[u8], text: &mut [u8], end: usize) -> usize
    requires room { end + 2 * length bytes.now + 1 ≤ length text.old }
    ensures within { result ≤ end + 2 * length bytes.now + 1 }
    ensures behind { take result text.new ≡ take end text.old ++ bytes_text bytes.now }
{
    if bytes.is_empty() {
        put(b"-", text, end)
    } else {
        put_digits(bytes, text, end)
    }
}

fn put_digits(bytes: &[u8], text: &mut [u8], end: usize) -> usize
    requires room { end + 2 * length bytes.now ≤ length text.old }
    ensures end { result ≡ end + 2 * length bytes.now }
    ensures behind { take result text.new ≡ take end text.old ++ encode_lower bytes.now }
{
    let last = end + 2 * bytes.len();
    encode(bytes, &mut text[end..last]);
    last
}

// Puts a piece behind what stands before `end`.
fn put(piece: &[u8], text: &mut [u8], end: usize) -> usize
    requires room { end + length piece.now ≤ length text.old }
    ensures end { result ≡ end + length piece.now }
    ensures behind { take result text.new ≡ take end text.old ++ piece.now }
{
    let last = end + piece.len();
    text[end..last].copy_from_slice(piece);
    last
}
