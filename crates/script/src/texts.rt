ghost use Rattle.std.specs.Prelude.{◌≡◌, ◌≤◌, ◌+◌, ◌++◌, ◌∷◌, [], length, codes, decimal, if◌then◌else◌};
ghost use Rattle.arrayvec.specs.ArrayVec.{array_vec_len};
ghost use Rattle.io_edge.specs.Bytes.{Writes};
ghost use Rattle.script.specs.Lines.{newline, space};
ghost use Rattle.script.specs.Texts.{name_text, byte_text, refusal_text, fault_text, stands_for_itself as stands_for_itself_of, answer_text, formatted_text, not_a_volume_text, damaged_text, acked_text, session_text, busy_text};
ghost use Rattle.script.specs.Replies.{IsPlain, reply_text};
ghost use Rattle.tree_model.specs.Step.{Answer};

use arrayvec::ArrayVec;
use io_edge::{Sink, WriteFault, write_all};
use itoa::Buffer;
use layout::{Geometry, Name};
use percent_encoding::percent_encode_byte;
use tree_model::{Free, LineFault, Refusal, Reply, Stat};

// The text of a line that needs no bytes of a file. None is longer than 128 bytes.
pub type LineText = ArrayVec<u8, 128>;

// A name has at most 110 bytes, and each becomes at most three.
type NameText = ArrayVec<u8, 330>;

/// Writes the line of a reply that is neither `Bytes` nor `Names`.
pub fn write_plain<K: Sink>(reply: &Reply, sink: &mut K) -> Result<(), WriteFault>
    requires plain { IsPlain reply.now }
    ensures { Writes (K.took sink.old) (K.took sink.new) (K.faults sink.old) (K.faults sink.new)
        (reply_text reply.now) result }
{
    write_all(sink, reply_line(reply).as_slice())
}

/// Writes the beginning of the line of a listing, up to the number of names.
pub fn write_count<K: Sink>(count: u64, sink: &mut K) -> Result<(), WriteFault>
    ensures { Writes (K.took sink.old) (K.took sink.new) (K.faults sink.old) (K.faults sink.new)
        (codes "ok " ++ decimal count) result }
{
    write_all(sink, count_text(count).as_slice())
}

/// Writes a name, with `%` and two digits for each byte that does not stand for itself.
pub fn write_name<K: Sink>(name: &Name, sink: &mut K) -> Result<(), WriteFault>
    ensures { Writes (K.took sink.old) (K.took sink.new) (K.faults sink.old) (K.faults sink.new)
        (name_text name.now) result }
{
    write_all(sink, escaped(name).as_slice())
}

/// Writes a space.
pub fn write_space<K: Sink>(sink: &mut K) -> Result<(), WriteFault>
    ensures { Writes (K.took sink.old) (K.took sink.new) (K.faults sink.old) (K.faults sink.new) (space ∷ []) result }
{
    write_all(sink, b" ")
}

/// Writes a newline.
pub fn write_newline<K: Sink>(sink: &mut K) -> Result<(), WriteFault>
    ensures { Writes (K.took sink.old) (K.took sink.new) (K.faults sink.old) (K.faults sink.new) (newline ∷ []) result }
{
    write_all(sink, b"\n")
}

/// Writes the line that tells the numbers of a fresh volume.
pub fn write_formatted<K: Sink>(geometry: &Geometry, sink: &mut K) -> Result<(), WriteFault>
    ensures { Writes (K.took sink.old) (K.took sink.new) (K.faults sink.old) (K.faults sink.new)
        (formatted_text geometry.now.pages) result }
{
    write_all(sink, formatted_line(geometry).as_slice())
}

/// Writes the line that tells that a device holds no volume.
pub fn write_not_a_volume<K: Sink>(sink: &mut K) -> Result<(), WriteFault>
    ensures { Writes (K.took sink.old) (K.took sink.new) (K.faults sink.old) (K.faults sink.new)
        not_a_volume_text result }
{
    write_all(sink, b"not a volume\n")
}

/// Writes the line that tells the rule that a device breaks, and where.
pub fn write_damaged<K: Sink>(rule: u64, place: u64, sink: &mut K) -> Result<(), WriteFault>
    ensures { Writes (K.took sink.old) (K.took sink.new) (K.faults sink.old) (K.faults sink.new)
        (damaged_text rule place) result }
{
    write_all(sink, damaged_line(rule, place).as_slice())
}

/// Writes the line that tells how many lines of a script had been acknowledged before a crash.
pub fn write_acked<K: Sink>(acked: u64, sink: &mut K) -> Result<(), WriteFault>
    ensures { Writes (K.took sink.old) (K.took sink.new) (K.faults sink.old) (K.faults sink.new)
        (acked_text acked) result }
{
    write_all(sink, acked_line(acked).as_slice())
}

/// Writes whose the answer is that follows: the number of its session and a space.
pub fn write_session<K: Sink>(session: u64, sink: &mut K) -> Result<(), WriteFault>
    ensures { Writes (K.took sink.old) (K.took sink.new) (K.faults sink.old) (K.faults sink.new)
        (session_text session) result }
{
    write_all(sink, session_start(session).as_slice())
}

/// Writes the line that tells that a running call is in the way: the inode of a node that both name, and the number of that call.
pub fn write_busy<K: Sink>(inode: u64, holder: u64, sink: &mut K) -> Result<(), WriteFault>
    ensures { Writes (K.took sink.old) (K.took sink.new) (K.faults sink.old) (K.faults sink.new)
        (busy_text inode holder) result }
{
    write_all(sink, busy_line(inode, holder).as_slice())
}

// The line of a plain reply.
fn reply_line(reply: &Reply) -> LineText
    requires plain { IsPlain reply.now }
    ensures items { result.items ≡ reply_text reply.now }
{
    match reply {
        Reply::Done => line_of(b"ok"),
        Reply::Count(count) => count_line(*count),
        Reply::Status(stat) => status_line(stat),
        Reply::Space(free) => space_line(free),
        Reply::Refused(refusal) => error_line(refusal_name(*refusal)),
        Reply::Unread(fault) => error_line(fault_name(*fault)),
        Reply::Fault => error_line(b"Fault"),
        Reply::Stopped => error_line(b"Stopped"),
        Reply::Bytes(_) | Reply::Names { .. } => unreachable!(),
    }
}

// A line of these words.
fn line_of(words: &[u8]) -> LineText
    requires short { length words.now ≤ 127 }
    ensures items { result.items ≡ words.now ++ newline ∷ [] }
{
    let mut line = ArrayVec::new();
    push_text(&mut line, words);
    line.push(b'\n');
    line
}

fn error_line(name: &[u8]) -> LineText
    requires short { length name.now ≤ 11 }
    ensures items { result.items ≡ codes "error " ++ name.now ++ newline ∷ [] }
{
    let mut line = ArrayVec::new();
    push_text(&mut line, b"error ");
    push_text(&mut line, name);
    line.push(b'\n');
    line
}

pub fn count_text(count: u64) -> LineText
    ensures items { result.items ≡ codes "ok " ++ decimal count }
    ensures short { array_vec_len result ≤ 23 }
{
    let mut line = ArrayVec::new();
    push_text(&mut line, b"ok ");
    push_number(&mut line, count);
    line
}

fn count_line(count: u64) -> LineText
    ensures { result.items ≡ codes "ok " ++ decimal count ++ newline ∷ [] }
{
    let mut line = count_text(count);
    line.push(b'\n');
    line
}

fn status_line(stat: &Stat) -> LineText
    ensures { result.items ≡ answer_text (Answer.Status stat.now) }
{
    let mut line = ArrayVec::new();
    push_text(&mut line, b"ok ");
    push_text(&mut line, kind_word(stat.dir));
    push_text(&mut line, b" inode ");
    push_number(&mut line, stat.inode);
    push_text(&mut line, b" links ");
    push_number(&mut line, stat.links);
    push_text(&mut line, b" ");
    push_text(&mut line, amount_word(stat.dir));
    push_text(&mut line, b" ");
    push_number(&mut line, stat.amount);
    line.push(b'\n');
    line
}

pub fn space_line(free: &Free) -> LineText
    ensures items { result.items ≡ answer_text (Answer.Space free.now) }
    ensures short { array_vec_len result ≤ 100 }
{
    let mut line = ArrayVec::new();
    push_text(&mut line, b"ok inodes ");
    push_number(&mut line, free.inodes);
    push_text(&mut line, b" ");
    push_number(&mut line, free.inodes_all);
    push_text(&mut line, b" pages ");
    push_number(&mut line, free.pages);
    push_text(&mut line, b" ");
    push_number(&mut line, free.pages_all);
    line.push(b'\n');
    line
}

fn formatted_line(geometry: &Geometry) -> LineText
    ensures { result.items ≡ formatted_text geometry.now.pages }
{
    let mut line = ArrayVec::new();
    push_text(&mut line, b"formatted pages ");
    push_number(&mut line, geometry.pages);
    push_text(&mut line, b" inodes ");
    push_number(&mut line, geometry.inodes);
    push_text(&mut line, b" data ");
    push_number(&mut line, geometry.data_pages);
    push_text(&mut line, b"\n");
    line
}

fn damaged_line(rule: u64, place: u64) -> LineText
    ensures { result.items ≡ damaged_text rule place }
{
    let mut line = ArrayVec::new();
    push_text(&mut line, b"damaged ");
    push_number(&mut line, rule);
    push_text(&mut line, b" ");
    push_number(&mut line, place);
    push_text(&mut line, b"\n");
    line
}

fn acked_line(acked: u64) -> LineText
    ensures { result.items ≡ acked_text acked }
{
    let mut line = ArrayVec::new();
    push_text(&mut line, b"acked ");
    push_number(&mut line, acked);
    line.push(b'\n');
    line
}

fn session_start(session: u64) -> LineText
    ensures { result.items ≡ session_text session }
{
    let mut start = ArrayVec::new();
    push_number(&mut start, session);
    start.push(b' ');
    start
}

fn busy_line(inode: u64, holder: u64) -> LineText
    ensures { result.items ≡ busy_text inode holder }
{
    let mut line = ArrayVec::new();
    push_text(&mut line, b"error Busy ");
    push_number(&mut line, inode);
    push_text(&mut line, b" ");
    push_number(&mut line, holder);
    line.push(b'\n');
    line
}

fn kind_word(dir: bool) -> &'static [u8]
    ensures word { result.now ≡ (if dir then codes "dir" else codes "file") }
    ensures short { length result.now ≤ 5 }
{
    if dir { b"dir" } else { b"file" }
}

fn amount_word(dir: bool) -> &'static [u8]
    ensures word { result.now ≡ (if dir then codes "names" else codes "size") }
    ensures short { length result.now ≤ 5 }
{
    if dir { b"names" } else { b"size" }
}

fn refusal_name(refusal: Refusal) -> &'static [u8]
    ensures name { result.now ≡ refusal_text refusal }
    ensures short { length result.now ≤ 11 }
{
    match refusal {
        Refusal::NotFound => b"NotFound",
        Refusal::NotDir => b"NotDir",
        Refusal::Root => b"Root",
        Refusal::Exists => b"Exists",
        Refusal::IsDir => b"IsDir",
        Refusal::NotEmpty => b"NotEmpty",
        Refusal::IntoItself => b"IntoItself",
        Refusal::TooBig => b"TooBig",
        Refusal::NoInodes => b"NoInodes",
        Refusal::NoPages => b"NoPages",
        Refusal::NoMemory => b"NoMemory",
    }
}

fn fault_name(fault: LineFault) -> &'static [u8]
    ensures name { result.now ≡ fault_text fault }
    ensures short { length result.now ≤ 11 }
{
    match fault {
        LineFault::BadLine => b"BadLine",
        LineFault::BadPath => b"BadPath",
        LineFault::NameTooLong => b"NameTooLong",
    }
}

// Adds a text.
pub(crate) fn push_text<const SIZE: usize>(line: &mut ArrayVec<u8, SIZE>, text: &[u8])
    requires room { array_vec_len line.old + length text.now ≤ SIZE }
    ensures items { line.new.items ≡ line.old.items ++ text.now }
    ensures len { array_vec_len line.new ≡ array_vec_len line.old + length text.now }
{
    let _ = line.try_extend_from_slice(text);
}

// Adds a number in decimal.
pub fn push_number(line: &mut LineText, number: u64)
    requires room { array_vec_len line.old + 20 ≤ 128 }
    ensures items { line.new.items ≡ line.old.items ++ decimal number }
    ensures len { array_vec_len line.new ≤ array_vec_len line.old + 20 }
{
    let mut digits = Buffer::new();
    push_text(line, digits.format(number).as_bytes());
}

// A name as it is written.
fn escaped(name: &Name) -> NameText
    ensures { result.items ≡ name_text name.now }
{
    let mut text = ArrayVec::new();
    for byte in name.as_slice() {
        push_byte(&mut text, *byte);
    }
    text
}

#[tactic(auto, using(crate::proofs::Pieces::length_percent))]
fn push_byte(text: &mut NameText, byte: u8)
    requires room { array_vec_len text.old + 3 ≤ 330 }
    ensures items { text.new.items ≡ text.old.items ++ byte_text byte }
    ensures len { array_vec_len text.new ≤ array_vec_len text.old + 3 }
{
    if stands_for_itself(byte) {
        text.push(byte);
    } else {
        push_text(text, percent_encode_byte(byte).as_bytes());
    }
}

fn stands_for_itself(byte: u8) -> bool
    ensures { result ≡ stands_for_itself_of byte }
{
    byte.is_ascii_alphanumeric() || byte == b'-' || byte == b'.' || byte == b'_' || byte == b'~'
}
