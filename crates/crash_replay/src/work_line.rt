// A line of a generated script: three words of a generator, and the text that they stand for.
ghost use Rattle.std.specs.Prelude.{◌≡◌, ◌≤◌, ◌+◌, ◌*◌, ◌%◌, [], ◌∷◌, ◌++◌, length, replicate, decimal};
ghost use Rattle.std.specs.List.{join_with_byte};
ghost use Rattle.arrayvec.specs.ArrayVec.{array_vec_len};
ghost use Rattle.hex.specs.Hex.{encode_lower};
ghost use Rattle.script.specs.Lines.{space};
ghost use Rattle.script.specs.Texts.{line_text};
ghost use Rattle.crash_replay.specs.Work.{word_of, behind_word, draw_of, behind_draw, kind_of as kind_of_rest, words_of, drawn_words, directory_of, file_of, bytes_of};

use arrayvec::ArrayVec;
use hex::encode_to_slice;
use itoa::Buffer;
use rand_core::utils::NextWord;
use rand_pcg::Lcg64Xsh32;

// A line with its newline. The longest writes 64 bytes to a file behind an offset of four digits.
pub type Line = ArrayVec<u8, 148>;

// Three words of the generator, in the order in which they come.
#[derive(Clone, Copy)]
pub struct Draw {
    pub a: u32,
    pub b: u32,
    pub c: u32,
}

// What a line asks for.
pub enum Kind {
    Create,
    Mkdir,
    Link,
    Unlink,
    Rmdir,
    RenameFile,
    RenameDirectory,
    Write,
    Truncate,
    Read,
}

// Takes the next three words, whatever the line needs of them.
#[tactic(auto, unfolding(crate::specs::Work::draw_of, crate::specs::Work::behind_draw))]
pub fn next_draw(generator: &mut Lcg64Xsh32) -> Draw
    ensures draw { result ≡ draw_of generator.old }
    ensures behind { generator.new ≡ behind_draw generator.old }
{
    let a = next_word(generator);
    let b = next_word(generator);
    let c = next_word(generator);
    Draw { a, b, c }
}

fn next_word(generator: &mut Lcg64Xsh32) -> u32
    ensures word { result ≡ word_of generator.old }
    ensures behind { generator.new ≡ behind_word generator.old }
{
    generator.next_word()
}

// The line that the words stand for, with its newline.
#[tactic(auto, unfolding(crate::specs::Work::drawn_words))]
pub fn line_of(draw: &Draw) -> Line
    ensures { result.items ≡ line_text (drawn_words draw.now) }
{
    let mut line = command_of(kind_of(draw.a % 12), draw);
    line.push(b'\n');
    line
}

#[tactic(auto, unfolding(crate::specs::Work::kind_of))]
fn kind_of(rest: u32) -> Kind
    ensures { result ≡ kind_of_rest rest }
{
    match rest {
        0 | 1 => Kind::Create,
        2 => Kind::Mkdir,
        3 => Kind::Link,
        4 => Kind::Unlink,
        5 => Kind::Rmdir,
        6 => Kind::RenameFile,
        7 => Kind::RenameDirectory,
        8 | 9 => Kind::Write,
        10 => Kind::Truncate,
        _ => Kind::Read,
    }
}

// The line of a kind, without its newline.
#[tactic(auto, unfolding(crate::specs::Work::words_of))]
fn command_of(kind: Kind, draw: &Draw) -> Line
    ensures items { result.items ≡ join_with_byte space (words_of kind draw.now) }
    ensures short { array_vec_len result ≤ 147 }
{
    match kind {
        Kind::Create => on_file(b"create ", draw.b),
        Kind::Mkdir => on_directory(b"mkdir ", draw.b),
        Kind::Link => on_files(b"link ", draw),
        Kind::Unlink => on_file(b"unlink ", draw.b),
        Kind::Rmdir => on_directory(b"rmdir ", draw.b),
        Kind::RenameFile => on_files(b"rename ", draw),
        Kind::RenameDirectory => on_directories(b"rename ", draw),
        Kind::Write => write_on(draw),
        Kind::Truncate => truncate_on(draw),
        Kind::Read => read_on(draw),
    }
}

fn on_directory(verb: &[u8], x: u32) -> Line
    requires short { length verb.now ≤ 9 }
    ensures items { result.items ≡ verb.now ++ directory_of x }
    ensures short { array_vec_len result ≤ length verb.now + 3 }
{
    let mut line = ArrayVec::new();
    push_text(&mut line, verb);
    push_directory(&mut line, x);
    line
}

fn on_directories(verb: &[u8], draw: &Draw) -> Line
    requires short { length verb.now ≤ 9 }
    ensures items { result.items ≡ verb.now ++ directory_of draw.now.b ++ space ∷ directory_of draw.now.c }
    ensures short { array_vec_len result ≤ length verb.now + 7 }
{
    let mut line = on_directory(verb, draw.b);
    push_text(&mut line, b" ");
    push_directory(&mut line, draw.c);
    line
}

fn on_file(verb: &[u8], x: u32) -> Line
    requires short { length verb.now ≤ 9 }
    ensures items { result.items ≡ verb.now ++ file_of x }
    ensures short { array_vec_len result ≤ length verb.now + 7 }
{
    let mut line = ArrayVec::new();
    push_text(&mut line, verb);
    push_file(&mut line, x);
    line
}

fn on_files(verb: &[u8], draw: &Draw) -> Line
    requires short { length verb.now ≤ 9 }
    ensures items { result.items ≡ verb.now ++ file_of draw.now.b ++ space ∷ file_of draw.now.c }
    ensures short { array_vec_len result ≤ length verb.now + 15 }
{
    let mut line = on_file(verb, draw.b);
    push_text(&mut line, b" ");
    push_file(&mut line, draw.c);
    line
}

#[tactic(auto, using(crate::proofs::WorkTexts::offset_digits), unfolding(crate::specs::Work::words_of, crate::specs::Work::bytes_of))]
fn write_on(draw: &Draw) -> Line
    ensures items { result.items ≡ join_with_byte space (words_of Kind.Write draw.now) }
    ensures short { array_vec_len result ≤ 147 }
{
    let mut line = on_file(b"write ", draw.b);
    push_text(&mut line, b" ");
    push_number(&mut line, draw.c % 8_192);
    push_text(&mut line, b" ");
    push_digits(
        &mut line,
        (draw.c / 8_192 % 256) as u8,
        1 + draw.a / 12 % 64,
    );
    line
}

#[tactic(auto, using(crate::proofs::WorkTexts::size_digits), unfolding(crate::specs::Work::words_of))]
fn truncate_on(draw: &Draw) -> Line
    ensures items { result.items ≡ join_with_byte space (words_of Kind.Truncate draw.now) }
    ensures short { array_vec_len result ≤ 147 }
{
    let mut line = on_file(b"truncate ", draw.b);
    push_text(&mut line, b" ");
    push_number(&mut line, draw.c % 10_000);
    line
}

#[tactic(auto, unfolding(crate::specs::Work::words_of))]
fn read_on(draw: &Draw) -> Line
    ensures items { result.items ≡ join_with_byte space (words_of Kind.Read draw.now) }
    ensures short { array_vec_len result ≤ 147 }
{
    let mut line = on_file(b"read ", draw.b);
    push_text(&mut line, b" 0 64");
    line
}

#[tactic(auto, using(crate::proofs::WorkTexts::directory_digits), unfolding(crate::specs::Work::directory_of))]
fn push_directory(line: &mut Line, x: u32)
    requires room { array_vec_len line.old + 3 ≤ 148 }
    ensures items { line.new.items ≡ line.old.items ++ directory_of x }
    ensures len { array_vec_len line.new ≤ array_vec_len line.old + 3 }
{
    push_text(line, b"/d");
    push_number(line, x % 4);
}

#[tactic(auto, using(crate::proofs::WorkTexts::two_digits), unfolding(crate::specs::Work::file_of))]
fn push_file(line: &mut Line, x: u32)
    requires room { array_vec_len line.old + 7 ≤ 148 }
    ensures items { line.new.items ≡ line.old.items ++ file_of x }
    ensures len { array_vec_len line.new ≤ array_vec_len line.old + 7 }
{
    push_directory(line, x);
    push_text(line, b"/f");
    push_number(line, x / 4 % 16);
}

fn push_number(line: &mut Line, number: u32)
    requires room { array_vec_len line.old + length (decimal number) ≤ 148 }
    ensures items { line.new.items ≡ line.old.items ++ decimal number }
    ensures len { array_vec_len line.new ≡ array_vec_len line.old + length (decimal number) }
{
    push_text(line, Buffer::new().format(number).as_bytes());
}

// Adds two hexadecimal digits for each of so many equal bytes.
#[tactic(auto, using(crate::proofs::WorkTexts::encode_more))]
fn push_digits(line: &mut Line, byte: u8, count: u32)
    requires room { array_vec_len line.old + 2 * count ≤ 148 }
    ensures items { line.new.items ≡ line.old.items ++ encode_lower (replicate count byte) }
    ensures len { array_vec_len line.new ≡ array_vec_len line.old + 2 * count }
{
    let digits = digits_of(byte);
    for _pushed in 0..count {
        push_text(line, &digits);
    }
}

fn digits_of(byte: u8) -> [u8; 2]
    ensures digits { result ≡ encode_lower (byte ∷ []) }
    ensures two { length result ≡ 2 }
{
    let mut digits = [0; 2];
    let _ = encode_to_slice([byte].as_slice(), &mut digits);
    digits
}

pub fn push_text(line: &mut Line, text: &[u8])
    requires room { array_vec_len line.old + length text.now ≤ 148 }
    ensures items { line.new.items ≡ line.old.items ++ text.now }
    ensures len { array_vec_len line.new ≡ array_vec_len line.old + length text.now }
{
    let _ = line.try_extend_from_slice(text);
}
