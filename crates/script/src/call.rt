ghost use Rattle.std.specs.Prelude.{◌≡◌, ◌≤◌, ◌*◌, ◌∷◌, length};
ghost use Rattle.script.specs.Lines.{words_of, number_of as number_of_word, bytes_of_hex, of_words, of_one, of_two, of_three, of_four, write_of, read_of, or_bad_line, on_path, both_paths as both_paths_of, first_fault as first_fault_of, call_of};
ghost use Rattle.tree_model.specs.declared.command.Command.TheVariants.{Truncate};
ghost use Rattle.tree_model.specs.PathText.{path_of};
ghost use Rattle.script.specs.Calls.{line_of_call};

use crate::digits::decode;
use crate::lines::LONGEST_LINE;
use crate::number::number_of;
use crate::words::{ends_in_word, next_word, without_spaces};
use tree_model::{Command, FileBytes, LineFault, Path};

/// What a line asks for, or why it is no command.
#[derive(Drop)]
pub enum Call<'a> {
    Do(Command<'a>),
    Refused(LineFault),
}

impl<'a> Call<'a> {
    /// What a line asks for. A line that is too long, of no command, or of another number of words
    /// than its command takes, and one in which a number or the bytes can't be read is refused before any path is read.
    /// Of two paths a fault of form in either comes before a name that is too long. `scratch`, of at least 32,768 bytes,
    /// is where the bytes of a line are decoded.
    pub fn parse(line: &'a [u8], scratch: &'a mut [u8]) -> Call<'a>
        requires scratch { 32768 ≤ length scratch.old }
        ensures call { line_of_call result ≡ call_of line.now }
    {
        match command_of(line, scratch) {
            Ok(command) => Call::Do(command),
            Err(fault) => Call::Refused(fault),
        }
    }
}

fn command_of<'a>(line: &'a [u8], scratch: &'a mut [u8]) -> Result<Command<'a>, LineFault>
    requires scratch { 32768 ≤ length scratch.old }
    ensures { result ≡ call_of line.now }
{
    if line.len() > LONGEST_LINE {
        return Err(LineFault::BadLine);
    }
    command_of_words(line, scratch)
}

// What the words of a line ask for.
fn command_of_words<'a>(line: &'a [u8], scratch: &'a mut [u8]) -> Result<Command<'a>, LineFault>
    requires room { length line.now ≤ 2 * length scratch.old }
    ensures { result ≡ of_words (words_of line.now) }
{
    let Some((verb, rest)) = next_word(line) else {
        return Err(LineFault::BadLine);
    };
    let Some((first, rest)) = next_word(rest) else {
        return command_alone(verb);
    };
    let Some((second, rest)) = next_word(rest) else {
        return command_on_path(verb, first);
    };
    command_of_rest(verb, first, second, rest, scratch)
}

// What a line asks for of which three words and the text behind them are these. The bytes of a `write` are decoded where they stand,
// up to the line's end: a space among them is no digit.
fn command_of_rest<'a>(
    verb: &[u8],
    first: &'a [u8],
    second: &'a [u8],
    rest: &'a [u8],
    scratch: &'a mut [u8],
) -> Result<Command<'a>, LineFault>
    requires room { length rest.now ≤ 2 * length scratch.old }
    ensures { result ≡ of_words (verb.now ∷ first.now ∷ second.now ∷ words_of rest.now) }
{
    let text = without_spaces(rest);
    if verb == b"write".as_slice() && ends_in_word(text) {
        return write_of_words(first, second, text, scratch);
    }
    let Some((third, rest)) = next_word(text) else {
        return command_on_two(verb, first, second);
    };
    match next_word(rest) {
        Some(_) => Err(LineFault::BadLine),
        None => command_on_three(verb, first, second, third, scratch),
    }
}

fn command_alone(verb: &[u8]) -> Result<Command<'_>, LineFault>
    ensures { result ≡ of_one verb.now }
{
    if verb == b"df".as_slice() {
        Ok(Command::Df)
    } else {
        Err(LineFault::BadLine)
    }
}

fn command_on_path<'a>(verb: &[u8], path: &'a [u8]) -> Result<Command<'a>, LineFault>
    ensures { result ≡ of_two verb.now path.now }
{
    if verb == b"create".as_slice() {
        let path = Path::parse(path)?;
        Ok(Command::Create { path })
    } else if verb == b"mkdir".as_slice() {
        let path = Path::parse(path)?;
        Ok(Command::Mkdir { path })
    } else if verb == b"unlink".as_slice() {
        let path = Path::parse(path)?;
        Ok(Command::Unlink { path })
    } else if verb == b"rmdir".as_slice() {
        let path = Path::parse(path)?;
        Ok(Command::Rmdir { path })
    } else if verb == b"stat".as_slice() {
        let path = Path::parse(path)?;
        Ok(Command::Stat { path })
    } else if verb == b"list".as_slice() {
        let path = Path::parse(path)?;
        Ok(Command::List { path })
    } else {
        Err(LineFault::BadLine)
    }
}

fn command_on_two<'a>(
    verb: &[u8],
    first: &'a [u8],
    second: &'a [u8],
) -> Result<Command<'a>, LineFault>
    ensures { result ≡ of_three verb.now first.now second.now }
{
    if verb == b"link".as_slice() {
        let (from, to) = both_paths(first, second)?;
        Ok(Command::Link { from, to })
    } else if verb == b"rename".as_slice() {
        let (from, to) = both_paths(first, second)?;
        Ok(Command::Rename { from, to })
    } else if verb == b"truncate".as_slice() {
        truncate_of_words(first, second)
    } else {
        Err(LineFault::BadLine)
    }
}

fn command_on_three<'a>(
    verb: &[u8],
    path: &'a [u8],
    second: &[u8],
    third: &[u8],
    scratch: &'a mut [u8],
) -> Result<Command<'a>, LineFault>
    requires room { length third.now ≤ 2 * length scratch.old }
    ensures { result ≡ of_four verb.now path.now second.now third.now }
{
    if verb == b"write".as_slice() {
        write_of_words(path, second, third, scratch)
    } else if verb == b"read".as_slice() {
        read_of_words(path, second, third)
    } else {
        Err(LineFault::BadLine)
    }
}

fn truncate_of_words<'a>(path: &'a [u8], size: &[u8]) -> Result<Command<'a>, LineFault>
    ensures { result ≡ or_bad_line (number_of_word size.now)
        (λ size. on_path (λ path. Truncate path size) (path_of path.now)) }
{
    let Some(size) = number_of(size) else {
        return Err(LineFault::BadLine);
    };
    let path = Path::parse(path)?;
    Ok(Command::Truncate { path, size })
}

fn write_of_words<'a>(
    path: &'a [u8],
    offset: &[u8],
    bytes: &[u8],
    scratch: &'a mut [u8],
) -> Result<Command<'a>, LineFault>
    requires room { length bytes.now ≤ 2 * length scratch.old }
    ensures { result ≡ write_of path.now offset.now bytes.now }
{
    let Some(offset) = number_of(offset) else {
        return Err(LineFault::BadLine);
    };
    let Some(bytes) = bytes_of(bytes, scratch) else {
        return Err(LineFault::BadLine);
    };
    let path = Path::parse(path)?;
    Ok(Command::Write {
        path,
        offset,
        bytes,
    })
}

fn read_of_words<'a>(path: &'a [u8], offset: &[u8], count: &[u8]) -> Result<Command<'a>, LineFault>
    ensures { result ≡ read_of path.now offset.now count.now }
{
    let Some(offset) = number_of(offset) else {
        return Err(LineFault::BadLine);
    };
    let Some(count) = number_of(count) else {
        return Err(LineFault::BadLine);
    };
    let path = Path::parse(path)?;
    Ok(Command::Read {
        path,
        offset,
        count,
    })
}

// The bytes that a word spells in hexadecimal, decoded at the scratch's front.
fn bytes_of<'a>(word: &[u8], scratch: &'a mut [u8]) -> Option<FileBytes<'a>>
    requires room { length word.now ≤ 2 * length scratch.old }
    ensures { result ≡ bytes_of_hex word.now }
{
    if word == b"-".as_slice() {
        return Some(FileBytes::new(&scratch[..0]));
    }
    let bytes = &mut scratch[..word.len() / 2];
    if decode(word, bytes) {
        Some(FileBytes::new(bytes))
    } else {
        None
    }
}

fn both_paths<'a>(first: &'a [u8], second: &'a [u8]) -> Result<(Path<'a>, Path<'a>), LineFault>
    ensures { result ≡ both_paths_of (path_of first.now) (path_of second.now) }
{
    match (Path::parse(first), Path::parse(second)) {
        (Ok(first), Ok(second)) => Ok((first, second)),
        (Ok(_), Err(fault)) | (Err(fault), Ok(_)) => Err(fault),
        (Err(fault), Err(other)) => Err(first_fault(fault, other)),
    }
}

// The fault that is told of two: a fault of form before a name that is too long.
fn first_fault(fault: LineFault, other: LineFault) -> LineFault
    ensures { result ≡ first_fault_of fault other }
{
    match fault {
        LineFault::NameTooLong => other,
        LineFault::BadLine | LineFault::BadPath => fault,
    }
}
