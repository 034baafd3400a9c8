// Lines of a script: what each asks for, and how they are read, however a source cuts them.
ghost use Rattle.std.specs.Prelude.{◌≡◌, ◌≤◌};

use io_edge::{MemSource, ReadFault, Source};
use script::{Buffers, Call, Lines, Step};
use std::alloc::Global;
use std::test::Fail;
use tree_model::{Command, LineFault};

// What a line asks for, in a word.
fn word_of(alloc: Global, line: &[u8]) -> Result<&'static str, Fail> {
    let mut scratch = vec![in alloc; 0; 32_768]?;
    let word = match Call::parse(line, &mut scratch) {
        Call::Do(Command::Create { .. }) => "create",
        Call::Do(Command::Mkdir { .. }) => "mkdir",
        Call::Do(Command::Link { .. }) => "link",
        Call::Do(Command::Unlink { .. }) => "unlink",
        Call::Do(Command::Rmdir { .. }) => "rmdir",
        Call::Do(Command::Write { .. }) => "write",
        Call::Do(Command::Truncate { .. }) => "truncate",
        Call::Do(Command::Read { .. }) => "read",
        Call::Do(Command::Stat { .. }) => "stat",
        Call::Do(Command::List { .. }) => "list",
        Call::Do(Command::Df) => "df",
        Call::Do(Command::Rename { .. }) => "rename",
        Call::Refused(LineFault::BadLine) => "BadLine",
        Call::Refused(LineFault::BadPath) => "BadPath",
        Call::Refused(LineFault::NameTooLong) => "NameTooLong",
    };
    Ok(word)
}

#[test]
fn calls(rt: HostRuntime) -> Result<(), Fail> {
    for (line, wanted) in [
        ("create /a", "create"),
        ("  stat   /a ", "stat"),
        ("list /", "list"),
        ("", "BadLine"),
        ("  ", "BadLine"),
        ("list", "BadLine"),
        ("list / x", "BadLine"),
        (" df ", "df"),
        ("df /", "BadLine"),
        ("df a b", "BadLine"),
        ("mkdir /a", "mkdir"),
        ("  mkdir   /a/b ", "mkdir"),
        ("mkdir /", "mkdir"),
        ("mkdir", "BadLine"),
        ("mkdir /a /b", "BadLine"),
        ("Mkdir /a", "BadLine"),
        ("mkdir/a", "BadLine"),
        ("link /a  /b", "link"),
        ("link /a", "BadLine"),
        ("link /a /b /c", "BadLine"),
        ("link a /%", "BadPath"),
        ("link /a b", "BadPath"),
        ("link a /b", "BadPath"),
        ("unlink /a", "unlink"),
        ("unlink /a 1", "BadLine"),
        ("rmdir /a", "rmdir"),
        ("rmdir", "BadLine"),
        ("write /a 0 61fF", "write"),
        ("write /a 0 -", "write"),
        ("write /a 0 6", "BadLine"),
        ("write /a 0 0123456789ABCDEFabcdef", "write"),
        ("write /a 0 61 ", "write"),
        ("write /a 0   61", "write"),
        ("write /a 0 -  ", "write"),
        ("write /a 0  ", "BadLine"),
        ("write /a 0 61 62", "BadLine"),
        ("write /a 0 6 1", "BadLine"),
        ("write /a 0 61 62 ", "BadLine"),
        ("write /a 0 /0", "BadLine"),
        ("write /a 0 0:", "BadLine"),
        ("write /a 0 @0", "BadLine"),
        ("write /a 0 0G", "BadLine"),
        ("write /a 0 `0", "BadLine"),
        ("write /a 0 0g", "BadLine"),
        ("write /a 0 0\u{7f}", "BadLine"),
        ("write /a 0 \u{e9}", "BadLine"),
        (
            "write /a 0 61616161616161616161616161616161616161616161616161616161616161616g",
            "BadLine",
        ),
        ("write a 0 6g", "BadLine"),
        ("write a 18446744073709551616 61", "BadLine"),
        ("write a 0 61", "BadPath"),
        ("truncate /a 00000000000000000001", "truncate"),
        ("truncate a -", "BadLine"),
        ("read /a 0 18446744073709551615", "read"),
        ("read a 000000000000000000001 1", "BadLine"),
        ("read /a 0", "BadLine"),
        ("read /a 0 1 2", "BadLine"),
        ("rename /a /b", "rename"),
        ("rename /a b", "BadPath"),
        ("rename /a", "BadLine"),
        ("frob a", "BadLine"),
        ("create a", "BadPath"),
        ("create /%4", "BadPath"),
        ("stat /.", "BadPath"),
        ("mkdir a", "BadPath"),
        ("mkdir /a/", "BadPath"),
    ] {
        assert_eq!(rt; word_of(rt.alloc(), line.as_bytes())?, wanted, "at {line}");
    }
    Ok(())
}

#[test]
fn long_calls(rt: HostRuntime) -> Result<(), Fail> {
    for (start, count, wanted) in [
        ("create /", 110, "create"),
        ("create /", 111, "NameTooLong"),
        ("create /", 65_528, "NameTooLong"),
        ("create /", 65_529, "BadLine"),
        ("mkdir /", 110, "mkdir"),
        ("mkdir /", 111, "NameTooLong"),
        ("mkdir /", 65_529, "NameTooLong"),
        ("mkdir /", 65_530, "BadLine"),
        ("link /a /", 111, "NameTooLong"),
        ("link a /", 111, "BadPath"),
    ] {
        let mut line = Vec::from_slice(rt.alloc(), start.as_bytes())?;
        line.extend_from_slice(vec![in rt.alloc(); b'n'; count]?.as_slice())?;
        assert_eq!(rt;
            word_of(rt.alloc(), &line)?,
            wanted,
            "at {start} and {count}"
        );
    }
    Ok(())
}

#[test]
fn bytes_are_decoded(rt: HostRuntime) -> Result<(), Fail> {
    let mut scratch = vec![in rt.alloc(); 7; 32_768]?;
    let Call::Do(Command::Write { offset, bytes, .. }) = Call::parse(
        b"write /a 9 00fFa1",
        &mut scratch,
    ) else {
        return Err("no write".into());
    };
    assert_eq!(rt; offset, 9);
    assert_eq!(rt; bytes.as_slice(), [0, 255, 161].as_slice());
    Ok(())
}

#[test]
fn each_byte_is_decoded(rt: HostRuntime) -> Result<(), Fail> {
    let mut line = Vec::from_slice(rt.alloc(), b"write /a 0 ")?;
    for byte in 0..256 {
        line.push(b"0123456789abcdef"[byte / 16])?;
        line.push(b"0123456789ABCDEF"[byte % 16])?;
    }
    let mut scratch = vec![in rt.alloc(); 7; 32_768]?;
    let Call::Do(Command::Write { bytes, .. }) = Call::parse(&line, &mut scratch) else {
        return Err("no write".into());
    };
    assert_eq!(rt; bytes.as_slice().len(), 256);
    for (place, byte) in bytes.as_slice().iter().enumerate() {
        assert_eq!(rt; *byte as usize, place);
    }
    Ok(())
}

#[test]
fn longest_write(rt: HostRuntime) -> Result<(), Fail> {
    for (count, wanted) in [(65_524, "write"), (65_526, "BadLine")] {
        let mut line = Vec::from_slice(rt.alloc(), b"write /a 0 ")?;
        line.extend_from_slice(vec![in rt.alloc(); b'6'; count]?.as_slice())?;
        assert_eq!(rt; word_of(rt.alloc(), &line)?, wanted, "at {count}");
    }
    Ok(())
}

// What reading the lines of a source comes to: each line before a bar, and how it ends.
fn steps_of(alloc: Global, bytes: &[u8], step: usize, failing: &[u64]) -> Result<Vec<u8>, Fail>
    requires { 1 ≤ step }
{
    let bytes = Vec::from_slice(alloc, bytes)?;
    let mut source = MemSource::new(bytes, step, Vec::from_slice(alloc, failing)?);
    let mut lines = Lines::new(alloc)?;
    let mut told = Vec::new(alloc);
    'steps: for _ in 0..16 {
        match lines.next(&mut source) {
            Ok(Step::Line) => {
                told.extend_from_slice(lines.line())?;
                told.push(b'|')?;
            }
            Ok(Step::TooLong) => told.extend_from_slice(b"TooLong|")?,
            Ok(Step::Limit) => told.extend_from_slice(b"Limit|")?,
            Ok(Step::End) => {
                told.extend_from_slice(b"End")?;
                break;
            }
            Err(ReadFault) => {
                told.extend_from_slice(b"fault")?;
                break;
            }
        }
    }
    Ok(told)
}

#[test]
fn lines_however_they_are_cut(rt: HostRuntime) -> Result<(), Fail> {
    for (bytes, wanted) in [
        ("", "End"),
        ("\n", "|End"),
        ("create /a\n\n list /\n", "create /a|| list /|End"),
        ("a\nbc", "a|bc|End"),
    ] {
        for step in 1..24 {
            let told = steps_of(rt.alloc(), bytes.as_bytes(), step, &[])?;
            assert_eq!(rt; told.as_slice(), wanted.as_bytes(), "at {step}");
        }
    }
    Ok(())
}

#[test]
fn read_faults(rt: HostRuntime) -> Result<(), Fail> {
    for (bytes, failing, wanted) in [
        ("df\ndf\n", 3, "df|fault"),
        ("df\ndf\n", 1, "fault"),
        ("df\ndf\n", 4, "df|df|fault"),
        ("df\ndf\n", 5, "df|df|End"),
        ("df", 2, "fault"),
        ("df", 3, "df|End"),
    ] {
        let told = steps_of(rt.alloc(), bytes.as_bytes(), 2, &[failing])?;
        assert_eq!(rt;
            told.as_slice(),
            wanted.as_bytes(),
            "at {failing} of {bytes}"
        );
    }
    Ok(())
}

#[test]
fn lines_at_the_limit(rt: HostRuntime) -> Result<(), Fail> {
    for step in [1_000, 4_096, 65_537, 1_000_000] {
        for (count, wanted) in [(65_536, 65_545), (65_537, 16), (200_000, 16)] {
            let mut bytes = vec![in rt.alloc(); b'x'; count]?;
            bytes.extend_from_slice(b"\nfrob")?;
            let told = steps_of(rt.alloc(), &bytes, step, &[])?;
            assert!(rt; told.ends_with(b"|frob|End"), "at {step}");
            assert_eq!(rt; told.len(), wanted, "at {step}");
        }
    }
    Ok(())
}

#[test]
fn new_buffers(rt: HostRuntime) -> Result<(), Fail> {
    let mut buffers = Buffers::new(rt.alloc())?;
    let mut source = MemSource::new(
        Vec::from_slice(rt.alloc(), b"list /")?,
        4,
        Vec::new(rt.alloc()),
    );
    assert_eq!(rt; buffers.lines.next(&mut source), Ok(Step::Line));
    let call = Call::parse(buffers.lines.line(), &mut buffers.scratch);
    assert!(rt; matches!(call, Call::Do(Command::List { .. })));
    Ok(())
}

// A source of bytes that are no newlines. It keeps the least room that it was given.
#[derive(Drop)]
struct Probe {
    left: usize,
    least: usize,
}

impl Source for Probe {
    ghost use Rattle.std.specs.Prelude.{List, ℕ, Option, None};

    ghost left = { λ _. None };

    ghost faults = { λ _. 0 };

    fn read(&mut self, buf: &mut [u8]) -> Result<usize, ReadFault> {
        self.least = self.least.min(buf.len());
        let count = self.left.min(buf.len()).min(7_777);
        self.left -= count;
        Ok(count)
    }
}

#[test]
fn reads_are_lent_room(rt: HostRuntime) -> Result<(), Fail> {
    let mut source = Probe {
        left: 300_000,
        least: 1_000_000,
    };
    let mut lines = Lines::new(rt.alloc())?;
    assert_eq!(rt; lines.next(&mut source), Ok(Step::TooLong));
    assert!(rt; source.least >= 4_096);
    Ok(())
}
