// Scripts of odd bytes and of long lines on a fresh volume of 16 pages. Each line gets a reply, however the bytes are read.
ghost use Rattle.std.specs.Prelude.{◌≤◌};

use std::alloc::Global;
use std::test::Fail;
use worked_drivers::jobs::{is_done, job_between, same, sink_of, source_of};
use worked_drivers::texts::{joined, lines_in, repeated};
use worked_drivers::volumes::small_volume;

// How many bytes a read of a whole page gives.
const PAGE: usize = 4_096;

const BAD_LINE: &str = "error BadLine\n";

const BAD_PATH: &str = "error BadPath\n";

const NOT_FOUND: &str = "error NotFound\n";

const FREE: &str = "ok inodes 3 4 pages 13 13\n";

// Runs a script whose reads give up to so many bytes. Each line that is told a reply is acknowledged.
fn compare_by(alloc: Global, script: &[u8], told: &str, step: usize) -> Result<(), Fail>
    requires { 1 ≤ step }
{
    let volume = small_volume(alloc)?;
    let source = source_of(alloc, script, step, 0)?;
    let sink = sink_of(alloc, PAGE, 0)?;
    let left = job_between(alloc, "squirrel run v", volume.as_slice(), source, sink)?;
    is_done(&left, told, told)?;
    same(left.acks, lines_in(told.as_bytes()) as u64, told)
}

// Runs a script that is read byte by byte, by seven bytes, and by pages.
fn compare(alloc: Global, script: &[u8], told: &str) -> Result<(), Fail> {
    compare_by(alloc, script, told, 1)?;
    compare_by(alloc, script, told, 7)?;
    compare_by(alloc, script, told, PAGE)
}

// Each of these lines is told the same.
fn compare_each(alloc: Global, lines: &[&str], told: &str) -> Result<(), Fail> {
    let mut script = String::new(alloc);
    for line in lines {
        script.push_str(line)?;
        script.push('\n')?;
    }
    let replies = repeated(alloc, told, lines.len() as u64)?;
    compare(alloc, script.as_bytes(), replies.as_str())
}

// A line of a start and so many times a text behind it.
fn long_line(alloc: Global, start: &str, text: &str, count: u64) -> Result<String, Fail> {
    let end = repeated(alloc, text, count)?;
    joined(alloc, &[start, end.as_str(), "\n"])
}

// A line's start, what stands behind it so many times, and the reply.
type Long<'a> = (&'a str, &'a str, u64, &'a str);

// The longest line has 65,536 bytes.
const LONG: [Long<'static>; 7] = [
    ("df", " ", 65_534, FREE),
    ("df", " ", 65_535, BAD_LINE),
    ("", " ", 65_536, BAD_LINE),
    ("", " ", 65_537, BAD_LINE),
    ("", "x", 65_537, BAD_LINE),
    ("list ", "/x", 32_000, NOT_FOUND),
    ("list ", "/", 60_000, BAD_PATH),
];

// The line after each is read as if it came first.
#[test]
fn long_lines(rt: HostRuntime) -> Result<(), Fail> {
    let alloc = rt.alloc();
    for (start, text, count, told) in LONG {
        let line = long_line(alloc, start, text, count)?;
        let script = joined(alloc, &[line.as_str(), "frob\n"])?;
        let replies = joined(alloc, &[told, BAD_LINE])?;
        compare_by(alloc, script.as_bytes(), replies.as_str(), PAGE)?;
    }
    Ok(())
}

// A space alone parts words, and each byte but 0 may stand in a name.
const BYTES: [(&[u8], &str); 9] = [
    (b"\0\n", BAD_LINE),
    (b"\xEF\xBB\xBFlist /\n", BAD_LINE),
    (b"df\t\n", BAD_LINE),
    (b"\tdf\n", BAD_LINE),
    (b"df\r\n", BAD_LINE),
    (b"list /\r\n", NOT_FOUND),
    (b"create /a\0b\n", BAD_PATH),
    (b"write /a 0 \xFF\xFE\n", BAD_LINE),
    (
        b"create /\xFF\xFE\ncreate /a\x7Fb\nlist /\n",
        "ok\nok\nok 2 a%7Fb %FF%FE\n",
    ),
];

#[test]
fn bytes_that_are_no_letters(rt: HostRuntime) -> Result<(), Fail> {
    for (script, told) in BYTES {
        compare(rt.alloc(), script, told)?;
    }
    Ok(())
}

// A `%` without two digits, bytes that no name has, names that no node has, and paths that begin or end otherwise.
const BAD_PATHS: [&str; 12] = [
    "create /%ff%00",
    "create /%2e%2e",
    "create /%2E",
    "create /%2fa",
    "create /%",
    "create /%4",
    "create /%zz",
    "create /a%",
    "rename a b",
    "stat /a/",
    "stat //",
    "stat /./a",
];

#[test]
fn paths_that_are_none(rt: HostRuntime) -> Result<(), Fail> {
    let alloc = rt.alloc();
    compare_each(alloc, &BAD_PATHS, BAD_PATH)?;
    let line = long_line(alloc, "create /", "%zz", 40)?;
    compare(alloc, line.as_bytes(), BAD_PATH)
}

// A byte of a name may be written as three.
#[test]
fn the_longest_name_by_digits(rt: HostRuntime) -> Result<(), Fail> {
    let alloc = rt.alloc();
    for (count, told) in [(110, "ok\n"), (111, "error NameTooLong\n")] {
        let line = long_line(alloc, "create /", "%41", count)?;
        compare(alloc, line.as_bytes(), told)?;
    }
    Ok(())
}

// Offsets that are no numbers below 2^64 or have more than 20 digits; bytes that aren't two digits each; paths too few and too many.
const BAD_LINES: [&str; 15] = [
    "read /a 0 18446744073709551616",
    "read /a 0 000000000000000000001",
    "read /a 0 -1",
    "read /a 0 0x1",
    "read /a 0 1_0",
    "read /a 0 +1",
    "write /a 0 6",
    "write /a 0 6g",
    "write /a 0",
    "write /a 0 ",
    "write /a 0 - -",
    "write /a 0 --",
    "write /a 0 zz",
    "rename /a",
    "rename /a /b /c",
];

#[test]
fn lines_that_are_no_commands(rt: HostRuntime) -> Result<(), Fail> {
    compare_each(rt.alloc(), &BAD_LINES, BAD_LINE)
}

// Numbers of 20 digits, lines without a word, a last line without its newline, and numbers as high as can be.
const LINES: [(&str, &str); 3] = [
    ("read /a 0 00000000000000000001\n", NOT_FOUND),
    (
        "df\n\n\ndf",
        "ok inodes 3 4 pages 13 13\nerror BadLine\nerror BadLine\nok inodes 3 4 pages 13 13\n",
    ),
    (
        "create /a\ntruncate /a 18446744073709551615\nwrite /a 18446744073709551615 00\nread /a 18446744073709551615 18446744073709551615\n",
        "ok\nerror TooBig\nerror TooBig\nerror TooBig\n",
    ),
];

#[test]
fn lines_at_their_ends(rt: HostRuntime) -> Result<(), Fail> {
    for (script, told) in LINES {
        compare(rt.alloc(), script.as_bytes(), told)?;
    }
    Ok(())
}
