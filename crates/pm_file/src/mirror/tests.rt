// Over a medium in memory, which tells what it holds.
ghost use Rattle.std.specs.Prelude.{◌≡◌, ◌+◌, ◌*◌, ◌≤◌, ◌++◌, take, drop, length, Some};

use super::{Mirror, take_room};
use crate::FileFault;
use crate::medium::Medium;
use crate::sizes::{BYTES_OF_A_WORD, LINES_OF_A_PAGE, WORDS_OF_A_LINE, WORDS_OF_A_PAGE};
use std::alloc::Global;
use std::io;
use std::io::{Error, ErrorKind};
use std::test::Fail;

/// Words in memory, and those of them that are safe. It takes so many reads, writes and syncs more.
#[derive(Drop)]
struct Ram {
    words: Vec<u64>,
    safe: Vec<u64>,
    reads_left: u64,
    writes_left: u64,
    syncs_left: u64,
    faults: u64,
    ghost same_length: { length words.items ≡ length safe.items },
}

impl Medium for Ram {
    ghost held = { λ ram. Some ram.words.items };

    ghost safe = { λ ram. Some ram.safe.items };

    ghost faults = { λ ram. ram.faults };

    ghost is_length = { λ ram bytes. bytes ≡ 8 * length ram.words.items };

    fn read_pages(&mut self, page: u64, count: usize, words: &mut Vec<u64>) -> io::Result<()> {
        let first = WORDS_OF_A_PAGE * page as usize;
        let end = first + WORDS_OF_A_PAGE * count;
        if self.reads_left == 0
            || end > self.words.len()
            || words.extend_from_slice(&self.words[first..end]).is_err()
        {
            self.faults = self.faults.saturating_add(1);
            return Err(Error::from(ErrorKind::UnexpectedEof));
        }
        self.reads_left -= 1;
        Ok(())
    }

    fn write_run(&mut self, line: u64, words: &[u64]) -> io::Result<()> {
        let first = WORDS_OF_A_LINE * line as usize;
        if self.writes_left == 0 || first + words.len() > self.words.len() {
            self.faults = self.faults.saturating_add(1);
            return Err(Error::from(ErrorKind::WriteZero));
        }
        self.writes_left -= 1;
        put(&mut self.words, first, words);
        Ok(())
    }

    fn sync(&mut self, bytes: u64) -> io::Result<()> {
        if self.syncs_left == 0 || bytes != (BYTES_OF_A_WORD * self.words.len()) as u64 {
            self.faults = self.faults.saturating_add(1);
            return Err(Error::from(ErrorKind::Other));
        }
        self.syncs_left -= 1;
        self.safe.copy_from_slice(&self.words);
        Ok(())
    }
}

/// Puts words at a place.
fn put(all: &mut [u64], first: usize, words: &[u64])
    requires { first + length words.now ≤ length all.old }
    ensures { all.new ≡ take first all.old ++ (words.now ++ drop (first + length words.now) all.old) }
{
    all[first..first + words.len()].copy_from_slice(words);
}

/// The words of 16 pages, zeros, in a medium that takes one read, and so many writes and syncs.
fn fresh_ram(alloc: Global, writes: u64, syncs: u64) -> Result<Ram, Fail> {
    let words = vec![in alloc; 0u64; 8192]?;
    let safe = vec![in alloc; 0u64; 8192]?;
    Ok(Ram {
        words,
        safe,
        reads_left: 1,
        writes_left: writes,
        syncs_left: syncs,
        faults: 0,
    })
}

/// The words of a medium that takes so many writes. Five lines were flushed, which are three runs.
fn flushed(alloc: Global, writes: u64) -> Result<Mirror<Ram>, Fail> {
    let room = take_room(alloc, 16)?;
    let mut mirror = Mirror::read_from(fresh_ram(alloc, writes, 3)?, room, 16)?;
    mirror.set(48, 2);
    mirror.set(9, 3);
    mirror.set(8191, 4);
    mirror.set(32, 5);
    mirror.flush(6);
    mirror.flush(1);
    mirror.flush(2);
    mirror.flush(3);
    mirror.flush(1023);
    Ok(mirror)
}

/// Flushes the lines of a range, the last one first.
fn flush_lines(mirror: &mut Mirror<Ram>, first: usize, end: usize) {
    for line in (first..end).rev() {
        if line < mirror.words().len() / WORDS_OF_A_LINE {
            mirror.flush(line as u64);
        }
    }
}

/// How many of these words aren't zero.
fn set_words(words: &[u64]) -> usize {
    words.iter().filter(|word| **word != 0).count()
}

#[test]
fn a_run_of_lines_is_one_write(rt: HostRuntime) -> Result<(), Fail> {
    let mut mirror = flushed(rt.alloc(), 3)?;
    mirror.write_back()?;
    assert_eq!(rt; mirror.medium.writes_left, 0);
    let safe = mirror.medium.safe.as_slice();
    assert_eq!(rt; set_words(safe), 3);
    assert!(rt; safe.get(48) == Some(&2) && safe.get(9) == Some(&3) && safe.get(8191) == Some(&4));
    Ok(())
}

#[test]
fn six_new_pages_are_four_writes(rt: HostRuntime) -> Result<(), Fail> {
    let room = take_room(rt.alloc(), 16)?;
    let mut mirror = Mirror::read_from(fresh_ram(rt.alloc(), 4, 4)?, room, 16)?;
    for page in 9..15 {
        flush_lines(
            &mut mirror,
            LINES_OF_A_PAGE * page,
            LINES_OF_A_PAGE * (page + 1),
        );
        flush_lines(&mut mirror, 64 + page, 65 + page);
    }
    mirror.write_back()?;
    assert_eq!(rt; mirror.medium.writes_left, 2);
    flush_lines(&mut mirror, 73, 79);
    mirror.write_back()?;
    assert_eq!(rt; mirror.medium.writes_left, 1);
    flush_lines(&mut mirror, 3, 4);
    mirror.write_back()?;
    assert_eq!(rt; mirror.medium.writes_left, 0);
    Ok(())
}

#[test]
fn a_long_run_is_cut(rt: HostRuntime) -> Result<(), Fail> {
    let room = take_room(rt.alloc(), 16)?;
    let mut mirror = Mirror::read_from(fresh_ram(rt.alloc(), 9, 3)?, room, 16)?;
    flush_lines(&mut mirror, 0, 1_024);
    mirror.write_back()?;
    assert_eq!(rt; mirror.medium.writes_left, 7);
    flush_lines(&mut mirror, 100, 613);
    mirror.write_back()?;
    assert_eq!(rt; mirror.medium.writes_left, 5);
    Ok(())
}

#[test]
fn a_write_fails_between_runs(rt: HostRuntime) -> Result<(), Fail> {
    let mut mirror = flushed(rt.alloc(), 2)?;
    assert!(rt; mirror.write_back().is_err());
    assert_eq!(rt; mirror.medium.faults, 1);
    assert_eq!(rt; set_words(mirror.medium.words.as_slice()), 2);
    assert_eq!(rt; set_words(mirror.medium.safe.as_slice()), 0);
    mirror.medium.writes_left = 3;
    mirror.write_back()?;
    assert_eq!(rt; mirror.medium.faults, 1);
    assert_eq!(rt; set_words(mirror.medium.safe.as_slice()), 3);
    Ok(())
}

#[test]
fn nothing_is_read_where_the_first_sync_fails(rt: HostRuntime) -> Result<(), Fail> {
    let room = take_room(rt.alloc(), 16)?;
    let refused = Mirror::read_from(fresh_ram(rt.alloc(), 3, 0)?, room, 16);
    assert!(rt; matches!(refused, Err(FileFault::Failed(_))));
    Ok(())
}

#[test]
fn there_is_no_device_where_a_read_fails(rt: HostRuntime) -> Result<(), Fail> {
    let room = take_room(rt.alloc(), 16)?;
    let mut medium = fresh_ram(rt.alloc(), 3, 3)?;
    medium.reads_left = 0;
    let refused = Mirror::read_from(medium, room, 16);
    assert!(rt; matches!(refused, Err(FileFault::Failed(_))));
    Ok(())
}
