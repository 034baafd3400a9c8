// Each read fails, of pieces of several lengths.
use crate::begins::{CLOSED, FRESH, OPEN, words_of};
use crate::ends::{
    DONE, Failing, NONE, NOTHING_FAILS, READ_FAULT, compare_settled, compare_tidy, fail_in,
    mark_of, pieces_of,
};
use pm_memory::RamPm;
use std::alloc::Global;
use std::test::Fail;
use worked_drivers::jobs::{ROOM, compare_end, do_job, same, sink_of};

/// A script of 40 bytes, and what a run tells of it.
pub const SCRIPT: &str = "create /a\ncreate /b\nrename /a /c\nlist /\n";

pub const WHOLE: &str = "ok\nok\nok\nok 2 b c\n";

/// How many fences the whole run takes.
pub const FENCES: u64 = 11;

// The replies to the lines that end among the bytes read, how many fences they took, and the word of the mark.
#[derive(Clone, Copy)]
struct Answered<'a> {
    told: &'a str,
    acks: u64,
    fences: u64,
    mark: u64,
}

// By the number of replies. No run comes to its end, so none closes the volume.
const ANSWERED: [Answered<'static>; 5] = [
    Answered {
        told: "",
        acks: 0,
        fences: 0,
        mark: CLOSED,
    },
    Answered {
        told: "ok\n",
        acks: 1,
        fences: 4,
        mark: OPEN,
    },
    Answered {
        told: "ok\nok\n",
        acks: 2,
        fences: 6,
        mark: OPEN,
    },
    Answered {
        told: "ok\nok\nok\n",
        acks: 3,
        fences: 10,
        mark: OPEN,
    },
    Answered {
        told: WHOLE,
        acks: 4,
        fences: 10,
        mark: OPEN,
    },
];

// How many bytes a read gives, and by the number of replies the last read whose fault leaves so many. Where two are the same the
// second number of replies doesn't come.
#[derive(Clone, Copy)]
struct Pieces {
    length: usize,
    last_reads: [u64; 5],
}

const PIECES: [Pieces; 5] = [
    Pieces {
        length: 1,
        last_reads: [10, 20, 33, 40, 41],
    },
    Pieces {
        length: 2,
        last_reads: [5, 10, 17, 20, 21],
    },
    Pieces {
        length: 3,
        last_reads: [4, 7, 11, 14, 15],
    },
    Pieces {
        length: 7,
        last_reads: [2, 3, 5, 6, 7],
    },
    Pieces {
        length: 4_096,
        last_reads: [1, 1, 1, 1, 2],
    },
];

// Lets each read of a script in these pieces fail, and one that isn't made.
fn compare_pieces(alloc: Global, volume: &[u64], pieces: Pieces) -> Result<(), Fail> {
    let mut first: u64 = 1;
    for (answered, last) in ANSWERED.iter().zip(pieces.last_reads.iter()) {
        let end = last.saturating_add(1);
        compare_reads(alloc, volume, pieces.length, (first, end), *answered)?;
        first = end;
    }
    compare_no_fault(alloc, volume, pieces.length, first)
}

// Lets each read from the first one to before the end fail, of a run and of a replay.
fn compare_reads(
    alloc: Global,
    volume: &[u64],
    length: usize,
    (first, end): (u64, u64),
    answered: Answered<'_>,
) -> Result<(), Fail> {
    for read in first..end {
        compare_read(alloc, volume, length, read, answered)?;
        compare_crash(alloc, volume, length, read)?;
    }
    Ok(())
}

// Lets a read of a run fail. The device is settled then, and there is nothing to mend.
fn compare_read(
    alloc: Global,
    volume: &[u64],
    length: usize,
    read: u64,
    answered: Answered<'_>,
) -> Result<(), Fail> {
    let mut pm = RamPm::new(alloc, volume)?;
    let source = pieces_of(alloc, SCRIPT, length, read)?;
    let sink = sink_of(alloc, ROOM, NONE)?;
    let left = do_job(alloc, "squirrel run v", &mut pm, source, sink)?;
    compare_end(&left, READ_FAULT, answered.told, "a read")?;
    let mark = mark_of(left.image.as_slice())?;
    same(
        (read, left.acks, left.fences, mark),
        (read, answered.acks, answered.fences, answered.mark),
        "a read",
    )?;
    compare_settled(alloc, &pm, left.image.as_slice(), "a read")?;
    compare_tidy(alloc, left.image.as_slice(), "a read")
}

const CRASH: &str = "squirrel crash v --at 0 --keep 00";

// Lets a read of a replay fail: nothing is written, and the device is left alone.
fn compare_crash(alloc: Global, volume: &[u64], piece: usize, read: u64) -> Result<(), Fail> {
    let failing = Failing {
        piece,
        read,
        ..NOTHING_FAILS
    };
    let left = fail_in(alloc, CRASH, volume, SCRIPT, failing)?;
    compare_end(&left, READ_FAULT, "", CRASH)?;
    same(left.image.as_slice(), volume, CRASH)
}

// A run that has fewer reads.
fn compare_no_fault(alloc: Global, volume: &[u64], piece: usize, read: u64) -> Result<(), Fail> {
    let failing = Failing {
        piece,
        read,
        ..NOTHING_FAILS
    };
    let left = fail_in(alloc, "squirrel run v", volume, SCRIPT, failing)?;
    compare_end(&left, DONE, WHOLE, "no read")?;
    same((read, left.fences), (read, FENCES), "no read")
}

#[test]
fn each_read_fails(rt: HostRuntime) -> Result<(), Fail> {
    let volume = words_of(rt.alloc(), FRESH)?;
    for pieces in &PIECES {
        compare_pieces(rt.alloc(), volume.as_slice(), *pieces)?;
    }
    Ok(())
}

// Two lines of which the second isn't read whole, in pieces of 2 bytes: the third read fails, behind its first byte.
#[test]
fn a_read_fails_within_the_second_line(rt: HostRuntime) -> Result<(), Fail> {
    let volume = words_of(rt.alloc(), FRESH)?;
    let failing = Failing {
        piece: 2,
        read: 3,
        ..NOTHING_FAILS
    };
    let script = "df\ndf\n";
    let left = fail_in(
        rt.alloc(),
        "squirrel run v",
        volume.as_slice(),
        script,
        failing,
    )?;
    compare_end(&left, READ_FAULT, "ok inodes 3 4 pages 13 13\n", script)
}
