// How a job ends, and what is found of the words that a crash leaves.
use crate::begins::MARK;
use io_edge::MemSource;
use pm_memory::RamPm;
use std::alloc::Global;
use std::test::Fail;
use worked_drivers::jobs::{
    Left, PIECE, ROOM, crash_at, do_job, events_of, job_without_script, same, sink_of, source_of,
    text_of,
};

/// The numbers of the statuses.
pub const DONE: u8 = 0;

pub const NO_MEMORY: u8 = 3;

pub const NO_VOLUME: u8 = 4;

pub const DEVICE_FAULT: u8 = 5;

pub const READ_FAULT: u8 = 6;

pub const WRITE_FAULT: u8 = 7;

/// The calls of this number are none, since they are counted from 1.
pub const NONE: u64 = 0;

/// Of each word that isn't settled: all old, all new, or one like this and the next like that.
pub const ALL_OLD: [u8; 2] = [0x00, 0x00];

pub const ALL_NEW: [u8; 2] = [0xff, 0xff];

pub const MIXED: [[u8; 2]; 2] = [[0x00, 0xff], [0xff, 0x00]];

/// The words that a crash at the end may leave.
pub fn left_at_end(alloc: Global, pm: &RamPm, keep: &[u8; 2]) -> Result<Vec<u64>, Fail> {
    crash_at(alloc, pm, events_of(pm)?, keep)
}

/// The word of the mark.
pub fn mark_of(image: &[u64]) -> Result<u64, Fail> {
    Ok(image.get(MARK).copied().ok_or("no mark")?)
}

/// What `tree` tells of words that `check` calls sound, and how many fences it takes.
pub fn listed(alloc: Global, image: &[u64], place: &str) -> Result<Left, Fail> {
    let checked = job_without_script(alloc, "squirrel check v", image)?;
    same(checked.status.number(), DONE, place)?;
    same(
        text_of(&checked.told).starts_with("sound\n"),
        true,
        "an image that is not sound",
    )?;
    job_without_script(alloc, "squirrel tree v", image)
}

/// The numbers of the fence, the read and the write that fail, how many bytes a read gives, and how many the output takes.
#[derive(Clone, Copy)]
pub struct Failing {
    pub fence: u64,
    pub piece: usize,
    pub read: u64,
    pub room: usize,
    pub write: u64,
}

/// Nothing fails.
pub const NOTHING_FAILS: Failing = Failing {
    fence: NONE,
    piece: PIECE,
    read: NONE,
    room: ROOM,
    write: NONE,
};

/// Which read fails of a job with this script: where it is empty the first one, since the job isn't to ask for it.
pub fn unread(script: &str) -> u64 {
    if script.is_empty() { 1 } else { NONE }
}

/// A script in memory, in pieces of so many bytes, and one of its reads fails.
pub fn pieces_of(alloc: Global, script: &str, piece: usize, read: u64) -> Result<MemSource, Fail> {
    if piece == 0 {
        return Err("a read that gives nothing".into());
    }
    source_of(alloc, script.as_bytes(), piece, read)
}

/// Does a job on these words, of which the calls of these numbers fail.
pub fn fail_in(
    alloc: Global,
    line: &str,
    image: &[u64],
    script: &str,
    failing: Failing,
) -> Result<Left, Fail> {
    let listed = [failing.fence].to_vec(alloc)?;
    let mut pm = RamPm::with_failing(alloc, image, listed)?;
    let source = pieces_of(alloc, script, failing.piece, failing.read)?;
    let sink = sink_of(alloc, failing.room, failing.write)?;
    do_job(alloc, line, &mut pm, source, sink)
}

/// The words have one candidate each, as a crash at the end would leave them.
pub fn compare_settled(alloc: Global, pm: &RamPm, image: &[u64], place: &str) -> Result<(), Fail> {
    for keep in [&ALL_OLD, &ALL_NEW] {
        same(left_at_end(alloc, pm, keep)?.as_slice(), image, place)?;
    }
    Ok(())
}

/// There is nothing to mend in these words.
pub fn compare_tidy(alloc: Global, image: &[u64], place: &str) -> Result<(), Fail> {
    let checked = job_without_script(alloc, "squirrel check v", image)?;
    same(checked.status.number(), DONE, place)?;
    same(
        text_of(&checked.told).ends_with("repairs pointers 0 slots 0 pages 0 inodes 0 counts 0\n"),
        true,
        place,
    )
}
