// Whole jobs, and what they leave.
ghost use Rattle.std.specs.Prelude.{◌≡◌, ◌≤◌};
ghost use Rattle.pm_trait.specs.Device.{IsSettledAt};

use io_edge::{MemSink, MemSource};
use layout::superblock::{CLOSED_MARK, MARK_WORD};
use pm_memory::RamPm;
use pm_trait::{Event, Pm};
use squirrel_cli::{Status, Words, squirrel};
use std::alloc::Global;
use std::fmt::Debug;
use std::test::Fail;

// Events can be counted where there are no more acknowledgements.
const MOST_ACKS: u64 = 1 << 62;

/// How many bytes of a script a read gives at the most.
pub const PIECE: usize = 4_096;

/// How many bytes the output takes: the listing of a file of several pages has room in it.
pub const ROOM: usize = 65_536;

/// How a job ended, what the output took, the device's words, and how many fences and acknowledgements it made.
#[derive(Drop)]
pub struct Left {
    pub status: Status,
    pub told: Vec<u8>,
    pub image: Vec<u64>,
    pub fences: u64,
    pub acks: u64,
}

/// Fails a test where something isn't as it should be.
pub fn same<T: Copy + PartialEq + Debug + Drop>(
    found: T,
    wanted: T,
    place: &str,
) -> Result<(), Fail> {
    if found == wanted {
        return Ok(());
    }
    Err(Fail::new(format_args!("{found:?}, and not {wanted:?}: {place}")))
}

/// Fails a test where a job didn't end as done, or told something else.
pub fn is_done(left: &Left, told: &str, place: &str) -> Result<(), Fail> {
    same(text_of(&left.told), told, place)?;
    same(left.status, Status::Done, place)
}

/// Fails a test where a job didn't end with this number, or told something else.
pub fn compare_end(left: &Left, number: u8, told: &str, place: &str) -> Result<(), Fail> {
    same(text_of(&left.told), told, place)?;
    same(left.status.number(), number, place)
}

/// The text of what was told.
pub fn text_of(told: &[u8]) -> &str {
    std::str::from_utf8(told).unwrap_or("no text")
}

/// Whether words have the mark of a volume that was closed.
pub fn is_closed(image: &[u64]) -> bool {
    image.get(MARK_WORD as usize) == Some(&CLOSED_MARK)
}

/// How many fences a job takes for the mark, beside so many of its lines: one before the first of these and one at the end, or the
/// latter alone where the volume wasn't closed. Each has 3 events.
pub fn mark_fences(image: &[u64], fences: u64) -> u64 {
    match (is_closed(image), fences) {
        (true, 0) => 0,
        (true, _) => 2,
        (false, _) => 1,
    }
}

// The words of a command line, each after a space.
fn words_of(alloc: Global, line: &str) -> Result<Words, Fail> {
    let mut words = Words::new(alloc);
    for word in line.split(' ') {
        if !word.is_empty() {
            words.push(word)?;
        }
    }
    Ok(words)
}

/// Does a job on a device that did nothing yet.
pub fn do_job<P: Pm>(
    alloc: Global,
    line: &str,
    pm: &mut P,
    source: MemSource,
    sink: MemSink,
) -> Result<Left, Fail>
    requires settled { IsSettledAt (P.view pm.old).words (P.view pm.old).trail }
    requires fences { (P.view pm.old).fences ≡ 0 }
    requires acks { (P.view pm.old).acks ≡ 0 }
{
    let words = words_of(alloc, line)?;
    let mut source = source;
    let mut sink = sink;
    let status = squirrel(alloc, &words, pm, &mut source, &mut sink);
    Ok(Left {
        status,
        told: sink.bytes().to_vec(alloc)?,
        image: pm.image().to_vec(alloc)?,
        fences: pm.fences(),
        acks: pm.acks(),
    })
}

/// Runs a script on a device that did nothing yet, where no read and no write fails.
pub fn run_on<P: Pm>(alloc: Global, pm: &mut P, script: &str) -> Result<Left, Fail>
    requires settled { IsSettledAt (P.view pm.old).words (P.view pm.old).trail }
    requires fences { (P.view pm.old).fences ≡ 0 }
    requires acks { (P.view pm.old).acks ≡ 0 }
{
    let source = whole_script(alloc, script.as_bytes())?;
    let sink = sink_of(alloc, ROOM, 0)?;
    do_job(alloc, "squirrel run v", pm, source, sink)
}

/// A script in memory whose reads give up to so many bytes, and one of them fails where its number isn't 0.
pub fn source_of(alloc: Global, script: &[u8], step: usize, failing: u64) -> Result<MemSource, Fail>
    requires { 1 ≤ step }
{
    let bytes = script.to_vec(alloc)?;
    let failing = [failing].to_vec(alloc)?;
    Ok(MemSource::new(bytes, step, failing))
}

/// An output that takes so many bytes, and one of whose writes fails where its number isn't 0.
pub fn sink_of(alloc: Global, room: usize, failing: u64) -> Result<MemSink, Fail> {
    let failing = [failing].to_vec(alloc)?;
    Ok(MemSink::new(alloc, room, failing)?)
}

// A script of which no read fails.
fn whole_script(alloc: Global, script: &[u8]) -> Result<MemSource, Fail> {
    source_of(alloc, script, PIECE, 0)
}

/// A job on these words, with this script, where nothing fails.
pub fn job_on(alloc: Global, line: &str, image: &[u64], script: &[u8]) -> Result<Left, Fail> {
    let source = whole_script(alloc, script)?;
    let sink = sink_of(alloc, ROOM, 0)?;
    job_between(alloc, line, image, source, sink)
}

/// A script that isn't to be read: the first read fails.
pub fn unread_script(alloc: Global) -> Result<MemSource, Fail> {
    source_of(alloc, b"create /z\n", PIECE, 1)
}

/// A job on these words that is to read no script: the first read would fail.
pub fn job_without_script(alloc: Global, line: &str, image: &[u64]) -> Result<Left, Fail> {
    let source = unread_script(alloc)?;
    let sink = sink_of(alloc, ROOM, 0)?;
    job_between(alloc, line, image, source, sink)
}

/// A job on these words, between this script and this output.
pub fn job_between(
    alloc: Global,
    line: &str,
    image: &[u64],
    source: MemSource,
    sink: MemSink,
) -> Result<Left, Fail> {
    let mut pm = RamPm::new(alloc, image)?;
    do_job(alloc, line, &mut pm, source, sink)
}

/// A job on these words, with this script, where one call of the device's fence fails.
pub fn job_with_fault(
    alloc: Global,
    line: &str,
    image: &[u64],
    script: &[u8],
    fence: u64,
) -> Result<Left, Fail> {
    let failing = [fence].to_vec(alloc)?;
    let mut pm = RamPm::with_failing(alloc, image, failing)?;
    let source = whole_script(alloc, script)?;
    let sink = sink_of(alloc, ROOM, 0)?;
    do_job(alloc, line, &mut pm, source, sink)
}

/// How many events a device has recorded.
pub fn events_of(pm: &RamPm) -> Result<u64, Fail> {
    if pm.acks() > MOST_ACKS {
        return Err("too many acknowledgements".into());
    }
    Ok(pm.events())
}

/// The last event that a device has recorded.
pub fn last_event(pm: &RamPm) -> Result<Event, Fail> {
    if pm.acks() > MOST_ACKS {
        return Err("too many acknowledgements".into());
    }
    let events = pm.events();
    if events == 0 {
        return Err("no event".into());
    }
    Ok(pm.event(events - 1))
}

/// The words that a crash at this moment may leave: of each word that isn't settled the bytes choose the old value or a
/// later one.
pub fn crash_at(alloc: Global, pm: &RamPm, moment: u64, keep: &[u8; 2]) -> Result<Vec<u64>, Fail> {
    if pm.acks() > MOST_ACKS || moment > pm.events() {
        return Err("no such moment".into());
    }
    Ok(pm.image_at(alloc, moment, keep)?)
}
