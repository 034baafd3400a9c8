// Generated scripts, and the sums that are told of them.
use crash_replay::Work;
use io_edge::Source;
use std::alloc::Global;
use std::test::Fail;
use worked_drivers::jobs::{Left, is_done, job_on, job_without_script, same, text_of};
use worked_drivers::volumes::{fresh_volume, littered, volume_after};

// What `work` of a seed and a count tells: how many lines there were, were accepted and refused, how many inodes and pages are free and
// how many there are, the names, and the bytes of all files.
#[derive(Clone, Copy)]
struct Sums {
    lines: (u64, u64, u64),
    inodes: (u64, u64),
    pages: (u64, u64),
    names: u64,
    bytes: u64,
}

// A seed, a count, and what is told of them.
#[derive(Clone, Copy)]
struct Row {
    seed: u64,
    count: u64,
    sums: Sums,
}

// Makes the volume full of what refuses the generated lines: `/d0` is a file, `/d1/f3` a directory, and few pages are free.
const PREPARED: &str = "mkdir /d1\nmkdir /d1/f3\ncreate /d0\ncreate /big\ntruncate /big 212992\n";

// A file of two names, a directory, and a file in it.
const FILLED: &str =
    "create /a\nlink /a /b\nwrite /a 0 6869\nmkdir /d\ncreate /d/x\nwrite /d/x 5000 ff\n";

// Does the generated work on a volume.
fn work_on(alloc: Global, image: &[u64], seed: u64, count: u64) -> Result<Left, Fail> {
    let line = format!(in alloc; "squirrel work v {seed} {count}")?;
    job_without_script(alloc, line.as_str(), image)
}

// The work is done, tells these sums, and acknowledges each line.
fn compare(alloc: Global, image: &[u64], row: Row) -> Result<Left, Fail> {
    let left = work_on(alloc, image, row.seed, row.count)?;
    let (lines, accepted, refused) = row.sums.lines;
    let (inodes, inodes_all) = row.sums.inodes;
    let (pages, pages_all) = row.sums.pages;
    let (names, bytes) = (row.sums.names, row.sums.bytes);
    let told = format!(in alloc;
        "work lines {lines} ok {accepted} refused {refused}\n\
        ok inodes {inodes} {inodes_all} pages {pages} {pages_all}\nnames {names} bytes {bytes}\n"
    )?;
    is_done(&left, told.as_str(), "work")?;
    same(left.acks, lines, "work")?;
    Ok(left)
}

fn telling(
    (seed, count): (u64, u64),
    lines: (u64, u64, u64),
    inodes: (u64, u64),
    pages: (u64, u64),
    (names, bytes): (u64, u64),
) -> Row {
    Row {
        seed,
        count,
        sums: Sums {
            lines,
            inodes,
            pages,
            names,
            bytes,
        },
    }
}

#[test]
fn on_fresh_volumes(rt: HostRuntime) -> Result<(), Fail> {
    let alloc = rt.alloc();
    for (pages, row) in [
        (16, telling((1, 1), (5, 3, 2), (0, 4), (12, 13), (3, 0))),
        (16, telling((1, 10), (14, 5, 9), (0, 4), (11, 13), (3, 0))),
        (
            16,
            telling((1, 100), (104, 10, 94), (0, 4), (9, 13), (3, 4_258)),
        ),
        (
            256,
            telling((0, 1), (5, 5, 0), (60, 64), (248, 249), (3, 0)),
        ),
        (
            256,
            telling((u64::MAX, 1), (5, 5, 0), (58, 64), (247, 249), (5, 0)),
        ),
        (
            256,
            telling((1, 10), (14, 9, 5), (56, 64), (246, 249), (7, 0)),
        ),
        (
            256,
            telling((0, 100), (104, 25, 79), (53, 64), (243, 249), (10, 8_178)),
        ),
        (
            256,
            telling((2, 100), (104, 29, 75), (41, 64), (238, 249), (22, 16_359)),
        ),
        (
            256,
            telling(
                (u64::MAX, 100),
                (104, 35, 69),
                (47, 64),
                (235, 249),
                (16, 27_755),
            ),
        ),
        (
            64,
            telling(
                (5, 2_000),
                (2_004, 353, 1_651),
                (0, 16),
                (38, 61),
                (20, 56_760),
            ),
        ),
    ] {
        let fresh = fresh_volume(alloc, pages)?;
        let _left = compare(alloc, fresh.as_slice(), row)?;
    }
    Ok(())
}

#[test]
fn again_and_again(rt: HostRuntime) -> Result<(), Fail> {
    let alloc = rt.alloc();
    let mut image = fresh_volume(alloc, 256)?;
    for row in [
        telling((1, 100), (104, 24, 80), (53, 64), (241, 249), (10, 11_342)),
        telling((1, 100), (104, 25, 79), (46, 64), (234, 249), (19, 29_290)),
        telling((1, 100), (104, 23, 81), (45, 64), (233, 249), (19, 31_456)),
    ] {
        image = compare(alloc, image.as_slice(), row)?.image;
    }
    Ok(())
}

// On volumes that have something already: one in which every refusal comes, one with names of its own, and one with much to repair.
#[test]
fn on_other_volumes(rt: HostRuntime) -> Result<(), Fail> {
    let alloc = rt.alloc();
    for (volume, row) in [
        (
            volume_after(alloc, 64, PREPARED)?,
            telling((8, 400), (404, 60, 344), (0, 16), (2, 61), (23, 222_379)),
        ),
        (
            volume_after(alloc, 64, PREPARED)?,
            telling((8, 40), (44, 8, 36), (7, 16), (6, 61), (9, 212_992)),
        ),
        (
            volume_after(alloc, 64, FILLED)?,
            telling((0, 1), (5, 5, 0), (9, 16), (56, 61), (7, 5_003)),
        ),
        (
            littered(alloc)?,
            telling((1, 10), (14, 4, 10), (0, 4), (11, 13), (3, 0)),
        ),
    ] {
        let _left = compare(alloc, volume.as_slice(), row)?;
    }
    Ok(())
}

#[test]
fn fences_of_work(rt: HostRuntime) -> Result<(), Fail> {
    let alloc = rt.alloc();
    for (pages, seed, count, fences) in [
        (256, 0, 1, 14),
        (256, 1, 10, 24),
        (256, 1, 100, 56),
        (64, 5, 2_000, 676),
    ] {
        let fresh = fresh_volume(alloc, pages)?;
        let left = work_on(alloc, fresh.as_slice(), seed, count)?;
        same((left.fences, left.acks), (fences, count + 4), "work")?;
    }
    Ok(())
}

/// The bytes of a generated script. A read gives no more than the rest of a line, and the first one the lines before them.
pub fn script_of(alloc: Global, seed: u64, count: u64) -> Result<Vec<u8>, Fail> {
    let mut work = Work::new(seed, count);
    let mut script = Vec::new(alloc);
    let mut piece = [0u8; 4_096];
    for _read in 0..count.saturating_add(1) {
        let given = work.read(&mut piece)?;
        script.extend_from_slice(piece.get(..given).ok_or("too many bytes")?)?;
    }
    Ok(script)
}

// How many lines of a text begin so.
fn lines_with(text: &str, beginning: &str) -> u64 {
    let mut count: u64 = 0;
    for line in text.lines() {
        if line.starts_with(beginning) {
            count = count.saturating_add(1);
        }
    }
    count
}

// The same lines as a script: they leave the same words, and each refusal that they can meet.
#[test]
fn as_a_script(rt: HostRuntime) -> Result<(), Fail> {
    let alloc = rt.alloc();
    let volume = volume_after(alloc, 64, PREPARED)?;
    let script = script_of(alloc, 8, 400)?;
    let run = job_on(
        alloc,
        "squirrel run v",
        volume.as_slice(),
        script.as_slice(),
    )?;
    let work = work_on(alloc, volume.as_slice(), 8, 400)?;
    same(run.image.as_slice(), work.image.as_slice(), "words")?;
    for (beginning, wanted) in [
        ("ok", 60),
        ("error NotFound", 137),
        ("error NotDir", 90),
        ("error Exists", 52),
        ("error IsDir", 6),
        ("error NotEmpty", 31),
        ("error NoInodes", 16),
        ("error NoPages", 12),
    ] {
        let count = lines_with(text_of(&run.told), beginning);
        same(count, wanted, beginning)?;
    }
    let held = "sound\ntree directories 5 files 11 names 23\n\
        repairs pointers 0 slots 0 pages 0 inodes 0 counts 0\n";
    let checked = job_without_script(alloc, "squirrel check v", work.image.as_slice())?;
    is_done(&checked, held, "check")
}

// As many lines as take some seconds, each acknowledged.
#[test]
fn a_long_work(rt: HostRuntime) -> Result<(), Fail> {
    let alloc = rt.alloc();
    let fresh = fresh_volume(alloc, 4_096)?;
    let lines = telling(
        (7, 20_000),
        (20_004, 8_301, 11_703),
        (984, 1_024),
        (3_955, 3_999),
        (43, 107_082),
    );
    let left = compare(alloc, fresh.as_slice(), lines)?;
    same(left.fences, 18_008, "work")
}
