// What the jobs tell of words that are no sound volume, and of words that are one.
use crate::jobs::{
    Left, ROOM, compare_end, do_job, is_closed, is_done, job_without_script, same, sink_of,
    text_of, unread_script,
};
use crate::scarce::ScarcePm;
use squirrel_cli::Status;
use std::alloc::Global;
use std::test::Fail;

/// How many directories, files and names a tree has. The root is a directory and no name.
pub type Held = (u64, u64, u64);

/// How many pointers, slots, pages, inodes and counts are to be repaired.
pub type Repairs = (u64, u64, u64, u64, u64);

/// What is to be repaired of a tidy volume.
pub const NO_REPAIRS: Repairs = (0, 0, 0, 0, 0);

const CHECK: &str = "squirrel check v";

const TREE: &str = "squirrel tree v";

// The jobs on a volume.
const JOBS: [&str; 6] = [
    CHECK,
    "squirrel run v",
    TREE,
    "squirrel crash v --at 0 --keep 00",
    "squirrel work v 1 1",
    "squirrel weave v 1 --schedule 00",
];

// The status of a job whose image is no volume or damaged.
const REFUSED: u8 = 4;

// The first reserve of a device, by its number.
const FIRST_RESERVE: u64 = 1;

/// Each job refuses these words by this text and status 4, and does nothing else.
pub fn compare_refused(alloc: Global, image: &[u64], told: &str, place: &str) -> Result<(), Fail> {
    for job in JOBS {
        let at = format!(in alloc; "{job}: {place}")?;
        compare_refusal(alloc, job, image, told, at.as_str())?;
    }
    Ok(())
}

// The words stay, and no event is made. A script that was read would fail, and so would a reserve.
fn compare_refusal(
    alloc: Global,
    job: &str,
    image: &[u64],
    told: &str,
    place: &str,
) -> Result<(), Fail> {
    let mut pm = ScarcePm::new(alloc, image, &[FIRST_RESERVE])?;
    let source = unread_script(alloc)?;
    let sink = sink_of(alloc, ROOM, 0)?;
    let left = do_job(alloc, job, &mut pm, source, sink)?;
    compare_end(&left, REFUSED, told, place)?;
    same(left.image.as_slice(), image, place)?;
    same((pm.events()?, left.fences, left.acks), (0, 0, 0), place)
}

/// Checks a sound volume, which is left alone.
pub fn compare_check(
    alloc: Global,
    image: &[u64],
    held: Held,
    repairs: Repairs,
    place: &str,
) -> Result<(), Fail> {
    let (directories, files, names) = held;
    let (pointers, slots, pages, inodes, counts) = repairs;
    let holds = format!(in alloc; "tree directories {directories} files {files} names {names}")?;
    let told = format!(in alloc;
        "sound\n{holds}\nrepairs pointers {pointers} slots {slots} pages {pages} inodes {inodes} counts {counts}\n"
    )?;
    let left = job_without_script(alloc, CHECK, image)?;
    is_done(&left, told.as_str(), place)?;
    same(left.image.as_slice(), image, place)?;
    same((left.fences, left.acks), (0, 0), place)
}

/// Checks a sound volume and lists its tree, for which it is mended and closed. A second check then finds the same tree and nothing to
/// repair, and a second listing is the same and stores nothing. What the first one left.
pub fn compare_sound(
    alloc: Global,
    image: &[u64],
    held: Held,
    repairs: Repairs,
    place: &str,
) -> Result<Left, Fail> {
    compare_check(alloc, image, held, repairs, place)?;
    let listed = job_without_script(alloc, TREE, image)?;
    same(listed.status, Status::Done, place)?;
    let mended = listed.image.as_slice();
    same((is_closed(mended), listed.acks), (true, 0), place)?;
    compare_check(alloc, mended, held, NO_REPAIRS, place)?;
    let again = job_without_script(alloc, TREE, mended)?;
    is_done(&again, text_of(&listed.told), place)?;
    same(again.image.as_slice(), mended, place)?;
    Ok(listed)
}
