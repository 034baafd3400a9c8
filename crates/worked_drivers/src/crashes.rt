// Crashes in a line just before each of its fences, and what a mount then makes of them.
use crate::jobs::{Left, crash_at, events_of, is_done, job_on, run_on, same};
use crate::volumes::volume_after;
use mount_scan::mount;
use pm_memory::RamPm;
use squirrel_cli::Status;
use std::alloc::Global;
use std::test::Fail;

/// What is found of a volume: what a script is told, and how many inodes and data pages are free.
#[derive(Clone, Copy)]
pub struct Found<'a> {
    pub told: &'a str,
    pub free: (u64, u64),
}

/// A line on what a first script left of 16 pages, and for each of its fences how many a mount takes of the words as they were
/// settled, and of all that was stored since. The tree before it is found up to the settled words of the fence `commit`, and
/// from its stored ones on the tree after it. Both are found by the same script, which only reads. The volume is closed: a fence
/// takes its mark away before those of the line, and one gives it back behind them.
#[derive(Clone, Copy)]
pub struct Crashes<'a> {
    pub first: &'a str,
    pub line: &'a str,
    pub mounts: &'a [(u64, u64)],
    pub commit: u64,
    pub asked: &'a str,
    pub before: Found<'a>,
    pub after: Found<'a>,
}

/// Lets each fence of each line fail in turn, and those of the mark. The line has no more of them.
pub fn compare_crashes(alloc: Global, rows: &[Crashes<'_>]) -> Result<(), Fail> {
    for row in rows {
        let volume = volume_after(alloc, 16, row.first)?;
        let whole = job_on(
            alloc,
            "squirrel run v",
            volume.as_slice(),
            row.line.as_bytes(),
        )?;
        is_done(&whole, "ok\n", row.line)?;
        let fences = row.mounts.len() as u64;
        same(whole.fences, fences.saturating_add(2), row.line)?;
        compare_marks(alloc, volume.as_slice(), *row)?;
        compare_mounts(alloc, volume.as_slice(), *row)?;
    }
    Ok(())
}

// Lets the fences of the mark fail. A run that finds the volume without the mark closes it.
fn compare_marks(alloc: Global, volume: &[u64], row: Crashes<'_>) -> Result<(), Fail> {
    let closing = (row.mounts.len() as u64).saturating_add(1);
    for (fence, found, runs) in [(0, row.before, (0, 1)), (closing, row.after, (1, 0))] {
        let pm = cut_at(alloc, volume, row.line, fence)?;
        let fences = (
            run_fences(alloc, &pm, [0, 0], row.asked, found)?,
            run_fences(alloc, &pm, [1, 1], row.asked, found)?,
        );
        same((fence, fences), (fence, runs), row.line)?;
    }
    Ok(())
}

// Lets each fence of the line fail in turn.
fn compare_mounts(alloc: Global, volume: &[u64], row: Crashes<'_>) -> Result<(), Fail> {
    let mut fence = 0u64;
    for (settled, stored) in row.mounts {
        fence = fence.saturating_add(1);
        let pm = cut_at(alloc, volume, row.line, fence)?;
        let old = row.found(fence <= row.commit);
        let new = row.found(fence < row.commit);
        let mounts = (
            mount_fences(alloc, &pm, [0, 0], row.asked, old)?,
            mount_fences(alloc, &pm, [1, 1], row.asked, new)?,
        );
        same((fence, mounts), (fence, (*settled, *stored)), row.line)?;
    }
    Ok(())
}

impl<'a> Crashes<'a> {
    // What is found before the line or after it.
    fn found(&self, before: bool) -> Found<'a> {
        if before { self.before } else { self.after }
    }
}

/// The device on which a fence of a line on a closed volume has failed. Fence 0 takes the mark away.
pub fn cut_at(alloc: Global, volume: &[u64], line: &str, fence: u64) -> Result<RamPm, Fail> {
    let failing = [fence.saturating_add(1)].to_vec(alloc)?;
    let mut pm = RamPm::with_failing(alloc, volume, failing)?;
    let left = run_on(alloc, &mut pm, line)?;
    same((fence, left.status), (fence, Status::DeviceFault), line)?;
    Ok(pm)
}

// How many fences a mount takes of the words that a crash at the end left, which are found as they should be. They aren't closed, which
// the run does at its end.
fn mount_fences(
    alloc: Global,
    pm: &RamPm,
    keep: [u8; 2],
    asked: &str,
    found: Found<'_>,
) -> Result<u64, Fail> {
    Ok(run_fences(alloc, pm, keep, asked, found)?.saturating_sub(1))
}

// How many fences the run takes that finds them.
fn run_fences(
    alloc: Global,
    pm: &RamPm,
    keep: [u8; 2],
    asked: &str,
    found: Found<'_>,
) -> Result<u64, Fail> {
    let image = crash_at(alloc, pm, events_of(pm)?, &keep)?;
    Ok(compare_found(alloc, image.as_slice(), asked, found)?.fences)
}

/// What a run finds on the words that a crash left.
pub fn compare_found(
    alloc: Global,
    image: &[u64],
    asked: &str,
    found: Found<'_>,
) -> Result<Left, Fail> {
    let left = job_on(alloc, "squirrel run v", image, asked.as_bytes())?;
    is_done(&left, found.told, asked)?;
    same(free_of(alloc, left.image.as_slice())?, found.free, asked)?;
    Ok(left)
}

/// How many inodes and data pages a mount finds free.
pub fn free_of(alloc: Global, image: &[u64]) -> Result<(u64, u64), Fail> {
    let mut pm = RamPm::new(alloc, image)?;
    let volume = mount(alloc, &mut pm)?;
    let free = volume.free(&pm);
    Ok((free.inodes, free.pages))
}
