// Calls of many sessions that run beside one another. Bytes of the schedule are sessions' numbers.
ghost use Rattle.std.specs.Prelude.{◌≡◌};
ghost use Rattle.pm_trait.specs.Device.{IsSettledAt};

use io_edge::MemSink;
use mount_scan::mount;
use pm_memory::RamPm;
use pm_trait::Pm;
use schedules::{WeaveEnd, run_schedule};
use session_lines::count_lines;
use sessions::{Interleave, MOST_CALLS};
use std::alloc::Global;
use std::test::Fail;
use worked_drivers::jobs::{same, text_of};
use worked_drivers::volumes::{small_volume, volume_after};

// How many bytes the output takes.
const ROOM: usize = 4_096;

// The sessions' lines, the schedule, and what is told.
pub(crate) type Row<'a> = (&'a str, &'a [u8], &'a str);

// Runs the lines of each row on the same volume.
pub(crate) fn compare_weaves(
    alloc: Global,
    volume: &[u64],
    sessions: u64,
    rows: &[Row<'_>],
) -> Result<(), Fail> {
    for row in rows {
        compare_weave(alloc, volume, sessions, *row)?;
    }
    Ok(())
}

fn compare_weave(alloc: Global, volume: &[u64], sessions: u64, row: Row<'_>) -> Result<(), Fail> {
    let (lines, schedule, told) = row;
    let mut pm = RamPm::new(alloc, volume)?;
    let (end, written) = weave_on(alloc, &mut pm, sessions, lines, schedule)?;
    same(text_of(&written), told, told)?;
    same(end, WeaveEnd::Done, told)
}

// Runs the lines on a device that did nothing yet, and gives what was told.
pub(crate) fn weave_on(
    alloc: Global,
    pm: &mut RamPm,
    sessions: u64,
    lines: &str,
    schedule: &[u8],
) -> Result<(WeaveEnd, Vec<u8>), Fail>
    requires settled { IsSettledAt (⟦<RamPm as Pm>⟧.view pm.old).words (⟦<RamPm as Pm>⟧.view pm.old).trail }
    requires fences { (⟦<RamPm as Pm>⟧.view pm.old).fences ≡ 0 }
    requires acks { (⟦<RamPm as Pm>⟧.view pm.old).acks ≡ 0 }
{
    let lines = lines.as_bytes();
    let counted = count_lines(lines) <= MOST_CALLS as u64 && !schedule.is_empty();
    if !counted || sessions < 1 || sessions > 16 {
        return Err("no such row".into());
    }
    let mut sink = MemSink::new(alloc, ROOM, Vec::new(alloc))?;
    let volume = mount(alloc, pm)?;
    let mut interleave = Interleave::start(alloc, volume, sessions)?;
    let end = run_schedule(alloc, &mut interleave, lines, schedule, &mut sink, pm)?;
    Ok((end, sink.bytes().to_vec(alloc)?))
}

#[test]
fn makes_names_beside_one_another(rt: HostRuntime) -> Result<(), Fail> {
    let volume = volume_after(rt.alloc(), 64, "mkdir /a\nmkdir /b\n")?;
    compare_weaves(
        rt.alloc(),
        volume.as_slice(),
        2,
        &[
            (
                "0 create /a/x\n1 create /b/y\n0 df\n1 df\n",
                &[0, 1],
                "0 ok\n1 ok\n0 ok inodes 11 16 pages 58 61\n1 ok inodes 11 16 pages 58 61\n",
            ),
            (
                "0 create /a/x\n1 create /b/y\n0 stat /a/x\n1 stat /b/y\n",
                &[0, 1],
                "0 ok\n1 ok\n0 ok file inode 4 links 1 size 0\n1 ok file inode 5 links 1 size 0\n",
            ),
            (
                "0 create /a/x\n1 create /b/y\n0 stat /a/x\n1 stat /b/y\n",
                &[1, 0],
                "1 ok\n0 ok\n1 ok file inode 4 links 1 size 0\n0 ok file inode 5 links 1 size 0\n",
            ),
            (
                "0 create /a/x\n1 df\n1 mkdir /c\n",
                &[0, 1],
                "1 ok inodes 12 16 pages 59 61\n0 ok\n1 ok\n",
            ),
            (
                "0 rmdir /a\n1 create /a/x\n1 create /b/x\n1 mkdir /a\n0 df\n",
                &[0, 1],
                "1 error NotFound\n0 ok\n0 ok inodes 13 16 pages 59 61\n1 ok\n1 ok\n",
            ),
        ],
    )
}

#[test]
fn three_sessions(rt: HostRuntime) -> Result<(), Fail> {
    let volume = volume_after(rt.alloc(), 64, "mkdir /a\nmkdir /b\n")?;
    compare_weaves(
        rt.alloc(),
        volume.as_slice(),
        3,
        &[
            (
                "0 mkdir /a/x\n1 mkdir /b/y\n2 mkdir /c\n0 df\n1 df\n2 df\n",
                &[0, 1, 2],
                "2 ok\n0 ok\n1 ok\n2 ok inodes 10 16 pages 58 61\n0 ok inodes 10 16 pages 58 61\n1 ok inodes 10 16 pages 58 61\n",
            ),
            (
                "0 create /a/x\n1 create /b/y\n2 rename /a /c\n2 df\n2 rename /a /c\n",
                &[0, 1, 2],
                "2 error Busy 2 1\n2 ok inodes 11 16 pages 58 61\n0 ok\n1 ok\n2 ok\n",
            ),
        ],
    )
}

#[test]
fn busy_in_the_root(rt: HostRuntime) -> Result<(), Fail> {
    let fresh = small_volume(rt.alloc())?;
    compare_weaves(
        rt.alloc(),
        fresh.as_slice(),
        2,
        &[
            (
                "0 create /a\n1 create /b\n1 df\n",
                &[0, 1],
                "1 error Busy 1 1\n1 ok inodes 2 4 pages 12 13\n0 ok\n",
            ),
            (
                "0 mkdir /d\n1 stat /d\n",
                &[0, 1],
                "1 error NotFound\n0 ok\n",
            ),
            (
                "  00 create /a\n2 df\n1\n0 list /\n",
                &[0, 1],
                "1 error BadLine\n0 ok\n0 error BadLine\n0 ok 1 a\n",
            ),
        ],
    )?;
    compare_weaves(
        rt.alloc(),
        fresh.as_slice(),
        1,
        &[(
            "0 create /a\n0 df\n",
            &[255],
            "0 ok\n0 ok inodes 2 4 pages 12 13\n",
        )],
    )
}
