// Crashes in a line that changes a file's bytes or its size.
use std::alloc::Global;
use std::test::Fail;
use worked_drivers::crashes::cut_at;
use worked_drivers::jobs::{crash_at, events_of};
use worked_drivers::rows::compare_replies;
use worked_drivers::volumes::volume_after;

// A file of 32 bytes.
const FILLED: &str =
    "create /a\nwrite /a 0 1111111111111111111111111111111111111111111111111111111111111111\n";

// Of a line just before one of its fences: the choice of each word that isn't settled, and what is read afterwards.
#[derive(Clone, Copy)]
struct Crash<'a> {
    script: &'a str,
    fence: u64,
    keep: [u8; 2],
    told: &'a str,
}

fn compare_crash(alloc: Global, volume: &[u64], crash: Crash<'_>) -> Result<(), Fail> {
    let pm = cut_at(alloc, volume, crash.script, crash.fence)?;
    let image = crash_at(alloc, &pm, events_of(&pm)?, &crash.keep)?;
    compare_replies(alloc, image.as_slice(), &[("read /a 0 33\n", crash.told)])
}

// Inside a file's size each word may be the old or the new one.
#[test]
fn bytes_are_there_or_not(rt: HostRuntime) -> Result<(), Fail> {
    let filled = volume_after(rt.alloc(), 16, FILLED)?;
    for (keep, told) in [
        (
            [0, 0],
            "ok 32 1111111111111111111111111111111111111111111111111111111111111111\n",
        ),
        (
            [0, 1],
            "ok 32 1111111111111111111111111111111122222222222222221111111111111111\n",
        ),
        (
            [1, 1],
            "ok 32 1111111111111111222222222222222222222222222222221111111111111111\n",
        ),
    ] {
        let crash = Crash {
            script: "write /a 8 22222222222222222222222222222222\n",
            fence: 1,
            keep,
            told,
        };
        compare_crash(rt.alloc(), filled.as_slice(), crash)?;
    }
    Ok(())
}

// A growth leaves the range torn below the old size, and then the new size or the old one.
#[test]
fn a_size_is_there_or_not(rt: HostRuntime) -> Result<(), Fail> {
    let filled = volume_after(rt.alloc(), 16, FILLED)?;
    let past = "write /a 24 22222222222222222222222222222222\n";
    let before = "ok 32 1111111111111111111111111111111111111111111111111111111111111111\n";
    let torn = "ok 32 1111111111111111111111111111111111111111111111112222222222222222\n";
    let after = "ok 33 111111111111111111111111111111111111111111111111222222222222222222\n";
    for (fence, keep, told) in [
        (1u64, [0, 1], before),
        (1, [1, 0], torn),
        (2, [0, 0], torn),
        (2, [1, 1], after),
    ] {
        let crash = Crash {
            script: past,
            fence,
            keep,
            told,
        };
        compare_crash(rt.alloc(), filled.as_slice(), crash)?;
    }
    Ok(())
}
