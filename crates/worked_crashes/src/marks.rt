// The mark of a closed volume: what a marked volume is that has something to repair, and when a mended one has it.
use crate::recoveries::{LITTERED_EVENTS, MARK};
use pm_memory::RamPm;
use std::alloc::Global;
use std::test::Fail;
use worked_drivers::images::compare_refused;
use worked_drivers::jobs::{
    do_job, events_of, is_closed, is_done, job_on, same, sink_of, source_of,
};
use worked_drivers::volumes::{LITTERED, littered, set_words, volume_after, with_words};

const NONE: &str = "ok 0\n";

const A: &str = "ok 1 a\n";

// A first script, words that are set in what it left, the names that are found then, and how many fences a run takes.
type Litter<'a> = (&'a str, &'a [(usize, u64)], &'a str, u64);

const FILE: &str = "create /a\n";

// A rename to `/b` after its commit; all that can be litter beside a file; a page without a name.
const LITTER: [Litter<'static>; 9] = [
    (
        FILE,
        &[(1_552, 2), (1_553, 1), (1_554, 0x62_0001)],
        "ok 1 b\n",
        4,
    ),
    (FILE, &[(1_553, 1)], A, 2),
    (FILE, &[(1_554, 0x62_0001)], A, 2),
    (FILE, &[(513, 9), (529, 7)], A, 2),
    (FILE, &[(544, 1), (545, 1), (547, 3)], A, 2),
    (FILE, &[(1_032, 2), (1_033, 1)], A, 3),
    (FILE, &[(1_033, 2)], A, 2),
    (FILE, &LITTERED, "ok 1 b\n", 5),
    ("", &[(1_024, 1), (1_025, 2)], NONE, 3),
];

// With the mark each volume is damaged; with another value its mount mends it, and the run closes it.
#[test]
fn a_closed_volume_has_nothing_to_repair(rt: HostRuntime) -> Result<(), Fail> {
    let alloc = rt.alloc();
    for (first, words, told, fences) in LITTER {
        let volume = volume_after(alloc, 16, first)?;
        let mut image = with_words(alloc, volume.as_slice(), words)?;
        set_words(&mut image, &[(5, 1)])?;
        compare_refused(alloc, image.as_slice(), "damaged 15 5\n", told)?;
        for mark in [0, 2] {
            set_words(&mut image, &[(5, mark)])?;
            let left = job_on(alloc, "squirrel run v", image.as_slice(), b"list /\n")?;
            is_done(&left, told, told)?;
            same((left.fences, is_closed(&left.image)), (fences, true), told)?;
        }
    }
    Ok(())
}

// The mount of much litter has 4 fences, and that of the close is the fifth. Three lines are acknowledged.
#[test]
fn a_mended_volume_is_closed(rt: HostRuntime) -> Result<(), Fail> {
    let alloc = rt.alloc();
    let image = littered(alloc)?;
    let tree = "d 1 2 1 /\nf 2 1 0 /b -\n";
    let told = "ok 1 b\nok file inode 2 links 1 size 0\nok inodes 2 4 pages 12 13\n";
    for (job, script, told, events) in [
        ("squirrel tree v", "", tree, LITTERED_EVENTS + MARK),
        (
            "squirrel run v",
            "list /\nstat /b\ndf\n",
            told,
            LITTERED_EVENTS + MARK + 3,
        ),
    ] {
        let mut pm = RamPm::new(alloc, image.as_slice())?;
        let source = source_of(alloc, script.as_bytes(), 4_096, 0)?;
        let sink = sink_of(alloc, 4_096, 0)?;
        let left = do_job(alloc, job, &mut pm, source, sink)?;
        is_done(&left, told, job)?;
        same((left.fences, events_of(&pm)?), (5, events), job)?;
    }
    Ok(())
}
