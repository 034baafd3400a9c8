// Sound volumes that a crash left with something to repair: what their mount makes of them, and what the run after it finds.
// All are of 16 pages: inode 2 begins at word 528 and inode 3 at 544, the descriptors at 1,024, and the slots of data page 0
// at 1,536, each of 16 words.
use pm_memory::RamPm;
use std::alloc::Global;
use std::test::Fail;
use worked_drivers::crashes::{Found, compare_found, free_of};
use worked_drivers::jobs::{crash_at, events_of, is_done, run_on, same};
use worked_drivers::parts::{
    FENCE, FIELD, GIVEN_BACK, LINKS, NODE, NUMBER, OWNER, PAGE_REST, POINTER, SLOT_REST,
};
use worked_drivers::rows::compare_run;
use worked_drivers::volumes::{
    LITTERED, littered, set_words, small_volume, volume_with_a, with_words,
};

// Of the words that are old or new by themselves: all old, all new, or one like this and the next like that.
const MIXES: [[u8; 2]; 4] = [[0, 0], [1, 1], [0, 1], [1, 0]];

// The mark of a closed volume, with a fence.
pub(crate) const MARK: u64 = FIELD + FENCE;

// A pointer, and then the slot in which it stood, or which it points at.
const POINTED_SLOT: u64 = POINTER + FENCE + SLOT_REST + FENCE;

// A page that goes with its inode: the owner, then the rest.
const FILE_GOES: u64 = GIVEN_BACK + NODE;

// A number, a pointer, two owners; then two slots, two pages, an inode and a word of links.
pub(crate) const LITTERED_EVENTS: u64 = NUMBER
    + (POINTER + FENCE)
    + (2 * OWNER + FENCE)
    + (2 * SLOT_REST + 2 * PAGE_REST + NODE + LINKS + FENCE);

// Words that are set in a volume, which isn't closed then, what the mount takes in fences and in events, and which words of the volume
// are others afterwards. Then what a script is answered, and how many inodes and data pages are free.
#[derive(Clone, Copy)]
pub(crate) struct Row<'a> {
    pub(crate) words: &'a [(usize, u64)],
    pub(crate) fences: u64,
    pub(crate) events: u64,
    pub(crate) mended: &'a [(usize, u64)],
    pub(crate) script: &'a str,
    pub(crate) told: &'a str,
    pub(crate) free: (u64, u64),
}

// Runs the script on the volume with the words set, and closes it by the mark; and again on what the first run left, which
// takes no fence.
pub(crate) fn compare(alloc: Global, volume: &[u64], row: &Row<'_>) -> Result<(), Fail> {
    let mut image = with_words(alloc, volume, row.words)?;
    set_words(&mut image, &[(5, 0)])?;
    let mut pm = RamPm::new(alloc, image.as_slice())?;
    let left = run_on(alloc, &mut pm, row.script)?;
    is_done(&left, row.told, row.script)?;
    let events = events_of(&pm)?.saturating_sub(left.acks);
    let taken = (
        row.fences.saturating_add(1),
        row.events.saturating_add(MARK),
    );
    same((left.fences, events), taken, row.told)?;
    let mended = with_words(alloc, volume, row.mended)?;
    same(left.image.as_slice(), mended.as_slice(), row.told)?;
    compare_run(alloc, mended.as_slice(), row.script, row.told, 0)?;
    same(free_of(alloc, mended.as_slice())?, row.free, row.told)
}

// A file's inode that nothing names; a page of the root without a name; a page's kind without an owner.
#[test]
fn the_root_alone_is_mended(rt: HostRuntime) -> Result<(), Fail> {
    let volume = small_volume(rt.alloc())?;
    for (words, fences, events) in [
        ([(528, 1), (529, 1), (531, 2)].as_slice(), 1, NODE + FENCE),
        ([(1_024, 1), (1_025, 2)].as_slice(), 2, GIVEN_BACK),
        ([(1_025, 2), (1_026, 7)].as_slice(), 1, PAGE_REST + FENCE),
    ] {
        let row = Row {
            words,
            fences,
            events,
            mended: &[],
            script: "list /\nstat /\n",
            told: "ok 0\nok dir inode 1 links 2 names 0\n",
            free: (3, 13),
        };
        compare(rt.alloc(), volume.as_slice(), &row)?;
    }
    Ok(())
}

// A pointer in an empty slot, and in the file's own; a name without a number, by itself, with a pointer, and its last word
// alone; an inode that nothing names, and a number alone; pages that are past the file's end or have a kind alone; links that are too high.
#[test]
fn a_file_is_left_as_it_was(rt: HostRuntime) -> Result<(), Fail> {
    let volume = volume_with_a(rt.alloc())?;
    for (words, fences, events) in [
        ([(1_553usize, 1u64)].as_slice(), 1u64, POINTER + FENCE),
        ([(1_537, 2)].as_slice(), 1, POINTER + FENCE),
        ([(1_554, 0x62_0001)].as_slice(), 1, SLOT_REST + FENCE),
        ([(1_553, 1), (1_554, 0x62_0001)].as_slice(), 2, POINTED_SLOT),
        ([(1_567, 1)].as_slice(), 1, SLOT_REST + FENCE),
        ([(544, 1)].as_slice(), 1, NODE + FENCE),
        ([(547, 3)].as_slice(), 1, NODE + FENCE),
        ([(1_033, 2)].as_slice(), 1, PAGE_REST + FENCE),
        ([(1_032, 2), (1_033, 1)].as_slice(), 2, GIVEN_BACK),
        ([(513, 9), (529, 7)].as_slice(), 1, 2 * LINKS + FENCE),
    ] {
        let row = Row {
            words,
            fences,
            events,
            mended: &[],
            script: "list /\nstat /\nstat /a\n",
            told: "ok 1 a\nok dir inode 1 links 2 names 1\nok file inode 2 links 1 size 0\n",
            free: (2, 12),
        };
        compare(rt.alloc(), volume.as_slice(), &row)?;
    }
    Ok(())
}

// A rename to `/b` after its commit: alone, with the old name's number cleared already, and with all that can be litter besides.
#[test]
fn a_rename_is_completed(rt: HostRuntime) -> Result<(), Fail> {
    let volume = volume_with_a(rt.alloc())?;
    for (words, fences, events) in [
        (
            [(1_552usize, 2u64), (1_553, 1), (1_554, 0x62_0001)].as_slice(),
            3u64,
            NUMBER + POINTED_SLOT,
        ),
        (
            [(1_536, 0), (1_552, 2), (1_553, 1), (1_554, 0x62_0001)].as_slice(),
            2,
            POINTED_SLOT,
        ),
        (LITTERED.as_slice(), 4, LITTERED_EVENTS),
    ] {
        let row = Row {
            words,
            fences,
            events,
            mended: &[(1_536, 0), (1_538, 0), (1_552, 2), (1_554, 0x62_0001)],
            script: "list /\nstat /b\n",
            told: "ok 1 b\nok file inode 2 links 1 size 0\n",
            free: (2, 12),
        };
        compare(rt.alloc(), volume.as_slice(), &row)?;
    }
    Ok(())
}

// The file's slot gives up its number, is in a page that is a file's, or is hidden by a slot of a directory that nothing names:
// then nothing leads to the file. A page that goes keeps the words of its slots but for a pointer and what it points at.
#[test]
fn what_nothing_leads_to_goes(rt: HostRuntime) -> Result<(), Fail> {
    let volume = volume_with_a(rt.alloc())?;
    let gone = [(528, 0), (529, 0), (531, 0), (1_024, 0), (1_025, 0)];
    for (words, fences, events, kept) in [
        (
            [(1_536usize, 0u64)].as_slice(),
            2u64,
            FILE_GOES,
            [(1_536usize, 0u64)].as_slice(),
        ),
        ([(1_024, 2)].as_slice(), 2, FILE_GOES, [].as_slice()),
        (
            [
                (544, 2),
                (545, 2),
                (547, 3),
                (1_032, 3),
                (1_033, 2),
                (2_048, 2),
                (2_049, 1),
                (2_050, 0x78_0001),
            ]
            .as_slice(),
            4,
            NUMBER + POINTER + FENCE + (2 * OWNER + FENCE) + (2 * PAGE_REST + 2 * NODE + FENCE),
            [(1_536, 0), (2_048, 2), (2_050, 0x78_0001)].as_slice(),
        ),
    ] {
        let mut mended = gone.to_vec(rt.alloc())?;
        mended.extend_from_slice(kept)?;
        let row = Row {
            words,
            fences,
            events,
            mended: mended.as_slice(),
            script: "list /\n",
            told: "ok 0\n",
            free: (3, 13),
        };
        compare(rt.alloc(), volume.as_slice(), &row)?;
    }
    Ok(())
}

// The words that a crash at any moment of a device's trail may leave are found with the file under its new name.
fn finds_the_file_everywhere(alloc: Global, pm: &RamPm, mixes: &[[u8; 2]]) -> Result<(), Fail> {
    let renamed = Found {
        told: "ok 1 b\n",
        free: (2, 12),
    };
    for moment in 0..events_of(pm)?.saturating_add(1) {
        for keep in mixes {
            let image = crash_at(alloc, pm, moment, keep)?;
            compare_found(alloc, image.as_slice(), "list /\n", renamed)?;
        }
    }
    Ok(())
}

#[test]
fn a_crash_at_each_moment_of_a_mount(rt: HostRuntime) -> Result<(), Fail> {
    let image = littered(rt.alloc())?;
    let mut pm = RamPm::new(rt.alloc(), image.as_slice())?;
    let left = run_on(rt.alloc(), &mut pm, "")?;
    is_done(&left, "", "a mount")?;
    same(events_of(&pm)?, LITTERED_EVENTS + MARK, "a mount")?;
    finds_the_file_everywhere(rt.alloc(), &pm, MIXES.as_slice())
}
