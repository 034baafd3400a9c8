// Sound volumes whose words no script leaves so: what `check` counts, what is listed before and after they are mended, and what a run
// takes and is told. All begin on the volume of 16 pages with `/a` of two bytes and the empty directory `/d`.
use crate::images::{Edit, small_base};
use std::alloc::Global;
use std::test::Fail;
use worked_drivers::images::{Held, NO_REPAIRS, Repairs, compare_sound};
use worked_drivers::jobs::{is_done, job_on, same};
use worked_drivers::volumes::with_words;

// What is found of a volume: its tree, what is to be repaired, and a script with the fences that its run takes, the mount's and the
// close's too, and its replies.
#[derive(Clone, Copy)]
struct Found<'a> {
    held: Held,
    repairs: Repairs,
    script: &'a str,
    fences: u64,
    told: &'a str,
}

// The root and `/d`, and `/a`.
const WHOLE: Held = (2, 1, 2);

const COUNT: Repairs = (0, 0, 0, 0, 1);

const PAGE: Repairs = (0, 0, 1, 0, 0);

const LISTING: &str = "list /\n";

const BOTH: &str = "ok 2 a d\n";

// The volume with these words set, by `check`, `tree` and `run`.
fn compare_found(
    alloc: Global,
    base: &[u64],
    words: Edit<'_>,
    found: &Found<'_>,
) -> Result<(), Fail> {
    let image = with_words(alloc, base, words)?;
    let place = format!(in alloc; "{words:?}")?;
    let place = place.as_str();
    compare_sound(alloc, image.as_slice(), found.held, found.repairs, place)?;
    let left = job_on(
        alloc,
        "squirrel run v",
        image.as_slice(),
        found.script.as_bytes(),
    )?;
    is_done(&left, found.told, place)?;
    same(left.fences, found.fences, place)
}

// With the mark the run has nothing to close, and every other value is no mark.
#[test]
fn one_value_is_the_mark(rt: HostRuntime) -> Result<(), Fail> {
    let base = small_base(rt.alloc())?;
    for (mark, fences) in [(1, 0), (2, 1), (7, 1), (u64::MAX, 1)] {
        let found = Found {
            held: WHOLE,
            repairs: NO_REPAIRS,
            script: LISTING,
            fences,
            told: BOTH,
        };
        compare_found(rt.alloc(), base.as_slice(), &[(5, mark)], &found)?;
    }
    Ok(())
}

// Nothing is to be repaired, and the run closes the volume.
const AS_IT_WAS: Found<'static> = Found {
    held: WHOLE,
    repairs: NO_REPAIRS,
    script: LISTING,
    fences: 1,
    told: BOTH,
};

// Words that no rule reads, each by itself and all together: of the superblock, the size of each directory, words of an inode and of a
// descriptor that are no field, and the offset of the root's page.
const UNREAD: [Edit<'static>; 8] = [
    &[(6, u64::MAX)],
    &[(511, 7)],
    &[(514, u64::MAX)],
    &[(546, 7)],
    &[(532, 9)],
    &[(1_026, 9)],
    &[(1_027, 9)],
    &[
        (6, u64::MAX),
        (511, 7),
        (514, u64::MAX),
        (546, 7),
        (532, 9),
        (1_026, 9),
        (1_027, 9),
    ],
];

#[test]
fn words_that_no_rule_reads(rt: HostRuntime) -> Result<(), Fail> {
    let base = small_base(rt.alloc())?;
    for words in UNREAD {
        compare_found(rt.alloc(), base.as_slice(), words, &AS_IT_WAS)?;
    }
    Ok(())
}

// Words that are set, and what is found then.
type Row<'a> = (Edit<'a>, Found<'a>);

fn compare_rows(alloc: Global, rows: &[Row<'_>]) -> Result<(), Fail> {
    let base = small_base(alloc)?;
    for (words, found) in rows {
        compare_found(alloc, base.as_slice(), words, found)?;
    }
    Ok(())
}

// Links of the file and of the root that are as high as can be, and a second name and a subdirectory more; a directory's kind that is a
// file's.
const INODES: [Row<'static>; 6] = [
    (
        &[(529, u64::MAX)],
        Found {
            held: WHOLE,
            repairs: COUNT,
            script: "link /a /b\nstat /a\n",
            fences: 4,
            told: "ok\nok file inode 2 links 2 size 2\n",
        },
    ),
    (
        &[(513, u64::MAX)],
        Found {
            held: WHOLE,
            repairs: COUNT,
            script: "mkdir /d/e\nstat /\nstat /d\n",
            fences: 5,
            told: "ok\nok dir inode 1 links 3 names 2\nok dir inode 3 links 3 names 1\n",
        },
    ),
    (
        &[(530, 0)],
        Found {
            held: WHOLE,
            repairs: PAGE,
            script: "read /a 0 9\ndf\n",
            fences: 3,
            told: "ok 0 -\nok inodes 1 4 pages 12 13\n",
        },
    ),
    (
        &[(530, 1)],
        Found {
            held: WHOLE,
            repairs: NO_REPAIRS,
            script: "read /a 0 9\ntruncate /a 2\nread /a 0 9\n",
            fences: 3,
            told: "ok 1 61\nok\nok 2 6100\n",
        },
    ),
    (
        &[(530, 4_096)],
        Found {
            held: WHOLE,
            repairs: NO_REPAIRS,
            script: "stat /a\n",
            fences: 1,
            told: "ok file inode 2 links 1 size 4096\n",
        },
    ),
    (
        &[(544, 1)],
        Found {
            held: (1, 2, 2),
            repairs: (0, 0, 0, 0, 2),
            script: "stat /d\n",
            fences: 2,
            told: "ok file inode 3 links 1 size 0\n",
        },
    ),
];

#[test]
fn odd_inodes(rt: HostRuntime) -> Result<(), Fail> {
    compare_rows(rt.alloc(), &INODES)
}

const FREE: &str = "ok inodes 1 4 pages 11 13\n";

const PAGE_FREED: Found<'static> = Found {
    held: WHOLE,
    repairs: PAGE,
    script: "df\n",
    fences: 3,
    told: FREE,
};

const ROOT_ALONE: Found<'static> = Found {
    held: (1, 0, 0),
    repairs: (0, 0, 2, 2, 1),
    script: "list /\ndf\n",
    fences: 3,
    told: "ok 0\nok inodes 3 4 pages 13 13\n",
};

// A page of owners that no volume has, of kinds that none has, of the file past its end, and with an offset alone; the root's page without
// an owner, and the file's; and a directory that nothing reaches and that holds itself.
const PAGES: [Row<'static>; 7] = [
    (&[(1_040, 77), (1_041, u64::MAX)], PAGE_FREED),
    (&[(1_040, 9), (1_041, 9)], PAGE_FREED),
    (&[(1_040, 2), (1_041, 1), (1_042, 1)], PAGE_FREED),
    (
        &[(1_050, 1)],
        Found {
            held: WHOLE,
            repairs: PAGE,
            script: "list /d\n",
            fences: 2,
            told: "ok 0\n",
        },
    ),
    (&[(1_024, 0)], ROOT_ALONE),
    (&[(1_024, 2)], ROOT_ALONE),
    (
        &[
            (560, 2),
            (561, 3),
            (562, 0),
            (563, 4),
            (1_048, 4),
            (1_049, 2),
            (1_050, 0),
            (3_072, 4),
            (3_073, 0),
            (3_074, 0x78_0001),
        ],
        Found {
            held: WHOLE,
            repairs: (0, 0, 1, 1, 0),
            script: "list /\ndf\n",
            fences: 3,
            told: "ok 2 a d\nok inodes 1 4 pages 11 13\n",
        },
    ),
];

#[test]
fn odd_pages(rt: HostRuntime) -> Result<(), Fail> {
    compare_rows(rt.alloc(), &PAGES)
}

// A pointer of the slot of `/d` to that of `/a`, which names another inode, and one of a slot that names nothing; the slot of `/d` without
// its number, and with the file's in a rename of `/a` to `/b`.
const SLOTS: [Row<'static>; 4] = [
    (
        &[(1_553, 1)],
        Found {
            held: WHOLE,
            repairs: (1, 0, 0, 0, 0),
            script: LISTING,
            fences: 2,
            told: BOTH,
        },
    ),
    (
        &[(1_569, 1)],
        Found {
            held: WHOLE,
            repairs: (1, 1, 0, 0, 0),
            script: LISTING,
            fences: 2,
            told: BOTH,
        },
    ),
    (
        &[(1_552, 0)],
        Found {
            held: (1, 1, 1),
            repairs: (0, 1, 0, 1, 1),
            script: "list /\ndf\n",
            fences: 3,
            told: "ok 1 a\nok inodes 2 4 pages 11 13\n",
        },
    ),
    (
        &[(1_552, 2), (1_553, 1), (1_554, 0x62_0001)],
        Found {
            held: (1, 1, 1),
            repairs: (1, 1, 0, 1, 1),
            script: "list /\nstat /b\n",
            fences: 5,
            told: "ok 1 b\nok file inode 2 links 1 size 2\n",
        },
    ),
];

#[test]
fn odd_slots(rt: HostRuntime) -> Result<(), Fail> {
    compare_rows(rt.alloc(), &SLOTS)
}
