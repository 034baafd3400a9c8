// The volumes that rows begin on, made by a script, and words that are set in them.
use std::alloc::Global;
use std::test::Fail;
use worked_drivers::images::compare_refused;
use worked_drivers::rows::compare_words;
use worked_drivers::texts::{joined, numbered};
use worked_drivers::volumes::{set_words, volume_after, with_words};

/// Words that are set, each at its address.
pub(crate) type Edit<'a> = &'a [(usize, u64)];

/// Words that break rules, and what each job tells of them.
pub(crate) type Violation<'a> = (Edit<'a>, &'a str);

pub(crate) const NOT_A_VOLUME: &str = "not a volume\n";

// The mark of a closed volume isn't there.
const OPEN: (usize, u64) = (5, 0);

// The inode of the file `/a`, which has two bytes in page 1; that of the directory `/d`; the descriptors of page 0, which is the root's,
// and of page 1; and slots 0 and 1.
const SMALL: [(usize, u64); 16] = [
    (528, 1),
    (529, 1),
    (530, 2),
    (531, 2),
    (544, 2),
    (545, 2),
    (547, 3),
    (1_024, 1),
    (1_025, 2),
    (1_032, 2),
    (1_033, 1),
    (1_034, 0),
    (1_536, 2),
    (1_538, 0x61_0001),
    (1_552, 3),
    (1_554, 0x64_0001),
];

/// 16 pages with the file `/a` of two bytes and the empty directory `/d`.
pub(crate) fn small_base(alloc: Global) -> Result<Vec<u64>, Fail> {
    let script = "create /a\nwrite /a 0 6162\nmkdir /d\n";
    let mut image = volume_after(alloc, 16, script)?;
    set_words(&mut image, &[OPEN])?;
    compare_words(image.as_slice(), &SMALL)?;
    Ok(image)
}

// Slot 64, the first of `/d`'s second page, has `n32`; slot 70 names inode 41 and slot 71 inode 42, whose size and whose pages 3 and 7
// come last.
const LARGE: [(usize, u64); 9] = [
    (4_608, 35),
    (4_610, 0x32_336E_0003),
    (4_704, 41),
    (4_720, 42),
    (1_170, 20_000),
    (1_560, 42),
    (1_562, 0),
    (1_592, 42),
    (1_594, 4),
];

/// 256 pages with the directory `/d` of 40 files, `/d/n0` to `/d/n39`, of which the last has five pages.
pub(crate) fn large_base(alloc: Global) -> Result<Vec<u64>, Fail> {
    let files = numbered(alloc, "create /d/n", 0, 40)?;
    let script = joined(
        alloc,
        &["mkdir /d\n", files.as_str(), "truncate /d/n39 20000\n"],
    )?;
    let mut image = volume_after(alloc, 256, script.as_str())?;
    set_words(&mut image, &[OPEN])?;
    compare_words(image.as_slice(), &LARGE)?;
    Ok(image)
}

/// Each of these edits alone is refused by each job.
pub(crate) fn compare_edits(
    alloc: Global,
    base: &[u64],
    violations: &[Violation<'_>],
) -> Result<(), Fail> {
    for (words, told) in violations {
        compare_edit(alloc, base, words, told)?;
    }
    Ok(())
}

fn compare_edit(alloc: Global, base: &[u64], words: Edit<'_>, told: &str) -> Result<(), Fail> {
    let image = with_words(alloc, base, words)?;
    let place = format!(in alloc; "{words:?}")?;
    compare_refused(alloc, image.as_slice(), told, place.as_str())
}

/// These edits together are refused by each job.
pub(crate) fn compare_both(
    alloc: Global,
    base: &[u64],
    first: Edit<'_>,
    second: Edit<'_>,
    told: &str,
) -> Result<(), Fail> {
    let image = with_words(alloc, base, first)?;
    compare_edit(alloc, image.as_slice(), second, told)
}
