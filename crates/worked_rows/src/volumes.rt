// Making a volume, words that ask for no job, and volumes that are written word by word.
use squirrel_cli::Status;
use std::alloc::Global;
use std::test::Fail;
use worked_drivers::images::compare_refused;
use worked_drivers::jobs::{Left, is_done, job_on, same, text_of};
use worked_drivers::rows::{compare_rows, compare_run};
use worked_drivers::volumes::{set_words, small_volume, volume_with_a, with_words};

const MAGIC: u64 = 0x3130_4D50_4C52_5153;

// Makes a volume of so many pages out of words that are 7.
fn make(alloc: Global, line: &str, pages: usize) -> Result<Left, Fail> {
    let old = vec![in alloc; 7; pages.saturating_mul(512)]?;
    job_on(alloc, line, old.as_slice(), b"")
}

#[test]
fn volumes_are_made(rt: HostRuntime) -> Result<(), Fail> {
    for (line, pages, wanted) in [
        (
            "squirrel mkfs v 16",
            16,
            "formatted pages 16 inodes 4 data 13\n",
        ),
        (
            "squirrel mkfs v 0016",
            16,
            "formatted pages 16 inodes 4 data 13\n",
        ),
        (
            "squirrel mkfs v 64",
            64,
            "formatted pages 64 inodes 16 data 61\n",
        ),
        (
            "squirrel mkfs v 132",
            132,
            "formatted pages 132 inodes 33 data 126\n",
        ),
        (
            "squirrel mkfs v 256",
            256,
            "formatted pages 256 inodes 64 data 249\n",
        ),
    ] {
        let left = make(rt.alloc(), line, pages)?;
        is_done(&left, wanted, line)?;
        same(left.fences, 3, line)?;
        same(left.status.number(), 0, line)?;
    }
    Ok(())
}

// The first words, the root, the free inode after it, the first descriptor, and the data pages, which stay.
#[test]
fn a_fresh_volume_has_the_words_of_the_format(rt: HostRuntime) -> Result<(), Fail> {
    let left = make(rt.alloc(), "squirrel mkfs v 16", 16)?;
    same(left.image.len(), 8_192, "a volume of 16 pages")?;
    for (first, wanted) in [
        (0usize, [MAGIC, 1, 16, 4, 13, 1, 0].as_slice()),
        (512, [2, 2, 0, 1, 0].as_slice()),
        (528, [0, 0, 0, 0].as_slice()),
        (1_024, [0, 0, 0].as_slice()),
        (1_535, [0, 7, 7].as_slice()),
        (8_191, [7].as_slice()),
    ] {
        let found = left.image.get(first..first.saturating_add(wanted.len()));
        same((first, found), (first, Some(wanted)), "a fresh volume")?;
    }
    Ok(())
}

#[test]
fn words_that_ask_for_no_job(rt: HostRuntime) -> Result<(), Fail> {
    let volume = small_volume(rt.alloc())?;
    for line in [
        "",
        "squirrel",
        "squirrel frob",
        "squirrel frob v",
        "squirrel run",
        "squirrel run v w",
        "squirrel run -v",
        "squirrel RUN v",
        "squirrel mkfs v",
        "squirrel mkfs v 15",
        "squirrel mkfs v 17",
        "squirrel mkfs v 65537",
        "squirrel mkfs v 18446744073709551632",
        "squirrel mkfs v 000000000000000000016",
        "squirrel mkfs v +16",
        "squirrel mkfs v 16x",
        "squirrel mkfs v -16",
        "squirrel mkfs -v 16",
        "squirrel mkfs v 16 16",
        "squirrel tree",
        "squirrel check v w",
        "squirrel crash v --at 1",
        "squirrel crash v --at 1 --call 1 --fence 1 --keep 00",
        "squirrel crash v --call 1 --keep 00",
        "squirrel crash v --at 1 --keep 0",
        "squirrel crash v --at 1 --keep 00 --again 1",
        "squirrel help",
        "squirrel --help",
        "squirrel --version",
    ] {
        let left = job_on(rt.alloc(), line, volume.as_slice(), b"create /a\n")?;
        same(left.status, Status::Usage, line)?;
        same(left.status.number(), 2, line)?;
        same(text_of(&left.told), "", line)?;
        same(left.image.as_slice(), volume.as_slice(), line)?;
    }
    Ok(())
}

// Litter: too many links of the file, a kind of a page without owner, and a name in a slot without a number.
const LITTER: [(usize, u64); 3] = [(529, 7), (1_049, 3), (1_586, 0x63_0001)];

// The volume with these words is damaged beside the litter.
fn compare_damaged(
    alloc: Global,
    volume: &[u64],
    changes: &[(usize, u64)],
    told: &str,
) -> Result<(), Fail> {
    let mut image = with_words(alloc, volume, &LITTER)?;
    set_words(&mut image, changes)?;
    compare_refused(alloc, image.as_slice(), told, told)
}

// Each word is of the root, of the file's inode, of the page's descriptor, or of a slot of the page.
#[test]
fn volumes_that_break_a_rule(rt: HostRuntime) -> Result<(), Fail> {
    let volume = volume_with_a(rt.alloc())?;
    for (word, value, told) in [
        (512, 1, "damaged 2 1\n"),
        (515, 2, "damaged 2 1\n"),
        (1_537, 3_329, "damaged 3 0\n"),
        (1_536, 1, "damaged 5 0\n"),
        (1_536, 5, "damaged 5 0\n"),
        (1_538, 0x61_0000, "damaged 6 0\n"),
        (1_538, 0x2F_0001, "damaged 6 0\n"),
        (1_539, 1, "damaged 6 0\n"),
        (531, 3, "damaged 7 2\n"),
        (1_536, 3, "damaged 7 3\n"),
        (1_025, 1, "damaged 10 0\n"),
        (530, 1, "damaged 12 2\n"),
        (513, 1, "damaged 14 1\n"),
        (528, 2, "damaged 14 1\n"),
        (529, 0, "damaged 14 2\n"),
    ] {
        compare_damaged(rt.alloc(), volume.as_slice(), &[(word, value)], told)?;
    }
    Ok(())
}

// Rename pointers in the slots 1 and 2, each of which names the other; the file's slot copied to the slot after it; a directory
// in place of the file, with the name `b` in that slot; a size over 2^40; one byte, for which the pages 1 and 2 stand; and two
// rules that are broken at once.
#[test]
fn volumes_that_break_a_rule_by_more_words(rt: HostRuntime) -> Result<(), Fail> {
    let volume = volume_with_a(rt.alloc())?;
    for (changes, told) in [
        ([(1_553usize, 3u64), (1_569, 2)].as_slice(), "damaged 4 2\n"),
        ([(1_552, 2), (1_554, 0x61_0001)].as_slice(), "damaged 8 1\n"),
        (
            [(513, 3), (528, 2), (529, 2), (1_552, 2), (1_554, 0x62_0001)].as_slice(),
            "damaged 9 1\n",
        ),
        ([(530, 0x100_0000_0001)].as_slice(), "damaged 11 2\n"),
        (
            [(530, 1), (1_032, 2), (1_033, 1), (1_040, 2), (1_041, 1)].as_slice(),
            "damaged 13 2\n",
        ),
        ([(529, 0), (1_025, 1)].as_slice(), "damaged 10 0\n"),
    ] {
        compare_damaged(rt.alloc(), volume.as_slice(), changes, told)?;
    }
    Ok(())
}

// Words that no one reads may be anything.
#[test]
fn words_that_are_not_read(rt: HostRuntime) -> Result<(), Fail> {
    let volume = volume_with_a(rt.alloc())?;
    for word in [516, 527, 1_031, 1_035, 2_048, 8_191] {
        let image = with_words(rt.alloc(), volume.as_slice(), &[(word, 9)])?;
        let left = compare_run(rt.alloc(), image.as_slice(), "list /\n", "ok 1 a\n", 0)?;
        same(
            (word, left.image.as_slice()),
            (word, image.as_slice()),
            "it was changed",
        )?;
    }
    Ok(())
}

// The file `/a` of 4,097 bytes, the last of which stands in page 1, and the others in page 2.
#[test]
fn a_file_with_bytes_is_told(rt: HostRuntime) -> Result<(), Fail> {
    let image = with_words(
        rt.alloc(),
        volume_with_a(rt.alloc())?.as_slice(),
        &[
            (530, 4_097),
            (1_032, 2),
            (1_033, 1),
            (1_034, 1),
            (1_040, 2),
            (1_041, 1),
            (2_048, 0x62),
            (2_560, 0x61),
        ],
    )?;
    compare_rows(
        rt.alloc(),
        image.as_slice(),
        &[(
            "stat /a\nread /a 4095 9\nread /a 0 1\ndf\n",
            "ok file inode 2 links 1 size 4097\nok 2 0062\nok 1 61\nok inodes 2 4 pages 10 13\n",
            0,
        )],
    )
}

// The name `e` stands in page 0, its directory's in page 1.
const NAMED_BEFORE_ITS_DIRECTORY: [(usize, u64); 15] = [
    (513, 3),
    (528, 2),
    (529, 3),
    (531, 2),
    (544, 2),
    (545, 2),
    (547, 3),
    (1_024, 2),
    (1_025, 2),
    (1_032, 1),
    (1_033, 2),
    (1_536, 3),
    (1_538, 0x65_0001),
    (2_048, 2),
    (2_050, 0x64_0001),
];

// A directory of the pages 1 and 2, with a name in each.
const DIRECTORY_OF_TWO_PAGES: [(usize, u64); 22] = [
    (513, 3),
    (528, 2),
    (529, 2),
    (531, 2),
    (544, 1),
    (545, 1),
    (547, 3),
    (560, 1),
    (561, 1),
    (563, 4),
    (1_024, 1),
    (1_025, 2),
    (1_032, 2),
    (1_033, 2),
    (1_040, 2),
    (1_041, 2),
    (1_536, 2),
    (1_538, 0x64_0001),
    (2_048, 3),
    (2_050, 0x66_0001),
    (2_640, 4),
    (2_642, 0x67_0001),
];

#[test]
fn directories_in_any_pages_are_told(rt: HostRuntime) -> Result<(), Fail> {
    let volume = small_volume(rt.alloc())?;
    for (words, script, told) in [
        (
            NAMED_BEFORE_ITS_DIRECTORY.as_slice(),
            "stat /d/e\nstat /\n",
            "ok dir inode 3 links 2 names 0\nok dir inode 1 links 3 names 1\n",
        ),
        (
            DIRECTORY_OF_TWO_PAGES.as_slice(),
            "list /d\nstat /d/g\n",
            "ok 2 f g\nok file inode 4 links 1 size 0\n",
        ),
    ] {
        let image = with_words(rt.alloc(), volume.as_slice(), words)?;
        compare_run(rt.alloc(), image.as_slice(), script, told, 0)?;
    }
    Ok(())
}
