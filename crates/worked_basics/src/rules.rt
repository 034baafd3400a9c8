// Each rule and each repair once, at places worked out by hand, on 16 pages: inode 1 begins at word 512, inode 2 at 528,
// the descriptors at 1,024, eight words each, and data page 0 at 1,536, with sixteen words a slot.
ghost use Rattle.std.specs.Prelude.{◌≡◌, IfOk, vec_len};
ghost use Rattle.image_reading.specs.Scanned.{IsScanned};

use image_reading::{Scan, Scanned, first_fault, is_tidy};
use layout::Geometry;
use std::alloc::Global;
use std::process::Abort;
use std::test::Fail;

type Stores<'a> = &'a [(u64, u64)];

// The words of a formatted volume that aren't 0: the head, and the root's kind, links and own number.
const FORMATTED: [(u64, u64); 8] = [
    (0, 0x3130_4D50_4C52_5153),
    (1, 1),
    (2, 16),
    (3, 4),
    (4, 13),
    (512, 2),
    (513, 2),
    (515, 1),
];

// Page 0 is the root's, and its slot 0 names inode 2, an empty file, by `a`.
const ONE_FILE: [(u64, u64); 7] = [
    (528, 1),
    (529, 1),
    (531, 2),
    (1_024, 1),
    (1_025, 2),
    (1_536, 2),
    (1_538, 0x61_0001),
];

fn store(words: &mut Vec<u64>, stores: Stores<'_>)
    ensures { vec_len words.new ≡ vec_len words.old }
{
    for (address, value) in stores {
        if *address < words.len() as u64 {
            words[*address as usize] = *value;
        }
    }
}

// The words of a formatted volume with this tree, after these stores.
fn words_after(alloc: Global, tree: Stores<'_>, stores: Stores<'_>) -> Result<Vec<u64>, Fail>
    ensures { IfOk result (λ words. vec_len words ≡ 8_192) }
{
    let mut words = vec![in alloc; 0u64; 8_192]?;
    store(&mut words, FORMATTED.as_slice());
    store(&mut words, tree);
    store(&mut words, stores);
    Ok(words)
}

// The first violation of a formatted volume with this tree, after these stores.
fn fault_after(
    rt: &impl Abort,
    alloc: Global,
    tree: Stores<'_>,
    stores: Stores<'_>,
) -> Result<Option<(u64, u64)>, Fail> {
    let geometry = Geometry::of(16).ok_or("no volume")?;
    let mut scan = Scan::new(alloc, &geometry)?;
    let words = words_after(alloc, tree, stores)?;
    assert_eq!(rt; geometry.pages, 16);
    Ok(first_fault(words.as_slice(), &mut scan).map(|fault| (fault.rule, fault.place)))
}

// Whether a formatted volume with one file needs no recovery, after these stores, which break no rule.
fn is_tidy_after(rt: &impl Abort, alloc: Global, stores: Stores<'_>) -> Result<bool, Fail> {
    let geometry = Geometry::of(16).ok_or("no volume")?;
    let mut scan = Scan::new(alloc, &geometry)?;
    let words = words_after(alloc, ONE_FILE.as_slice(), stores)?;
    assert_eq!(rt; geometry.pages, 16);
    match first_fault(words.as_slice(), &mut scan) {
        None => Ok(is_tidy(words.as_slice(), &scan)),
        Some(_) => Err("a broken rule".into()),
    }
}

#[test]
fn repairs(rt: HostRuntime) -> Result<(), Fail> {
    for (stores, expected) in [
        // as it is
        ([].as_slice(), true),
        // slot 0's rename pointer names slot 1
        ([(1_537, 2)].as_slice(), false),
        // the file has a link more than it has names, and so has the root
        ([(529, 2)].as_slice(), false),
        ([(513, 3)].as_slice(), false),
        // inode 3 isn't reached, and has a number of its own
        ([(547, 3)].as_slice(), false),
        // the last word of slot 31, which isn't live
        ([(2_047, 1)].as_slice(), false),
        // page 2 is nobody's, and has an offset
        ([(1_042, 1)].as_slice(), false),
        // page 1 is the file's, which has no byte, or has one
        ([(1_032, 2), (1_033, 1)].as_slice(), false),
        ([(530, 1), (1_032, 2), (1_033, 1)].as_slice(), true),
        // page 1 is the root's, and has no live slot, or has one that names the file too
        ([(1_032, 1), (1_033, 2)].as_slice(), false),
        (
            [
                (529, 2),
                (1_032, 1),
                (1_033, 2),
                (2_048, 2),
                (2_050, 0x62_0001),
            ]
            .as_slice(),
            true,
        ),
        // page 1 is inode 3's, which isn't reached
        ([(1_032, 3), (1_033, 1)].as_slice(), false),
    ] {
        assert_eq!(rt; is_tidy_after(&rt, rt.alloc(), stores)?, expected);
    }
    Ok(())
}

// Slot 1 names the file by `b` and points at slot 0, which the rename has left. Slot 2 names directory 3 by `c`. Page 1 has
// the file's one byte, page 2 is past its end, and page 3 is the root's, with no live slot. All links are too many.
const RENAMED: [(u64, u64); 19] = [
    (513, 9),
    (529, 7),
    (530, 1),
    (544, 2),
    (545, 9),
    (547, 3),
    (1_032, 2),
    (1_033, 1),
    (1_040, 2),
    (1_041, 1),
    (1_042, 1),
    (1_048, 1),
    (1_049, 2),
    (1_552, 2),
    (1_553, 1),
    (1_554, 0x62_0001),
    (1_568, 3),
    (1_570, 0x63_0001),
    (563, 4),
];

// The links that are counted, of a reached inode.
fn links_of(scanned: &Scanned<'_>, inode: u64) -> Option<u64>
    requires { IsScanned scanned.now }
{
    if scanned.is_reached(inode) {
        return Some(scanned.links(inode));
    }
    None
}

#[test]
fn readers(rt: HostRuntime) -> Result<(), Fail> {
    let geometry = Geometry::of(16).ok_or("no volume")?;
    let mut scan = Scan::new(rt.alloc(), &geometry)?;
    let words = words_after(rt.alloc(), ONE_FILE.as_slice(), RENAMED.as_slice())?;
    assert_eq!(rt; geometry.pages, 16);
    let words = words.as_slice();
    if first_fault(words, &mut scan).is_some() {
        return Err("a broken rule".into());
    }
    let scanned = scan.scanned(words);
    for (slot, expected) in [(0, false), (1, true), (2, true), (3, false), (9_999, false)] {
        assert_eq!(rt; scanned.is_live(slot), expected);
    }
    for (page, expected) in [
        (0, true),
        (1, true),
        (2, false),
        (3, false),
        (4, false),
        (13, false),
    ] {
        assert_eq!(rt; scanned.is_kept(page), expected);
    }
    for (inode, expected) in [
        (0, None),
        (1, Some(3)),
        (2, Some(1)),
        (3, Some(2)),
        (4, None),
        (5, None),
    ] {
        assert_eq!(rt; scanned.is_reached(inode), expected.is_some());
        assert_eq!(rt; links_of(&scanned, inode), expected);
    }
    Ok(())
}

// The slot with the rename pointer, and the one that a committed rename left.
fn rename_after(
    rt: &impl Abort,
    alloc: Global,
    stores: Stores<'_>,
) -> Result<(Option<u64>, Option<u64>), Fail> {
    let geometry = Geometry::of(16).ok_or("no volume")?;
    let mut scan = Scan::new(alloc, &geometry)?;
    let words = words_after(alloc, ONE_FILE.as_slice(), stores)?;
    assert_eq!(rt; geometry.pages, 16);
    let words = words.as_slice();
    if first_fault(words, &mut scan).is_some() {
        return Err("a broken rule".into());
    }
    let scanned = scan.scanned(words);
    Ok((scanned.pointer(), scanned.left()))
}

#[test]
fn rename_pointers(rt: HostRuntime) -> Result<(), Fail> {
    for (stores, expected) in [
        ([].as_slice(), (None, None)),
        (RENAMED.as_slice(), (Some(1), Some(0))),
        // the slot with the pointer has no number, or the other one has none, or neither has
        ([(1_553, 1)].as_slice(), (Some(1), None)),
        ([(1_537, 2)].as_slice(), (Some(0), None)),
        ([(1_553, 3)].as_slice(), (Some(1), None)),
    ] {
        assert_eq!(rt; rename_after(&rt, rt.alloc(), stores)?, expected);
    }
    Ok(())
}

#[test]
fn faults_of_a_formatted_volume(rt: HostRuntime) -> Result<(), Fail> {
    for (stores, fault) in [
        ([].as_slice(), None),
        ([(0, 0)].as_slice(), Some((1, 0))),
        ([(4, 12)].as_slice(), Some((1, 4))),
        ([(4, 12), (2, 17)].as_slice(), Some((1, 2))),
        ([(512, 1)].as_slice(), Some((2, 1))),
        ([(515, 2)].as_slice(), Some((2, 1))),
        ([(513, 1)].as_slice(), Some((14, 1))),
    ] {
        assert_eq!(rt; fault_after(&rt, rt.alloc(), [].as_slice(), stores)?, fault);
    }
    Ok(())
}

#[test]
fn marks_of_a_formatted_volume(rt: HostRuntime) -> Result<(), Fail> {
    for (stores, fault) in [
        // it has the mark, and nothing is to be repaired
        ([(5, 1)].as_slice(), None),
        // the root has links too many, with the mark and without
        ([(5, 1), (513, 4)].as_slice(), Some((15, 5))),
        ([(513, 4)].as_slice(), None),
        ([(5, 2), (513, 4)].as_slice(), None),
        ([(5, 7), (513, 4)].as_slice(), None),
        ([(5, u64::MAX), (513, 4)].as_slice(), None),
        // a rule before it is broken too
        ([(5, 1), (1, 2), (513, 4)].as_slice(), Some((1, 1))),
        ([(5, 1), (513, 1)].as_slice(), Some((14, 1))),
    ] {
        assert_eq!(rt; fault_after(&rt, rt.alloc(), [].as_slice(), stores)?, fault);
    }
    Ok(())
}

#[test]
fn faults_of_names(rt: HostRuntime) -> Result<(), Fail> {
    for (stores, fault) in [
        // as it is
        ([].as_slice(), None),
        // slot 0's rename pointer names itself, or a slot of a page that isn't held
        ([(1_537, 1)].as_slice(), Some((3, 0))),
        ([(1_537, 33)].as_slice(), Some((3, 0))),
        // slots 0 and 5 both have one
        ([(1_537, 2), (1_617, 2)].as_slice(), Some((4, 5))),
        // slots 0 and 96, of page 3, which is the root's, while pages 1 and 2 are nobody's
        (
            [(1_537, 2), (1_048, 1), (1_049, 2), (3_073, 1)].as_slice(),
            Some((4, 96)),
        ),
        // slot 0 names the root, or no inode of the volume
        ([(1_536, 1)].as_slice(), Some((5, 0))),
        ([(1_536, 5)].as_slice(), Some((5, 0))),
        // its name is empty
        ([(1_538, 0)].as_slice(), Some((6, 0))),
        // inode 2 is free, or says another number
        ([(528, 0)].as_slice(), Some((7, 2))),
        ([(531, 3)].as_slice(), Some((7, 2))),
        // slot 1 names it too, by the same name, or by `b`
        (
            [(529, 2), (1_552, 2), (1_554, 0x61_0001)].as_slice(),
            Some((8, 1)),
        ),
        ([(529, 2), (1_552, 2), (1_554, 0x62_0001)].as_slice(), None),
        ([(1_552, 2), (1_554, 0x62_0001)].as_slice(), Some((14, 2))),
        // it names it by the same name, and the volume has the mark and links too many
        (
            [(5, 1), (529, 3), (1_552, 2), (1_554, 0x61_0001)].as_slice(),
            Some((8, 1)),
        ),
        // it has the mark, and slot 0's rename pointer names slot 1
        ([(5, 1), (1_537, 2)].as_slice(), Some((15, 5))),
        ([(5, 1)].as_slice(), None),
        // as it does in mid-rename, where slot 1 points at slot 0, which is dead
        (
            [(1_552, 2), (1_553, 1), (1_554, 0x62_0001)].as_slice(),
            None,
        ),
        // it is a directory with two names
        (
            [(513, 4), (528, 2), (529, 2), (1_552, 2), (1_554, 0x62_0001)].as_slice(),
            Some((9, 1)),
        ),
    ] {
        assert_eq!(rt;
            fault_after(&rt, rt.alloc(), ONE_FILE.as_slice(), stores)?,
            fault
        );
    }
    Ok(())
}

#[test]
fn faults_of_files(rt: HostRuntime) -> Result<(), Fail> {
    for (stores, fault) in [
        // page 1 is the file's, with the kind of a directory's
        ([(1_032, 2), (1_033, 2)].as_slice(), Some((10, 1))),
        // the file is too big by a byte
        ([(530, 1_099_511_627_777)].as_slice(), Some((11, 2))),
        // it has a byte, and no page or one
        ([(530, 1)].as_slice(), Some((12, 2))),
        ([(530, 1), (1_032, 2), (1_033, 1)].as_slice(), None),
        // it has two pages, and both at offset 0
        (
            [(530, 4_097), (1_032, 2), (1_033, 1), (1_040, 2), (1_041, 1)].as_slice(),
            Some((12, 2)),
        ),
        // pages 1, 4 and 5 are at offset 0
        (
            [
                (530, 1),
                (1_032, 2),
                (1_033, 1),
                (1_056, 2),
                (1_057, 1),
                (1_064, 2),
                (1_065, 1),
            ]
            .as_slice(),
            Some((13, 4)),
        ),
        // it has no links
        ([(529, 0)].as_slice(), Some((14, 2))),
    ] {
        assert_eq!(rt;
            fault_after(&rt, rt.alloc(), ONE_FILE.as_slice(), stores)?,
            fault
        );
    }
    Ok(())
}

// What differs on 64 pages, which have 16 inodes.
const OF_64_PAGES: [(u64, u64); 3] = [(2, 64), (3, 16), (4, 61)];

// The first violation of 64 pages with this tree, after these stores.
fn fault_on_64_pages(
    rt: &impl Abort,
    alloc: Global,
    tree: Stores<'_>,
    stores: Stores<'_>,
) -> Result<Option<(u64, u64)>, Fail> {
    let geometry = Geometry::of(64).ok_or("no volume")?;
    let mut scan = Scan::new(alloc, &geometry)?;
    let mut words = vec![in alloc; 0u64; 32_768]?;
    store(&mut words, FORMATTED.as_slice());
    store(&mut words, OF_64_PAGES.as_slice());
    store(&mut words, tree);
    store(&mut words, stores);
    assert_eq!(rt; geometry.pages, 64);
    Ok(first_fault(words.as_slice(), &mut scan).map(|fault| (fault.rule, fault.place)))
}

// The root's slots 0 to 40 name the file 2: slot 0 by `f`, slot k by `nk` in two digits. Then slots that each part of `named`
// tells, the last one not among them, have a name with this first word.
fn many_names(alloc: Global, named: &[(u64, u64, u64)]) -> Result<Vec<(u64, u64)>, Fail> {
    let mut stores = Vec::from_slice(alloc, MANY_NAMES.as_slice())?;
    for k in 1..41u64 {
        let digits = (48 + k / 10) * 0x100_0000 + (48 + k % 10) * 0x1_0000_0000;
        stores.push((1_536 + 16 * k, 2))?;
        stores.push((1_538 + 16 * k, 0x6e_0003 + digits))?;
    }
    for (first, end, word) in named {
        for slot in *first..(*end).min(41) {
            stores.push((1_538 + 16 * slot, *word))?;
        }
    }
    Ok(stores)
}

// The file, which has 41 names, and the root's two pages.
const MANY_NAMES: [(u64, u64); 9] = [
    (528, 1),
    (529, 41),
    (531, 2),
    (1_024, 1),
    (1_025, 2),
    (1_032, 1),
    (1_033, 2),
    (1_536, 2),
    (1_538, 0x66_0001),
];

const F: u64 = 0x66_0001;

const N02: u64 = 0x32_306e_0003;

const N20: u64 = 0x30_326e_0003;

const SAME: u64 = 0x656d_6173_0004;

#[test]
fn twins_among_many_names(rt: HostRuntime) -> Result<(), Fail> {
    for (named, stores, fault) in [
        ([].as_slice(), [].as_slice(), None),
        ([(40, 41, N02)].as_slice(), [].as_slice(), Some((8, 40))),
        // the least second slot, not that of the first name
        (
            [(40, 41, N02), (33, 34, N20)].as_slice(),
            [].as_slice(),
            Some((8, 33)),
        ),
        // the second of three
        (
            [(5, 6, F), (9, 10, F)].as_slice(),
            [].as_slice(),
            Some((8, 5)),
        ),
        ([(1, 41, SAME)].as_slice(), [].as_slice(), Some((8, 2))),
        ([(0, 41, SAME)].as_slice(), [].as_slice(), Some((8, 1))),
        // the twin isn't live, since slot 39 points at it
        ([(40, 41, N02)].as_slice(), [(2_161, 41)].as_slice(), None),
    ] {
        let tree = many_names(rt.alloc(), named)?;
        assert_eq!(rt;
            fault_on_64_pages(&rt, rt.alloc(), tree.as_slice(), stores)?,
            fault
        );
    }
    Ok(())
}

// `/a` and `/b`, each with a file `x`, and `/x`, another name of `/a/x`. Page 0 is the root's, page 1 is `/a`'s, page 2 `/b`'s.
const TWO_DIRECTORIES: [(u64, u64); 29] = [
    (513, 4),
    (528, 2),
    (529, 2),
    (531, 2),
    (544, 2),
    (545, 2),
    (547, 3),
    (560, 1),
    (561, 2),
    (563, 4),
    (576, 1),
    (577, 1),
    (579, 5),
    (1_024, 1),
    (1_025, 2),
    (1_032, 2),
    (1_033, 2),
    (1_040, 3),
    (1_041, 2),
    (1_536, 2),
    (1_538, 0x61_0001),
    (1_552, 3),
    (1_554, 0x62_0001),
    (1_568, 4),
    (1_570, 0x78_0001),
    (2_048, 4),
    (2_050, 0x78_0001),
    (2_560, 5),
    (2_562, 0x78_0001),
];

#[test]
fn places_in_two_directories(rt: HostRuntime) -> Result<(), Fail> {
    for (stores, fault) in [
        ([].as_slice(), None),
        ([(1_554, 0x61_0001)].as_slice(), Some((8, 1))),
        ([(1_552, 2)].as_slice(), Some((9, 1))),
        ([(1_552, 2), (1_554, 0x61_0001)].as_slice(), Some((8, 1))),
        ([(2_560, 2)].as_slice(), Some((9, 64))),
        ([(2_048, 3)].as_slice(), Some((9, 32))),
        ([(2_560, 17), (1_568, 1)].as_slice(), Some((5, 2))),
        ([(2_562, 0), (1_570, 0)].as_slice(), Some((6, 2))),
    ] {
        assert_eq!(rt;
            fault_on_64_pages(&rt, rt.alloc(), TWO_DIRECTORIES.as_slice(), stores)?,
            fault
        );
    }
    Ok(())
}

// The words of 64 pages with the two directories, after these stores.
fn directories_after(alloc: Global, stores: Stores<'_>) -> Result<Vec<u64>, Fail>
    ensures { IfOk result (λ words. vec_len words ≡ 32_768) }
{
    let mut words = vec![in alloc; 0u64; 32_768]?;
    store(&mut words, FORMATTED.as_slice());
    store(&mut words, OF_64_PAGES.as_slice());
    store(&mut words, TWO_DIRECTORIES.as_slice());
    store(&mut words, stores);
    Ok(words)
}

// The names of these directories, after these stores, which break no rule.
fn names_after(rt: &impl Abort, alloc: Global, stores: Stores<'_>) -> Result<Vec<u32>, Fail> {
    let geometry = Geometry::of(64).ok_or("no volume")?;
    let mut scan = Scan::new(alloc, &geometry)?;
    let words = directories_after(alloc, stores)?;
    assert_eq!(rt; geometry.pages, 64);
    let words = words.as_slice();
    if first_fault(words, &mut scan).is_some() {
        return Err("a broken rule".into());
    }
    let scanned = scan.scanned(words);
    Ok(Vec::from_slice(alloc, scanned.names())?)
}

#[test]
fn names_in_order(rt: HostRuntime) -> Result<(), Fail> {
    for (stores, expected) in [
        ([].as_slice(), [0, 1, 2, 32, 64].as_slice()),
        // `/a` is called `z`
        (
            [(1_538, 0x7a_0001)].as_slice(),
            [1, 2, 0, 32, 64].as_slice(),
        ),
        // `/a` has page 2, and `/b` page 1
        (
            [(1_032, 3), (1_040, 2)].as_slice(),
            [0, 1, 2, 64, 32].as_slice(),
        ),
        // `/x` is called `ab`, which stands before `b`
        (
            [(1_570, 0x6261_0002)].as_slice(),
            [0, 2, 1, 32, 64].as_slice(),
        ),
        // slot 0 is what a rename of `/a` to `/b/x` leaves
        (
            [(2_560, 2), (2_561, 1), (545, 3)].as_slice(),
            [1, 2, 32, 64].as_slice(),
        ),
    ] {
        let names = names_after(&rt, rt.alloc(), stores)?;
        assert_eq!(rt; names.as_slice(), expected);
    }
    Ok(())
}
