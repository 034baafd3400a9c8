// Each rule broken once, and then in other ways, by words that are set in the volume of 16 pages: inode 1 begins at word 512,
// inode 2 at 528, the descriptors at 1,024, eight words each, and the slots of page 0 at 1,536, sixteen words each.
use crate::images::{NOT_A_VOLUME, Violation, compare_edits, small_base};
use std::alloc::Global;
use std::test::Fail;
use worked_drivers::images::compare_refused;

/// The rules in their order.
pub(crate) const EACH_RULE: [Violation<'static>; 15] = [
    (&[(3, 5)], NOT_A_VOLUME),
    (&[(512, 1)], "damaged 2 1\n"),
    (&[(1_537, 500)], "damaged 3 0\n"),
    (&[(1_537, 2), (1_553, 1)], "damaged 4 1\n"),
    (&[(1_552, 9)], "damaged 5 1\n"),
    (&[(1_538, 1)], "damaged 6 0\n"),
    (&[(528, 3)], "damaged 7 2\n"),
    (&[(1_554, 0x61_0001)], "damaged 8 1\n"),
    (&[(1_536, 3)], "damaged 9 1\n"),
    (&[(1_033, 2)], "damaged 10 1\n"),
    (&[(530, 1_099_511_627_777)], "damaged 11 2\n"),
    (&[(530, 4_097)], "damaged 12 2\n"),
    (&[(1_040, 2), (1_041, 1), (1_042, 0)], "damaged 13 2\n"),
    (&[(513, 2)], "damaged 14 1\n"),
    (&[(5, 1), (513, 4)], "damaged 15 5\n"),
];

#[test]
fn each_rule_is_broken(rt: HostRuntime) -> Result<(), Fail> {
    let base = small_base(rt.alloc())?;
    compare_edits(rt.alloc(), base.as_slice(), &EACH_RULE)
}

// The magic, the version, the number of pages, and that of data pages.
const HEADS: [Violation<'static>; 8] = [
    (&[(0, 0)], NOT_A_VOLUME),
    (&[(0, 0x3130_4D50_4C52_5154)], NOT_A_VOLUME),
    (&[(1, 0)], NOT_A_VOLUME),
    (&[(1, 2)], NOT_A_VOLUME),
    (&[(2, 15)], NOT_A_VOLUME),
    (&[(2, 17)], NOT_A_VOLUME),
    (&[(4, 12)], NOT_A_VOLUME),
    (&[(4, u64::MAX)], NOT_A_VOLUME),
];

// No word, one, the head alone, 15 pages, a word less and a word more than 16 pages, and 17 pages.
const LENGTHS: [usize; 7] = [0, 1, 5, 7_680, 8_191, 8_193, 8_704];

// The first words of a volume, with zeros behind its last one.
fn of_length(alloc: Global, base: &[u64], length: usize) -> Result<Vec<u64>, Fail> {
    let mut image = base.get(..length).unwrap_or(base).to_vec(alloc)?;
    for _ in base.len()..length {
        image.push(0)?;
    }
    Ok(image)
}

#[test]
fn a_head_or_a_length_is_no_volumes(rt: HostRuntime) -> Result<(), Fail> {
    let alloc = rt.alloc();
    let base = small_base(alloc)?;
    compare_edits(alloc, base.as_slice(), &HEADS)?;
    for length in LENGTHS {
        let image = of_length(alloc, base.as_slice(), length)?;
        let place = format!(in alloc; "{length} words")?;
        compare_refused(alloc, image.as_slice(), NOT_A_VOLUME, place.as_str())?;
    }
    Ok(())
}

// The root's kind and number. Then rename pointers: to the slot itself, to a slot of the file's page, to the last one, whose page has no
// owner, past it, and as high as can be; and of an empty slot to itself. Two pointers.
const ROOTS_AND_POINTERS: [Violation<'static>; 10] = [
    (&[(512, 0)], "damaged 2 1\n"),
    (&[(512, 3)], "damaged 2 1\n"),
    (&[(515, 2)], "damaged 2 1\n"),
    (&[(1_537, 1)], "damaged 3 0\n"),
    (&[(1_537, 33)], "damaged 3 0\n"),
    (&[(1_537, 416)], "damaged 3 0\n"),
    (&[(1_537, 417)], "damaged 3 0\n"),
    (&[(1_537, u64::MAX)], "damaged 3 0\n"),
    (&[(1_569, 3)], "damaged 3 2\n"),
    (&[(1_537, 3), (1_569, 1)], "damaged 4 2\n"),
];

#[test]
fn the_root_or_a_pointer_is_wrong(rt: HostRuntime) -> Result<(), Fail> {
    let base = small_base(rt.alloc())?;
    compare_edits(rt.alloc(), base.as_slice(), &ROOTS_AND_POINTERS)
}

// Slots that name the root, or an inode past the last. Names: of no byte, longer than their bytes, of 111 bytes, `.`, `..`, `/`, and with a
// word behind the name. Inodes with another number than their own, and a directory's that is free.
const NUMBERS_AND_NAMES: [Violation<'static>; 14] = [
    (&[(1_536, 1)], "damaged 5 0\n"),
    (&[(1_536, 5)], "damaged 5 0\n"),
    (&[(1_536, 0x8000_0000_0000_0000)], "damaged 5 0\n"),
    (&[(1_552, 1)], "damaged 5 1\n"),
    (&[(1_538, 0)], "damaged 6 0\n"),
    (&[(1_538, 0x61_0002)], "damaged 6 0\n"),
    (&[(1_538, 0x61_006F)], "damaged 6 0\n"),
    (&[(1_538, 0x2E_0001)], "damaged 6 0\n"),
    (&[(1_538, 0x2E2E_0002)], "damaged 6 0\n"),
    (&[(1_538, 0x2F_0001)], "damaged 6 0\n"),
    (&[(1_551, 1)], "damaged 6 0\n"),
    (&[(531, 0)], "damaged 7 2\n"),
    (&[(531, 3)], "damaged 7 2\n"),
    (&[(544, 0)], "damaged 7 3\n"),
];

#[test]
fn a_number_or_a_name_is_wrong(rt: HostRuntime) -> Result<(), Fail> {
    let base = small_base(rt.alloc())?;
    compare_edits(rt.alloc(), base.as_slice(), &NUMBERS_AND_NAMES)
}

// The directory's slot once more, with its name and with another one. The root's page of no kind and of a file's, the file's page owned
// by the directory, and a page more of each with the other's kind.
const TWINS_AND_PAGES: [Violation<'static>; 7] = [
    (&[(1_568, 3), (1_570, 0x64_0001)], "damaged 8 2\n"),
    (&[(1_568, 3), (1_570, 0x65_0001)], "damaged 9 2\n"),
    (&[(1_025, 0)], "damaged 10 0\n"),
    (&[(1_025, 1)], "damaged 10 0\n"),
    (&[(1_032, 3)], "damaged 10 1\n"),
    (&[(1_040, 2), (1_041, 2)], "damaged 10 2\n"),
    (&[(1_040, 3), (1_041, 1)], "damaged 10 2\n"),
];

#[test]
fn a_twin_stands_or_a_page_is_wrong(rt: HostRuntime) -> Result<(), Fail> {
    let base = small_base(rt.alloc())?;
    compare_edits(rt.alloc(), base.as_slice(), &TWINS_AND_PAGES)
}

// A size as high as can be. Offsets without a page: since the size is 2^40, or the page has no owner or another offset. Too few links:
// of the root, of the file, also with a second name and with the directory's, and of the directory.
const SIZES_AND_LINKS: [Violation<'static>; 10] = [
    (&[(530, u64::MAX)], "damaged 11 2\n"),
    (&[(530, 0x100_0000_0000)], "damaged 12 2\n"),
    (&[(1_032, 0)], "damaged 12 2\n"),
    (&[(1_034, 1)], "damaged 12 2\n"),
    (&[(1_034, 0x8000_0000_0000_0000)], "damaged 12 2\n"),
    (&[(513, 0)], "damaged 14 1\n"),
    (&[(529, 0)], "damaged 14 2\n"),
    (&[(1_568, 2), (1_570, 0x65_0001)], "damaged 14 2\n"),
    (&[(1_552, 2)], "damaged 14 2\n"),
    (&[(545, 1)], "damaged 14 3\n"),
];

#[test]
fn a_size_or_a_count_is_wrong(rt: HostRuntime) -> Result<(), Fail> {
    let base = small_base(rt.alloc())?;
    compare_edits(rt.alloc(), base.as_slice(), &SIZES_AND_LINKS)
}

// With the mark: a pointer, a slot, an empty page, a page's kind alone, a page past the file's end, an inode, and links of the file and of
// the directory.
const MARKED: [Violation<'static>; 8] = [
    (&[(5, 1), (1_569, 1)], "damaged 15 5\n"),
    (&[(5, 1), (1_570, 0x63_0001)], "damaged 15 5\n"),
    (&[(5, 1), (1_048, 1), (1_049, 2)], "damaged 15 5\n"),
    (&[(5, 1), (1_049, 7)], "damaged 15 5\n"),
    (
        &[(5, 1), (1_056, 2), (1_057, 1), (1_058, 1)],
        "damaged 15 5\n",
    ),
    (&[(5, 1), (560, 1), (563, 4)], "damaged 15 5\n"),
    (&[(5, 1), (529, 2)], "damaged 15 5\n"),
    (&[(5, 1), (545, 3)], "damaged 15 5\n"),
];

#[test]
fn a_closed_volume_has_something_to_repair(rt: HostRuntime) -> Result<(), Fail> {
    let base = small_base(rt.alloc())?;
    compare_edits(rt.alloc(), base.as_slice(), &MARKED)
}
