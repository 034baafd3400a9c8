// Names that stand twice in a directory, directories that have two names, and the slots of a directory of many names.
use std::alloc::Global;
use std::test::Fail;
use worked_drivers::images::compare_refused;
use worked_drivers::jobs::{Left, is_done, job_on, same, text_of};
use worked_drivers::rows::{compare_replies, compare_words};
use worked_drivers::texts::{joined, numbered};
use worked_drivers::volumes::{set_words, volume_after};

// A word of a slot, and what it is set to.
type Change = (usize, usize, u64);

// The words of a slot: its inode number, its rename pointer, and the first of its name.
const NUMBER: usize = 0;

const POINTER: usize = 1;

const NAME: usize = 2;

// That first word of the names `a`, `f`, `n02`, `n20` and `same`.
const A: u64 = 0x61_0001;

const F: u64 = 0x66_0001;

const N02: u64 = 0x32_306E_0003;

const N20: u64 = 0x30_326E_0003;

const SAME: u64 = 0x656D_6173_0004;

// The words of a volume of 64 pages, some of them set in its slots, of which the first begins at word 1,536.
fn with_slots(alloc: Global, volume: &[u64], changes: &[Change]) -> Result<Vec<u64>, Fail> {
    let mut image = volume.to_vec(alloc)?;
    for (slot, field, value) in changes {
        let start = slot.saturating_mul(16).saturating_add(1_536);
        set_words(&mut image, &[(start.saturating_add(*field), *value)])?;
    }
    Ok(image)
}

// The file `/f` and its 40 other names: slot k has `nk`, slot 0 `f`.
fn one_directory(alloc: Global) -> Result<Vec<u64>, Fail> {
    let first = numbered(alloc, "link /f /n0", 1, 10)?;
    let others = numbered(alloc, "link /f /n", 10, 41)?;
    let script = joined(alloc, &["create /f\n", first.as_str(), others.as_str()])?;
    volume_after(alloc, 64, script.as_str())
}

// The place is the least of all slots whose name an earlier slot has, whatever the order of the names.
#[test]
fn the_least_twin_is_told(rt: HostRuntime) -> Result<(), Fail> {
    let volume = one_directory(rt.alloc())?;
    for (changes, told) in [
        ([(40usize, NAME, N02)].as_slice(), "damaged 8 40\n"),
        (
            [(40, NAME, N02), (33, NAME, N20)].as_slice(),
            "damaged 8 33\n",
        ),
        ([(5, NAME, F), (9, NAME, F)].as_slice(), "damaged 8 5\n"),
    ] {
        let image = with_slots(rt.alloc(), volume.as_slice(), changes)?;
        compare_refused(rt.alloc(), image.as_slice(), told, told)?;
    }
    Ok(())
}

#[test]
fn of_many_twins_the_second_is_told(rt: HostRuntime) -> Result<(), Fail> {
    let mut image = one_directory(rt.alloc())?;
    for slot in 1..41 {
        image = with_slots(rt.alloc(), image.as_slice(), &[(slot, NAME, SAME)])?;
    }
    compare_refused(rt.alloc(), image.as_slice(), "damaged 8 2\n", "40 twins")?;
    image = with_slots(rt.alloc(), image.as_slice(), &[(0, NAME, SAME)])?;
    compare_refused(rt.alloc(), image.as_slice(), "damaged 8 1\n", "41 twins")
}

// Slot 39 was renamed over slot 40, which has the name of slot 2 and isn't live.
#[test]
fn a_twin_that_is_not_live_is_none(rt: HostRuntime) -> Result<(), Fail> {
    let volume = one_directory(rt.alloc())?;
    let changes = [(40, NAME, N02), (40, NUMBER, 2), (39, POINTER, 41)];
    let mut image = with_slots(rt.alloc(), volume.as_slice(), &changes)?;
    set_words(&mut image, &[(5, 0)])?;
    let told = "ok inodes 14 16 pages 59 61\n";
    compare_replies(rt.alloc(), image.as_slice(), &[("df\n", told)])
}

const CHECKED: &str =
    "sound\ntree directories 3 files 2 names 5\nrepairs pointers 0 slots 0 pages 0 inodes 0 counts 0\n";

// Slots 0 to 2 have `/a`, `/b` and `/x`, slot 32 has `/a/x` and slot 64 `/b/x`.
#[test]
fn names_of_three_directories(rt: HostRuntime) -> Result<(), Fail> {
    let script = "mkdir /a\nmkdir /b\ncreate /a/x\ncreate /b/x\nlink /a/x /x\n";
    let volume = volume_after(rt.alloc(), 64, script)?;
    let sound = job_on(rt.alloc(), "squirrel check v", volume.as_slice(), b"")?;
    is_done(&sound, CHECKED, "check")?;
    for (changes, told) in [
        ([(1usize, NAME, A)].as_slice(), "damaged 8 1\n"),
        ([(1, NUMBER, 2)].as_slice(), "damaged 9 1\n"),
        ([(1, NUMBER, 2), (1, NAME, A)].as_slice(), "damaged 8 1\n"),
        ([(64, NUMBER, 2)].as_slice(), "damaged 9 64\n"),
        ([(32, NUMBER, 3)].as_slice(), "damaged 9 32\n"),
        (
            [(64, NUMBER, 17), (2, NUMBER, 1)].as_slice(),
            "damaged 5 2\n",
        ),
        ([(64, NAME, 0), (2, NAME, 0)].as_slice(), "damaged 6 2\n"),
    ] {
        let image = with_slots(rt.alloc(), volume.as_slice(), changes)?;
        compare_refused(rt.alloc(), image.as_slice(), told, told)?;
    }
    Ok(())
}

// A line for each number that 3 divides, up to 600, or for each that it doesn't.
fn by_thirds(alloc: Global, start: &str, divided: bool) -> Result<String, Fail> {
    let mut script = String::new(alloc);
    for number in 1..601 {
        if (number % 3 == 0) == divided {
            script.push_str(format!(in alloc; "{start}{number}\n")?.as_str())?;
        }
    }
    Ok(script)
}

// Runs a script on a volume, on which `df` tells this afterwards.
fn after(alloc: Global, volume: &[u64], script: &str, free: &str) -> Result<Left, Fail> {
    let left = job_on(alloc, "squirrel run v", volume, script.as_bytes())?;
    compare_replies(alloc, left.image.as_slice(), &[("df\n", free)])?;
    Ok(left)
}

// What `df` tells while `/d` has names in 19 pages.
const NAMED: &str = "ok inodes 61 64 pages 229 249\n";

// On 256 pages `/d` gets 600 names of one file, of which each third goes; then 100 others come, and it is listed.
fn many_names(alloc: Global) -> Result<Left, Fail> {
    let links = numbered(alloc, "link /f /d/n", 1, 601)?;
    let gone = by_thirds(alloc, "unlink /d/n", true)?;
    let come = numbered(alloc, "link /f /d/m", 1, 101)?;
    let listed = joined(alloc, &[come.as_str(), "list /d\n"])?;
    let made = volume_after(alloc, 256, "mkdir /d\ncreate /f\n")?;
    let named = after(alloc, made.as_slice(), links.as_str(), NAMED)?;
    let fewer = after(alloc, named.image.as_slice(), gone.as_str(), NAMED)?;
    after(alloc, fewer.image.as_slice(), listed.as_str(), NAMED)
}

// A name takes the least slot that is vacant: `m1`, `m2`, `m11` and `m100` the slots 34, 37, 64 and 331.
#[test]
fn vacant_slots_are_taken_from_the_least_on(rt: HostRuntime) -> Result<(), Fail> {
    let left = many_names(rt.alloc())?;
    let names = [
        (4_130usize, 0x316D_0002u64),
        (4_178, 0x326D_0002),
        (4_610, 0x31_316D_0003),
        (8_882, 0x3030_316D_0004),
    ];
    compare_words(left.image.as_slice(), &names)?;
    let told = "ok dir inode 2 links 2 names 500\nok file inode 3 links 501 size 0\n";
    compare_replies(
        rt.alloc(),
        left.image.as_slice(),
        &[("stat /d\nstat /f\n", told)],
    )
}

// The names stand in their order, whether they came one by one or by a mount. Before the listing each of 100 lines was told `ok`.
#[test]
fn names_are_listed_in_order(rt: HostRuntime) -> Result<(), Fail> {
    let left = many_names(rt.alloc())?;
    let text = text_of(left.told.get(300..).ok_or("too short")?);
    same(text.starts_with("ok 500 m1 m10 m100 m11 "), true, text)?;
    same(text.ends_with(" n97 n98\n"), true, text)?;
    compare_replies(rt.alloc(), left.image.as_slice(), &[("list /d\n", text)])
}

#[test]
fn a_directory_gives_all_its_pages_back(rt: HostRuntime) -> Result<(), Fail> {
    let left = many_names(rt.alloc())?;
    let old = by_thirds(rt.alloc(), "unlink /d/n", false)?;
    let new = numbered(rt.alloc(), "unlink /d/m", 1, 101)?;
    let script = joined(rt.alloc(), &[old.as_str(), new.as_str()])?;
    let free = "ok inodes 61 64 pages 248 249\n";
    after(rt.alloc(), left.image.as_slice(), script.as_str(), free)?;
    Ok(())
}
