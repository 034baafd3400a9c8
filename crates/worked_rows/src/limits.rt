// Names and lines at their limits, and a directory that fills its pages.
use std::alloc::Global;
use std::test::Fail;
use worked_drivers::jobs::{job_on, same};
use worked_drivers::rows::{compare_rows, compare_run};
use worked_drivers::texts::{joined, repeated, with_name};
use worked_drivers::volumes::{fresh_volume, set_words, small_volume, volume_with_a};

#[test]
fn names_at_the_limit(rt: HostRuntime) -> Result<(), Fail> {
    let alloc = rt.alloc();
    let volume = small_volume(alloc)?;
    for (verb, count, told, fences) in [
        ("create /", 1, "ok\nok 1 n\n", 3),
        ("create /", 111, "error NameTooLong\nok 0\n", 0),
        ("stat /", 110, "error NotFound\nok 0\n", 0),
        ("stat /", 111, "error NameTooLong\nok 0\n", 0),
        ("frob /", 111, "error BadLine\nok 0\n", 0),
        ("create /", 65_528, "error NameTooLong\nok 0\n", 0),
        ("create /", 65_529, "error BadLine\nok 0\n", 0),
        ("create /", 200_000, "error BadLine\nok 0\n", 0),
    ] {
        let script = with_name(alloc, verb, count, "\nlist /\n")?;
        compare_run(alloc, volume.as_slice(), script.as_str(), told, fences)?;
    }
    Ok(())
}

#[test]
fn the_longest_name_is_told_whole(rt: HostRuntime) -> Result<(), Fail> {
    let alloc = rt.alloc();
    let script = with_name(alloc, "create /", 110, "\nlist /\n")?;
    let wanted = with_name(alloc, "ok\nok 1 ", 110, "\n")?;
    let volume = small_volume(alloc)?;
    compare_run(
        alloc,
        volume.as_slice(),
        script.as_str(),
        wanted.as_str(),
        3,
    )?;
    Ok(())
}

// A name of one byte too many is refused before a path below it is looked for, and a fault of form before both.
#[test]
fn a_long_name_within_a_path(rt: HostRuntime) -> Result<(), Fail> {
    let alloc = rt.alloc();
    let volume = small_volume(alloc)?;
    for (end, wanted) in [
        ("/a", "error NameTooLong\n"),
        ("//", "error BadPath\n"),
        ("%", "error BadPath\n"),
    ] {
        let script = with_name(alloc, "create /", 111, end)?;
        compare_run(alloc, volume.as_slice(), script.as_str(), wanted, 0)?;
    }
    Ok(())
}

// Names of one byte, one for each inode but the root's on 256 pages.
const NAMES: &[u8] = b"ABCDEFGHIJKLMNOPQRSTUVWXYZabcdefghijklmnopqrstuvwxyz0123456789~";

// A script that makes so many files in a directory.
fn files(alloc: Global, directory: &str, count: usize) -> Result<String, Fail> {
    let mut script = String::new(alloc);
    for name in NAMES.iter().take(count) {
        script.push_str("create ")?;
        script.push_str(directory)?;
        script.push('/')?;
        script.push(char::from(*name))?;
        script.push('\n')?;
    }
    Ok(script)
}

// A page holds 32 names. The first name and the thirty-third take a page with a fence more, and the lowest pages are
// taken.
#[test]
fn a_directory_fills_its_pages(rt: HostRuntime) -> Result<(), Fail> {
    let alloc = rt.alloc();
    let fresh = fresh_volume(alloc, 256)?;
    for (count, fences, second_owner) in [(1, 3, 0), (32, 65, 0), (33, 68, 1), (63, 128, 1)] {
        let script = files(alloc, "", count)?;
        let told = repeated(alloc, "ok\n", count as u64)?;
        let left = compare_run(
            alloc,
            fresh.as_slice(),
            script.as_str(),
            told.as_str(),
            fences,
        )?;
        // The descriptors come after one page and two of inodes.
        let image = left.image.as_slice();
        same(
            image.get(1_536..1_539),
            Some([1, 2, 0].as_slice()),
            "the first page",
        )?;
        same(
            image.get(1_544).copied(),
            Some(second_owner),
            "the second page",
        )?;
    }
    Ok(())
}

// A directory in the root takes its pages as the root does, after the root's own.
#[test]
fn a_subdirectory_fills_its_pages(rt: HostRuntime) -> Result<(), Fail> {
    let alloc = rt.alloc();
    let fresh = fresh_volume(alloc, 256)?;
    for (count, fences, second_owner) in [(1, 6, 0), (32, 68, 0), (33, 71, 2)] {
        let made = files(alloc, "/d", count)?;
        let script = joined(alloc, &["mkdir /d\n", made.as_str()])?;
        let told = repeated(alloc, "ok\n", count as u64 + 1)?;
        let left = compare_run(
            alloc,
            fresh.as_slice(),
            script.as_str(),
            told.as_str(),
            fences,
        )?;
        let image = left.image.as_slice();
        same(
            image.get(1_536..1_539),
            Some([1, 2, 0].as_slice()),
            "the root's page",
        )?;
        same(
            image.get(1_544..1_547),
            Some([2, 2, 0].as_slice()),
            "the first page",
        )?;
        same(
            image.get(1_552).copied(),
            Some(second_owner),
            "the second page",
        )?;
    }
    Ok(())
}

// A file has all pages but the root's one: a name in the root has room, and one in an empty directory has none. Being
// out of inodes comes before being out of pages.
#[test]
fn a_volume_without_free_pages(rt: HostRuntime) -> Result<(), Fail> {
    let mut image = volume_with_a(rt.alloc())?;
    set_words(&mut image, &[(530, 49_152)])?;
    // The descriptors of the pages after the root's one: the file's number, its kind, and the place in it.
    for (offset, descriptor) in (1_032usize..1_128).step_by(8).enumerate() {
        let kind = descriptor.saturating_add(1);
        let place = descriptor.saturating_add(2);
        set_words(
            &mut image,
            &[(descriptor, 2), (kind, 1), (place, offset as u64)],
        )?;
    }
    compare_rows(
        rt.alloc(),
        image.as_slice(),
        &[(
            "stat /a\nmkdir /d\ncreate /d/x\nmkdir /d/y\ncreate /b\ncreate /d/x\nlist /\n",
            "ok file inode 2 links 1 size 49152\nok\nerror NoPages\nerror NoPages\nok\nerror NoInodes\nok 3 a b d\n",
            4,
        )],
    )
}

// All 63 inodes but the root's are named: the next file finds none, and a later run reads them all.
#[test]
fn a_volume_without_free_inodes(rt: HostRuntime) -> Result<(), Fail> {
    let alloc = rt.alloc();
    let script = files(alloc, "", 63)?;
    let full = job_on(
        alloc,
        "squirrel run v",
        fresh_volume(alloc, 256)?.as_slice(),
        script.as_bytes(),
    )?;
    compare_rows(
        alloc,
        full.image.as_slice(),
        &[(
            "create /g/\ncreate /-\nstat /A\nstat /~\nstat /\n",
            "error BadPath\nerror NoInodes\nok file inode 2 links 1 size 0\nok file inode 64 links 1 size 0\nok dir inode 1 links 2 names 63\n",
            0,
        )],
    )
}
