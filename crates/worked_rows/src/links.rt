// Second names of files.
use std::alloc::Global;
use std::test::Fail;
use worked_drivers::jobs::Left;
use worked_drivers::rows::{compare_rows, compare_run};
use worked_drivers::texts::{joined, numbered, repeated, with_name};
use worked_drivers::volumes::volume_with_a;

// A name in a directory without a page takes a fence more.
#[test]
fn a_file_gets_more_names(rt: HostRuntime) -> Result<(), Fail> {
    compare_rows(
        rt.alloc(),
        volume_with_a(rt.alloc())?.as_slice(),
        &[
            (
                "link /a /b\nstat /a\nstat /b\nlist /\nstat /\ndf\n",
                "ok\nok file inode 2 links 2 size 0\nok file inode 2 links 2 size 0\nok 2 a b\nok dir inode 1 links 2 names 2\nok inodes 2 4 pages 12 13\n",
                2,
            ),
            (
                "link /a /b\nlink /b /c\nlink /c /B\nstat /a\nlist /\n",
                "ok\nok\nok\nok file inode 2 links 4 size 0\nok 4 B a b c\n",
                6,
            ),
            (
                "mkdir /d\nlink /a /d/x\nstat /d/x\nstat /d\ndf\n",
                "ok\nok\nok file inode 2 links 2 size 0\nok dir inode 3 links 2 names 1\nok inodes 1 4 pages 11 13\n",
                5,
            ),
            (
                "mkdir /d\nlink /a /d/a\nlink /d/a /d/b\nlist /d\nstat /a\n",
                "ok\nok\nok\nok 2 a b\nok file inode 2 links 3 size 0\n",
                7,
            ),
        ],
    )
}

// The first path is walked first; that the new name is there comes before what the old one names.
#[test]
fn names_are_refused(rt: HostRuntime) -> Result<(), Fail> {
    let alloc = rt.alloc();
    let volume = volume_with_a(alloc)?;
    for (line, told) in [
        ("link / /x\n", "error IsDir\n"),
        ("link /d /e\n", "error IsDir\n"),
        ("link /d /a\n", "error Exists\n"),
        ("link /a /\n", "error Root\n"),
        ("link / /\n", "error Root\n"),
        ("link /a /a\n", "error Exists\n"),
        ("link /a /d\n", "error Exists\n"),
        ("link /x /y\n", "error NotFound\n"),
        ("link /x /\n", "error NotFound\n"),
        ("link /a/b /y\n", "error NotDir\n"),
        ("link /a /x/y\n", "error NotFound\n"),
        ("link /a /a/y\n", "error NotDir\n"),
    ] {
        let script = joined(alloc, &["mkdir /d\n", line, "stat /a\nlist /\n"])?;
        let wanted = joined(
            alloc,
            &["ok\n", told, "ok file inode 2 links 1 size 0\nok 2 a d\n"],
        )?;
        compare_run(
            alloc,
            volume.as_slice(),
            script.as_str(),
            wanted.as_str(),
            2,
        )?;
    }
    Ok(())
}

// A line of these parts, between which a name of 111 bytes stands where the first one ends in `/`.
fn line_of(alloc: Global, start: &str, end: &str) -> Result<String, Fail> {
    if start.ends_with('/') {
        with_name(alloc, start, 111, end)
    } else {
        joined(alloc, &[start, end])
    }
}

// How many words a line has is looked at before its paths, and a fault of form in either path before a name that is too
// long in either.
#[test]
fn lines_of_two_paths_are_refused(rt: HostRuntime) -> Result<(), Fail> {
    let alloc = rt.alloc();
    let volume = volume_with_a(alloc)?;
    for (start, end, told) in [
        ("link", "\n", "error BadLine\n"),
        ("link /a", "\n", "error BadLine\n"),
        ("link a", "\n", "error BadLine\n"),
        ("link a b c", "\n", "error BadLine\n"),
        ("Link /a /b", "\n", "error BadLine\n"),
        ("link a /b", "\n", "error BadPath\n"),
        ("link /a b", "\n", "error BadPath\n"),
        ("link a /%", "\n", "error BadPath\n"),
        ("link /", " b\n", "error BadPath\n"),
        ("link b /", "\n", "error BadPath\n"),
        ("link /", " /b\n", "error NameTooLong\n"),
        ("link /x /", "\n", "error NameTooLong\n"),
    ] {
        let script = line_of(alloc, start, end)?;
        compare_run(alloc, volume.as_slice(), script.as_str(), told, 0)?;
    }
    Ok(())
}

// The words of the volume with 416 names of the file `/a`, which fill the 13 pages of the root, 32 in each.
pub(crate) fn full_of_names(alloc: Global) -> Result<Left, Fail> {
    compare_run(
        alloc,
        volume_with_a(alloc)?.as_slice(),
        numbered(alloc, "link /a /n", 1, 416)?.as_str(),
        repeated(alloc, "ok\n", 415)?.as_str(),
        842,
    )
}

#[test]
fn names_fill_a_volume(rt: HostRuntime) -> Result<(), Fail> {
    let full = full_of_names(rt.alloc())?;
    compare_rows(
        rt.alloc(),
        full.image.as_slice(),
        &[(
            "link /a /zz\ncreate /zz\nlink /a /n1\ndf\nstat /a\nstat /\n",
            "error NoPages\nerror NoPages\nerror Exists\nok inodes 2 4 pages 0 13\nok file inode 2 links 416 size 0\nok dir inode 1 links 2 names 416\n",
            0,
        )],
    )
}
