// Names and what they name are taken away.
use crate::links::full_of_names;
use std::test::Fail;
use worked_drivers::jobs::same;
use worked_drivers::rows::{compare_rows, compare_run};
use worked_drivers::texts::{joined, numbered, repeated};
use worked_drivers::volumes::{fresh_volume, small_volume, volume_with_a, with_words};

// A file goes with its last name, and a directory's page with the last name in it. Where all is taken away again, the words
// are those of a fresh volume.
#[test]
fn all_that_was_made_goes(rt: HostRuntime) -> Result<(), Fail> {
    let volume = small_volume(rt.alloc())?;
    for (script, told, fences) in [
        (
            "create /a\nlink /a /b\nstat /b\nunlink /a\nstat /b\nunlink /b\ndf\n",
            "ok\nok\nok file inode 2 links 2 size 0\nok\nok file inode 2 links 1 size 0\nok\nok inodes 3 4 pages 13 13\n",
            11,
        ),
        (
            "mkdir /d\nmkdir /d/e\nstat /d\nrmdir /d\nrmdir /d/e\nstat /d\nrmdir /d\nstat /\ndf\n",
            "ok\nok\nok dir inode 2 links 3 names 1\nerror NotEmpty\nok\nok dir inode 2 links 2 names 0\nok\nok dir inode 1 links 2 names 0\nok inodes 3 4 pages 13 13\n",
            14,
        ),
        (
            "mkdir /d\ncreate /d/x\nlink /d/x /y\nunlink /d/x\nrmdir /d\nunlink /y\nlist /\n",
            "ok\nok\nok\nok\nok\nok\nok 0\n",
            19,
        ),
        (
            "create /a\nunlink /a\nmkdir /b\nstat /b\nrmdir /b\n",
            "ok\nok\nok\nok dir inode 2 links 2 names 0\nok\n",
            14,
        ),
    ] {
        let left = compare_run(rt.alloc(), volume.as_slice(), script, told, fences)?;
        same(left.image.as_slice(), volume.as_slice(), script)?;
    }
    Ok(())
}

#[test]
fn removals_are_refused(rt: HostRuntime) -> Result<(), Fail> {
    let alloc = rt.alloc();
    let volume = volume_with_a(alloc)?;
    for (line, told) in [
        ("unlink /\n", "error Root\n"),
        ("unlink /d\n", "error IsDir\n"),
        ("unlink /x\n", "error NotFound\n"),
        ("unlink /a/x\n", "error NotDir\n"),
        ("rmdir /\n", "error Root\n"),
        ("rmdir /a\n", "error NotDir\n"),
        ("rmdir /x\n", "error NotFound\n"),
        ("rmdir /a/x\n", "error NotDir\n"),
        ("rmdir /d\n", "error NotEmpty\n"),
        ("unlink\n", "error BadLine\n"),
        ("unlink /a 1\n", "error BadLine\n"),
        ("rmdir a b\n", "error BadLine\n"),
        ("unlink a\n", "error BadPath\n"),
        ("rmdir /d/\n", "error BadPath\n"),
    ] {
        let script = joined(
            alloc,
            &["mkdir /d\ncreate /d/x\n", line, "list /\nlist /d\n"],
        )?;
        let wanted = joined(alloc, &["ok\nok\n", told, "ok 2 a d\nok 1 x\n"])?;
        compare_run(
            alloc,
            volume.as_slice(),
            script.as_str(),
            wanted.as_str(),
            5,
        )?;
    }
    Ok(())
}

// The inode and the page of what went are taken again.
#[test]
fn what_goes_is_free_again(rt: HostRuntime) -> Result<(), Fail> {
    let alloc = rt.alloc();
    compare_rows(
        alloc,
        small_volume(alloc)?.as_slice(),
        &[(
            "create /a\ncreate /b\ncreate /c\ncreate /d\nunlink /b\ncreate /d\nstat /d\ndf\n",
            "ok\nok\nok\nerror NoInodes\nok\nok\nok file inode 3 links 1 size 0\nok inodes 0 4 pages 12 13\n",
            12,
        )],
    )?;
    let creates = numbered(alloc, "create /f", 1, 33)?;
    let unlinks = numbered(alloc, "unlink /f", 1, 34)?;
    let script = joined(
        alloc,
        &[
            creates.as_str(),
            "df\ncreate /f33\ndf\n",
            unlinks.as_str(),
            "df\n",
        ],
    )?;
    let created = repeated(alloc, "ok\n", 32)?;
    let unlinked = repeated(alloc, "ok\n", 33)?;
    let wanted = joined(
        alloc,
        &[
            created.as_str(),
            "ok inodes 31 64 pages 248 249\nok\nok inodes 30 64 pages 247 249\n",
            unlinked.as_str(),
            "ok inodes 63 64 pages 249 249\n",
        ],
    )?;
    let fresh = fresh_volume(alloc, 256)?;
    compare_run(
        alloc,
        fresh.as_slice(),
        script.as_str(),
        wanted.as_str(),
        169,
    )?;
    Ok(())
}

// Of a directory with 33 names in two pages the second page is given back with the last name, and not the first page while it
// has another name.
#[test]
fn a_directory_gives_a_page_back(rt: HostRuntime) -> Result<(), Fail> {
    let alloc = rt.alloc();
    let links = numbered(alloc, "link /z /d/n", 1, 34)?;
    let script = joined(alloc, &["mkdir /d\ncreate /z\n", links.as_str()])?;
    let full = compare_run(
        alloc,
        fresh_volume(alloc, 64)?.as_slice(),
        script.as_str(),
        repeated(alloc, "ok\n", 35)?.as_str(),
        73,
    )?;
    compare_rows(
        alloc,
        full.image.as_slice(),
        &[
            (
                "df\nunlink /d/n33\ndf\n",
                "ok inodes 13 16 pages 58 61\nok\nok inodes 13 16 pages 59 61\n",
                4,
            ),
            (
                "unlink /d/n33\nlink /z /d/n33\nunlink /d/n1\ndf\nstat /d\n",
                "ok\nok\nok\nok inodes 13 16 pages 58 61\nok dir inode 2 links 2 names 32\n",
                9,
            ),
            (
                "unlink /d/n1\nlink /z /d/m\ndf\n",
                "ok\nok\nok inodes 13 16 pages 58 61\n",
                4,
            ),
        ],
    )
}

// Where one of the names that fill a volume is taken away its slot is free, and its page isn't: it has other names.
#[test]
fn a_name_of_a_full_volume_goes(rt: HostRuntime) -> Result<(), Fail> {
    let alloc = rt.alloc();
    let full = full_of_names(alloc)?.image;
    compare_run(
        alloc,
        full.as_slice(),
        "unlink /n1\ndf\nlink /a /zz\nlink /a /n1\n",
        "ok\nok inodes 2 4 pages 0 13\nok\nerror NoPages\n",
        4,
    )?;
    let unlinks = numbered(alloc, "unlink /n", 1, 33)?;
    let script = joined(alloc, &[unlinks.as_str(), "df\n"])?;
    let unlinked = repeated(alloc, "ok\n", 32)?;
    let told = joined(alloc, &[unlinked.as_str(), "ok inodes 2 4 pages 0 13\n"])?;
    compare_run(alloc, full.as_slice(), script.as_str(), told.as_str(), 64)?;
    Ok(())
}

// The file `/a` has 4,097 bytes, and its second page stands before its first.
#[test]
fn a_file_gives_its_pages_back(rt: HostRuntime) -> Result<(), Fail> {
    let volume = with_words(
        rt.alloc(),
        volume_with_a(rt.alloc())?.as_slice(),
        &[
            (530, 4_097),
            (1_032, 2),
            (1_033, 1),
            (1_034, 1),
            (1_040, 2),
            (1_041, 1),
        ],
    )?;
    let fresh = small_volume(rt.alloc())?;
    for (script, told, fences) in [
        (
            "df\nunlink /a\ndf\n",
            "ok inodes 2 4 pages 10 13\nok\nok inodes 3 4 pages 13 13\n",
            4,
        ),
        (
            "link /a /b\nunlink /a\nstat /b\ndf\nunlink /b\ndf\n",
            "ok\nok\nok file inode 2 links 1 size 4097\nok inodes 2 4 pages 10 13\nok\nok inodes 3 4 pages 13 13\n",
            8,
        ),
    ] {
        let left = compare_run(rt.alloc(), volume.as_slice(), script, told, fences)?;
        same(left.image.as_slice(), fresh.as_slice(), script)?;
    }
    Ok(())
}
