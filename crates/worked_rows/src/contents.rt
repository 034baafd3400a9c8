// Bytes of files: written, read, and files of another size.
use std::test::Fail;
use worked_drivers::rows::{compare_rows, compare_run};
use worked_drivers::texts::{joined, repeated};
use worked_drivers::volumes::{fresh_volume, small_volume, volume_with_a};

#[test]
fn bytes_are_written_and_read(rt: HostRuntime) -> Result<(), Fail> {
    compare_rows(
        rt.alloc(),
        small_volume(rt.alloc())?.as_slice(),
        &[
            (
                "create /a\nwrite /a 0 6869\nwrite /a 1 7a7a7a\nread /a 0 9\nwrite /a 8 21\nread /a 0 16384\ntruncate /a 2\nwrite /a 4 21\nread /a 0 9\n",
                "ok\nok 2\nok 3\nok 4 687a7a7a\nok 1\nok 9 687a7a7a0000000021\nok\nok 1\nok 5 687a000021\n",
                13,
            ),
            (
                "create /a\ntruncate /a 49152\ndf\ntruncate /a 49153\nwrite /a 49152 00\nwrite /a 49151 ff\ncreate /b\nwrite /b 0 00\ntruncate /a 45056\nwrite /b 0 00\nlink /b /c\nunlink /b\nunlink /c\ndf\n",
                "ok\nok\nok inodes 2 4 pages 0 13\nerror NoPages\nerror NoPages\nok 1\nok\nerror NoPages\nok\nok 1\nok\nok\nok\nok inodes 2 4 pages 1 13\n",
                23,
            ),
            (
                "create /a\ntruncate /a 8200\nwrite /a 4093 010203040506070809\nread /a 4090 16\ntruncate /a 8193\nwrite /a 8198 ee\nread /a 8190 20\ntruncate /a 20\ntruncate /a 12289\nread /a 0 32\ndf\n",
                "ok\nok\nok 9\nok 16 00000001020304050607080900000000\nok\nok 1\nok 9 0000000000000000ee\nok\nok\nok 32 0000000000000000000000000000000000000000000000000000000000000000\nok inodes 2 4 pages 8 13\n",
                16,
            ),
            (
                "create /a\nlink /a /b\nwrite /a 0 6869\nread /b 0 9\nstat /b\nunlink /a\nstat /b\nread /b 0 9\n",
                "ok\nok\nok 2\nok 2 6869\nok file inode 2 links 2 size 2\nok\nok file inode 2 links 1 size 2\nok 2 6869\n",
                10,
            ),
            (
                "create /a\nwrite /a 5 -\nstat /a\nread /a 0 4\nread /a 7 4\ntruncate /a 0\n",
                "ok\nok 0\nok file inode 2 links 1 size 0\nok 0 -\nok 0 -\nok\n",
                3,
            ),
            (
                "create /a\nwrite /a 4094 616263\nread /a 4092 8\ndf\n",
                "ok\nok 3\nok 5 0000616263\nok inodes 2 4 pages 10 13\n",
                6,
            ),
            (
                "create /a\nwrite /a 0 ffffffffffffffffffffffffffffffff\ntruncate /a 3\ntruncate /a 16\nread /a 0 16\n",
                "ok\nok 16\nok\nok\nok 16 ffffff00000000000000000000000000\n",
                9,
            ),
            (
                "create /a\nread /a 0 16385\nread /a 0 16384\nmkdir /d\nread /d 0 1\nwrite / 0 -\ntruncate / 0\nread /a/b 0 1\nwrite /x 0 -\n",
                "ok\nerror TooBig\nok 0 -\nok\nerror IsDir\nerror IsDir\nerror IsDir\nerror NotDir\nerror NotFound\n",
                5,
            ),
        ],
    )
}

#[test]
fn offsets_and_sizes_have_limits(rt: HostRuntime) -> Result<(), Fail> {
    compare_rows(
        rt.alloc(),
        fresh_volume(rt.alloc(), 64)?.as_slice(),
        &[(
            "create /a\nwrite /a 1099511627775 00\nwrite /a 1099511627776 00\nwrite /a 1099511627776 -\nwrite /a 1099511627777 -\nread /a 18446744073709551615 1\ntruncate /a 1099511627777\ntruncate /a 1099511627776\nread / 0 1\ntruncate / 0\nstat /a\n",
            "ok\nerror NoPages\nerror TooBig\nok 0\nerror TooBig\nok 0 -\nerror TooBig\nerror NoPages\nerror IsDir\nerror IsDir\nok file inode 2 links 1 size 0\n",
            3,
        )],
    )
}

// Whatever the path is, if the numbers or the bytes can't be read.
#[test]
fn lines_of_contents_are_refused(rt: HostRuntime) -> Result<(), Fail> {
    let alloc = rt.alloc();
    let volume = volume_with_a(alloc)?;
    for line in [
        "write a 0 6",
        "write a 0 6g",
        "write a 0 0x61",
        "write a 0",
        "write a 0 61 62",
        "write a -1 61",
        "write a 18446744073709551616 61",
        "truncate a",
        "truncate a 000000000000000000001",
        "read a 0",
        "read a 0 -",
        "read a 0 1 2",
    ] {
        let script = joined(alloc, &[line, "\nread /a 0 1\n"])?;
        let told = "error BadLine\nok 0 -\n";
        compare_run(alloc, volume.as_slice(), script.as_str(), told, 0)?;
    }
    Ok(())
}

// The longest line has 65,536 bytes, of which 32,762 bytes are written. They take 8 pages.
#[test]
fn the_longest_line_is_written(rt: HostRuntime) -> Result<(), Fail> {
    let alloc = rt.alloc();
    let digits = repeated(alloc, "5a", 32_762)?;
    let script = joined(
        alloc,
        &[
            "write /a 0 ",
            digits.as_str(),
            " \nread /a 32759 9\nstat /a\ndf\n",
        ],
    )?;
    let told =
        "ok 32762\nok 3 5a5a5a\nok file inode 2 links 1 size 32762\nok inodes 2 4 pages 4 13\n";
    compare_run(
        alloc,
        volume_with_a(alloc)?.as_slice(),
        script.as_str(),
        told,
        3,
    )?;
    Ok(())
}
