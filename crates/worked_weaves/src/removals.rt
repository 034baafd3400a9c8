// Names that are taken away or moved beside other calls.
use crate::weaves::compare_weaves;
use std::test::Fail;
use worked_drivers::volumes::{volume_after, volume_with_a};

#[test]
fn takes_names_away(rt: HostRuntime) -> Result<(), Fail> {
    let volume = volume_after(
        rt.alloc(),
        64,
        "mkdir /a\nmkdir /b\ncreate /a/x\nlink /a/x /b/y\n",
    )?;
    compare_weaves(
        rt.alloc(),
        volume.as_slice(),
        2,
        &[(
            "0 unlink /a/x\n1 unlink /b/y\n1 unlink /b/y\n",
            &[0, 1, 0],
            "1 error Busy 4 1\n1 error Busy 4 1\n0 ok\n",
        )],
    )?;
    let volume = volume_after(rt.alloc(), 16, "create /a\nwrite /a 0 0102030405\n")?;
    compare_weaves(
        rt.alloc(),
        volume.as_slice(),
        2,
        &[(
            "0 unlink /a\n1 df\n1 stat /a\n1 df\n1 df\n1 df\n",
            &[0, 1],
            "1 ok inodes 2 4 pages 11 13\n1 error NotFound\n1 ok inodes 2 4 pages 11 13\n0 ok\n1 ok inodes 3 4 pages 13 13\n1 ok inodes 3 4 pages 13 13\n",
        )],
    )
}

#[test]
fn renames_alone(rt: HostRuntime) -> Result<(), Fail> {
    let volume = volume_with_a(rt.alloc())?;
    compare_weaves(
        rt.alloc(),
        volume.as_slice(),
        2,
        &[(
            "0 rename /a /b\n1 create /c\n1 df\n1 list /\n1 df\n",
            &[0, 1],
            "1 error Busy 1 1\n1 ok inodes 2 4 pages 12 13\n1 error Busy 1 1\n0 ok\n1 ok inodes 2 4 pages 12 13\n",
        )],
    )?;
    let volume = volume_after(rt.alloc(), 64, "mkdir /a\nmkdir /b\nrmdir /a\n")?;
    compare_weaves(
        rt.alloc(),
        volume.as_slice(),
        2,
        &[(
            "0 create /b/x\n1 rename /b /c\n1 df\n",
            &[0, 1],
            "1 error Busy 3 1\n1 ok inodes 13 16 pages 59 61\n0 ok\n",
        )],
    )?;
    let volume = volume_after(
        rt.alloc(),
        64,
        "mkdir /a\ncreate /a/x\nmkdir /b\nlink /a/x /b/y\nunlink /a/x\n",
    )?;
    compare_weaves(
        rt.alloc(),
        volume.as_slice(),
        2,
        &[(
            "0 unlink /b/y\n1 rename /a /c\n1 df\n",
            &[0, 1],
            "1 error Busy 3 1\n1 ok inodes 12 16 pages 59 61\n0 ok\n",
        )],
    )
}

// What a running call holds or has given up isn't free yet.
#[test]
fn held_is_not_free(rt: HostRuntime) -> Result<(), Fail> {
    let volume = volume_after(rt.alloc(), 16, "mkdir /d\ncreate /a\n")?;
    compare_weaves(
        rt.alloc(),
        volume.as_slice(),
        2,
        &[(
            "0 create /d/x\n1 create /y\n1 create /y\n",
            &[0, 1],
            "1 error NoInodes\n1 error NoInodes\n0 ok\n",
        )],
    )?;
    let volume = volume_after(
        rt.alloc(),
        16,
        "mkdir /d\ncreate /d/f\ncreate /a\ntruncate /a 40960\n",
    )?;
    compare_weaves(
        rt.alloc(),
        volume.as_slice(),
        2,
        &[(
            "0 truncate /a 0\n1 truncate /d/f 8192\n1 truncate /d/f 8192\n1 truncate /d/f 8192\n",
            &[0, 1],
            "1 error NoPages\n1 error NoPages\n0 ok\n1 ok\n",
        )],
    )?;
    let volume = volume_after(rt.alloc(), 64, "mkdir /a\nmkdir /b\ncreate /a/x\n")?;
    compare_weaves(
        rt.alloc(),
        volume.as_slice(),
        2,
        &[(
            "0 rename /a/x /b/x\n1 df\n1 df\n1 df\n1 df\n1 df\n1 df\n1 df\n1 df\n1 df\n",
            &[0, 1],
            "1 ok inodes 12 16 pages 58 61\n1 ok inodes 12 16 pages 58 61\n1 ok inodes 12 16 pages 58 61\n1 ok inodes 12 16 pages 58 61\n1 ok inodes 12 16 pages 58 61\n1 ok inodes 12 16 pages 58 61\n1 ok inodes 12 16 pages 58 61\n0 ok\n1 ok inodes 12 16 pages 59 61\n1 ok inodes 12 16 pages 59 61\n",
        )],
    )
}
