// Files that are written or cut beside other calls.
use crate::weaves::compare_weaves;
use std::test::Fail;
use worked_drivers::volumes::volume_after;

#[test]
fn writes_beside_reads(rt: HostRuntime) -> Result<(), Fail> {
    let volume = volume_after(
        rt.alloc(),
        64,
        "mkdir /a\nmkdir /b\ncreate /a/x\nwrite /a/x 0 0001020304050607\n",
    )?;
    compare_weaves(
        rt.alloc(),
        volume.as_slice(),
        2,
        &[(
            "0 write /a/x 4 1011121314151617\n1 read /a/x 0 12\n1 stat /a/x\n1 list /a\n",
            &[0, 1],
            "1 error Busy 4 1\n0 ok 8\n1 ok file inode 4 links 1 size 12\n1 ok 1 x\n",
        )],
    )?;
    let volume = volume_after(rt.alloc(), 64, "mkdir /a\nmkdir /b\ncreate /a/x\n")?;
    compare_weaves(
        rt.alloc(),
        volume.as_slice(),
        2,
        &[(
            "0 write /a/x 0 01\n1 create /a/x\n1 create /a/x\n1 create /a/x\n",
            &[0, 1],
            "1 error Busy 4 1\n1 error Busy 4 1\n0 ok 1\n1 error Exists\n",
        )],
    )
}

#[test]
fn cuts_beside_counts(rt: HostRuntime) -> Result<(), Fail> {
    let volume = volume_after(
        rt.alloc(),
        64,
        "mkdir /a\nmkdir /b\ncreate /a/x\ntruncate /a/x 9001\n",
    )?;
    compare_weaves(
        rt.alloc(),
        volume.as_slice(),
        2,
        &[(
            "0 truncate /a/x 1\n1 df\n1 df\n1 df\n0 df\n",
            &[0, 1],
            "1 ok inodes 12 16 pages 56 61\n1 ok inodes 12 16 pages 56 61\n0 ok\n1 ok inodes 12 16 pages 58 61\n0 ok inodes 12 16 pages 58 61\n",
        )],
    )
}
