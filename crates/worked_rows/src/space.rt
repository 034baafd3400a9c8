// How many inodes and pages `df` tells to be free, of all that a volume has.
use std::test::Fail;
use worked_drivers::jobs::{job_on, same};
use worked_drivers::rows::compare_replies;
use worked_drivers::volumes::small_volume;

// Of 16 pages, which have 4 inodes and 13 data pages. A directory takes a page with its first name.
#[test]
fn what_is_free_is_told(rt: HostRuntime) -> Result<(), Fail> {
    compare_replies(
        rt.alloc(),
        small_volume(rt.alloc())?.as_slice(),
        &[
            ("df\n", "ok inodes 3 4 pages 13 13\n"),
            (
                "create /a\ndf\nmkdir /d\ndf\n",
                "ok\nok inodes 2 4 pages 12 13\nok\nok inodes 1 4 pages 12 13\n",
            ),
            (
                "mkdir /d\ncreate /d/x\ndf\n",
                "ok\nok\nok inodes 1 4 pages 11 13\n",
            ),
            (
                "create /a\ncreate /b\ncreate /c\ndf\ncreate /d\ndf\n",
                "ok\nok\nok\nok inodes 0 4 pages 12 13\nerror NoInodes\nok inodes 0 4 pages 12 13\n",
            ),
            (
                " df \ndf /\ndf a b\nDF\ndf",
                "ok inodes 3 4 pages 13 13\nerror BadLine\nerror BadLine\nerror BadLine\nok inodes 3 4 pages 13 13\n",
            ),
        ],
    )
}

// The line is acknowledged, and nothing is stored for it.
#[test]
fn what_is_free_is_read_alone(rt: HostRuntime) -> Result<(), Fail> {
    let volume = small_volume(rt.alloc())?;
    let left = job_on(rt.alloc(), "squirrel run v", volume.as_slice(), b"df\n")?;
    same((left.fences, left.acks), (0, 1), "df")?;
    same(left.image.as_slice(), volume.as_slice(), "df")
}
