// Crashes in lines that change names, before each of their fences.
use std::test::Fail;
use worked_drivers::crashes::{Crashes, Found, compare_crashes};

// A name is found from its last fence on. A new page has a fence of its own for its owner, and is cleared by the mount before that.
#[test]
fn what_is_made_is_there_or_not(rt: HostRuntime) -> Result<(), Fail> {
    compare_crashes(
        rt.alloc(),
        &[
            Crashes {
                first: "mkdir /d\n",
                line: "create /d/x\n",
                mounts: &[(0, 1), (1, 2), (2, 0)],
                commit: 3,
                asked: "stat /\nstat /d\nlist /d\nstat /d/x\n",
                before: Found {
                    told: "ok dir inode 1 links 3 names 1\nok dir inode 2 links 2 names 0\nok 0\nerror NotFound\n",
                    free: (2, 12),
                },
                after: Found {
                    told: "ok dir inode 1 links 3 names 1\nok dir inode 2 links 2 names 1\nok 1 x\nok file inode 3 links 1 size 0\n",
                    free: (1, 11),
                },
            },
            Crashes {
                first: "create /a\nmkdir /d\n",
                line: "link /a /d/x\n",
                mounts: &[(0, 2), (2, 2), (2, 0)],
                commit: 3,
                asked: "stat /a\nlist /d\n",
                before: Found {
                    told: "ok file inode 2 links 1 size 0\nok 0\n",
                    free: (1, 12),
                },
                after: Found {
                    told: "ok file inode 2 links 2 size 0\nok 1 x\n",
                    free: (1, 11),
                },
            },
            Crashes {
                first: "create /a\n",
                line: "mkdir /d\n",
                mounts: &[(0, 2), (2, 0)],
                commit: 2,
                asked: "list /\nstat /\n",
                before: Found {
                    told: "ok 1 a\nok dir inode 1 links 2 names 1\n",
                    free: (2, 12),
                },
                after: Found {
                    told: "ok 2 a d\nok dir inode 1 links 3 names 2\n",
                    free: (1, 12),
                },
            },
        ],
    )
}

// The name goes with the first fence; what it named and the page in which it stood alone go with the later ones.
#[test]
fn what_goes_is_there_or_not(rt: HostRuntime) -> Result<(), Fail> {
    compare_crashes(
        rt.alloc(),
        &[
            Crashes {
                first: "create /a\nlink /a /b\n",
                line: "unlink /a\n",
                mounts: &[(0, 1), (1, 0)],
                commit: 1,
                asked: "list /\n",
                before: Found {
                    told: "ok 2 a b\n",
                    free: (2, 12),
                },
                after: Found {
                    told: "ok 1 b\n",
                    free: (2, 12),
                },
            },
            Crashes {
                first: "create /a\nmkdir /d\n",
                line: "rmdir /d\n",
                mounts: &[(0, 2), (2, 1), (1, 0)],
                commit: 1,
                asked: "list /\n",
                before: Found {
                    told: "ok 2 a d\n",
                    free: (1, 12),
                },
                after: Found {
                    told: "ok 1 a\n",
                    free: (2, 12),
                },
            },
        ],
    )
}

// Up to the fence `commit` the old name is found, and then the new one. What a mount clears rises up to the commit, and falls after it.
#[test]
fn a_name_is_old_or_new(rt: HostRuntime) -> Result<(), Fail> {
    compare_crashes(
        rt.alloc(),
        &[
            Crashes {
                first: "create /a\n",
                line: "rename /a /b\n",
                mounts: &[(0, 2), (2, 3), (3, 2), (2, 0)],
                commit: 2,
                asked: "list /\n",
                before: Found {
                    told: "ok 1 a\n",
                    free: (2, 12),
                },
                after: Found {
                    told: "ok 1 b\n",
                    free: (2, 12),
                },
            },
            Crashes {
                first: "mkdir /p\nmkdir /q\nmkdir /p/d\n",
                line: "rename /p/d /q/e\n",
                mounts: &[
                    (0, 1),
                    (1, 2),
                    (2, 3),
                    (3, 4),
                    (4, 3),
                    (3, 2),
                    (2, 1),
                    (1, 0),
                ],
                commit: 4,
                asked: "list /p\nlist /q\n",
                before: Found {
                    told: "ok 1 d\nok 0\n",
                    free: (0, 11),
                },
                after: Found {
                    told: "ok 0\nok 1 e\n",
                    free: (0, 11),
                },
            },
            Crashes {
                first: "create /a\ncreate /b\nlink /b /c\n",
                line: "rename /a /b\n",
                mounts: &[(0, 1), (1, 3), (3, 2), (2, 0)],
                commit: 2,
                asked: "list /\n",
                before: Found {
                    told: "ok 3 a b c\n",
                    free: (1, 12),
                },
                after: Found {
                    told: "ok 2 b c\n",
                    free: (1, 12),
                },
            },
        ],
    )
}
