// Scripts on a fresh volume of 16 pages, which has 4 inodes, and what each line is answered.
use std::test::Fail;
use worked_drivers::rows::compare_replies;
use worked_drivers::volumes::small_volume;

#[test]
fn files_are_made_and_told(rt: HostRuntime) -> Result<(), Fail> {
    compare_replies(
        rt.alloc(),
        small_volume(rt.alloc())?.as_slice(),
        &[
            (
                "create /a\nstat /a\nlist /\n",
                "ok\nok file inode 2 links 1 size 0\nok 1 a\n",
            ),
            (
                "stat /\nlist /\ncreate /b\nstat /\n",
                "ok dir inode 1 links 2 names 0\nok 0\nok\nok dir inode 1 links 2 names 1\n",
            ),
            (
                "create /b\ncreate /a\nstat /b\nstat /a\nlist /\n",
                "ok\nok\nok file inode 2 links 1 size 0\nok file inode 3 links 1 size 0\nok 2 a b\n",
            ),
            (
                "create /a%20b\ncreate /%41\nlist /\n",
                "ok\nok\nok 2 A a%20b\n",
            ),
            ("create /%c3%BC\nlist /\n", "ok\nok 1 %C3%BC\n"),
            (
                "create /b\ncreate /B\ncreate /~\nlist /\n",
                "ok\nok\nok\nok 3 B b ~\n",
            ),
        ],
    )
}

#[test]
fn directories_are_made_and_told(rt: HostRuntime) -> Result<(), Fail> {
    compare_replies(
        rt.alloc(),
        small_volume(rt.alloc())?.as_slice(),
        &[
            (
                "mkdir /d\ncreate /d/x\nstat /d\n",
                "ok\nok\nok dir inode 2 links 2 names 1\n",
            ),
            (
                "mkdir /d\nmkdir /d/e\nstat /d\nstat /\nlist /d\nlist /\nlist /d/e\n",
                "ok\nok\nok dir inode 2 links 3 names 1\nok dir inode 1 links 3 names 1\nok 1 e\nok 1 d\nok 0\n",
            ),
            (
                "mkdir /d\nmkdir /e\ncreate /d/x\nstat /e/x\nstat /d/x\nlist /e\nlist /\n",
                "ok\nok\nok\nerror NotFound\nok file inode 4 links 1 size 0\nok 0\nok 2 d e\n",
            ),
            (
                "mkdir /x\nmkdir /x/x\nmkdir /x/x/x\nstat /x/x/x\nstat /x/x/x/x\n",
                "ok\nok\nok\nok dir inode 4 links 2 names 0\nerror NotFound\n",
            ),
            (
                "mkdir /d\nmkdir /d\nmkdir /\nmkdir /x/y\ncreate /f\nmkdir /f/g\ncreate /d/f\nmkdir /z\nmkdir z\nmkdir\n",
                "ok\nerror Exists\nerror Root\nerror NotFound\nok\nerror NotDir\nok\nerror NoInodes\nerror BadPath\nerror BadLine\n",
            ),
        ],
    )
}

#[test]
fn commands_are_refused(rt: HostRuntime) -> Result<(), Fail> {
    compare_replies(
        rt.alloc(),
        small_volume(rt.alloc())?.as_slice(),
        &[
            (
                "create /a\ncreate /a/b\ncreate /x/y\ncreate /a\n",
                "ok\nerror NotDir\nerror NotFound\nerror Exists\n",
            ),
            (
                "create /a\nlist /a\nlist /b\nlist /a/b\nlist /b/c\n",
                "ok\nerror NotDir\nerror NotFound\nerror NotDir\nerror NotFound\n",
            ),
            (
                "create /a\nstat /b\nstat /a/b\nstat /b/c\nstat /A\n",
                "ok\nerror NotFound\nerror NotDir\nerror NotFound\nerror NotFound\n",
            ),
            (
                "create /a\ncreate /b\ncreate /c\ncreate /d\ncreate /a\ncreate /\nstat /c\nlist /\n",
                "ok\nok\nok\nerror NoInodes\nerror Exists\nerror Root\nok file inode 4 links 1 size 0\nok 3 a b c\n",
            ),
            (
                "create /a\ncreate /b\ncreate /c\ncreate /a/d\ncreate /x/d\nstat /d\n",
                "ok\nok\nok\nerror NotDir\nerror NotFound\nerror NotFound\n",
            ),
        ],
    )
}

#[test]
fn lines_are_refused(rt: HostRuntime) -> Result<(), Fail> {
    compare_replies(
        rt.alloc(),
        small_volume(rt.alloc())?.as_slice(),
        &[
            ("", ""),
            ("\n", "error BadLine\n"),
            ("  \n\n \n", "error BadLine\nerror BadLine\nerror BadLine\n"),
            ("frob", "error BadLine\n"),
            ("frob /a\nLIST /\n", "error BadLine\nerror BadLine\n"),
            (
                "list\nlist / /\ncreate\ncreate /a /b\nstat\n",
                "error BadLine\nerror BadLine\nerror BadLine\nerror BadLine\nerror BadLine\n",
            ),
            ("  list   /  \nlist /", "ok 0\nok 0\n"),
            ("list\t/\n", "error BadLine\n"),
            (
                "frob a\ncreate a b\ncreate a\n",
                "error BadLine\nerror BadLine\nerror BadPath\n",
            ),
        ],
    )
}

#[test]
fn paths_are_refused(rt: HostRuntime) -> Result<(), Fail> {
    compare_replies(
        rt.alloc(),
        small_volume(rt.alloc())?.as_slice(),
        &[
            (
                "create /\ncreate /.\ncreate //a\ncreate /a%2Fb\ncreate a\ncreate /a/\nlist /\n",
                "error Root\nerror BadPath\nerror BadPath\nerror BadPath\nerror BadPath\nerror BadPath\nok 0\n",
            ),
            (
                "create /..\ncreate /%2e\ncreate /%00\ncreate /a%4g\nlist //\nlist /\n",
                "error BadPath\nerror BadPath\nerror BadPath\nerror BadPath\nerror BadPath\nok 0\n",
            ),
            (
                "create /...\ncreate /%25\nlist /\n",
                "ok\nok\nok 2 %25 ...\n",
            ),
        ],
    )
}
