// What a volume holds, what a mount would repair, and the tree that is listed.
use std::test::Fail;
use worked_drivers::images::{Held, NO_REPAIRS, Repairs, compare_sound};
use worked_drivers::jobs::{same, text_of};
use worked_drivers::volumes::{LITTERED, set_words, volume_after, with_words};

// The root alone; the root and one file.
const BARE: Held = (1, 0, 0);

const ONE_FILE: Held = (1, 1, 1);

const EMPTY: &str = "d 1 2 0 /\n";

const FILE_A: &str = "d 1 2 1 /\nf 2 1 0 /a -\n";

const FILE_B: &str = "d 1 2 1 /\nf 2 1 0 /b -\n";

// Words that are set in what a script left of 16 pages, which isn't closed then, what `check` counts of them, and the listing of the tree.
#[derive(Clone, Copy)]
struct Row<'a> {
    script: &'a str,
    words: &'a [(usize, u64)],
    held: Held,
    repairs: Repairs,
    tree: &'a str,
}

// Nothing; an inode that nothing names; an inode's size alone; a page's rest without an owner. Then, with a file: a rename to `/b` after
// its commit; a pointer in a slot without a number, and a name in it; a page past the end of the file; links that are too high; all of
// this and more; and a slot of a directory that nothing names, which hides the file's.
const ROWS: [Row<'static>; 11] = [
    Row {
        script: "",
        words: &[],
        held: BARE,
        repairs: NO_REPAIRS,
        tree: EMPTY,
    },
    Row {
        script: "",
        words: &[(528, 1), (529, 1), (530, 0), (531, 2)],
        held: BARE,
        repairs: (0, 0, 0, 1, 0),
        tree: EMPTY,
    },
    Row {
        script: "",
        words: &[(530, 5)],
        held: BARE,
        repairs: (0, 0, 0, 1, 0),
        tree: EMPTY,
    },
    Row {
        script: "",
        words: &[(1_025, 2), (1_026, 7)],
        held: BARE,
        repairs: (0, 0, 1, 0, 0),
        tree: EMPTY,
    },
    Row {
        script: "create /a\n",
        words: &[(1_552, 2), (1_553, 1), (1_554, 0x62_0001)],
        held: ONE_FILE,
        repairs: (1, 1, 0, 0, 0),
        tree: FILE_B,
    },
    Row {
        script: "create /a\n",
        words: &[(1_553, 1)],
        held: ONE_FILE,
        repairs: (1, 1, 0, 0, 0),
        tree: FILE_A,
    },
    Row {
        script: "create /a\n",
        words: &[(1_554, 0x62_0001)],
        held: ONE_FILE,
        repairs: (0, 1, 0, 0, 0),
        tree: FILE_A,
    },
    Row {
        script: "create /a\n",
        words: &[(1_032, 2), (1_033, 1)],
        held: ONE_FILE,
        repairs: (0, 0, 1, 0, 0),
        tree: FILE_A,
    },
    Row {
        script: "create /a\n",
        words: &[(513, 9), (529, 7)],
        held: ONE_FILE,
        repairs: (0, 0, 0, 0, 2),
        tree: FILE_A,
    },
    Row {
        script: "create /a\n",
        words: &LITTERED,
        held: ONE_FILE,
        repairs: (1, 2, 2, 1, 1),
        tree: FILE_B,
    },
    Row {
        script: "create /a\n",
        words: &[
            (544, 2),
            (545, 2),
            (547, 3),
            (1_032, 3),
            (1_033, 2),
            (2_048, 2),
            (2_049, 1),
            (2_050, 0x78_0001),
        ],
        held: BARE,
        repairs: (1, 0, 2, 2, 0),
        tree: EMPTY,
    },
];

// Checks each volume, lists its tree, and checks what that left: the same tree, and nothing to repair.
#[test]
fn volumes_are_checked(rt: HostRuntime) -> Result<(), Fail> {
    let alloc = rt.alloc();
    for row in ROWS {
        let volume = volume_after(alloc, 16, row.script)?;
        let mut image = with_words(alloc, volume.as_slice(), row.words)?;
        set_words(&mut image, &[(5, 0)])?;
        let left = compare_sound(alloc, image.as_slice(), row.held, row.repairs, row.tree)?;
        same(text_of(&left.told), row.tree, "tree")?;
    }
    Ok(())
}

// Names stand in the order of their bytes, below their directory, and a file with two names at both. Some bytes are written by two digits.
#[test]
fn a_tree_is_listed(rt: HostRuntime) -> Result<(), Fail> {
    let script =
        "mkdir /a\ncreate /a/x\ncreate /a-b\ncreate /a.b\ncreate /9\ncreate /:\nmkdir /a/y\ncreate /a/y/z\nlink /a/x /zz\nwrite /zz 0 00ff10\ncreate /%20\n";
    let tree =
        "d 1 3 7 /\nf 10 1 0 /%20 -\nf 6 1 0 /9 -\nf 7 1 0 /%3A -\nd 2 3 2 /a\nf 3 2 3 /a/x 00ff10\nd 8 2 1 /a/y\nf 9 1 0 /a/y/z -\nf 4 1 0 /a-b -\nf 5 1 0 /a.b -\nf 3 2 3 /zz 00ff10\n";
    let volume = volume_after(rt.alloc(), 64, script)?;
    let left = compare_sound(
        rt.alloc(),
        volume.as_slice(),
        (3, 7, 10),
        NO_REPAIRS,
        "tree",
    )?;
    same(text_of(&left.told), tree, "tree")?;
    same(left.fences, 0, "tree")?;
    same(left.image.as_slice(), volume.as_slice(), "tree")
}
