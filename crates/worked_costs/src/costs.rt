// What each line costs: its fences, and its stores, flushes and fences together, counted on a device in memory. On 16 pages inode 2
// begins at word 528, the descriptors at 1,024 and the data pages, whose slots are of 16 words, at 1,536.
use crate::plans::compare_costs;
use std::test::Fail;
use worked_drivers::jobs::job_on;
use worked_drivers::parts::{
    FENCE, GIVEN_BACK, LINKS, NAME, NODE, NUMBER, OWNER, PAGE, PAGE_REST, SIZE, SLOT_REST,
};
use worked_drivers::rows::compare_words;
use worked_drivers::texts::numbered;
use worked_drivers::volumes::{fresh_volume, set_words, small_volume};

/// A node and its name with a fence; then the slot's number.
pub const ENTRY: u64 = NODE + NAME + FENCE + NUMBER;

/// A node and the page in which its name stands with a fence; then the page's owner; then the slot's number.
pub const ENTRY_IN_PAGE: u64 = NODE + PAGE + FENCE + OWNER + FENCE + NUMBER;

// A page that a file takes, and then its owner.
const FILLED: u64 = PAGE + FENCE + OWNER + FENCE;

// The slot's number. Then a link, the rest of the slot, and a fence.
const REMOVAL: u64 = NUMBER + LINKS + SLOT_REST + FENCE;

// A directory takes a page for its first name, and has place there for its second.
#[test]
fn what_is_made_costs(rt: HostRuntime) -> Result<(), Fail> {
    let volume = small_volume(rt.alloc())?;
    let image = compare_costs(
        rt.alloc(),
        volume.as_slice(),
        &[
            ("mkdir /d\n", "ok\n", 3, ENTRY_IN_PAGE + LINKS),
            ("create /d/x\n", "ok\n", 3, ENTRY_IN_PAGE),
            ("create /d/y\n", "ok\n", 2, ENTRY),
            ("rmdir /d\n", "error NotEmpty\n", 0, 0),
        ],
    )?;
    compare_words(
        image.as_slice(),
        &[
            (512, 2),
            (513, 3),
            (515, 1),
            (528, 2),
            (529, 2),
            (530, 0),
            (531, 2),
            (544, 1),
            (545, 1),
            (546, 0),
            (547, 3),
            (560, 1),
            (561, 1),
            (562, 0),
            (563, 4),
            (1_024, 1),
            (1_025, 2),
            (1_026, 0),
            (1_032, 2),
            (1_033, 2),
            (1_034, 0),
            (1_536, 2),
            (1_537, 0),
            (1_538, 0x64_0001),
            (1_539, 0),
            (2_048, 3),
            (2_050, 0x78_0001),
            (2_064, 4),
            (2_066, 0x79_0001),
        ],
    )
}

// The words that stood in the new page are zeroed, and those behind it aren't touched.
#[test]
fn the_33rd_name_costs_a_page(rt: HostRuntime) -> Result<(), Fail> {
    let alloc = rt.alloc();
    let volume = small_volume(alloc)?;
    let links = numbered(alloc, "link /n0 /n", 1, 32)?;
    let created = compare_costs(
        alloc,
        volume.as_slice(),
        &[("create /n0\n", "ok\n", 3, ENTRY_IN_PAGE)],
    )?;
    let mut full = job_on(
        alloc,
        "squirrel run v",
        created.as_slice(),
        links.as_bytes(),
    )?
    .image;
    set_words(&mut full, &[(2_048, 2), (2_559, 7), (2_560, 7)])?;
    let image = compare_costs(
        alloc,
        full.as_slice(),
        &[("create /z\n", "ok\n", 3, ENTRY_IN_PAGE)],
    )?;
    compare_words(
        image.as_slice(),
        &[
            (513, 2),
            (529, 32),
            (544, 1),
            (545, 1),
            (547, 3),
            (1_032, 1),
            (1_033, 2),
            (1_034, 0),
            (2_048, 3),
            (2_049, 0),
            (2_050, 0x7a_0001),
            (2_064, 0),
            (2_559, 0),
            (2_560, 7),
        ],
    )
}

// A page that goes costs its owner and its line, a fence for all; then its two other words and their line, which the fence of
// the inode's words settles.
#[test]
fn what_goes_costs(rt: HostRuntime) -> Result<(), Fail> {
    let volume = small_volume(rt.alloc())?;
    let image = compare_costs(
        rt.alloc(),
        volume.as_slice(),
        &[
            ("create /a\n", "ok\n", 3, ENTRY_IN_PAGE),
            ("write /a 0 6869\n", "ok 2\n", 3, FILLED + SIZE),
            ("link /a /b\n", "ok\n", 2, ENTRY - NODE + LINKS),
            ("unlink /b\n", "ok\n", 2, REMOVAL),
            (
                "unlink /a\n",
                "ok\n",
                4,
                REMOVAL + (2 * OWNER + FENCE) + (2 * PAGE_REST + NODE + FENCE),
            ),
            ("mkdir /d\n", "ok\n", 3, ENTRY_IN_PAGE + LINKS),
            (
                "rmdir /d\n",
                "ok\n",
                4,
                REMOVAL + OWNER + FENCE + PAGE_REST + NODE + FENCE,
            ),
        ],
    )?;
    compare_words(
        image.as_slice(),
        &[
            (513, 2),
            (528, 0),
            (529, 0),
            (530, 0),
            (531, 0),
            (1_024, 0),
            (1_025, 0),
            (1_032, 0),
            (1_033, 0),
            (1_536, 0),
            (1_538, 0),
            (1_552, 0),
            (1_554, 0),
        ],
    )
}

// Each kind of a name that is made or goes: with a new page and without one; a file with another name, one that goes, a page that
// goes, a directory with and without one. Lines that only read cost nothing.
#[test]
fn names_cost(rt: HostRuntime) -> Result<(), Fail> {
    let link = ENTRY - NODE + LINKS;
    let link_in_page = ENTRY_IN_PAGE - NODE + LINKS;
    compare_costs(
        rt.alloc(),
        fresh_volume(rt.alloc(), 64)?.as_slice(),
        &[
            ("create /a\n", "ok\n", 3, ENTRY_IN_PAGE),
            ("create /b\n", "ok\n", 2, ENTRY),
            ("mkdir /d\n", "ok\n", 2, ENTRY + LINKS),
            ("mkdir /d/e\n", "ok\n", 3, ENTRY_IN_PAGE + LINKS),
            ("link /a /d/x\n", "ok\n", 2, link),
            ("link /a /d/e/y\n", "ok\n", 3, link_in_page),
            ("unlink /d/x\n", "ok\n", 2, REMOVAL),
            ("create /d/e/z\n", "ok\n", 2, ENTRY),
            ("unlink /d/e/z\n", "ok\n", 3, REMOVAL + NODE + FENCE),
            ("unlink /d/e/y\n", "ok\n", 4, REMOVAL + GIVEN_BACK),
            ("rmdir /d/e\n", "ok\n", 4, REMOVAL + GIVEN_BACK + NODE),
            ("rmdir /d\n", "ok\n", 3, REMOVAL + NODE + FENCE),
            ("stat /b\n", "ok file inode 3 links 1 size 0\n", 0, 0),
            ("list /\n", "ok 2 a b\n", 0, 0),
            ("df\n", "ok inodes 13 16 pages 60 61\n", 0, 0),
        ],
    )?;
    Ok(())
}

// Past the size all words of the last page from the old size on are stored: 512 and their 64 lines, or from the third on 510.
#[test]
fn bytes_cost(rt: HostRuntime) -> Result<(), Fail> {
    let volume = small_volume(rt.alloc())?;
    let rest = 512 + 64 + FENCE;
    compare_costs(
        rt.alloc(),
        volume.as_slice(),
        &[
            ("create /a\n", "ok\n", 3, ENTRY_IN_PAGE),
            ("write /a 0 6869\n", "ok 2\n", 3, FILLED + SIZE),
            ("write /a 1 7a7a7a\n", "ok 3\n", 2, rest + SIZE),
            ("write /a 8 21\n", "ok 1\n", 2, rest + SIZE),
            // Two words, their line and a fence.
            ("write /a 7 3f3f\n", "ok 2\n", 1, 4),
            ("write /a 9 -\n", "ok 0\n", 0, 0),
        ],
    )?;
    Ok(())
}

#[test]
fn another_size_costs(rt: HostRuntime) -> Result<(), Fail> {
    let volume = small_volume(rt.alloc())?;
    compare_costs(
        rt.alloc(),
        volume.as_slice(),
        &[
            ("create /a\n", "ok\n", 3, ENTRY_IN_PAGE),
            // Three pages and a fence, their owners, lines and a fence.
            (
                "truncate /a 8200\n",
                "ok\n",
                3,
                3 * PAGE + FENCE + 3 * OWNER + FENCE + SIZE,
            ),
            // Two words in two pages, their lines and a fence.
            ("write /a 4093 010203040506070809\n", "ok 9\n", 1, 5),
            ("truncate /a 8193\n", "ok\n", 1, SIZE),
            (
                "truncate /a 20\n",
                "ok\n",
                3,
                SIZE + (2 * OWNER + FENCE) + (2 * PAGE_REST + FENCE),
            ),
            // The words of the old page from the third on, and three pages.
            (
                "truncate /a 12289\n",
                "ok\n",
                3,
                510 + 64 + 3 * PAGE + FENCE + 3 * OWNER + FENCE + SIZE,
            ),
            ("truncate /a 12289\n", "ok\n", 0, 0),
            // The words of the last page from the first on.
            ("truncate /a 12290\n", "ok\n", 2, 512 + 64 + FENCE + SIZE),
            ("read /a 12289 1\n", "ok 1 00\n", 0, 0),
        ],
    )?;
    Ok(())
}
