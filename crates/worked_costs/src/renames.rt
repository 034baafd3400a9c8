// A name that moves: what a script is told, and what each line costs.
use crate::costs::{ENTRY, ENTRY_IN_PAGE};
use crate::plans::{Cost, compare_costs};
use std::alloc::Global;
use std::test::Fail;
use worked_drivers::parts::{
    FENCE, GIVEN_BACK, LINKS, NAME, NODE, NUMBER, OWNER, PAGE, PAGE_REST, POINTER, SLOT_REST,
};
use worked_drivers::texts::{joined, numbered};
use worked_drivers::volumes::volume_after;

// The new name's slot takes the number, and the old one's gives it up; then nothing points, and the rest of the old slot goes.
const GIVEN_OVER: u64 = NUMBER + NUMBER + POINTER + SLOT_REST + FENCE;

// A name that moves to a vacant slot: name and pointer, whose word is in the name's first line.
const MOVED: u64 = NAME + 1 + FENCE + GIVEN_OVER;

// A name that moves to one that is there, or that has come with a new page: the pointer.
const MOVED_ONTO: u64 = POINTER + FENCE + GIVEN_OVER;

// A name that moves into a new page: the page, then its owner.
const MOVED_INTO_PAGE: u64 = PAGE + FENCE + OWNER + FENCE + MOVED_ONTO;

// A name that moves onto one whose node goes and has no page: of what was replaced, or of the old parent, a link less; then the node.
const REPLACED: u64 = MOVED_ONTO + LINKS + NODE + FENCE;

// Runs each script of a row on what those before it left: on a fresh volume of so many pages, once a first script was run.
fn compare_on(alloc: Global, pages: u64, first: &str, costs: &[Cost<'_>]) -> Result<(), Fail> {
    let volume = volume_after(alloc, pages, first)?;
    compare_costs(alloc, volume.as_slice(), costs)?;
    Ok(())
}

#[test]
fn a_name_moves_in_a_directory(rt: HostRuntime) -> Result<(), Fail> {
    compare_on(
        rt.alloc(),
        16,
        "create /a\n",
        &[
            ("rename /a /b\n", "ok\n", 4, MOVED),
            ("list /\n", "ok 1 b\n", 0, 0),
            ("rename /b /b\n", "ok\n", 0, 0),
            ("rename /b /b/c\n", "error NotDir\n", 0, 0),
            ("rename /b /\n", "error Root\n", 0, 0),
            (
                "link /b /a\nrename /a /c\nstat /b\n",
                "ok\nok\nok file inode 2 links 2 size 0\n",
                6,
                ENTRY - NODE + LINKS + MOVED,
            ),
            ("rename /b /c\nlist /\n", "ok\nok 2 b c\n", 0, 0),
        ],
    )
}

#[test]
fn directories_do_not_move_into_themselves(rt: HostRuntime) -> Result<(), Fail> {
    compare_on(
        rt.alloc(),
        16,
        "mkdir /d\nmkdir /d/e\n",
        &[
            ("rename /d /d/e\n", "error IntoItself\n", 0, 0),
            ("rename /d /d/e/x\n", "error IntoItself\n", 0, 0),
        ],
    )?;
    compare_on(
        rt.alloc(),
        16,
        "mkdir /d\nmkdir /d/e\ncreate /d/e/x\n",
        &[
            ("rename /d /d/e\n", "error NotEmpty\n", 0, 0),
            ("rename /d /d/e/x\n", "error NotDir\n", 0, 0),
            ("rename /d/e/x /d\n", "error IsDir\n", 0, 0),
            ("rename /d/e /d\n", "error NotEmpty\n", 0, 0),
            ("rename / /gone/x\n", "error NotFound\n", 0, 0),
            ("rename /d /\n", "error Root\n", 0, 0),
        ],
    )?;
    // A name that only begins like the directory's is another one.
    compare_on(
        rt.alloc(),
        64,
        "mkdir /d\nmkdir /dd\n",
        &[(
            "rename /d /dd/x\n",
            "ok\n",
            6,
            MOVED_INTO_PAGE + LINKS + LINKS,
        )],
    )
}

// The new parent takes a page, and the old one gives its page back.
#[test]
fn a_directory_moves_to_another_parent(rt: HostRuntime) -> Result<(), Fail> {
    compare_on(
        rt.alloc(),
        64,
        "",
        &[
            ("mkdir /p\n", "ok\n", 3, ENTRY_IN_PAGE + LINKS),
            ("mkdir /q\n", "ok\n", 2, ENTRY + LINKS),
            ("mkdir /p/d\n", "ok\n", 3, ENTRY_IN_PAGE + LINKS),
            ("create /p/d/x\n", "ok\n", 3, ENTRY_IN_PAGE),
            (
                "rename /p/d /q/e\n",
                "ok\n",
                8,
                MOVED_INTO_PAGE + LINKS + LINKS + GIVEN_BACK,
            ),
            ("stat /p\n", "ok dir inode 2 links 2 names 0\n", 0, 0),
            ("stat /q\n", "ok dir inode 3 links 3 names 1\n", 0, 0),
            ("stat /q/e/x\n", "ok file inode 5 links 1 size 0\n", 0, 0),
            ("mkdir /q/f\n", "ok\n", 2, ENTRY + LINKS),
            ("rename /q/e /q/f\n", "ok\n", 5, REPLACED),
            ("stat /q\n", "ok dir inode 3 links 3 names 1\n", 0, 0),
            ("mkdir /p/g\n", "ok\n", 3, ENTRY_IN_PAGE + LINKS),
            (
                "rename /q/f /p/g\n",
                "ok\n",
                6,
                REPLACED + OWNER + FENCE + PAGE_REST,
            ),
            ("stat /p\n", "ok dir inode 2 links 3 names 1\n", 0, 0),
            ("stat /q\n", "ok dir inode 3 links 2 names 0\n", 0, 0),
            ("df\n", "ok inodes 11 16 pages 58 61\n", 0, 0),
        ],
    )
}

#[test]
fn a_file_is_replaced(rt: HostRuntime) -> Result<(), Fail> {
    let first =
        "mkdir /p\nmkdir /q\ncreate /p/s\nwrite /p/s 0 6869\ncreate /q/t\ntruncate /q/t 5000\n";
    compare_on(
        rt.alloc(),
        64,
        first,
        &[
            ("df\n", "ok inodes 11 16 pages 55 61\n", 0, 0),
            (
                "rename /p/s /q/t\n",
                "ok\n",
                6,
                REPLACED + (3 * OWNER + FENCE) + 3 * PAGE_REST,
            ),
            ("df\n", "ok inodes 12 16 pages 58 61\n", 0, 0),
            ("read /q/t 0 9\n", "ok 2 6869\n", 0, 0),
        ],
    )?;
    // One that has another name is kept.
    compare_on(
        rt.alloc(),
        64,
        "create /a\nlink /a /b\ncreate /c\n",
        &[
            ("rename /c /b\n", "ok\n", 4, MOVED_ONTO + LINKS),
            ("stat /a\n", "ok file inode 2 links 1 size 0\n", 0, 0),
            ("rename /a /b\n", "ok\n", 5, REPLACED),
            ("df\n", "ok inodes 14 16 pages 60 61\n", 0, 0),
        ],
    )
}

// The slot that a name leaves isn't free when the new one's is chosen.
#[test]
fn a_full_directory_takes_a_page(rt: HostRuntime) -> Result<(), Fail> {
    let alloc = rt.alloc();
    let links = numbered(alloc, "link /z /d/n", 0, 32)?;
    let first = joined(alloc, &["create /z\nmkdir /d\n", links.as_str()])?;
    compare_on(
        alloc,
        64,
        first.as_str(),
        &[
            ("df\n", "ok inodes 13 16 pages 59 61\n", 0, 0),
            ("rename /d/n0 /d/m\n", "ok\n", 6, MOVED_INTO_PAGE),
            ("df\n", "ok inodes 13 16 pages 58 61\n", 0, 0),
            ("rename /d/n1 /d/m1\n", "ok\n", 4, MOVED),
            ("rename /z /d/z\n", "ok\n", 4, MOVED),
        ],
    )?;
    let more = joined(alloc, &[first.as_str(), "link /z /d/n32\n"])?;
    compare_on(
        alloc,
        64,
        more.as_str(),
        &[
            ("df\n", "ok inodes 13 16 pages 58 61\n", 0, 0),
            ("rename /d/n32 /m\n", "ok\n", 6, MOVED + GIVEN_BACK),
            ("df\n", "ok inodes 13 16 pages 59 61\n", 0, 0),
            ("rename /d/n0 /d/n1\n", "ok\n", 0, 0),
        ],
    )
}

// Pages that the line itself gives back count only after it.
#[test]
fn no_page_is_left_for_a_name(rt: HostRuntime) -> Result<(), Fail> {
    let first = "mkdir /d\ncreate /d/x\ncreate /a\nmkdir /e\ntruncate /a 110592\n";
    compare_on(
        rt.alloc(),
        32,
        first,
        &[
            ("rename /d/x /e/x\n", "error NoPages\n", 0, 0),
            ("create /b\n", "ok\n", 2, ENTRY),
            (
                "rename /d/x /b\n",
                "ok\n",
                6,
                REPLACED + OWNER + FENCE + PAGE_REST,
            ),
            ("df\n", "ok inodes 3 8 pages 1 29\n", 0, 0),
        ],
    )
}

#[test]
fn each_refusal_has_its_place(rt: HostRuntime) -> Result<(), Fail> {
    compare_on(
        rt.alloc(),
        64,
        "mkdir /d\nmkdir /d/e\ncreate /f\nlink /f /g\n",
        &[
            ("rename /f /f\n", "ok\n", 0, 0),
            ("rename /f /g\n", "ok\n", 0, 0),
            ("rename /d /d/e/x\n", "error IntoItself\n", 0, 0),
            ("rename /d/e /d\n", "error NotEmpty\n", 0, 0),
            ("rename /f /d\n", "error IsDir\n", 0, 0),
            ("rename /d /f\n", "error NotDir\n", 0, 0),
            ("rename / /x\n", "error Root\n", 0, 0),
            ("list /\n", "ok 3 d f g\n", 0, 0),
            (
                "rename /d/e /e\n",
                "ok\n",
                6,
                MOVED + LINKS + LINKS + GIVEN_BACK,
            ),
            ("stat /d\n", "ok dir inode 2 links 2 names 0\n", 0, 0),
            ("stat /\n", "ok dir inode 1 links 4 names 4\n", 0, 0),
            (
                "rename /f\nrename /f /g /h\nrename f g\nrename /f g\n",
                "error BadLine\nerror BadLine\nerror BadPath\nerror BadPath\n",
                0,
                0,
            ),
        ],
    )
}
