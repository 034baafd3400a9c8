// Calls by hand, from fence to fence, on volumes of 16 pages: 4 inodes, of which the root has one, and 13 data pages.
ghost use Rattle.volume.specs.declared.next.Next.TheVariants.{More};
ghost use Rattle.worked_costs.specs.Courses.{MayGoOn};

use crate::course::{Course, begin, written};
use mount_scan::mount;
use pm_memory::RamPm;
use pm_trait::Pm;
use script::Call;
use std::alloc::Global;
use std::test::Fail;
use tree_model::Reply;
use volume::{Held, Next, Volume};
use worked_drivers::jobs::{job_on, same, text_of};
use worked_drivers::texts::{joined, numbered};
use worked_drivers::volumes::volume_after;

// Before a step of a call, or behind its last: the fences that it has left, the inodes and data pages that it holds, those that are free
// without them, and what is told of the words that the device has then, by a mount of them.
type Border<'a> = (u64, (u64, u64), (u64, u64), &'a str);

// A line, what is asked at each border, the borders, and the reply.
type Line<'a> = (&'a str, &'a str, &'a [Border<'a>], Reply);

// A step may make a fence where there are no more.
const MOST_FENCES: u64 = 1 << 62;

const NONE_HELD: Held = Held {
    inodes: 0,
    pages: 0,
};

// Does each line by hand on what those before it left: on a fresh volume, once a first script was run.
fn compare_on(alloc: Global, first: &str, lines: &[Line<'_>]) -> Result<(), Fail> {
    let mut image = volume_after(alloc, 16, first)?;
    for line in lines {
        image = compare_line(alloc, image.as_slice(), *line)?;
    }
    Ok(())
}

// Does a line by hand. What it left.
fn compare_line(alloc: Global, image: &[u64], line: Line<'_>) -> Result<Vec<u64>, Fail> {
    let mut pm = RamPm::new(alloc, image)?;
    let mut volume = mount(alloc, &mut pm)?;
    let mut scratch = vec![in alloc; 0; 32_768]?;
    let Call::Do(command) = Call::parse(line.0.as_bytes(), scratch.as_mut_slice()) else {
        return Err("no command".into());
    };
    let bytes = written(&command);
    let course = begin(&mut volume, &command, bytes, &mut pm)?;
    compare_course(alloc, course, &mut volume, bytes, &mut pm, line)?;
    Ok(pm.image().to_vec(alloc)?)
}

// Leads a call to its end.
fn compare_course<P: Pm>(
    alloc: Global,
    course: Course,
    volume: &mut Volume,
    bytes: &[u8],
    pm: &mut P,
    line: Line<'_>,
) -> Result<(), Fail>
    requires { MayGoOn volume.old (P.view pm.old) bytes.now (More course) }
{
    let (text, asked, borders, reply) = line;
    let Some((last, before)) = borders.split_last() else {
        return Err("no borders".into());
    };
    let mut next = Next::More(course);
    for border in before {
        let Next::More(running) = next else {
            return Err("it has ended".into());
        };
        compare_border(
            alloc,
            running.fences_left(),
            running.held(),
            pm.image(),
            asked,
            *border,
        )?;
        if pm.fences() > MOST_FENCES {
            return Err("too many fences".into());
        }
        next = running.advance(volume, bytes, pm)?;
    }
    let Next::Ended(told) = next else {
        return Err("it has not ended".into());
    };
    compare_border(alloc, 0, NONE_HELD, pm.image(), asked, *last)?;
    same(told, reply, text)
}

// Compares a border with what a call has left and holds, and with a mount of the words.
fn compare_border(
    alloc: Global,
    fences: u64,
    held: Held,
    image: &[u64],
    asked: &str,
    border: Border<'_>,
) -> Result<(), Fail> {
    let mut pm = RamPm::new(alloc, image)?;
    let volume = mount(alloc, &mut pm)?;
    let free = volume.free(&pm);
    let left = job_on(alloc, "squirrel run v", image, asked.as_bytes())?;
    let found = (
        fences,
        (held.inodes, held.pages),
        (
            free.inodes.saturating_sub(held.inodes),
            free.pages.saturating_sub(held.pages),
        ),
        text_of(&left.told),
    );
    same(found, border, asked)
}

#[test]
fn an_entry_is_made(rt: HostRuntime) -> Result<(), Fail> {
    compare_on(
        rt.alloc(),
        "",
        &[
            (
                "create /a",
                "list /\n",
                &[
                    (3, (1, 1), (2, 12), "ok 0\n"),
                    (2, (1, 1), (2, 12), "ok 0\n"),
                    (1, (1, 1), (2, 12), "ok 0\n"),
                    (0, (0, 0), (2, 12), "ok 1 a\n"),
                ],
                Reply::Done,
            ),
            (
                "create /b",
                "list /\n",
                &[
                    (2, (1, 0), (1, 12), "ok 1 a\n"),
                    (1, (1, 0), (1, 12), "ok 1 a\n"),
                    (0, (0, 0), (1, 12), "ok 2 a b\n"),
                ],
                Reply::Done,
            ),
            (
                "mkdir /d",
                "list /\n",
                &[
                    (2, (1, 0), (0, 12), "ok 2 a b\n"),
                    (1, (1, 0), (0, 12), "ok 2 a b\n"),
                    (0, (0, 0), (0, 12), "ok 3 a b d\n"),
                ],
                Reply::Done,
            ),
        ],
    )?;
    compare_on(
        rt.alloc(),
        "mkdir /d\n",
        &[(
            "mkdir /d/e",
            "list /d\n",
            &[
                (3, (1, 1), (1, 11), "ok 0\n"),
                (2, (1, 1), (1, 11), "ok 0\n"),
                (1, (1, 1), (1, 11), "ok 0\n"),
                (0, (0, 0), (1, 11), "ok 1 e\n"),
            ],
            Reply::Done,
        )],
    )
}

#[test]
fn a_file_gets_a_name(rt: HostRuntime) -> Result<(), Fail> {
    compare_on(
        rt.alloc(),
        "create /a\nmkdir /d\n",
        &[
            (
                "link /a /b",
                "list /\n",
                &[
                    (2, (0, 0), (1, 12), "ok 2 a d\n"),
                    (1, (0, 0), (1, 12), "ok 2 a d\n"),
                    (0, (0, 0), (1, 12), "ok 3 a b d\n"),
                ],
                Reply::Done,
            ),
            (
                "link /a /d/x",
                "list /d\n",
                &[
                    (3, (0, 1), (1, 11), "ok 0\n"),
                    (2, (0, 1), (1, 11), "ok 0\n"),
                    (1, (0, 1), (1, 11), "ok 0\n"),
                    (0, (0, 0), (1, 11), "ok 1 x\n"),
                ],
                Reply::Done,
            ),
        ],
    )
}

// One of two names; the last one of an empty file; that of a file with a page; that of a file and of its directory, whose page goes.
#[test]
fn a_name_goes(rt: HostRuntime) -> Result<(), Fail> {
    compare_on(
        rt.alloc(),
        "create /a\nlink /a /b\ncreate /c\nwrite /c 0 6869\ncreate /k\n",
        &[
            (
                "unlink /b",
                "list /\n",
                &[
                    (2, (0, 0), (0, 11), "ok 4 a b c k\n"),
                    (1, (0, 0), (0, 11), "ok 3 a c k\n"),
                    (0, (0, 0), (0, 11), "ok 3 a c k\n"),
                ],
                Reply::Done,
            ),
            (
                "unlink /a",
                "list /\n",
                &[
                    (3, (0, 0), (0, 11), "ok 3 a c k\n"),
                    (2, (1, 0), (0, 11), "ok 2 c k\n"),
                    (1, (1, 0), (0, 11), "ok 2 c k\n"),
                    (0, (0, 0), (1, 11), "ok 2 c k\n"),
                ],
                Reply::Done,
            ),
            (
                "unlink /c",
                "list /\n",
                &[
                    (4, (0, 0), (1, 11), "ok 2 c k\n"),
                    (3, (1, 1), (1, 11), "ok 1 k\n"),
                    (2, (1, 1), (1, 11), "ok 1 k\n"),
                    (1, (1, 1), (1, 11), "ok 1 k\n"),
                    (0, (0, 0), (2, 12), "ok 1 k\n"),
                ],
                Reply::Done,
            ),
            (
                "unlink /k",
                "list /\n",
                &[
                    (4, (0, 0), (2, 12), "ok 1 k\n"),
                    (3, (1, 1), (2, 12), "ok 0\n"),
                    (2, (1, 1), (2, 12), "ok 0\n"),
                    (1, (1, 1), (2, 12), "ok 0\n"),
                    (0, (0, 0), (3, 13), "ok 0\n"),
                ],
                Reply::Done,
            ),
        ],
    )
}

// The 33rd name of a directory stands alone in its second page, and its file has others.
#[test]
fn a_page_of_names_goes(rt: HostRuntime) -> Result<(), Fail> {
    let alloc = rt.alloc();
    let links = numbered(alloc, "link /n0 /n", 1, 33)?;
    let first = joined(alloc, &["create /n0\n", links.as_str()])?;
    compare_on(
        alloc,
        first.as_str(),
        &[(
            "unlink /n32",
            "stat /\n",
            &[
                (4, (0, 0), (2, 11), "ok dir inode 1 links 2 names 33\n"),
                (3, (0, 1), (2, 11), "ok dir inode 1 links 2 names 32\n"),
                (2, (0, 1), (2, 11), "ok dir inode 1 links 2 names 32\n"),
                (1, (0, 1), (2, 11), "ok dir inode 1 links 2 names 32\n"),
                (0, (0, 0), (2, 12), "ok dir inode 1 links 2 names 32\n"),
            ],
            Reply::Done,
        )],
    )
}

#[test]
fn a_directory_goes(rt: HostRuntime) -> Result<(), Fail> {
    compare_on(
        rt.alloc(),
        "mkdir /d\nmkdir /e\n",
        &[
            (
                "rmdir /d",
                "list /\n",
                &[
                    (3, (0, 0), (1, 12), "ok 2 d e\n"),
                    (2, (1, 0), (1, 12), "ok 1 e\n"),
                    (1, (1, 0), (1, 12), "ok 1 e\n"),
                    (0, (0, 0), (2, 12), "ok 1 e\n"),
                ],
                Reply::Done,
            ),
            (
                "rmdir /e",
                "list /\n",
                &[
                    (4, (0, 0), (2, 12), "ok 1 e\n"),
                    (3, (1, 1), (2, 12), "ok 0\n"),
                    (2, (1, 1), (2, 12), "ok 0\n"),
                    (1, (1, 1), (2, 12), "ok 0\n"),
                    (0, (0, 0), (3, 13), "ok 0\n"),
                ],
                Reply::Done,
            ),
        ],
    )
}

#[test]
fn a_name_moves(rt: HostRuntime) -> Result<(), Fail> {
    compare_on(
        rt.alloc(),
        "create /a\n",
        &[
            (
                "rename /a /c",
                "list /\n",
                &[
                    (4, (0, 0), (2, 12), "ok 1 a\n"),
                    (3, (0, 0), (2, 12), "ok 1 a\n"),
                    (2, (0, 0), (2, 12), "ok 1 c\n"),
                    (1, (0, 0), (2, 12), "ok 1 c\n"),
                    (0, (0, 0), (2, 12), "ok 1 c\n"),
                ],
                Reply::Done,
            ),
            (
                "rename /c /c",
                "list /\n",
                &[
                    (0, (0, 0), (2, 12), "ok 1 c\n"),
                    (0, (0, 0), (2, 12), "ok 1 c\n"),
                ],
                Reply::Done,
            ),
        ],
    )
}

// The new name takes a page; so it does where the old one gives its page back.
#[test]
fn a_name_moves_to_a_new_page(rt: HostRuntime) -> Result<(), Fail> {
    compare_on(
        rt.alloc(),
        "create /a\nmkdir /d\n",
        &[(
            "rename /a /d/x",
            "list /\nlist /d\n",
            &[
                (6, (0, 1), (1, 11), "ok 2 a d\nok 0\n"),
                (5, (0, 1), (1, 11), "ok 2 a d\nok 0\n"),
                (4, (0, 1), (1, 11), "ok 2 a d\nok 0\n"),
                (3, (0, 1), (1, 11), "ok 2 a d\nok 0\n"),
                (2, (0, 0), (1, 11), "ok 1 d\nok 1 x\n"),
                (1, (0, 0), (1, 11), "ok 1 d\nok 1 x\n"),
                (0, (0, 0), (1, 11), "ok 1 d\nok 1 x\n"),
            ],
            Reply::Done,
        )],
    )?;
    compare_on(
        rt.alloc(),
        "mkdir /p\nmkdir /q\ncreate /p/x\n",
        &[(
            "rename /p/x /q/y",
            "list /p\nlist /q\n",
            &[
                (8, (0, 1), (0, 10), "ok 1 x\nok 0\n"),
                (7, (0, 1), (0, 10), "ok 1 x\nok 0\n"),
                (6, (0, 1), (0, 10), "ok 1 x\nok 0\n"),
                (5, (0, 1), (0, 10), "ok 1 x\nok 0\n"),
                (4, (0, 1), (0, 10), "ok 0\nok 1 y\n"),
                (3, (0, 1), (0, 10), "ok 0\nok 1 y\n"),
                (2, (0, 1), (0, 10), "ok 0\nok 1 y\n"),
                (1, (0, 1), (0, 10), "ok 0\nok 1 y\n"),
                (0, (0, 0), (0, 11), "ok 0\nok 1 y\n"),
            ],
            Reply::Done,
        )],
    )
}

#[test]
fn a_file_with_a_page_is_replaced(rt: HostRuntime) -> Result<(), Fail> {
    compare_on(
        rt.alloc(),
        "create /a\ncreate /b\nwrite /b 0 6869\n",
        &[(
            "rename /a /b",
            "list /\nread /b 0 9\n",
            &[
                (6, (0, 0), (1, 11), "ok 2 a b\nok 2 6869\n"),
                (5, (0, 0), (1, 11), "ok 2 a b\nok 2 6869\n"),
                (4, (1, 1), (1, 11), "ok 1 b\nok 0 -\n"),
                (3, (1, 1), (1, 11), "ok 1 b\nok 0 -\n"),
                (2, (1, 1), (1, 11), "ok 1 b\nok 0 -\n"),
                (1, (1, 1), (1, 11), "ok 1 b\nok 0 -\n"),
                (0, (0, 0), (2, 12), "ok 1 b\nok 0 -\n"),
            ],
            Reply::Done,
        )],
    )
}

// Inside the size; past it, in the same page; with a new one; no bytes.
#[test]
fn bytes_are_written(rt: HostRuntime) -> Result<(), Fail> {
    compare_on(
        rt.alloc(),
        "create /a\nwrite /a 0 616263\n",
        &[
            (
                "write /a 1 7a",
                "read /a 0 9\n",
                &[
                    (1, (0, 0), (2, 11), "ok 3 616263\n"),
                    (0, (0, 0), (2, 11), "ok 3 617a63\n"),
                ],
                Reply::Count(1),
            ),
            (
                "write /a 3 6465",
                "read /a 0 9\n",
                &[
                    (2, (0, 0), (2, 11), "ok 3 617a63\n"),
                    (1, (0, 0), (2, 11), "ok 3 617a63\n"),
                    (0, (0, 0), (2, 11), "ok 5 617a636465\n"),
                ],
                Reply::Count(2),
            ),
            (
                "write /a 4096 66",
                "stat /a\n",
                &[
                    (3, (0, 1), (2, 10), "ok file inode 2 links 1 size 5\n"),
                    (2, (0, 1), (2, 10), "ok file inode 2 links 1 size 5\n"),
                    (1, (0, 1), (2, 10), "ok file inode 2 links 1 size 5\n"),
                    (0, (0, 0), (2, 10), "ok file inode 2 links 1 size 4097\n"),
                ],
                Reply::Count(1),
            ),
            (
                "write /a 9 -",
                "stat /a\n",
                &[
                    (0, (0, 0), (2, 10), "ok file inode 2 links 1 size 4097\n"),
                    (0, (0, 0), (2, 10), "ok file inode 2 links 1 size 4097\n"),
                ],
                Reply::Count(0),
            ),
        ],
    )
}

// To more with two new pages, to the same size, and to more with none.
#[test]
fn a_file_grows(rt: HostRuntime) -> Result<(), Fail> {
    compare_on(
        rt.alloc(),
        "create /a\ntruncate /a 100\n",
        &[
            (
                "truncate /a 8193",
                "stat /a\n",
                &[
                    (3, (0, 2), (2, 9), "ok file inode 2 links 1 size 100\n"),
                    (2, (0, 2), (2, 9), "ok file inode 2 links 1 size 100\n"),
                    (1, (0, 2), (2, 9), "ok file inode 2 links 1 size 100\n"),
                    (0, (0, 0), (2, 9), "ok file inode 2 links 1 size 8193\n"),
                ],
                Reply::Done,
            ),
            (
                "truncate /a 8193",
                "stat /a\n",
                &[
                    (0, (0, 0), (2, 9), "ok file inode 2 links 1 size 8193\n"),
                    (0, (0, 0), (2, 9), "ok file inode 2 links 1 size 8193\n"),
                ],
                Reply::Done,
            ),
            (
                "truncate /a 9000",
                "stat /a\n",
                &[
                    (2, (0, 0), (2, 9), "ok file inode 2 links 1 size 8193\n"),
                    (1, (0, 0), (2, 9), "ok file inode 2 links 1 size 8193\n"),
                    (0, (0, 0), (2, 9), "ok file inode 2 links 1 size 9000\n"),
                ],
                Reply::Done,
            ),
        ],
    )
}

// To less where no page goes, and where two of three do.
#[test]
fn a_file_is_cut(rt: HostRuntime) -> Result<(), Fail> {
    compare_on(
        rt.alloc(),
        "create /a\ntruncate /a 9000\n",
        &[
            (
                "truncate /a 8200",
                "stat /a\n",
                &[
                    (1, (0, 0), (2, 9), "ok file inode 2 links 1 size 9000\n"),
                    (0, (0, 0), (2, 9), "ok file inode 2 links 1 size 8200\n"),
                ],
                Reply::Done,
            ),
            (
                "truncate /a 5",
                "stat /a\n",
                &[
                    (3, (0, 0), (2, 9), "ok file inode 2 links 1 size 8200\n"),
                    (2, (0, 2), (2, 9), "ok file inode 2 links 1 size 5\n"),
                    (1, (0, 2), (2, 9), "ok file inode 2 links 1 size 5\n"),
                    (0, (0, 0), (2, 11), "ok file inode 2 links 1 size 5\n"),
                ],
                Reply::Done,
            ),
        ],
    )
}
