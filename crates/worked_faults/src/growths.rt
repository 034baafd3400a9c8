// A device that is short of memory: each growth is refused in turn, and what is answered then.
use crate::begins::{FRESH, LINKS_TOO_HIGH, MUCH_LITTER, NOT_CLOSED, no_volume, words_of};
use crate::ends::{DONE, NO_MEMORY, NONE, unread};
use crate::jobs::{WORK, WORKED};
use crate::scarce::short_of_memory;
use std::alloc::Global;
use std::test::Fail;
use worked_drivers::jobs::{compare_end, is_done, same};
use worked_drivers::volumes::volume_with_a;

const RUN: &str = "squirrel run v";

// A job whose first reserve is refused leaves the device alone, tells nothing, and reads no script.
fn compare_short(alloc: Global, line: &str, image: &[u64]) -> Result<(), Fail> {
    let short = short_of_memory(alloc, line, image, ("list /\n", 1), &[1])?;
    compare_end(&short.left, NO_MEMORY, "", line)?;
    same(short.left.image.as_slice(), image, line)?;
    same((short.left.fences, short.left.acks), (0, 0), line)
}

// A format asks once.
#[test]
fn a_volume_is_not_made(rt: HostRuntime) -> Result<(), Fail> {
    let alloc = rt.alloc();
    let line = "squirrel mkfs v 16";
    let old = no_volume(alloc)?;
    compare_short(alloc, line, old.as_slice())?;
    let short = short_of_memory(alloc, line, old.as_slice(), ("", 1), &[2])?;
    same(
        (short.left.status.number(), short.reserves),
        (DONE, 1),
        line,
    )
}

// The mount's reserve is the first one, also where nothing is to be mended, and where the volume was closed.
#[test]
fn a_volume_is_not_mounted(rt: HostRuntime) -> Result<(), Fail> {
    let alloc = rt.alloc();
    for begin in [FRESH, NOT_CLOSED, LINKS_TOO_HIGH, MUCH_LITTER] {
        let image = words_of(alloc, begin)?;
        compare_jobs(alloc, image.as_slice())?;
    }
    Ok(())
}

// Each of the jobs that mount.
fn compare_jobs(alloc: Global, image: &[u64]) -> Result<(), Fail> {
    for line in [RUN, "squirrel tree v", WORK] {
        compare_short(alloc, line, image)?;
    }
    Ok(())
}

// Neither of these asks for room on the device, also where there is something to mend.
#[test]
fn what_only_reads_needs_no_room(rt: HostRuntime) -> Result<(), Fail> {
    let alloc = rt.alloc();
    let volume = words_of(alloc, LINKS_TOO_HIGH)?;
    for (line, script) in [
        ("squirrel check v", ""),
        (
            "squirrel crash v --call 1 --fence 0 --keep 00",
            "create /b\n",
        ),
    ] {
        let script = (script, unread(script));
        let short = short_of_memory(alloc, line, volume.as_slice(), script, &[1])?;
        same(
            (short.left.status.number(), short.reserves),
            (DONE, 0),
            line,
        )?;
        same(short.left.image.as_slice(), volume.as_slice(), line)?;
    }
    Ok(())
}

// A line that is asked twice, its reply, the reply where it was done before, and whether it stores something then too.
#[derive(Clone, Copy)]
struct Twice<'a> {
    line: &'a str,
    reply: &'a str,
    again: &'a str,
    stores_again: bool,
}

// Makes something that is there then.
const MADE: Twice<'static> = Twice {
    line: "",
    reply: "ok\n",
    again: "error Exists\n",
    stores_again: false,
};

// Takes something away that isn't there then.
const GONE: Twice<'static> = Twice {
    line: "",
    reply: "ok\n",
    again: "error NotFound\n",
    stores_again: false,
};

// Gives a file a size that it has then.
const SIZED: Twice<'static> = Twice {
    line: "",
    reply: "ok\n",
    again: "ok\n",
    stores_again: false,
};

const LINES: [Twice<'static>; 9] = [
    Twice {
        line: "create /a\n",
        ..MADE
    },
    Twice {
        line: "write /a 0 6162\n",
        reply: "ok 2\n",
        again: "ok 2\n",
        stores_again: true,
    },
    Twice {
        line: "truncate /a 5000\n",
        ..SIZED
    },
    Twice {
        line: "truncate /a 1\n",
        ..SIZED
    },
    Twice {
        line: "mkdir /d\n",
        ..MADE
    },
    Twice {
        line: "link /a /d/b\n",
        ..MADE
    },
    Twice {
        line: "rename /a /c\n",
        ..GONE
    },
    Twice {
        line: "unlink /d/b\n",
        ..GONE
    },
    Twice {
        line: "rmdir /d\n",
        ..GONE
    },
];

// The mount asks for room, and then each line that stores something: these nine and the second write.
const RESERVES: u64 = 11;

// Each line twice.
fn script_of_twice(alloc: Global) -> Result<String, Fail> {
    let mut script = String::new(alloc);
    for twice in &LINES {
        script.push_str(twice.line)?;
        script.push_str(twice.line)?;
    }
    Ok(script)
}

// The replies where the reserve of this number is refused. The line that asked for it is done as it is asked again.
fn replies_of_twice(alloc: Global, refused: u64) -> Result<String, Fail> {
    let mut told = String::new(alloc);
    let mut number: u64 = 1;
    for twice in &LINES {
        number = number.saturating_add(1);
        let first = number == refused;
        if twice.stores_again {
            number = number.saturating_add(1);
        }
        let second = twice.stores_again && number == refused;
        told.push_str(reply_to(first, twice.reply))?;
        let again = if first { twice.reply } else { twice.again };
        told.push_str(reply_to(second, again))?;
    }
    Ok(told)
}

fn reply_to(is_refused: bool, reply: &str) -> &str {
    if is_refused {
        "error NoMemory\n"
    } else {
        reply
    }
}

// The words at the end are those of a run in which nothing is refused.
#[test]
fn each_growth_of_a_run_is_refused(rt: HostRuntime) -> Result<(), Fail> {
    let alloc = rt.alloc();
    let volume = words_of(alloc, FRESH)?;
    let script = script_of_twice(alloc)?;
    let script = (script.as_str(), NONE);
    let whole = short_of_memory(alloc, RUN, volume.as_slice(), script, &[])?;
    same(whole.reserves, RESERVES, RUN)?;
    for refused in 2..RESERVES.saturating_add(2) {
        let short = short_of_memory(alloc, RUN, volume.as_slice(), script, &[refused])?;
        let told = replies_of_twice(alloc, refused)?;
        is_done(&short.left, told.as_str(), RUN)?;
        let image = short.left.image.as_slice();
        same(image, whole.left.image.as_slice(), RUN)?;
    }
    Ok(())
}

// Which reserve is refused, and what is told then of the generated lines: `mkdir /d0`, `mkdir /d1`, `mkdir /d2`, `rmdir /d1` and
// `create /d0/f11` are done where nothing is refused, `mkdir /d3` and `mkdir /d1` where there is an inode left for them.
const SUMS: [(u64, &str); 6] = [
    (
        2,
        "work lines 14 ok 5 refused 9\nok inodes 0 4 pages 12 13\nnames 3 bytes 0\n",
    ),
    (
        3,
        "work lines 14 ok 3 refused 11\nok inodes 0 4 pages 12 13\nnames 3 bytes 0\n",
    ),
    (
        4,
        "work lines 14 ok 5 refused 9\nok inodes 0 4 pages 11 13\nnames 3 bytes 0\n",
    ),
    (
        5,
        "work lines 14 ok 3 refused 11\nok inodes 0 4 pages 12 13\nnames 3 bytes 0\n",
    ),
    (
        6,
        "work lines 14 ok 5 refused 9\nok inodes 0 4 pages 12 13\nnames 3 bytes 0\n",
    ),
    (7, WORKED),
];

// The mount asks for room, and then these five.
const RESERVES_OF_WORK: u64 = 6;

#[test]
fn each_growth_of_generated_lines_is_refused(rt: HostRuntime) -> Result<(), Fail> {
    let alloc = rt.alloc();
    let volume = words_of(alloc, FRESH)?;
    let whole = short_of_memory(alloc, WORK, volume.as_slice(), ("", 1), &[])?;
    same(whole.reserves, RESERVES_OF_WORK, WORK)?;
    for (refused, told) in SUMS {
        let short = short_of_memory(alloc, WORK, volume.as_slice(), ("", 1), &[refused])?;
        is_done(&short.left, told, WORK)?;
    }
    Ok(())
}

// Lines on a device that gives no room, and their replies: each other refusal comes first.
const REFUSALS: [(&str, &str); 19] = [
    ("create /b\n", "error NoMemory\n"),
    ("create /a\n", "error Exists\n"),
    ("create /\n", "error Root\n"),
    ("create /a/b\n", "error NotDir\n"),
    ("create /x/b\n", "error NotFound\n"),
    ("link /a /a\n", "error Exists\n"),
    ("unlink /\n", "error Root\n"),
    ("rmdir /a\n", "error NotDir\n"),
    ("write / 0 61\n", "error IsDir\n"),
    ("write /a 1099511627776 00\n", "error TooBig\n"),
    ("truncate /a 53249\n", "error NoPages\n"),
    ("write /a 0 61\n", "error NoMemory\n"),
    ("write /a 0 -\n", "ok 0\n"),
    ("truncate /a 0\n", "ok\n"),
    ("read /a 0 1\n", "ok 0 -\n"),
    ("create b\n", "error BadPath\n"),
    ("frob\n", "error BadLine\n"),
    ("stat /a\n", "ok file inode 2 links 1 size 0\n"),
    ("list /\n", "ok 1 a\n"),
];

// Out of memory comes after all other refusals, and a line that changes nothing needs none.
#[test]
fn other_refusals_come_first(rt: HostRuntime) -> Result<(), Fail> {
    let alloc = rt.alloc();
    let volume = volume_with_a(alloc)?;
    let mut script = String::new(alloc);
    let mut wanted = String::new(alloc);
    for (line, reply) in &REFUSALS {
        script.push_str(line)?;
        wanted.push_str(reply)?;
    }
    let short = short_of_memory(
        alloc,
        "squirrel run v",
        volume.as_slice(),
        (script.as_str(), NONE),
        &[2, 3, 4, 5, 6, 7, 8, 9, 10],
    )?;
    is_done(&short.left, wanted.as_str(), "other refusals")?;
    let image = short.left.image.as_slice();
    same(image, volume.as_slice(), "other refusals")
}
