// Each write fails, and an output is full at each byte.
use crate::begins::{Begin, CLOSED, FRESH, OPEN, words_of};
use crate::ends::{DONE, Failing, NO_VOLUME, NOTHING_FAILS, WRITE_FAULT, fail_in, mark_of, unread};
use crate::jobs::{WORK, WORKED};
use crate::reads::{FENCES, SCRIPT, WHOLE};
use std::alloc::Global;
use std::test::Fail;
use worked_drivers::jobs::{Left, compare_end, same, text_of};
use worked_drivers::rows::compare_replies;
use worked_drivers::texts::lines_in;

// A job that runs no line of its script on the device, how it ends, and how many fences it takes, where a write fails and where
// none does. Then what the mark is where one fails.
#[derive(Clone, Copy)]
struct Output<'a> {
    line: &'a str,
    begin: Begin<'a>,
    script: &'a str,
    told: &'a str,
    status: u8,
    cut: u64,
    whole: u64,
    mark: u64,
}

// A job that makes no fence.
const NO_FENCE: Output<'static> = Output {
    line: "",
    begin: FRESH,
    script: "",
    told: "",
    status: DONE,
    cut: 0,
    whole: 0,
    mark: CLOSED,
};

// The words of a volume whose first word is another, and of one whose root is a file.
const OTHER_MAGIC: Begin<'static> = Begin {
    set: &[(0, 0)],
    ..FRESH
};

const FILE_AS_ROOT: Begin<'static> = Begin {
    set: &[(512, 1)],
    ..FRESH
};

const OUTPUTS: [Output<'static>; 9] = [
    Output {
        line: "squirrel tree v",
        begin: Begin {
            script: SCRIPT,
            ..FRESH
        },
        told: "d 1 2 2 /\nf 3 1 0 /b -\nf 2 1 0 /c -\n",
        ..NO_FENCE
    },
    Output {
        line: "squirrel check v",
        begin: Begin {
            script: SCRIPT,
            ..FRESH
        },
        told: "sound\ntree directories 1 files 2 names 2\n\
            repairs pointers 0 slots 0 pages 0 inodes 0 counts 0\n",
        ..NO_FENCE
    },
    Output {
        line: "squirrel crash v --call 3 --fence 2 --keep ff",
        script: SCRIPT,
        told: "acked 2\nd 1 2 2 /\nf 3 1 0 /b -\nf 2 1 0 /c -\n",
        ..NO_FENCE
    },
    Output {
        line: WORK,
        told: WORKED,
        cut: 14,
        whole: 15,
        mark: OPEN,
        ..NO_FENCE
    },
    Output {
        line: "squirrel mkfs v 16",
        told: "formatted pages 16 inodes 4 data 13\n",
        cut: 3,
        whole: 3,
        ..NO_FENCE
    },
    Output {
        line: "squirrel run v",
        begin: OTHER_MAGIC,
        told: "not a volume\n",
        status: NO_VOLUME,
        ..NO_FENCE
    },
    Output {
        line: "squirrel crash v --at 0 --keep 00",
        begin: OTHER_MAGIC,
        told: "not a volume\n",
        status: NO_VOLUME,
        ..NO_FENCE
    },
    Output {
        line: "squirrel tree v",
        begin: FILE_AS_ROOT,
        told: "damaged 2 1\n",
        status: NO_VOLUME,
        ..NO_FENCE
    },
    Output {
        line: "squirrel check v",
        begin: FILE_AS_ROOT,
        told: "damaged 2 1\n",
        status: NO_VOLUME,
        ..NO_FENCE
    },
];

// The first bytes of a text.
fn first_bytes(text: &str, count: usize) -> &str {
    text.get(..count).unwrap_or(text)
}

// Gives a job's output room for each number of bytes up to all.
fn compare_rooms(alloc: Global, image: &[u64], output: Output<'_>) -> Result<(), Fail> {
    let read = unread(output.script);
    for room in 0..output.told.len().saturating_add(1) {
        let failing = Failing {
            room,
            read,
            ..NOTHING_FAILS
        };
        let left = fail_in(alloc, output.line, image, output.script, failing)?;
        same(
            text_of(&left.told),
            first_bytes(output.told, room),
            output.line,
        )?;
        compare_cut(&left, image, output)?;
    }
    Ok(())
}

// Lets each write of a job fail. Each takes a byte at the least, so there are no more of them than bytes, and the first one alone
// leaves none.
fn compare_writes(alloc: Global, image: &[u64], output: Output<'_>) -> Result<(), Fail> {
    let read = unread(output.script);
    for number in 0..output.told.len().saturating_add(1) {
        let failing = Failing {
            write: (number as u64).saturating_add(1),
            read,
            ..NOTHING_FAILS
        };
        let left = fail_in(alloc, output.line, image, output.script, failing)?;
        let begins = output.told.starts_with(text_of(&left.told));
        let none = left.told.is_empty();
        same((begins, none), (true, number == 0), output.line)?;
        compare_cut(&left, image, output)?;
    }
    Ok(())
}

// The output took a proper prefix, or the whole. A job that makes no fence leaves the device as it was.
fn compare_cut(left: &Left, image: &[u64], output: Output<'_>) -> Result<(), Fail> {
    let count = left.told.len();
    if count < output.told.len() {
        let mark = mark_of(left.image.as_slice())?;
        same(
            (count, left.status.number(), left.fences, mark),
            (count, WRITE_FAULT, output.cut, output.mark),
            output.line,
        )?;
    } else {
        same(
            (left.status.number(), left.fences),
            (output.status, output.whole),
            output.line,
        )?;
    }
    if output.whole == 0 {
        same(left.image.as_slice(), image, output.line)?;
    }
    Ok(())
}

#[test]
fn each_write_of_other_jobs_fails(rt: HostRuntime) -> Result<(), Fail> {
    let alloc = rt.alloc();
    for output in &OUTPUTS {
        let image = words_of(alloc, output.begin)?;
        compare_rooms(alloc, image.as_slice(), *output)?;
        compare_writes(alloc, image.as_slice(), *output)?;
    }
    Ok(())
}

// How many fences are made by the whole lines that were told, and that of the line whose reply is cut.
const FENCES_OF_CUT: [u64; 4] = [4, 6, 10, 10];

// What a run leaves whose output took this: a line is executed before its reply is written, and the run ends there.
fn compare_run(left: &Left) -> Result<(), Fail> {
    same(WHOLE.starts_with(text_of(&left.told)), true, SCRIPT)?;
    if left.told.len() == WHOLE.len() {
        return same((left.status.number(), left.fences), (DONE, FENCES), SCRIPT);
    }
    let lines = lines_in(&left.told);
    let fences = FENCES_OF_CUT.get(lines).copied().unwrap_or(FENCES);
    let mark = mark_of(left.image.as_slice())?;
    same(
        (lines, left.status.number(), left.fences, mark),
        (lines, WRITE_FAULT, fences, OPEN),
        SCRIPT,
    )?;
    same(left.acks, (lines as u64).saturating_add(1), SCRIPT)
}

#[test]
fn each_write_of_a_run_fails(rt: HostRuntime) -> Result<(), Fail> {
    let alloc = rt.alloc();
    let volume = words_of(alloc, FRESH)?;
    for number in 0..WHOLE.len().saturating_add(1) {
        let failing = Failing {
            room: number,
            ..NOTHING_FAILS
        };
        let left = fail_in(alloc, "squirrel run v", volume.as_slice(), SCRIPT, failing)?;
        same(left.told.len(), number, SCRIPT)?;
        compare_run(&left)?;
        let failing = Failing {
            write: (number as u64).saturating_add(1),
            ..NOTHING_FAILS
        };
        let left = fail_in(alloc, "squirrel run v", volume.as_slice(), SCRIPT, failing)?;
        same(left.told.is_empty(), number == 0, SCRIPT)?;
        compare_run(&left)?;
    }
    Ok(())
}

// The output has room for four bytes, and the line whose reply was cut stands.
#[test]
fn a_reply_that_is_cut(rt: HostRuntime) -> Result<(), Fail> {
    let volume = words_of(rt.alloc(), FRESH)?;
    let failing = Failing {
        room: 4,
        ..NOTHING_FAILS
    };
    let script = "create /a\ncreate /b\n";
    let left = fail_in(
        rt.alloc(),
        "squirrel run v",
        volume.as_slice(),
        script,
        failing,
    )?;
    compare_end(&left, WRITE_FAULT, "ok\no", script)?;
    compare_replies(
        rt.alloc(),
        left.image.as_slice(),
        &[("list /\n", "ok 2 a b\n")],
    )
}
