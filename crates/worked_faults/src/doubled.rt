// Two faults in one job, and a line that a fence fails in.
use crate::begins::{Begin, FRESH, MUCH_LITTER, words_of};
use crate::ends::{DEVICE_FAULT, Failing, NOTHING_FAILS, READ_FAULT, WRITE_FAULT, fail_in};
use crate::reads::SCRIPT;
use std::alloc::Global;
use std::test::Fail;
use worked_drivers::jobs::{compare_end, same};

// A job in which a fence fails, and how it ends. A fence that isn't come to isn't made.
#[derive(Clone, Copy)]
struct Row<'a> {
    line: &'a str,
    begin: Begin<'a>,
    script: &'a str,
    failing: Failing,
    told: &'a str,
    status: u8,
    fences: u64,
}

const CHANGES: &str = "create /a\ncreate /b\nrename /a /c\n";

// A run on a fresh volume.
const RUN: Row<'static> = Row {
    line: "squirrel run v",
    begin: FRESH,
    script: SCRIPT,
    failing: NOTHING_FAILS,
    told: "",
    status: WRITE_FAULT,
    fences: 0,
};

const ROWS: [Row<'static>; 6] = [
    Row {
        failing: Failing {
            fence: 2,
            room: 5,
            ..NOTHING_FAILS
        },
        told: "error",
        fences: 1,
        ..RUN
    },
    Row {
        failing: Failing {
            fence: 8,
            room: 9,
            ..NOTHING_FAILS
        },
        told: "ok\nok\nerr",
        fences: 7,
        ..RUN
    },
    // The eleventh fence is the mark's.
    Row {
        failing: Failing {
            fence: 11,
            room: 3,
            ..NOTHING_FAILS
        },
        told: "ok\n",
        fences: 6,
        ..RUN
    },
    Row {
        script: CHANGES,
        failing: Failing {
            fence: 8,
            read: 2,
            ..NOTHING_FAILS
        },
        told: "ok\nok\nerror Fault\n",
        status: READ_FAULT,
        fences: 7,
        ..RUN
    },
    Row {
        script: CHANGES,
        failing: Failing {
            fence: 2,
            read: 2,
            ..NOTHING_FAILS
        },
        told: "error Fault\nerror Stopped\nerror Stopped\n",
        status: READ_FAULT,
        fences: 1,
        ..RUN
    },
    Row {
        line: "squirrel tree v",
        begin: MUCH_LITTER,
        failing: Failing {
            fence: 5,
            room: 3,
            ..NOTHING_FAILS
        },
        told: "d 1",
        fences: 4,
        ..RUN
    },
];

fn compare_rows(alloc: Global, rows: &[Row<'_>]) -> Result<(), Fail> {
    for row in rows {
        let image = words_of(alloc, row.begin)?;
        let left = fail_in(alloc, row.line, image.as_slice(), row.script, row.failing)?;
        compare_end(&left, row.status, row.told, row.told)?;
        same(left.fences, row.fences, row.told)?;
    }
    Ok(())
}

#[test]
fn the_input_or_the_output_fails_beside_a_fence(rt: HostRuntime) -> Result<(), Fail> {
    compare_rows(rt.alloc(), ROWS.as_slice())
}

// What reads, and what is no line, is answered like each other line behind the one that failed.
const STOPPED: [Row<'static>; 2] = [
    Row {
        script: "create /a\ncreate /b\ndf\n",
        failing: Failing {
            fence: 5,
            ..NOTHING_FAILS
        },
        told: "ok\nerror Fault\nerror Stopped\n",
        status: DEVICE_FAULT,
        fences: 4,
        ..RUN
    },
    Row {
        script: "create /a\nlist /\ncreate /b\nfrob",
        failing: Failing {
            fence: 4,
            ..NOTHING_FAILS
        },
        told: "error Fault\nerror Stopped\nerror Stopped\nerror Stopped\n",
        status: DEVICE_FAULT,
        fences: 3,
        ..RUN
    },
];

#[test]
fn a_line_fails_and_the_later_ones_are_stopped(rt: HostRuntime) -> Result<(), Fail> {
    compare_rows(rt.alloc(), STOPPED.as_slice())
}
