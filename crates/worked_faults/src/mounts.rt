// Each fence of a mount that has much to mend fails, and those of the run behind it.
use crate::begins::{MUCH_LITTER, words_of};
use crate::ends::{ALL_NEW, ALL_OLD, DEVICE_FAULT, DONE, NOTHING_FAILS, fail_in, left_at_end};
use crate::runs::{Line, ON_CLOSED, Run, compare_faults};
use pm_memory::RamPm;
use std::alloc::Global;
use std::test::Fail;
use worked_drivers::jobs::{compare_end, is_done, run_on, same};

const MOUNTS: [Run<'static>; 2] = [
    Run {
        begin: MUCH_LITTER,
        opening: 4,
        before: "d 1 2 1 /\nf 2 1 0 /b -\n",
        lines: &[Line {
            text: "list /\n",
            reply: "ok 1 b\n",
            fences: 0,
            commit: 0,
            after: "d 1 2 1 /\nf 2 1 0 /b -\n",
        }],
        old: &[4, 3, 2, 1, 0],
        new: &[3, 2, 1, 0, 0],
        ..ON_CLOSED
    },
    Run {
        begin: MUCH_LITTER,
        opening: 4,
        before: "d 1 2 1 /\nf 2 1 0 /b -\n",
        lines: &[Line {
            text: "create /c\n",
            reply: "ok\n",
            fences: 2,
            commit: 2,
            after: "d 1 2 2 /\nf 2 1 0 /b -\nf 3 1 0 /c -\n",
        }],
        old: &[4, 3, 2, 1, 0, 2, 0],
        new: &[3, 2, 1, 0, 2, 0, 0],
        ..ON_CLOSED
    },
];

#[test]
fn each_fence_of_a_mount_fails(rt: HostRuntime) -> Result<(), Fail> {
    compare_faults(rt.alloc(), MOUNTS.as_slice())
}

const SCRIPT: &str = "list /\n";

// A run whose first fence fails: how many fences the whole run has, and then how this one ends.
#[derive(Clone, Copy)]
struct Again<'a> {
    fences: u64,
    status: u8,
    told: &'a str,
}

// The mount fails: nothing is told.
const UNMOUNTED: Again<'static> = Again {
    fences: 5,
    status: DEVICE_FAULT,
    told: "",
};

// One fence of the mount after the other is made, then the mark's, and then none is left.
const ALL_NEW_AGAIN: [Again<'static>; 6] = [
    Again {
        fences: 5,
        ..UNMOUNTED
    },
    Again {
        fences: 4,
        ..UNMOUNTED
    },
    Again {
        fences: 3,
        ..UNMOUNTED
    },
    Again {
        fences: 2,
        ..UNMOUNTED
    },
    Again {
        fences: 1,
        status: DEVICE_FAULT,
        told: "ok 1 b\n",
    },
    Again {
        fences: 0,
        status: DONE,
        told: "ok 1 b\n",
    },
];

// Nothing is made.
const ALL_OLD_AGAIN: [Again<'static>; 4] = [
    Again {
        fences: 5,
        ..UNMOUNTED
    },
    Again {
        fences: 5,
        ..UNMOUNTED
    },
    Again {
        fences: 5,
        ..UNMOUNTED
    },
    Again {
        fences: 5,
        ..UNMOUNTED
    },
];

// Lets the first fence fail of a run on what the run before left.
fn compare_again(alloc: Global, keep: &[u8; 2], rows: &[Again<'_>]) -> Result<(), Fail> {
    let mut image = words_of(alloc, MUCH_LITTER)?;
    for row in rows {
        let whole = fail_in(
            alloc,
            "squirrel run v",
            image.as_slice(),
            SCRIPT,
            NOTHING_FAILS,
        )?;
        is_done(&whole, "ok 1 b\n", SCRIPT)?;
        same(whole.fences, row.fences, SCRIPT)?;
        image = left_by(alloc, image.as_slice(), keep, *row)?;
    }
    Ok(())
}

// What a crash leaves at the end of a run whose first fence failed.
fn left_by(alloc: Global, image: &[u64], keep: &[u8; 2], row: Again<'_>) -> Result<Vec<u64>, Fail> {
    let failing = [1].to_vec(alloc)?;
    let mut pm = RamPm::with_failing(alloc, image, failing)?;
    let left = run_on(alloc, &mut pm, SCRIPT)?;
    compare_end(&left, row.status, row.told, SCRIPT)?;
    same(left.fences, 0, SCRIPT)?;
    left_at_end(alloc, &pm, keep)
}

#[test]
fn the_first_fence_fails_again_and_again(rt: HostRuntime) -> Result<(), Fail> {
    compare_again(rt.alloc(), &ALL_NEW, ALL_NEW_AGAIN.as_slice())?;
    compare_again(rt.alloc(), &ALL_OLD, ALL_OLD_AGAIN.as_slice())
}
