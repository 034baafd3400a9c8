// Calls that are cut: in each order of their steps each fence fails in turn.
use crate::weaves::weave_on;
use pm_memory::RamPm;
use schedules::WeaveEnd;
use std::alloc::Global;
use std::test::Fail;
use worked_drivers::jobs::{
    crash_at, events_of, is_done, job_on, job_without_script, same, text_of,
};
use worked_drivers::volumes::volume_after;

// No more steps are woven.
const MOST_STEPS: u64 = 8;

// What a mount would repair. No rename is cut, so there is no pointer.
#[derive(Clone, Copy)]
struct Repairs {
    slots: u64,
    pages: u64,
    inodes: u64,
    counts: u64,
}

const NOTHING: Repairs = Repairs {
    slots: 0,
    pages: 0,
    inodes: 0,
    counts: 0,
};

const PAGE: Repairs = Repairs {
    pages: 1,
    ..NOTHING
};

const NODE: Repairs = Repairs {
    inodes: 1,
    ..NOTHING
};

const NODE_AND_PAGE: Repairs = Repairs { pages: 1, ..NODE };

const NODE_AND_SLOT: Repairs = Repairs { slots: 1, ..NODE };

const NODE_SLOT_AND_COUNT: Repairs = Repairs {
    counts: 1,
    ..NODE_AND_SLOT
};

const SLOT_AND_COUNT: Repairs = Repairs {
    slots: 1,
    counts: 1,
    ..NOTHING
};

// A call, how many fences it takes, and the one that settles its commit word; what it has left behind its first steps, in their order. What a
// line is told that asks for it, without it and with it.
#[derive(Clone, Copy)]
struct CutCall<'a> {
    line: &'a str,
    fences: u64,
    commit: u64,
    left: &'a [Repairs],
    asked: &'a str,
    without: &'a str,
    with: &'a str,
}

// On the volume that `first_volume` gives, `/b` has a page with room for a name, and `/a` none.
const CREATE: CutCall<'static> = CutCall {
    line: "create /a/x",
    fences: 3,
    commit: 3,
    left: &[NODE_AND_PAGE, NODE_AND_PAGE],
    asked: "list /a\n",
    without: "ok 0\n",
    with: "ok 1 x\n",
};

const MKDIR: CutCall<'static> = CutCall {
    line: "mkdir /b/y",
    fences: 2,
    commit: 2,
    left: &[NODE_SLOT_AND_COUNT],
    asked: "list /b\n",
    without: "ok 1 k\n",
    with: "ok 2 k y\n",
};

const GROW: CutCall<'static> = CutCall {
    line: "write /c/f 5000 01",
    fences: 2,
    commit: 2,
    left: &[NOTHING],
    asked: "stat /c/f\n",
    without: "ok file inode 6 links 1 size 5000\n",
    with: "ok file inode 6 links 1 size 5001\n",
};

const CUT: CutCall<'static> = CutCall {
    line: "truncate /c/f 1",
    fences: 3,
    commit: 1,
    left: &[PAGE, PAGE],
    asked: "stat /c/f\n",
    without: "ok file inode 6 links 1 size 5000\n",
    with: "ok file inode 6 links 1 size 1\n",
};

// The last name of a file, and of its directory's page.
const UNLINK: CutCall<'static> = CutCall {
    line: "unlink /e/u",
    fences: 4,
    commit: 1,
    left: &[NODE_AND_PAGE, NODE_AND_PAGE, NODE_AND_PAGE],
    asked: "list /e\n",
    without: "ok 1 u\n",
    with: "ok 0\n",
};

const LINK: CutCall<'static> = CutCall {
    line: "link /b/k /b/l",
    fences: 2,
    commit: 2,
    left: &[SLOT_AND_COUNT],
    asked: "list /b\n",
    without: "ok 1 k\n",
    with: "ok 2 k l\n",
};

const RMDIR: CutCall<'static> = CutCall {
    line: "rmdir /a",
    fences: 3,
    commit: 1,
    left: &[NODE_SLOT_AND_COUNT, NODE],
    asked: "list /\n",
    without: "ok 4 a b c e\n",
    with: "ok 3 b c e\n",
};

const CREATE_IN_PAGE: CutCall<'static> = CutCall {
    line: "create /b/z",
    fences: 2,
    commit: 2,
    left: &[NODE_AND_SLOT],
    asked: "list /b\n",
    without: "ok 1 k\n",
    with: "ok 2 k z\n",
};

const FIRST_PAGE: CutCall<'static> = CutCall {
    line: "write /b/k 0 01020304",
    fences: 3,
    commit: 3,
    left: &[PAGE, PAGE],
    asked: "stat /b/k\n",
    without: "ok file inode 4 links 1 size 0\n",
    with: "ok file inode 4 links 1 size 4\n",
};

fn first_volume(alloc: Global) -> Result<Vec<u64>, Fail> {
    volume_after(
        alloc,
        64,
        "mkdir /a\nmkdir /b\ncreate /b/k\nmkdir /c\ncreate /c/f\ntruncate /c/f 5000\nmkdir /e\ncreate /e/u\n",
    )
}

// The lines of sessions, of each call one.
fn lines_of(alloc: Global, calls: &[CutCall<'_>]) -> Result<String, Fail> {
    let mut lines = String::new(alloc);
    for (session, call) in calls.iter().enumerate() {
        let line = format!(in alloc; "{session} {}\n", call.line)?;
        lines.push_str(line.as_str())?;
    }
    Ok(lines)
}

// What is asked of all calls.
fn asked_of(alloc: Global, calls: &[CutCall<'_>]) -> Result<String, Fail> {
    let mut asked = String::new(alloc);
    for call in calls {
        asked.push_str(call.asked)?;
    }
    Ok(asked)
}

// How many of these steps are a session's.
fn steps_of(steps: &[u8], session: usize) -> u64 {
    steps
        .iter()
        .filter(|step| **step as usize == session)
        .count() as u64
}

// What is told behind these steps: of each call that has committed with it, of each other one without it.
fn told_behind(alloc: Global, calls: &[CutCall<'_>], steps: &[u8]) -> Result<String, Fail> {
    let mut told = String::new(alloc);
    for (session, call) in calls.iter().enumerate() {
        if steps_of(steps, session) >= call.commit {
            told.push_str(call.with)?;
        } else {
            told.push_str(call.without)?;
        }
    }
    Ok(told)
}

impl<'a> CutCall<'a> {
    // What it has left behind so many of its steps.
    fn left_behind(&self, steps: u64) -> Repairs {
        let before = (steps as usize).checked_sub(1);
        let left = before.and_then(|place| self.left.get(place));
        *left.unwrap_or(&NOTHING)
    }
}

// What `check` tells behind these steps of what a mount would repair: what the calls have left that run.
fn repairs_behind(alloc: Global, calls: &[CutCall<'_>], steps: &[u8]) -> Result<String, Fail> {
    let mut all = NOTHING;
    for (session, call) in calls.iter().enumerate() {
        let left = call.left_behind(steps_of(steps, session));
        all = Repairs {
            slots: all.slots.saturating_add(left.slots),
            pages: all.pages.saturating_add(left.pages),
            inodes: all.inodes.saturating_add(left.inodes),
            counts: all.counts.saturating_add(left.counts),
        };
    }
    let Repairs {
        slots,
        pages,
        inodes,
        counts,
    } = all;
    Ok(format!(in alloc;
        "repairs pointers 0 slots {slots} pages {pages} inodes {inodes} counts {counts}"
    )?)
}

// Lets the fence of each step of the schedule fail in turn, behind that of the mark. Of the words as they were settled a mount finds what the
// steps before made, and with all that was stored since what that step makes too. So does `check` what these steps have left.
fn compare_cuts(
    alloc: Global,
    volume: &[u64],
    calls: &[CutCall<'_>],
    schedule: &[u8],
) -> Result<(), Fail> {
    let lines = lines_of(alloc, calls)?;
    let asked = asked_of(alloc, calls)?;
    for step in 0..schedule.len() {
        let failing = [(step as u64).saturating_add(2)].to_vec(alloc)?;
        let mut pm = RamPm::with_failing(alloc, volume, failing)?;
        let sessions = calls.len() as u64;
        let (end, _) = weave_on(alloc, &mut pm, sessions, lines.as_str(), schedule)?;
        same((step, end), (step, WeaveEnd::Faulted), lines.as_str())?;
        for (keep, made) in [([0, 0], step), ([1, 1], step.saturating_add(1))] {
            let steps = schedule.get(..made).unwrap_or(schedule);
            let image = crash_at(alloc, &pm, events_of(&pm)?, &keep)?;
            let checked = job_without_script(alloc, "squirrel check v", image.as_slice())?;
            let repairs = repairs_behind(alloc, calls, steps)?;
            let told = text_of(&checked.told).lines().nth(2);
            same(told, Some(repairs.as_str()), lines.as_str())?;
            let left = job_on(alloc, "squirrel run v", image.as_slice(), asked.as_bytes())?;
            let told = told_behind(alloc, calls, steps)?;
            is_done(&left, told.as_str(), lines.as_str())?;
        }
    }
    Ok(())
}

// The steps by which the bits of a number say whose each is, or none where it has more.
fn schedule_of(alloc: Global, bits: u64, steps: u64) -> Result<Option<Vec<u8>>, Fail> {
    let mut schedule = Vec::new(alloc);
    let mut left = bits;
    for _step in 0..steps {
        schedule.push((left % 2) as u8)?;
        left /= 2;
    }
    Ok(if left == 0 { Some(schedule) } else { None })
}

// Each order of the steps of two calls.
fn compare_pair(
    alloc: Global,
    volume: &[u64],
    first: CutCall<'_>,
    second: CutCall<'_>,
) -> Result<(), Fail> {
    let steps = first.fences.saturating_add(second.fences).min(MOST_STEPS);
    for bits in 0..256 {
        if let Some(schedule) = schedule_of(alloc, bits, steps)? {
            if steps_of(&schedule, 1) == second.fences {
                compare_cuts(alloc, volume, &[first, second], &schedule)?;
            }
        }
    }
    Ok(())
}

#[test]
fn names_are_made_and_go(rt: HostRuntime) -> Result<(), Fail> {
    let volume = first_volume(rt.alloc())?;
    compare_pair(rt.alloc(), volume.as_slice(), CREATE, MKDIR)?;
    compare_pair(rt.alloc(), volume.as_slice(), LINK, UNLINK)?;
    compare_pair(rt.alloc(), volume.as_slice(), RMDIR, CREATE_IN_PAGE)
}

#[test]
fn pages_are_given_up(rt: HostRuntime) -> Result<(), Fail> {
    let volume = first_volume(rt.alloc())?;
    compare_pair(rt.alloc(), volume.as_slice(), CUT, UNLINK)?;
    compare_pair(rt.alloc(), volume.as_slice(), UNLINK, CREATE)
}

#[test]
fn files_grow(rt: HostRuntime) -> Result<(), Fail> {
    let volume = first_volume(rt.alloc())?;
    compare_pair(rt.alloc(), volume.as_slice(), GROW, FIRST_PAGE)?;
    compare_pair(rt.alloc(), volume.as_slice(), FIRST_PAGE, CUT)
}

#[test]
fn three_calls(rt: HostRuntime) -> Result<(), Fail> {
    let volume = first_volume(rt.alloc())?;
    for schedule in [
        [0u8, 1, 2, 0, 1, 2, 0, 1, 2, 2],
        [2, 1, 0, 2, 1, 0, 2, 1, 0, 2],
        [0, 0, 0, 1, 1, 1, 2, 2, 2, 2],
        [2, 2, 2, 2, 1, 1, 1, 0, 0, 0],
        [1, 2, 0, 0, 1, 2, 2, 0, 1, 2],
        [0, 2, 2, 1, 0, 2, 1, 1, 2, 0],
        [1, 0, 1, 0, 1, 0, 2, 2, 2, 2],
        [2, 0, 2, 0, 2, 0, 2, 1, 1, 1],
        [0, 1, 1, 1, 2, 2, 2, 2, 0, 0],
        [2, 2, 0, 0, 1, 1, 2, 2, 0, 1],
        [1, 1, 0, 2, 2, 0, 2, 1, 0, 2],
        [0, 0, 2, 1, 2, 2, 1, 2, 1, 0],
    ] {
        compare_cuts(
            rt.alloc(),
            volume.as_slice(),
            &[CREATE, CUT, UNLINK],
            &schedule,
        )?;
    }
    Ok(())
}
