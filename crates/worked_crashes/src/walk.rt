// A crash in `create /a` on a fresh volume of 16 pages, word by word: the tables of docs/walk.md, which `tests/program` compares with
// these.
use crate::recoveries::{Row, compare};
use pm_memory::RamPm;
use squirrel_cli::Status;
use std::alloc::Global;
use std::test::Fail;
use worked_drivers::jobs::{crash_at, events_of, run_on, same};
use worked_drivers::volumes::{set_words, small_volume};

// Words with their values.
type Words<'a> = &'a [(usize, u64)];

// The words that each interval changes. Before it they are 0.
const CHANGES: [Words<'static>; 3] = [
    &[(528, 1), (529, 1), (531, 2), (1_025, 2), (1_538, 6_356_993)],
    &[(1_024, 1)],
    &[(1_536, 2)],
];

// A crash in an interval leaves the words of the intervals before it, and some of its own. Then what a mount takes in fences and
// in events, which words it leaves, and what the root has.
#[derive(Clone, Copy)]
struct Crash<'a> {
    interval: usize,
    new: Words<'a>,
    fences: u64,
    events: u64,
    left: Words<'a>,
    names: &'a str,
}

const NAME: Words<'static> = &[(1_538, 6_356_993)];

const MADE: Words<'static> = &[
    (528, 1),
    (529, 1),
    (531, 2),
    (1_024, 1),
    (1_025, 2),
    (1_536, 2),
    (1_538, 6_356_993),
];

const CRASHES: [Crash<'static>; 9] = [
    Crash {
        interval: 1,
        new: &[],
        fences: 0,
        events: 0,
        left: &[],
        names: "ok 0\n",
    },
    Crash {
        interval: 1,
        new: &[(528, 1)],
        fences: 1,
        events: 6,
        left: &[],
        names: "ok 0\n",
    },
    Crash {
        interval: 1,
        new: &[(1_025, 2)],
        fences: 1,
        events: 4,
        left: &[],
        names: "ok 0\n",
    },
    Crash {
        interval: 1,
        new: &[(1_538, 6_356_993)],
        fences: 0,
        events: 0,
        left: NAME,
        names: "ok 0\n",
    },
    Crash {
        interval: 1,
        new: &[(528, 1), (529, 1), (531, 2), (1_025, 2), (1_538, 6_356_993)],
        fences: 1,
        events: 9,
        left: NAME,
        names: "ok 0\n",
    },
    Crash {
        interval: 2,
        new: &[],
        fences: 1,
        events: 9,
        left: NAME,
        names: "ok 0\n",
    },
    Crash {
        interval: 2,
        new: &[(1_024, 1)],
        fences: 2,
        events: 12,
        left: NAME,
        names: "ok 0\n",
    },
    Crash {
        interval: 3,
        new: &[],
        fences: 2,
        events: 12,
        left: NAME,
        names: "ok 0\n",
    },
    Crash {
        interval: 3,
        new: &[(1_536, 2)],
        fences: 0,
        events: 0,
        left: MADE,
        names: "ok 1 a\n",
    },
];

// The mark goes before the first interval. The fence of each interval fails in turn: in the image in which each word is new all that
// was stored until then is there.
#[test]
fn each_interval_changes_its_words(rt: HostRuntime) -> Result<(), Fail> {
    let volume = small_volume(rt.alloc())?;
    let mut stored = volume.to_vec(rt.alloc())?;
    set_words(&mut stored, &[(5, 0)])?;
    let mut fence = 1u64;
    for changes in CHANGES {
        fence = fence.saturating_add(1);
        set_words(&mut stored, changes)?;
        let failing = [fence].to_vec(rt.alloc())?;
        let mut pm = RamPm::with_failing(rt.alloc(), volume.as_slice(), failing)?;
        let left = run_on(rt.alloc(), &mut pm, "create /a\n")?;
        same(left.status, Status::DeviceFault, "the fence fails")?;
        let image = crash_at(rt.alloc(), &pm, events_of(&pm)?, &[1, 1])?;
        same(image.as_slice(), stored.as_slice(), "all words are new")?;
    }
    Ok(())
}

// The words that a crash leaves that aren't those of the fresh volume.
fn words_of(alloc: Global, crash: &Crash<'_>) -> Result<Vec<(usize, u64)>, Fail> {
    let mut words = Vec::new(alloc);
    for changes in CHANGES.iter().take(crash.interval.saturating_sub(1)) {
        words.extend_from_slice(changes)?;
    }
    words.extend_from_slice(crash.new)?;
    Ok(words)
}

#[test]
fn what_a_crash_leaves_is_cleared(rt: HostRuntime) -> Result<(), Fail> {
    let volume = small_volume(rt.alloc())?;
    for crash in &CRASHES {
        let words = words_of(rt.alloc(), crash)?;
        let free = if crash.names == "ok 0\n" {
            (3, 13)
        } else {
            (2, 12)
        };
        let row = Row {
            words: words.as_slice(),
            fences: crash.fences,
            events: crash.events,
            mended: crash.left,
            script: "list /\n",
            told: crash.names,
            free,
        };
        compare(rt.alloc(), volume.as_slice(), &row)?;
    }
    Ok(())
}
