// Each fence of jobs that run no script fails.
use crate::begins::{Begin, FRESH, LINKS_TOO_HIGH, MUCH_LITTER, no_volume, words_of};
use crate::ends::{
    ALL_NEW, ALL_OLD, DEVICE_FAULT, DONE, Failing, NO_VOLUME, NONE, NOTHING_FAILS, fail_in,
    left_at_end, unread,
};
use crash_replay::Moment;
use pm_memory::RamPm;
use squirrel_cli::replay;
use std::alloc::Global;
use std::test::Fail;
use worked_drivers::jobs::{
    PIECE, ROOM, compare_end, do_job, job_without_script, same, sink_of, source_of, text_of,
};
use worked_drivers::volumes::small_volume;

/// Some generated lines, and what is told of them on a fresh volume of 16 pages.
pub const WORK: &str = "squirrel work v 1 10";

pub const WORKED: &str =
    "work lines 14 ok 5 refused 9\nok inodes 0 4 pages 11 13\nnames 3 bytes 0\n";

// A job, and how many fences it takes. Where one of the first `quiet` fails it tells nothing, and else the whole.
#[derive(Clone, Copy)]
struct Job<'a> {
    line: &'a str,
    begin: Begin<'a>,
    script: &'a str,
    quiet: u64,
    fences: u64,
    told: &'a str,
}

// The last fence is that of the mark. A check and a crash make none.
const JOBS: [Job<'static>; 5] = [
    Job {
        line: "squirrel tree v",
        begin: MUCH_LITTER,
        script: "",
        quiet: 4,
        fences: 5,
        told: "d 1 2 1 /\nf 2 1 0 /b -\n",
    },
    Job {
        line: WORK,
        begin: FRESH,
        script: "",
        quiet: 14,
        fences: 15,
        told: WORKED,
    },
    Job {
        line: WORK,
        begin: MUCH_LITTER,
        script: "",
        quiet: 14,
        fences: 15,
        told: "work lines 14 ok 4 refused 10\nok inodes 0 4 pages 11 13\nnames 3 bytes 0\n",
    },
    Job {
        line: "squirrel check v",
        begin: LINKS_TOO_HIGH,
        script: "",
        quiet: 0,
        fences: 0,
        told: "sound\ntree directories 1 files 1 names 1\n\
            repairs pointers 0 slots 0 pages 0 inodes 0 counts 1\n",
    },
    Job {
        line: "squirrel crash v --call 1 --fence 0 --keep 00",
        begin: LINKS_TOO_HIGH,
        script: "create /b\n",
        quiet: 0,
        fences: 0,
        told: "acked 0\nd 1 2 2 /\nf 2 1 0 /a -\nf 3 1 0 /b -\n",
    },
];

// Lets each fence of a job fail, and one that isn't made.
fn compare_job(alloc: Global, job: Job<'_>) -> Result<(), Fail> {
    let image = words_of(alloc, job.begin)?;
    let read = unread(job.script);
    for fence in 1..job.fences.saturating_add(2) {
        let failing = Failing {
            fence,
            read,
            ..NOTHING_FAILS
        };
        let left = fail_in(alloc, job.line, image.as_slice(), job.script, failing)?;
        let fails = fence <= job.fences;
        let status = if fails { DEVICE_FAULT } else { DONE };
        let told = if fence <= job.quiet { "" } else { job.told };
        compare_end(&left, status, told, job.line)?;
        let made = job.fences.min(fence.saturating_sub(1));
        same((fence, left.fences), (fence, made), job.line)?;
    }
    Ok(())
}

#[test]
fn each_fence_of_other_jobs_fails(rt: HostRuntime) -> Result<(), Fail> {
    for job in &JOBS {
        compare_job(rt.alloc(), *job)?;
    }
    Ok(())
}

const MKFS: &str = "squirrel mkfs v 16";

// What a check tells of old words and of new ones, where a fence of a format fails. The words are a volume by the last one alone.
const FORMATS: [(u64, &str, &str); 3] = [
    (1, "not a volume\n", "not a volume\n"),
    (2, "not a volume\n", "not a volume\n"),
    (
        3,
        "not a volume\n",
        "sound\ntree directories 1 files 0 names 0\n\
            repairs pointers 0 slots 0 pages 0 inodes 0 counts 0\n",
    ),
];

// The device on which a fence of a format has failed.
fn unformatted(alloc: Global, old: &[u64], fence: u64) -> Result<RamPm, Fail> {
    let failing = [fence].to_vec(alloc)?;
    let mut pm = RamPm::with_failing(alloc, old, failing)?;
    let source = source_of(alloc, b"", PIECE, 1)?;
    let sink = sink_of(alloc, ROOM, NONE)?;
    let left = do_job(alloc, MKFS, &mut pm, source, sink)?;
    compare_end(&left, DEVICE_FAULT, "", MKFS)?;
    same(left.fences, fence.saturating_sub(1), MKFS)?;
    Ok(pm)
}

fn compare_check(alloc: Global, image: &[u64], told: &str) -> Result<(), Fail> {
    let status = if told == "not a volume\n" {
        NO_VOLUME
    } else {
        DONE
    };
    let left = job_without_script(alloc, "squirrel check v", image)?;
    compare_end(&left, status, told, MKFS)
}

#[test]
fn each_fence_of_a_format_fails(rt: HostRuntime) -> Result<(), Fail> {
    let alloc = rt.alloc();
    let old = no_volume(alloc)?;
    for (fence, of_old, of_new) in FORMATS {
        let pm = unformatted(alloc, old.as_slice(), fence)?;
        let image = left_at_end(alloc, &pm, &ALL_OLD)?;
        compare_check(alloc, image.as_slice(), of_old)?;
        let image = left_at_end(alloc, &pm, &ALL_NEW)?;
        compare_check(alloc, image.as_slice(), of_new)?;
    }
    Ok(())
}

// A run of two lines that is replayed on a device of which this fence fails. It isn't closed, so it has no seventh fence.
fn compare_replay(alloc: Global, fence: u64, status: u8, told: &str) -> Result<(), Fail> {
    let volume = small_volume(alloc)?;
    let failing = [fence].to_vec(alloc)?;
    let mut pm = RamPm::with_failing(alloc, volume.as_slice(), failing)?;
    let mut source = source_of(alloc, b"create /a\ncreate /b\n", PIECE, NONE)?;
    let mut sink = sink_of(alloc, ROOM, NONE)?;
    let moment = Moment::Before { call: 2, fence: 2 };
    let again = Some((1, [0].as_slice()));
    let ended = replay(
        alloc,
        &mut pm,
        &mut source,
        &mut sink,
        moment,
        &[255],
        again,
    );
    same((fence, ended.number()), (fence, status), "replay")?;
    same(text_of(sink.bytes()), told, "replay")
}

#[test]
fn each_fence_of_a_replayed_run_fails(rt: HostRuntime) -> Result<(), Fail> {
    for fence in 1..7 {
        compare_replay(rt.alloc(), fence, DEVICE_FAULT, "")?;
    }
    let told = "acked 1\nd 1 2 2 /\nf 2 1 0 /a -\nf 3 1 0 /b -\n";
    compare_replay(rt.alloc(), 7, DONE, told)
}
