// What the words of a command line ask for.
ghost use Rattle.std.specs.Prelude.{◌≡◌, IfOk, option_and_then};
ghost use Rattle.command_line.specs.CommandLine.{given};
ghost use Rattle.command_line.specs.Job.{job_of as job_of_words, job_in, mkfs_of, crash_in, moment_of as moment_of_options, again_of as again_of_options, hex_bytes_of, stores_of, is_volume_size as has_volume_size, is_line_count as may_be_line_count, work_of, is_session_count as may_be_session_count, sessions_of, weave_in};

use crate::hex_bytes::HexBytes;
use crate::split::Split;
use crate::words::Words;
use crash_replay::Moment;
use layout::Geometry;
use pm_trait::NoMemory;
use script::number_of;
use std::alloc::Global;

// The most lines that `work` may be asked for, the four before them not counted.
const MOST_LINES: u64 = 1_000_000;

// The most sessions that `weave` may be asked for.
const MOST_SESSIONS: u64 = 16;

/// A job on an image.
#[derive(Drop)]
pub enum Job {
    /// Make a volume of so many pages.
    Mkfs {
        pages: u64,
    },
    /// Answer a script.
    Run,
    /// List the tree.
    Tree,
    /// Tell what the volume holds and what a mount would repair.
    Check,
    /// List what a crash in a script leaves, and maybe a second one in the mount after it.
    Crash {
        moment: Moment,
        keep: HexBytes,
        again: Option<Again>,
    },
    /// Run the generated script of this seed, of so many lines and the four before them, and tell its sums.
    Work {
        seed: u64,
        count: u64,
    },
    /// Execute the lines of a script of so many sessions step by step, by the bytes of the schedule.
    Weave {
        sessions: u64,
        schedule: HexBytes,
    },
}

/// A crash in the mount after a crash.
#[derive(Drop)]
pub struct Again {
    /// After so many events of the mount, or at its end.
    pub at: u64,
    /// What it keeps.
    pub keep: HexBytes,
}

impl Job {
    /// Whether the job may change its image.
    pub fn stores(&self) -> bool
        ensures { result ≡ stores_of self.now }
    {
        match self {
            Job::Mkfs { .. } | Job::Run | Job::Tree | Job::Work { .. } | Job::Weave { .. } => true,
            Job::Check | Job::Crash { .. } => false,
        }
    }
}

/// The job that the words ask for. `NoMemory` may come for any words.
pub fn job_of(alloc: Global, words: &Words) -> Result<Option<Job>, NoMemory>
    ensures { IfOk result (λ job. job ≡ job_of_words words.now) }
{
    let split = Split::of(alloc, words)?;
    job_of_split(alloc, &split)
}

/// The job of a command line that was split.
pub(crate) fn job_of_split(alloc: Global, split: &Split) -> Result<Option<Job>, NoMemory>
    ensures { IfOk result (λ job. job ≡ job_in split.now) }
{
    match split.verb() {
        Some("mkfs") => Ok(mkfs_of_pages(split.value("PAGES"))),
        Some("run") => Ok(Some(Job::Run)),
        Some("tree") => Ok(Some(Job::Tree)),
        Some("check") => Ok(Some(Job::Check)),
        Some("crash") => crash_of_split(alloc, split),
        Some("work") => Ok(work_of_texts(split.value("SEED"), split.value("COUNT"))),
        Some("weave") => weave_of_split(alloc, split),
        _ => Ok(None),
    }
}

fn mkfs_of_pages(pages: Option<&str>) -> Option<Job>
    ensures { result ≡ mkfs_of (given pages.entry) }
{
    let pages = number_of(pages?.as_bytes())?;
    if is_volume_size(pages) {
        Some(Job::Mkfs { pages })
    } else {
        None
    }
}

fn is_volume_size(pages: u64) -> bool
    ensures { result ≡ has_volume_size pages }
{
    pages >= Geometry::FEWEST_PAGES && pages <= Geometry::MOST_PAGES
}

fn work_of_texts(seed: Option<&str>, count: Option<&str>) -> Option<Job>
    ensures { result ≡ work_of (given seed.entry) (given count.entry) }
{
    let seed = number_of(seed?.as_bytes())?;
    let count = number_of(count?.as_bytes())?;
    if is_line_count(count) {
        Some(Job::Work { seed, count })
    } else {
        None
    }
}

fn is_line_count(count: u64) -> bool
    ensures { result ≡ may_be_line_count count }
{
    count >= 1 && count <= MOST_LINES
}

fn weave_of_split(alloc: Global, split: &Split) -> Result<Option<Job>, NoMemory>
    ensures { IfOk result (λ job. job ≡ weave_in split.now) }
{
    let sessions = session_count(split.value("SESSIONS"));
    let schedule = bytes_of(alloc, split.value("schedule"))?;
    match (sessions, schedule) {
        (Some(sessions), Some(schedule)) => Ok(Some(Job::Weave { sessions, schedule })),
        _ => Ok(None),
    }
}

// How many sessions there are, where so many may be asked for.
fn session_count(sessions: Option<&str>) -> Option<u64>
    ensures { result ≡ sessions_of (given sessions.entry) }
{
    let sessions = number_of(sessions?.as_bytes())?;
    if is_session_count(sessions) {
        Some(sessions)
    } else {
        None
    }
}

fn is_session_count(sessions: u64) -> bool
    ensures { result ≡ may_be_session_count sessions }
{
    sessions >= 1 && sessions <= MOST_SESSIONS
}

fn crash_of_split(alloc: Global, split: &Split) -> Result<Option<Job>, NoMemory>
    ensures { IfOk result (λ job. job ≡ crash_in split.now) }
{
    let moment = moment_of(split.value("at"), split.value("call"), split.value("fence"));
    let keep = bytes_of(alloc, split.value("keep"))?;
    let again = again_of(alloc, split.value("again"), split.value("keep2"))?;
    match (moment, keep, again) {
        (Some(moment), Some(keep), Some(again)) => Ok(Some(Job::Crash {
            moment,
            keep,
            again,
        })),
        _ => Ok(None),
    }
}

// The moment by `--at`, or by `--call` and `--fence`, and not by both.
fn moment_of(at: Option<&str>, call: Option<&str>, fence: Option<&str>) -> Option<Moment>
    ensures { result ≡ moment_of_options (given at.entry)
        (given call.entry) (given fence.entry) }
{
    match (at, call, fence) {
        (Some(at), None, None) => Some(Moment::At(number_of(at.as_bytes())?)),
        (None, Some(call), Some(fence)) => Some(Moment::Before {
            call: number_of(call.as_bytes())?,
            fence: number_of(fence.as_bytes())?,
        }),
        _ => None,
    }
}

// The bytes of an option.
fn bytes_of(alloc: Global, hex: Option<&str>) -> Result<Option<HexBytes>, NoMemory>
    ensures { IfOk result (λ bytes. bytes ≡ option_and_then hex_bytes_of (given hex.entry)) }
{
    match hex {
        Some(hex) => HexBytes::of_word(alloc, hex),
        None => Ok(None),
    }
}

// The second crash by `--again` and `--keep2`, or that there is none; nothing where only one is given, or one can't be read.
fn again_of(
    alloc: Global,
    at: Option<&str>,
    hex: Option<&str>,
) -> Result<Option<Option<Again>>, NoMemory>
    ensures { IfOk result (λ again. again ≡ again_of_options (given at.entry)
        (given hex.entry)) }
{
    match (at, hex) {
        (None, None) => Ok(Some(None)),
        (Some(at), Some(hex)) => {
            let keep = HexBytes::of_word(alloc, hex)?;
            match (number_of(at.as_bytes()), keep) {
                (Some(at), Some(keep)) => Ok(Some(Some(Again { at, keep }))),
                _ => Ok(None),
            }
        }
        _ => Ok(None),
    }
}
