// Runs of which each fence fails in turn, and what a crash at their end leaves.
use crate::begins::{Begin, CLOSED, FRESH, OPEN, words_of};
use crate::ends::{
    ALL_NEW, ALL_OLD, DEVICE_FAULT, DONE, MIXED, NONE, left_at_end, listed, mark_of,
};
use pm_memory::RamPm;
use pm_trait::Event;
use std::alloc::Global;
use std::test::Fail;
use worked_drivers::jobs::{
    Left, PIECE, ROOM, compare_end, do_job, events_of, is_done, job_with_fault, last_event,
    mark_fences, run_on, same, sink_of, source_of, text_of,
};

/// A line, its reply, and how many fences it takes: with the first one that stores goes the mark of a closed volume, by a fence
/// of its own. Where its fence `commit` fails old words have the tree before the line and new ones the tree after it, whose
/// listing this is, or that of the run's grown file (`GROWN`).
#[derive(Clone, Copy)]
pub struct Line {
    pub text: &'static str,
    pub reply: &'static str,
    pub fences: u64,
    pub commit: u64,
    pub after: &'static str,
}

/// In the place of a listing that is too long for a table: the run has it.
pub const GROWN: &str = "";

/// A run on a volume whose mount takes `opening` fences, and which has one for the mark at its end. For each fence that fails:
/// how many a mount takes of the old words, and of the new ones. Where both are empty they aren't compared.
#[derive(Clone, Copy)]
pub struct Run<'a> {
    pub begin: Begin<'a>,
    pub opening: u64,
    pub before: &'a str,
    pub lines: &'a [Line],
    pub grown: &'a str,
    pub old: &'a [u64],
    pub new: &'a [u64],
}

/// No line on a fresh volume, which is closed.
pub const ON_CLOSED: Run<'static> = Run {
    begin: FRESH,
    opening: 0,
    before: "",
    lines: &[],
    grown: GROWN,
    old: &[],
    new: &[],
};

// What a run was at as a fence failed.
#[derive(Clone, Copy, PartialEq, Debug)]
enum At {
    Mount,
    Line,
    Mark,
}

// Where a fence of a run stands: how many lines were answered before it, and which trees old words and new ones have where it
// fails.
#[derive(Clone, Copy)]
struct Stage<'a> {
    at: At,
    answered: usize,
    old: &'a str,
    new: &'a str,
}

// What is found of the words that a crash leaves: the listing, the mark, and how many fences the mount takes.
#[derive(Clone, Copy)]
struct Found<'a> {
    tree: &'a str,
    mark: u64,
    mount: Option<u64>,
}

// A run's words and its script.
#[derive(Clone, Copy)]
struct Begun<'a> {
    volume: &'a [u64],
    script: &'a str,
}

/// Lets each fence of each run fail in turn, and one that isn't made.
pub fn compare_faults(alloc: Global, runs: &[Run<'_>]) -> Result<(), Fail> {
    for run in runs {
        compare_run_faults(alloc, *run)?;
    }
    Ok(())
}

/// So many events are in a run whose fences are all made, with the acknowledgements.
pub fn compare_events(alloc: Global, run: Run<'_>, events: u64) -> Result<(), Fail> {
    let volume = words_of(alloc, run.begin)?;
    let script = script_of(alloc, run.lines)?;
    let mut pm = RamPm::new(alloc, volume.as_slice())?;
    let left = run_on(alloc, &mut pm, script.as_str())?;
    same(left.status.number(), DONE, "events")?;
    same(events_of(&pm)?, events, "events")
}

fn compare_run_faults(alloc: Global, run: Run<'_>) -> Result<(), Fail> {
    let volume = words_of(alloc, run.begin)?;
    let script = script_of(alloc, run.lines)?;
    let begun = Begun {
        volume: volume.as_slice(),
        script: script.as_str(),
    };
    let fences = fences_of(run);
    compare_counts(run, fences, begun.script)?;
    let settled = compare_fences(alloc, begun, run, fences)?;
    compare_whole(alloc, begun, run, settled.as_slice())
}

// Lets each fence fail. Each one that is made settles what the one before it would have.
fn compare_fences(
    alloc: Global,
    begun: Begun<'_>,
    run: Run<'_>,
    fences: u64,
) -> Result<Vec<u64>, Fail> {
    let mut settled = begun.volume.to_vec(alloc)?;
    for fence in 1..fences.saturating_add(1) {
        let pm = failed_at(alloc, begun, run, fence)?;
        let old = left_at_end(alloc, &pm, &ALL_OLD)?;
        same(old.as_slice(), settled.as_slice(), begun.script)?;
        settled = compare_images(alloc, &pm, old.as_slice(), run, fence)?;
    }
    Ok(settled)
}

// The script of some lines.
fn script_of(alloc: Global, lines: &[Line]) -> Result<String, Fail> {
    let mut script = String::new(alloc);
    for line in lines {
        script.push_str(line.text)?;
    }
    Ok(script)
}

// How many fences a run takes: those of the mount, of the lines and of the mark.
fn fences_of(run: Run<'_>) -> u64 {
    let mut fences = run.opening.saturating_add(1);
    for line in run.lines {
        fences = fences.saturating_add(line.fences);
    }
    fences
}

// A row that tells of mounts tells of each fence.
fn compare_counts(run: Run<'_>, fences: u64, place: &str) -> Result<(), Fail> {
    same(run.old.len(), run.new.len(), place)?;
    if run.old.is_empty() {
        return Ok(());
    }
    same(run.old.len() as u64, fences, place)
}

// Where the fence of this number stands.
fn stage_of<'a>(run: Run<'a>, fence: u64) -> Stage<'a> {
    if fence <= run.opening {
        return Stage {
            at: At::Mount,
            answered: 0,
            old: run.before,
            new: run.before,
        };
    }
    let mut left = fence.saturating_sub(run.opening);
    let mut before = run.before;
    for (answered, line) in run.lines.iter().enumerate() {
        let after = tree_after(run, *line);
        if left <= line.fences {
            return stage_in(*line, answered, (before, after), left);
        }
        left = left.saturating_sub(line.fences);
        before = after;
    }
    Stage {
        at: At::Mark,
        answered: run.lines.len(),
        old: before,
        new: before,
    }
}

// Where a line's fence of this number stands.
fn stage_in<'a>(
    line: Line,
    answered: usize,
    (before, after): (&'a str, &'a str),
    fence: u64,
) -> Stage<'a> {
    Stage {
        at: At::Line,
        answered,
        old: chosen(fence <= line.commit, before, after),
        new: chosen(fence < line.commit, before, after),
    }
}

// The listing of the tree behind a line.
fn tree_after<'a>(run: Run<'a>, line: Line) -> &'a str {
    if line.after == GROWN {
        run.grown
    } else {
        line.after
    }
}

fn chosen<'a>(is_before: bool, before: &'a str, after: &'a str) -> &'a str {
    if is_before { before } else { after }
}

// A fence of a mount leaves no reply, and the script unread. Later ones leave the replies to the lines before; the line that they
// are of is answered, and each later one.
fn replies_at(alloc: Global, lines: &[Line], stage: Stage<'_>) -> Result<String, Fail> {
    let mut told = String::new(alloc);
    if stage.at == At::Mount {
        return Ok(told);
    }
    for (number, line) in lines.iter().enumerate() {
        told.push_str(reply_at(line.reply, number, stage.answered))?;
    }
    Ok(told)
}

fn reply_at<'a>(reply: &'a str, number: usize, answered: usize) -> &'a str {
    if number < answered {
        return reply;
    }
    if number == answered {
        return "error Fault\n";
    }
    "error Stopped\n"
}

// Which read fails: in a mount the first one, since the script isn't to be read yet.
fn failing_read(stage: Stage<'_>) -> u64 {
    if stage.at == At::Mount { 1 } else { NONE }
}

// The device on which this fence of a run has failed.
fn failed_at(alloc: Global, begun: Begun<'_>, run: Run<'_>, fence: u64) -> Result<RamPm, Fail> {
    let stage = stage_of(run, fence);
    let failing = [fence].to_vec(alloc)?;
    let mut pm = RamPm::with_failing(alloc, begun.volume, failing)?;
    let source = source_of(alloc, begun.script.as_bytes(), PIECE, failing_read(stage))?;
    let sink = sink_of(alloc, ROOM, NONE)?;
    let left = do_job(alloc, "squirrel run v", &mut pm, source, sink)?;
    compare_failed(alloc, &left, run, stage, begun.script)?;
    let made = (fence, left.fences, last_event(&pm)?);
    let wanted = (fence, fence.saturating_sub(1), Event::BadFence);
    same(made, wanted, begun.script)?;
    Ok(pm)
}

// How a run ends of which a fence has failed.
fn compare_failed(
    alloc: Global,
    left: &Left,
    run: Run<'_>,
    stage: Stage<'_>,
    place: &str,
) -> Result<(), Fail> {
    let told = replies_at(alloc, run.lines, stage)?;
    compare_end(left, DEVICE_FAULT, told.as_str(), place)?;
    same(
        (stage.at, left.acks),
        (stage.at, stage.answered as u64),
        place,
    )
}

// What a crash leaves at the end of a run of which this fence has failed. The words that are all new are handed out.
fn compare_images(
    alloc: Global,
    pm: &RamPm,
    old: &[u64],
    run: Run<'_>,
    fence: u64,
) -> Result<Vec<u64>, Fail> {
    let stage = stage_of(run, fence);
    compare_found(alloc, old, found_of_old(run, stage, fence))?;
    let new = left_at_end(alloc, pm, &ALL_NEW)?;
    compare_found(alloc, new.as_slice(), found_of_new(run, stage, fence))?;
    for keep in &MIXED {
        let image = left_at_end(alloc, pm, keep)?;
        compare_mixed(alloc, image.as_slice(), stage)?;
    }
    Ok(new)
}

// The entry of a list for the fence of this number.
fn entry_for(list: &[u64], fence: u64) -> Option<u64> {
    list.get(fence.saturating_sub(1) as usize).copied()
}

// Words that are old are those of a closed volume where its mark was about to go.
fn found_of_old<'a>(run: Run<'a>, stage: Stage<'a>, fence: u64) -> Found<'a> {
    Found {
        tree: stage.old,
        mark: if fence == 1 && stage.at == At::Line {
            CLOSED
        } else {
            OPEN
        },
        mount: entry_for(run.old, fence),
    }
}

// Words that are new are those of a closed volume where its mark was about to stand.
fn found_of_new<'a>(run: Run<'a>, stage: Stage<'a>, fence: u64) -> Found<'a> {
    Found {
        tree: stage.new,
        mark: if stage.at == At::Mark { CLOSED } else { OPEN },
        mount: entry_for(run.new, fence),
    }
}

// Sound words with this tree and this mark. Behind its listing `tree` closes what isn't closed.
fn compare_found(alloc: Global, image: &[u64], found: Found<'_>) -> Result<(), Fail> {
    same(mark_of(image)?, found.mark, found.tree)?;
    let left = listed(alloc, image, found.tree)?;
    is_done(&left, found.tree, found.tree)?;
    let closing = mark_fences(image, 0);
    match found.mount {
        Some(fences) => same(left.fences, fences.saturating_add(closing), found.tree),
        None => Ok(()),
    }
}

// Sound words with one tree or the other.
fn compare_mixed(alloc: Global, image: &[u64], stage: Stage<'_>) -> Result<(), Fail> {
    let left = listed(alloc, image, stage.new)?;
    same(left.status.number(), DONE, stage.new)?;
    let told = text_of(&left.told);
    if told == stage.old {
        return Ok(());
    }
    same(told, stage.new, "a third tree")
}

// A run whose fences are all made, though the next would fail. It leaves what its last fence settled.
fn compare_whole(
    alloc: Global,
    begun: Begun<'_>,
    run: Run<'_>,
    settled: &[u64],
) -> Result<(), Fail> {
    let fences = fences_of(run);
    let script = begun.script;
    let left = job_with_fault(
        alloc,
        "squirrel run v",
        begun.volume,
        script.as_bytes(),
        fences.saturating_add(1),
    )?;
    let told = replies_at(alloc, run.lines, stage_of(run, fences))?;
    is_done(&left, told.as_str(), script)?;
    let lines = run.lines.len() as u64;
    same((left.fences, left.acks), (fences, lines), script)?;
    same(left.image.as_slice(), settled, script)
}
