// Crashes by `squirrel crash`, and what is listed of the words that they leave.
use crate::jobs::{is_done, job_on, same};
use crate::texts::joined;
use std::alloc::Global;
use std::test::Fail;

/// What is asked behind the first crash: nothing, or a second one in the mount after it, at the mount's start, behind its first event
/// or at its end, which leaves all old words or all new ones.
pub const AGAIN: [&str; 7] = [
    "",
    " --again 0 --keep2 00",
    " --again 0 --keep2 ff",
    " --again 1 --keep2 00",
    " --again 1 --keep2 ff",
    " --again 1000 --keep2 00",
    " --again 1000 --keep2 ff",
];

/// Cuts a script at each of these moments: what is asked of `crash` behind the image, and what it writes.
pub fn compare_replays(
    alloc: Global,
    volume: &[u64],
    script: &str,
    rows: &[(&str, &str)],
) -> Result<(), Fail> {
    for (asked, told) in rows {
        compare_replay(alloc, volume, script, asked, told)?;
    }
    Ok(())
}

// Cuts a script at a moment. The device is left alone.
fn compare_replay(
    alloc: Global,
    volume: &[u64],
    script: &str,
    asked: &str,
    told: &str,
) -> Result<(), Fail> {
    let line = joined(alloc, &["squirrel crash v ", asked])?;
    let left = job_on(alloc, line.as_str(), volume, script.as_bytes())?;
    is_done(&left, told, asked)?;
    same(left.image.as_slice(), volume, asked)?;
    same((left.fences, left.acks), (0, 0), asked)
}

/// Cuts a script at a moment, and again in the mount after it: with each of `AGAIN` this is written.
pub fn compare_again(
    alloc: Global,
    volume: &[u64],
    script: &str,
    asked: &str,
    told: &str,
) -> Result<(), Fail> {
    for again in AGAIN {
        let both = joined(alloc, &[asked, again])?;
        compare_replay(alloc, volume, script, both.as_str(), told)?;
    }
    Ok(())
}

/// A script that is cut in its last line, the call of this number. Before the line's fence `commit` old words have the tree before
/// the line and new ones the tree after it; before that fence both have the tree before it, and behind it both the tree after it.
#[derive(Clone, Copy)]
pub struct Cut<'a> {
    pub script: &'a str,
    pub call: u64,
    pub fences: u64,
    pub commit: u64,
    /// The listings of the two trees.
    pub before: &'a str,
    pub after: &'a str,
}

impl<'a> Cut<'a> {
    // The listing of the tree before the line or after it.
    fn tree(&self, before: bool) -> &'a str {
        if before { self.before } else { self.after }
    }
}

/// Cuts each script before each fence of its last line, at fence 0 and past the last fence, and again in the mount after it.
pub fn compare_cuts(alloc: Global, volume: &[u64], cuts: &[Cut<'_>]) -> Result<(), Fail> {
    for cut in cuts {
        compare_cut(alloc, volume, *cut)?;
    }
    Ok(())
}

fn compare_cut(alloc: Global, volume: &[u64], cut: Cut<'_>) -> Result<(), Fail> {
    for fence in 1..cut.fences.saturating_add(2) {
        compare_fence(alloc, volume, cut, fence, "00", fence <= cut.commit)?;
        compare_fence(alloc, volume, cut, fence, "ff", fence < cut.commit)?;
    }
    compare_fence(alloc, volume, cut, 0, "00", false)
}

// Cuts the script before a fence of its last line. All earlier lines are acknowledged.
fn compare_fence(
    alloc: Global,
    volume: &[u64],
    cut: Cut<'_>,
    fence: u64,
    keep: &str,
    before: bool,
) -> Result<(), Fail> {
    let call = cut.call;
    let asked = format!(in alloc; "--call {call} --fence {fence} --keep {keep}")?;
    let acked = call.saturating_sub(1);
    let tree = cut.tree(before);
    let told = format!(in alloc; "acked {acked}\n{tree}")?;
    compare_again(alloc, volume, cut.script, asked.as_str(), told.as_str())
}
