// The replies to generated scripts, and those of a tree without a device.
use crate::works::script_of;
use layout::Geometry;
use plain_tree::PlainTree;
use script::{Call, write_plain};
use squirrel_cli::Status;
use std::alloc::Global;
use std::test::Fail;
use tree_model::Reply;
use worked_drivers::jobs::{job_on, same, sink_of, text_of};
use worked_drivers::volumes::fresh_volume;

// So many that no generated line is short of pages: at most 64 files of three pages each, and five directories of one. Of inodes there
// are too few.
const PAGES: u64 = 256;

// What is left of each node that a generated script makes.
fn tellings(alloc: Global) -> Result<String, Fail> {
    let mut lines = String::new(alloc);
    lines.push_str("stat /\nlist /\n")?;
    for directory in 0..4 {
        let node = format!(in alloc; "stat /d{directory}\nlist /d{directory}\n")?;
        lines.push_str(node.as_str())?;
        for file in 0..16 {
            let path = format!(in alloc; "/d{directory}/f{file}")?;
            let told = format!(in alloc; "stat {path}\nlist {path}\nread {path} 4090 64\n")?;
            lines.push_str(told.as_str())?;
        }
    }
    Ok(lines)
}

// What the tree answers to a line.
fn answer_of(alloc: Global, tree: &mut PlainTree, line: &str) -> Result<Reply, Fail> {
    let mut scratch = vec![in alloc; 0u8; 32_768]?;
    match Call::parse(line.as_bytes(), &mut scratch) {
        Call::Do(command) => Ok(tree.apply(&command)),
        Call::Refused(fault) => Ok(Reply::Unread(fault)),
    }
}

// A reply is of so many bytes or names. The tree doesn't tell which.
fn compare_count(alloc: Global, count: u64, told: &str, line: &str) -> Result<(), Fail> {
    let count = format!(in alloc; "{count}")?;
    let mut words = told.split(' ');
    let wanted = (Some("ok"), Some(count.as_str()));
    same((words.next(), words.next()), wanted, line)
}

// What was told of a line is the answer of the tree.
fn compare(alloc: Global, reply: &Reply, told: &str, line: &str) -> Result<(), Fail> {
    match reply {
        Reply::Bytes(count) => compare_count(alloc, *count, told, line),
        Reply::Names { count, .. } => compare_count(alloc, *count, told, line),
        Reply::Done
        | Reply::Count(_)
        | Reply::Status(_)
        | Reply::Space(_)
        | Reply::Refused(_)
        | Reply::Unread(_)
        | Reply::Fault
        | Reply::Stopped => {
            let mut sink = sink_of(alloc, 128, 0)?;
            write_plain(reply, &mut sink)?;
            same(Some(told), text_of(sink.bytes()).lines().next(), line)
        }
    }
}

// Runs a generated script on a fresh volume and on a fresh tree.
fn compare_work(alloc: Global, seed: u64, count: u64) -> Result<(), Fail> {
    let mut script = script_of(alloc, seed, count)?;
    script.extend_from_slice(tellings(alloc)?.as_bytes())?;
    let fresh = fresh_volume(alloc, PAGES)?;
    let left = job_on(alloc, "squirrel run v", fresh.as_slice(), script.as_slice())?;
    same(left.status, Status::Done, "run")?;
    let mut tree = PlainTree::new(alloc, Geometry::of(PAGES).ok_or("no volume")?)?;
    let mut told = text_of(&left.told).lines();
    for line in text_of(&script).lines() {
        let reply = answer_of(alloc, &mut tree, line)?;
        compare(alloc, &reply, told.next().ok_or("no reply")?, line)?;
    }
    same(told.next(), None, "behind the last line")
}

#[test]
fn work_is_answered_as_by_a_tree(rt: HostRuntime) -> Result<(), Fail> {
    let alloc = rt.alloc();
    for (seed, count) in [(1, 100), (2, 200), (3, 400)] {
        compare_work(alloc, seed, count)?;
    }
    Ok(())
}
