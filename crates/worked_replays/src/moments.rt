// Scripts that are cut at moments of any kind: before fences of calls that are there or not, behind events, and in a mount.
use std::alloc::Global;
use std::test::Fail;
use worked_drivers::replays::{compare_again, compare_replays};
use worked_drivers::texts::with_name;
use worked_drivers::volumes::{littered, small_volume};

// A line without words and one with an unknown command are calls too. A call that isn't there has the end of the whole run.
#[test]
fn each_line_is_a_call(rt: HostRuntime) -> Result<(), Fail> {
    let none = "acked 0\nd 1 2 0 /\n";
    let first = "acked 3\nd 1 2 1 /\nf 2 1 0 /a -\n";
    let both = "acked 3\nd 1 2 2 /\nf 2 1 0 /a -\nf 3 1 0 /b -\n";
    let all = "acked 4\nd 1 2 2 /\nf 2 1 0 /a -\nf 3 1 0 /b -\n";
    let volume = small_volume(rt.alloc())?;
    compare_replays(
        rt.alloc(),
        volume.as_slice(),
        "create /a\n\nfrob\ncreate /b\n",
        &[
            ("--call 4 --fence 1 --keep ff", first),
            ("--call 4 --fence 2 --keep 00", first),
            ("--call 4 --fence 2 --keep ff", both),
            ("--call 4 --fence 0 --keep 00", both),
            ("--call 4 --fence 9 --keep 00", both),
            (
                "--call 2 --fence 1 --keep ff",
                "acked 1\nd 1 2 1 /\nf 2 1 0 /a -\n",
            ),
            ("--call 5 --fence 1 --keep 00", all),
            ("--call 18446744073709551615 --fence 1 --keep 00", all),
            ("--call 0 --fence 0 --keep ff", none),
            ("--call 0 --fence 1 --keep ff", none),
        ],
    )?;
    compare_replays(
        rt.alloc(),
        volume.as_slice(),
        "",
        &[("--call 1 --fence 1 --keep 00", none)],
    )
}

// A line of 65,537 bytes is refused, and it is a call as every other.
#[test]
fn a_line_too_long_is_a_call(rt: HostRuntime) -> Result<(), Fail> {
    let alloc = rt.alloc();
    let script = with_name(alloc, "create /", 65_529, "\ncreate /a\n")?;
    compare_replays(
        alloc,
        small_volume(alloc)?.as_slice(),
        script.as_str(),
        &[
            ("--call 1 --fence 0 --keep ff", "acked 0\nd 1 2 0 /\n"),
            ("--call 2 --fence 4 --keep 00", "acked 1\nd 1 2 0 /\n"),
            (
                "--call 2 --fence 4 --keep ff",
                "acked 1\nd 1 2 1 /\nf 2 1 0 /a -\n",
            ),
            (
                "--call 3 --fence 0 --keep 00",
                "acked 2\nd 1 2 1 /\nf 2 1 0 /a -\n",
            ),
        ],
    )
}

// The run has 621 events: 3 that take the mark away and 591 of the first line, with the last fence at their end, and its acknowledgement;
// 25 of the second and its acknowledgement.
#[test]
fn a_moment_is_behind_so_many_events(rt: HostRuntime) -> Result<(), Fail> {
    let both = "acked 2\nd 1 2 2 /\nf 2 1 0 /a -\nf 3 1 0 /b -\n";
    compare_replays(
        rt.alloc(),
        small_volume(rt.alloc())?.as_slice(),
        "create /a\ncreate /b\n",
        &[
            ("--at 0 --keep 00", "acked 0\nd 1 2 0 /\n"),
            ("--at 593 --keep 00", "acked 0\nd 1 2 0 /\n"),
            ("--at 594 --keep 00", "acked 0\nd 1 2 1 /\nf 2 1 0 /a -\n"),
            ("--at 595 --keep 00", "acked 1\nd 1 2 1 /\nf 2 1 0 /a -\n"),
            (
                "--at 620 --keep 00",
                "acked 1\nd 1 2 2 /\nf 2 1 0 /a -\nf 3 1 0 /b -\n",
            ),
            ("--at 621 --keep 00", both),
            ("--at 622 --keep 00", both),
            ("--at 18446744073709551615 --keep fF", both),
        ],
    )
}

#[test]
fn a_rename_is_cut(rt: HostRuntime) -> Result<(), Fail> {
    let old = "acked 1\nd 1 2 1 /\nf 2 1 0 /a -\n";
    let new = "acked 1\nd 1 2 1 /\nf 2 1 0 /b -\n";
    compare_replays(
        rt.alloc(),
        small_volume(rt.alloc())?.as_slice(),
        "create /a\nrename /a /b\n",
        &[
            ("--call 2 --fence 2 --keep 00", old),
            ("--call 2 --fence 2 --keep ff", new),
            ("--call 2 --fence 3 --keep 00", new),
            ("--call 2 --fence 3 --keep ff", new),
            ("--call 2 --fence 3 --keep 00 --again 1 --keep2 ff", new),
            ("--at 0 --keep 00", "acked 0\nd 1 2 0 /\n"),
            (
                "--at 1000000 --keep 00",
                "acked 2\nd 1 2 1 /\nf 2 1 0 /b -\n",
            ),
        ],
    )
}

// Cuts a mount that mends a volume before each of its fences, at its end and past it.
fn compare_mount(alloc: Global, volume: &[u64], keep: &str) -> Result<(), Fail> {
    for fence in 0..6 {
        let asked = format!(in alloc; "--call 0 --fence {fence} --keep {keep}")?;
        compare_again(
            alloc,
            volume,
            "create /c\n",
            asked.as_str(),
            "acked 0\nd 1 2 1 /\nf 2 1 0 /b -\n",
        )?;
    }
    Ok(())
}

// The mount's events and its 4 fences come before those of the script.
#[test]
fn a_mount_is_cut(rt: HostRuntime) -> Result<(), Fail> {
    let volume = littered(rt.alloc())?;
    for keep in ["00", "ff", "0001", "0100"] {
        compare_mount(rt.alloc(), volume.as_slice(), keep)?;
    }
    compare_again(
        rt.alloc(),
        volume.as_slice(),
        "create /c\n",
        "--call 1 --fence 2 --keep ff",
        "acked 0\nd 1 2 2 /\nf 2 1 0 /b -\nf 3 1 0 /c -\n",
    )
}
