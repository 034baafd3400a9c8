// Which device the words of a command line need.
use command_line::{Wanted, Words, device_of};
use std::alloc::Global;
use std::test::Fail;

// A device: none, a file that is made of so many pages, one that may be changed, or one that is only read.
#[derive(Clone, Copy, PartialEq, Debug)]
enum Device<'a> {
    Nothing,
    Made(&'a str, u64),
    Changed(&'a str),
    Read(&'a str),
}

fn needed_by<'a>(wanted: &'a Wanted) -> Device<'a> {
    match wanted {
        Wanted::Nothing => Device::Nothing,
        Wanted::Make { path, pages } => Device::Made(path.as_str(), *pages),
        Wanted::Existing { path, stores } if *stores => Device::Changed(path.as_str()),
        Wanted::Existing { path, .. } => Device::Read(path.as_str()),
    }
}

// These words after the program's name need this device.
fn compare_words(
    alloc: Global,
    after_name: &[&str],
    wanted: Device<'_>,
    place: &str,
) -> Result<(), Fail> {
    let mut words = Words::new(alloc);
    words.push("squirrel")?;
    for word in after_name {
        words.push(word)?;
    }
    let found = device_of(alloc, &words)?;
    let found = needed_by(&found);
    if found == wanted {
        return Ok(());
    }
    Err(Fail::new(format_args!("{found:?}, and not {wanted:?}: {place}")))
}

// A line, each space of which stands between two words, of which either may be empty.
fn compare_line(alloc: Global, line: &str, wanted: Device<'_>) -> Result<(), Fail> {
    let mut words = Vec::new(alloc);
    for word in line.split(' ') {
        words.push(word)?;
    }
    compare_words(alloc, words.as_slice(), wanted, line)
}

fn compare_lines(alloc: Global, rows: &[(&str, Device<'_>)]) -> Result<(), Fail> {
    for (line, wanted) in rows {
        compare_line(alloc, line, *wanted)?;
    }
    Ok(())
}

// None of these lines asks for a job.
fn ask_for_nothing(alloc: Global, lines: &[&str]) -> Result<(), Fail> {
    for line in lines {
        compare_line(alloc, line, Device::Nothing)?;
    }
    Ok(())
}

// An image may have the name of a job, and behind `--` any.
#[test]
fn a_line_asks_for_a_job(rt: HostRuntime) -> Result<(), Fail> {
    compare_lines(
        rt.alloc(),
        &[
            ("run v", Device::Changed("v")),
            ("tree v", Device::Changed("v")),
            ("work v 1 2", Device::Changed("v")),
            ("weave v 2 --schedule 0001", Device::Changed("v")),
            ("check v", Device::Read("v")),
            ("run help", Device::Changed("help")),
            ("run run", Device::Changed("run")),
            ("run -", Device::Changed("-")),
            ("run ", Device::Changed("")),
            ("run v --", Device::Changed("v")),
            ("run -- -x", Device::Changed("-x")),
            ("run -- --", Device::Changed("--")),
            ("mkfs v 16", Device::Made("v", 16)),
            ("mkfs v 65536", Device::Made("v", 65_536)),
            ("mkfs v 0016", Device::Made("v", 16)),
            ("mkfs v 00000000000000000016", Device::Made("v", 16)),
            ("mkfs -- v 16", Device::Made("v", 16)),
            ("mkfs v -- 16", Device::Made("v", 16)),
        ],
    )
}

// The options stand in any order, before and behind the image, with `=` or without.
#[test]
fn a_line_asks_for_a_crash(rt: HostRuntime) -> Result<(), Fail> {
    for line in [
        "crash v --at 1 --keep 00",
        "crash v --keep 00 --at 1",
        "crash --keep 00 --at 1 v",
        "crash --keep 00 v --at 1",
        "crash --keep=00 v --at=1",
        "crash v --call 1 --fence 2 --keep 00",
        "crash v --fence 2 --keep=00 --call 1",
        "crash --call=0 --fence=0 v --keep 00",
        "crash v --at 1 --keep 00 --again 1 --keep2 ff",
        "crash --keep2=ff --again 0 --keep 00 --at 1 v",
        "crash v --keep2 0001 --fence 1 --again=1 --keep 00 --call 1",
        "crash v --at 1 --keep fF",
        "crash v --at 01 --keep 00",
        "crash v --at 18446744073709551615 --keep 00",
    ] {
        compare_line(rt.alloc(), line, Device::Read("v"))?;
    }
    compare_lines(
        rt.alloc(),
        &[
            ("crash --at 1 --keep 00 -- -v", Device::Read("-v")),
            ("crash help --at 1 --keep 00", Device::Read("help")),
        ],
    )
}

#[test]
fn a_line_asks_for_no_job(rt: HostRuntime) -> Result<(), Fail> {
    compare_words(rt.alloc(), &[], Device::Nothing, "no words")?;
    compare_words(
        rt.alloc(),
        &["mkfs", "v", "16 "],
        Device::Nothing,
        "a space behind a number",
    )?;
    ask_for_nothing(
        rt.alloc(),
        &[
            "",
            "frob",
            "frob v",
            "ru v",
            "Run v",
            "help",
            "help run",
            "--help",
            "-h",
            "--version",
            "-V",
            "run --help",
            "run v --help",
            "run v -h",
            "run v --version",
            "run v -V",
            "crash v --at 1 --keep 00 --help",
            "work",
            "work v",
            "work v 1 0",
            "weave v 2",
            "weave v 0 --schedule 00",
            "weave v 17 --schedule 00",
            "weave v 2 --schedule 0",
            "-- run v",
            "--keep 00 crash v --at 1",
            "run",
            "run v w",
            "run --",
            "run -- v w",
            "run -x",
            "tree",
            "tree v w",
            "check",
            "check v --at 1",
            "mkfs",
            "mkfs v",
            "mkfs 16",
            "mkfs v 16 17",
            "mkfs v 16 --keep 00",
            "mkfs v +16",
            "mkfs v -16",
            "mkfs v 0x10",
            "mkfs v 000000000000000000016",
            "mkfs v 18446744073709551632",
            "mkfs v ",
            "mkfs v 15",
            "mkfs v 65537",
        ],
    )
}

// No moment or two, or no choice of words; an option twice, or with another name; what is no number, or no bytes.
#[test]
fn a_line_asks_for_no_crash(rt: HostRuntime) -> Result<(), Fail> {
    ask_for_nothing(
        rt.alloc(),
        &[
            "crash",
            "crash v",
            "crash v --at 1",
            "crash v --keep 00",
            "crash --at 1 --keep 00",
            "crash v w --at 1 --keep 00",
            "crash v --at 1 --keep 00 w",
            "crash v --at 1 --call 1 --keep 00",
            "crash v --at 1 --fence 1 --keep 00",
            "crash v --at 1 --call 1 --fence 1 --keep 00",
            "crash v --call 1 --keep 00",
            "crash v --fence 1 --keep 00",
            "crash v --at 1 --keep 00 --again 1",
            "crash v --at 1 --keep 00 --keep2 00",
            "crash v --at 1 --again 1 --keep2 00",
            "crash v --at 1 --at 1 --keep 00",
            "crash v --at 1 --at 2 --keep 00",
            "crash v --at=1 --at 1 --keep 00",
            "crash v --at 1 --keep 00 --keep=00",
            "crash v --at 1 --keep=00 --keep=11",
            "crash v --at 1 --keep",
            "crash v --keep --at 1",
            "crash v --at 1 --keep -- 00",
            "crash -- v --at 1 --keep 00",
            "crash v --at 1 --kee 00",
            "crash v --at 1 --KEEP 00",
            "crash v --at 1 -keep 00",
            "crash v --at 1 -k 00",
            "crash v --at 1 --=00",
            "crash v --at 1 --keep 00 --frob 1",
            "crash v --at 1 --keep 0",
            "crash v --at 1 --keep ",
            "crash v --at 1 --keep=",
            "crash v --at 1 --keep zz",
            "crash v --at 1 --keep 0x00",
            "crash v --at 1 --keep=00=11",
            "crash v --at 1 --keep -",
            "crash v --at 1 --keep -00",
            "crash v --at 1 --keep=-00",
            "crash v --at 1 --keep 00 --again 1 --keep2 0",
            "crash v --at 1 --keep 00 --again 1 --keep2=-",
            "crash v --keep 00 --at ",
            "crash v --keep 00 --at=",
            "crash v --keep 00 --at -1",
            "crash v --keep 00 --at=-1",
            "crash v --keep 00 --at -",
            "crash v --keep 00 --at +1",
            "crash v --keep 00 --at 18446744073709551616",
            "crash v --keep 00 --call +1 --fence 1",
            "crash v --keep 00 --call 1 --fence 18446744073709551616",
            "crash v --keep 00 --at 1 --again x --keep2 00",
        ],
    )
}
