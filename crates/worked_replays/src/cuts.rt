// Scripts that are cut in their last line, before each of its fences. The first of a script's first line takes the mark away.
use std::alloc::Global;
use std::test::Fail;
use worked_drivers::replays::{Cut, compare_cuts};
use worked_drivers::texts::{joined, repeated};
use worked_drivers::volumes::{small_volume, volume_after};

#[test]
fn a_name_is_made_or_not(rt: HostRuntime) -> Result<(), Fail> {
    compare_cuts(
        rt.alloc(),
        small_volume(rt.alloc())?.as_slice(),
        &[
            Cut {
                script: "create /a\n",
                call: 1,
                fences: 4,
                commit: 4,
                before: "d 1 2 0 /\n",
                after: "d 1 2 1 /\nf 2 1 0 /a -\n",
            },
            Cut {
                script: "mkdir /d\ncreate /d/x\n",
                call: 2,
                fences: 3,
                commit: 3,
                before: "d 1 3 1 /\nd 2 2 0 /d\n",
                after: "d 1 3 1 /\nd 2 2 1 /d\nf 3 1 0 /d/x -\n",
            },
            Cut {
                script: "create /a\ncreate /b\n",
                call: 2,
                fences: 2,
                commit: 2,
                before: "d 1 2 1 /\nf 2 1 0 /a -\n",
                after: "d 1 2 2 /\nf 2 1 0 /a -\nf 3 1 0 /b -\n",
            },
            Cut {
                script: "create /a\nlink /a /b\n",
                call: 2,
                fences: 2,
                commit: 2,
                before: "d 1 2 1 /\nf 2 1 0 /a -\n",
                after: "d 1 2 2 /\nf 2 2 0 /a -\nf 2 2 0 /b -\n",
            },
        ],
    )
}

#[test]
fn a_name_goes_or_moves_or_not(rt: HostRuntime) -> Result<(), Fail> {
    compare_cuts(
        rt.alloc(),
        small_volume(rt.alloc())?.as_slice(),
        &[
            Cut {
                script: "create /a\nrename /a /b\n",
                call: 2,
                fences: 4,
                commit: 2,
                before: "d 1 2 1 /\nf 2 1 0 /a -\n",
                after: "d 1 2 1 /\nf 2 1 0 /b -\n",
            },
            Cut {
                script: "create /a\ncreate /b\nrename /a /b\n",
                call: 3,
                fences: 5,
                commit: 2,
                before: "d 1 2 2 /\nf 2 1 0 /a -\nf 3 1 0 /b -\n",
                after: "d 1 2 1 /\nf 2 1 0 /b -\n",
            },
            Cut {
                script: "create /a\nwrite /a 0 6869\nunlink /a\n",
                call: 3,
                fences: 4,
                commit: 1,
                before: "d 1 2 1 /\nf 2 1 2 /a 6869\n",
                after: "d 1 2 0 /\n",
            },
            Cut {
                script: "mkdir /d\nrmdir /d\n",
                call: 2,
                fences: 4,
                commit: 1,
                before: "d 1 3 1 /\nd 2 2 0 /d\n",
                after: "d 1 2 0 /\n",
            },
        ],
    )
}

// A directory with a name moves to another directory, which takes a page for it; the one that it leaves gives its page back.
#[test]
fn a_directory_moves_or_not(rt: HostRuntime) -> Result<(), Fail> {
    let first = "mkdir /p\nmkdir /q\nmkdir /p/d\ncreate /p/d/x\n";
    compare_cuts(
        rt.alloc(),
        volume_after(rt.alloc(), 64, first)?.as_slice(),
        &[Cut {
            script: "rename /p/d /q/e\n",
            call: 1,
            fences: 9,
            commit: 5,
            before: "d 1 4 2 /\nd 2 3 1 /p\nd 4 2 1 /p/d\nf 5 1 0 /p/d/x -\nd 3 2 0 /q\n",
            after: "d 1 4 2 /\nd 2 2 0 /p\nd 3 3 1 /q\nd 4 2 1 /q/e\nf 5 1 0 /q/e/x -\n",
        }],
    )
}

// A listing of 5,000 bytes that are zero between these parts.
fn with_zeros(alloc: Global, start: &str, end: &str) -> Result<String, Fail> {
    let zeros = repeated(alloc, "00", 5_000)?;
    joined(alloc, &[start, zeros.as_str(), end])
}

// The file gets two pages and a byte that isn't zero, or goes back to one byte.
#[test]
fn a_file_grows_or_is_cut_or_not(rt: HostRuntime) -> Result<(), Fail> {
    let alloc = rt.alloc();
    let volume = small_volume(alloc)?;
    let written = with_zeros(alloc, "d 1 2 1 /\nf 2 1 5001 /a ", "ff\n")?;
    let grown = with_zeros(alloc, "d 1 2 1 /\nf 2 1 5000 /a ", "\n")?;
    compare_cuts(
        alloc,
        volume.as_slice(),
        &[
            Cut {
                script: "create /a\nwrite /a 5000 ff\n",
                call: 2,
                fences: 3,
                commit: 3,
                before: "d 1 2 1 /\nf 2 1 0 /a -\n",
                after: written.as_str(),
            },
            Cut {
                script: "create /a\ntruncate /a 5000\ntruncate /a 1\n",
                call: 3,
                fences: 3,
                commit: 1,
                before: grown.as_str(),
                after: "d 1 2 1 /\nf 2 1 1 /a 00\n",
            },
        ],
    )
}
