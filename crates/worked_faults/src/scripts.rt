// Each fence of scripts of several lines fails.
use crate::begins::{Begin, FRESH};
use crate::runs::{GROWN, Line, ON_CLOSED, Run, compare_events, compare_faults};
use std::alloc::Global;
use std::test::Fail;
use worked_drivers::texts::{joined, repeated};

// Two files are made, and one of them is renamed.
const THREE_LINES: Run<'static> = Run {
    begin: FRESH,
    before: "d 1 2 0 /\n",
    lines: &[
        Line {
            text: "create /a\n",
            reply: "ok\n",
            fences: 4,
            commit: 4,
            after: "d 1 2 1 /\nf 2 1 0 /a -\n",
        },
        Line {
            text: "create /b\n",
            reply: "ok\n",
            fences: 2,
            commit: 2,
            after: "d 1 2 2 /\nf 2 1 0 /a -\nf 3 1 0 /b -\n",
        },
        Line {
            text: "rename /a /c\n",
            reply: "ok\n",
            fences: 4,
            commit: 2,
            after: "d 1 2 2 /\nf 3 1 0 /b -\nf 2 1 0 /c -\n",
        },
    ],
    old: &[0, 0, 1, 2, 0, 2, 0, 2, 3, 2, 0],
    new: &[0, 1, 2, 0, 2, 0, 2, 3, 2, 0, 0],
    ..ON_CLOSED
};

#[test]
fn each_fence_of_three_lines_fails(rt: HostRuntime) -> Result<(), Fail> {
    compare_faults(rt.alloc(), &[THREE_LINES])
}

// All changing commands. The listing that isn't there is that of a file of two pages.
const ALL_COMMANDS: [Line; 12] = [
    Line {
        text: "create /a\n",
        reply: "ok\n",
        fences: 4,
        commit: 4,
        after: "d 1 2 1 /\nf 2 1 0 /a -\n",
    },
    Line {
        text: "write /a 0 6162\n",
        reply: "ok 2\n",
        fences: 3,
        commit: 3,
        after: "d 1 2 1 /\nf 2 1 2 /a 6162\n",
    },
    Line {
        text: "write /a 1 63\n",
        reply: "ok 1\n",
        fences: 1,
        commit: 1,
        after: "d 1 2 1 /\nf 2 1 2 /a 6163\n",
    },
    Line {
        text: "truncate /a 5000\n",
        reply: "ok\n",
        fences: 3,
        commit: 3,
        after: GROWN,
    },
    Line {
        text: "truncate /a 1\n",
        reply: "ok\n",
        fences: 3,
        commit: 1,
        after: "d 1 2 1 /\nf 2 1 1 /a 61\n",
    },
    Line {
        text: "mkdir /d\n",
        reply: "ok\n",
        fences: 2,
        commit: 2,
        after: "d 1 3 2 /\nf 2 1 1 /a 61\nd 3 2 0 /d\n",
    },
    Line {
        text: "link /a /d/b\n",
        reply: "ok\n",
        fences: 3,
        commit: 3,
        after: "d 1 3 2 /\nf 2 2 1 /a 61\nd 3 2 1 /d\nf 2 2 1 /d/b 61\n",
    },
    Line {
        text: "rename /a /c\n",
        reply: "ok\n",
        fences: 4,
        commit: 2,
        after: "d 1 3 2 /\nf 2 2 1 /c 61\nd 3 2 1 /d\nf 2 2 1 /d/b 61\n",
    },
    Line {
        text: "unlink /d/b\n",
        reply: "ok\n",
        fences: 4,
        commit: 1,
        after: "d 1 3 2 /\nf 2 1 1 /c 61\nd 3 2 0 /d\n",
    },
    Line {
        text: "rmdir /d\n",
        reply: "ok\n",
        fences: 3,
        commit: 1,
        after: "d 1 2 1 /\nf 2 1 1 /c 61\n",
    },
    Line {
        text: "rename /c /e\n",
        reply: "ok\n",
        fences: 4,
        commit: 2,
        after: "d 1 2 1 /\nf 2 1 1 /e 61\n",
    },
    Line {
        text: "unlink /e\n",
        reply: "ok\n",
        fences: 4,
        commit: 1,
        after: "d 1 2 0 /\n",
    },
];

// A fresh volume of 64 pages.
const WIDE: Begin<'static> = Begin { pages: 64, ..FRESH };

/// The listing of the file `/a` of 5,000 bytes: two of them, and zeros.
pub fn listing_of_5000(alloc: Global, bytes: &str) -> Result<String, Fail> {
    let zeros = repeated(alloc, "00", 4_998)?;
    joined(
        alloc,
        &["d 1 2 1 /\nf 2 1 5000 /a ", bytes, zeros.as_str(), "\n"],
    )
}

#[test]
fn each_fence_of_all_commands_fails(rt: HostRuntime) -> Result<(), Fail> {
    let alloc = rt.alloc();
    let grown = listing_of_5000(alloc, "6163")?;
    let run = Run {
        begin: WIDE,
        before: "d 1 2 0 /\n",
        lines: &ALL_COMMANDS,
        grown: grown.as_str(),
        ..ON_CLOSED
    };
    compare_events(alloc, run, 3_172)?;
    compare_faults(alloc, &[run])
}
