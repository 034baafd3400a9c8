// Each fence of a run of one line fails. The rows of `create` and of a rename to a new name stand among the scripts.
use crate::begins::{Begin, FRESH};
use crate::runs::{GROWN, Line, ON_CLOSED, Run, compare_faults};
use crate::scripts::listing_of_5000;
use std::test::Fail;

const LINES: [Run<'static>; 11] = [
    Run {
        begin: FRESH,
        before: "d 1 2 0 /\n",
        lines: &[Line {
            text: "mkdir /d\n",
            reply: "ok\n",
            fences: 4,
            commit: 4,
            after: "d 1 3 1 /\nd 2 2 0 /d\n",
        }],
        old: &[0, 0, 2, 2, 0],
        new: &[0, 2, 2, 0, 0],
        ..ON_CLOSED
    },
    Run {
        begin: Begin {
            script: "create /a\n",
            ..FRESH
        },
        before: "d 1 2 1 /\nf 2 1 0 /a -\n",
        lines: &[Line {
            text: "link /a /b\n",
            reply: "ok\n",
            fences: 3,
            commit: 3,
            after: "d 1 2 2 /\nf 2 2 0 /a -\nf 2 2 0 /b -\n",
        }],
        old: &[0, 0, 1, 0],
        new: &[0, 1, 0, 0],
        ..ON_CLOSED
    },
    Run {
        begin: Begin {
            script: "create /a\nwrite /a 0 6162\n",
            ..FRESH
        },
        before: "d 1 2 1 /\nf 2 1 2 /a 6162\n",
        lines: &[Line {
            text: "unlink /a\n",
            reply: "ok\n",
            fences: 5,
            commit: 2,
            after: "d 1 2 0 /\n",
        }],
        old: &[0, 0, 2, 2, 1, 0],
        new: &[0, 2, 2, 1, 0, 0],
        ..ON_CLOSED
    },
    Run {
        begin: Begin {
            script: "create /a\nlink /a /b\n",
            ..FRESH
        },
        before: "d 1 2 2 /\nf 2 2 0 /a -\nf 2 2 0 /b -\n",
        lines: &[Line {
            text: "unlink /b\n",
            reply: "ok\n",
            fences: 3,
            commit: 2,
            after: "d 1 2 1 /\nf 2 1 0 /a -\n",
        }],
        old: &[0, 0, 1, 0],
        new: &[0, 1, 0, 0],
        ..ON_CLOSED
    },
    Run {
        begin: Begin {
            script: "mkdir /d\n",
            ..FRESH
        },
        before: "d 1 3 1 /\nd 2 2 0 /d\n",
        lines: &[Line {
            text: "rmdir /d\n",
            reply: "ok\n",
            fences: 5,
            commit: 2,
            after: "d 1 2 0 /\n",
        }],
        old: &[0, 0, 2, 2, 1, 0],
        new: &[0, 2, 2, 1, 0, 0],
        ..ON_CLOSED
    },
    Run {
        begin: Begin {
            script: "create /a\ncreate /b\nwrite /b 0 61\n",
            ..FRESH
        },
        before: "d 1 2 2 /\nf 2 1 0 /a -\nf 3 1 1 /b 61\n",
        lines: &[Line {
            text: "rename /a /b\n",
            reply: "ok\n",
            fences: 7,
            commit: 3,
            after: "d 1 2 1 /\nf 2 1 0 /b -\n",
        }],
        old: &[0, 0, 1, 4, 3, 2, 1, 0],
        new: &[0, 1, 4, 3, 2, 1, 0, 0],
        ..ON_CLOSED
    },
    Run {
        begin: Begin {
            script: "mkdir /d\nmkdir /e\n",
            ..FRESH
        },
        before: "d 1 4 2 /\nd 2 2 0 /d\nd 3 2 0 /e\n",
        lines: &[Line {
            text: "rename /d /e\n",
            reply: "ok\n",
            fences: 6,
            commit: 3,
            after: "d 1 3 1 /\nd 2 2 0 /e\n",
        }],
        old: &[0, 0, 1, 4, 3, 1, 0],
        new: &[0, 1, 4, 3, 1, 0, 0],
        ..ON_CLOSED
    },
    Run {
        begin: Begin {
            script: "create /a\n",
            ..FRESH
        },
        before: "d 1 2 1 /\nf 2 1 0 /a -\n",
        lines: &[Line {
            text: "write /a 0 6162\n",
            reply: "ok 2\n",
            fences: 4,
            commit: 4,
            after: "d 1 2 1 /\nf 2 1 2 /a 6162\n",
        }],
        old: &[0, 0, 1, 2, 0],
        new: &[0, 1, 2, 0, 0],
        ..ON_CLOSED
    },
    Run {
        begin: Begin {
            script: "create /a\nwrite /a 0 6162\n",
            ..FRESH
        },
        before: "d 1 2 1 /\nf 2 1 2 /a 6162\n",
        lines: &[Line {
            text: "write /a 0 63\n",
            reply: "ok 1\n",
            fences: 2,
            commit: 2,
            after: "d 1 2 1 /\nf 2 1 2 /a 6362\n",
        }],
        old: &[0, 0, 0],
        new: &[0, 0, 0],
        ..ON_CLOSED
    },
    Run {
        begin: Begin {
            script: "create /a\nwrite /a 0 6162\n",
            ..FRESH
        },
        before: "d 1 2 1 /\nf 2 1 2 /a 6162\n",
        lines: &[Line {
            text: "truncate /a 1\n",
            reply: "ok\n",
            fences: 2,
            commit: 2,
            after: "d 1 2 1 /\nf 2 1 1 /a 61\n",
        }],
        old: &[0, 0, 0],
        new: &[0, 0, 0],
        ..ON_CLOSED
    },
    Run {
        begin: Begin {
            script: "create /a\nwrite /a 0 6162\n",
            ..FRESH
        },
        before: "d 1 2 1 /\nf 2 1 2 /a 6162\n",
        lines: &[Line {
            text: "truncate /a 0\n",
            reply: "ok\n",
            fences: 4,
            commit: 2,
            after: "d 1 2 1 /\nf 2 1 0 /a -\n",
        }],
        old: &[0, 0, 2, 1, 0],
        new: &[0, 2, 1, 0, 0],
        ..ON_CLOSED
    },
];

#[test]
fn each_fence_of_each_command_fails(rt: HostRuntime) -> Result<(), Fail> {
    compare_faults(rt.alloc(), LINES.as_slice())
}

// A file grows by a page.
#[test]
fn each_fence_of_a_growth_fails(rt: HostRuntime) -> Result<(), Fail> {
    let grown = listing_of_5000(rt.alloc(), "6162")?;
    let run = Run {
        begin: Begin {
            script: "create /a\nwrite /a 0 6162\n",
            ..FRESH
        },
        before: "d 1 2 1 /\nf 2 1 2 /a 6162\n",
        lines: &[Line {
            text: "truncate /a 5000\n",
            reply: "ok\n",
            fences: 4,
            commit: 4,
            after: GROWN,
        }],
        grown: grown.as_str(),
        old: &[0, 0, 1, 2, 0],
        new: &[0, 1, 2, 0, 0],
        ..ON_CLOSED
    };
    compare_faults(rt.alloc(), &[run])
}
