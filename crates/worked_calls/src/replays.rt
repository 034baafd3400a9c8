// Moments of a run, counts of answers, a generated script. What no clause says: that the definitions mean what was meant.
ghost use Rattle.std.specs.Prelude.{◌≤◌};

use crash_replay::{Moment, Tally, Work, acks_before, place_of};
use io_edge::{Source, write_all};
use pm_memory::RamPm;
use pm_trait::Pm;
use std::alloc::Global;
use std::test::Fail;

// How many events the mount of the device below has.
const MARK: u64 = 3;

// A device that was mounted and then had three calls: one with two fences, of which the second fails, one that does nothing,
// and one that isn't acknowledged.
fn recorded(alloc: Global) -> Result<RamPm, Fail> {
    let failing = vec![in alloc; 3]?;
    let mut pm = RamPm::with_failing(alloc, &[7], failing)?;
    pm.reserve(10)?;
    pm.store(0, 1);
    pm.flush(0);
    let _ = pm.fence();
    pm.store(0, 2);
    pm.flush(0);
    let _ = pm.fence();
    pm.store(0, 3);
    let _ = pm.fence();
    pm.ack();
    pm.ack();
    pm.flush(0);
    let _ = pm.fence();
    Ok(pm)
}

#[test]
fn moments(rt: HostRuntime) -> Result<(), Fail> {
    let pm = recorded(rt.alloc())?;
    assert!(rt; pm.acks() == 2);
    for (moment, place, acked) in [
        (Moment::At(0), 0, 0),
        (Moment::At(8), 8, 0),
        (Moment::At(9), 9, 1),
        (Moment::At(13), 12, 2),
        (Moment::Before { call: 0, fence: 1 }, 2, 0),
        (Moment::Before { call: 0, fence: 2 }, 3, 0),
        (Moment::Before { call: 1, fence: 1 }, 5, 0),
        (Moment::Before { call: 1, fence: 2 }, 7, 0),
        (Moment::Before { call: 1, fence: 3 }, 8, 0),
        (Moment::Before { call: 1, fence: 0 }, 8, 0),
        (Moment::Before { call: 2, fence: 1 }, 9, 1),
        (Moment::Before { call: 3, fence: 1 }, 11, 2),
        (Moment::Before { call: 3, fence: 0 }, 12, 2),
        (Moment::Before { call: 4, fence: 1 }, 12, 2),
    ] {
        let found = place_of(&pm, MARK, moment);
        assert_eq!(rt;
            (found, acks_before(&pm, found)),
            (place, acked),
            "{moment:?}"
        );
    }
    Ok(())
}

#[test]
fn answers_are_counted(rt: HostRuntime) -> Result<(), Fail> {
    let mut tally = Tally::new();
    for (piece, accepted, refused, lacking) in [
        ("o", 0, 0, 0),
        ("k\nok 2 ok", 1, 0, 0),
        ("\nerror BadLine\nerr", 2, 1, 0),
        ("or NoMemory\n", 2, 2, 1),
        ("error NoMemory \nnot ok\n\n", 2, 3, 1),
    ] {
        assert_eq!(rt; write_all(&mut tally, piece.as_bytes()), Ok(()));
        assert_eq!(rt;
            (tally.accepted(), tally.refused(), tally.lacking()),
            (accepted, refused, lacking),
            "{piece}"
        );
    }
    Ok(())
}

// The script of a seed, read so many bytes at a time.
fn script_in_pieces(alloc: Global, seed: u64, count: u64, piece: usize) -> Result<Vec<u8>, Fail>
    requires { piece ≤ 8 }
{
    let mut work = Work::new(seed, count);
    let mut bytes = Vec::new(alloc);
    for _ in 0..u64::MAX {
        let mut buf = [0; 8];
        let given = work.read(&mut buf[..piece])?;
        if given == 0 {
            break;
        }
        bytes.extend_from_slice(&buf[..given])?;
    }
    Ok(bytes)
}

#[test]
fn a_generated_script_is_read_in_pieces(rt: HostRuntime) -> Result<(), Fail> {
    let wanted = b"mkdir /d0\nmkdir /d1\nmkdir /d2\nmkdir /d3\n\
        create /d0/f13\nread /d2/f5 0 64\nmkdir /d3\n";
    for piece in [1, 7] {
        let script = script_in_pieces(rt.alloc(), 1, 3, piece)?;
        assert_eq!(rt; script.as_slice(), wanted.as_slice(), "{piece}");
    }
    Ok(())
}
