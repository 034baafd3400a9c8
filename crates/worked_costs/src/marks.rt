// What the mark of a closed volume costs: a fence of 3 events before the first change, and one at the end of a job that is done, where
// the volume hasn't got it then.
use pm_memory::RamPm;
use squirrel_cli::Status;
use std::alloc::Global;
use std::test::Fail;
use worked_drivers::jobs::{Left, do_job, events_of, is_closed, same, sink_of, source_of};
use worked_drivers::volumes::{fresh_volume, small_volume, volume_with_a, with_words};

// A job, its script, and how many fences and events it takes, the acknowledgements among these.
type Row<'a> = (&'a str, &'a str, u64, u64);

const RUN: &str = "squirrel run v";

// Does a job whose output has so much room. What it left, and how many events there were.
fn count(
    alloc: Global,
    image: &[u64],
    line: &str,
    script: &str,
    room: usize,
) -> Result<(Left, u64), Fail> {
    let mut pm = RamPm::new(alloc, image)?;
    let source = source_of(alloc, script.as_bytes(), 4_096, 0)?;
    let sink = sink_of(alloc, room, 0)?;
    let left = do_job(alloc, line, &mut pm, source, sink)?;
    let events = events_of(&pm)?;
    Ok((left, events))
}

// Does each job on the same volume, which it leaves closed. What the last one left.
fn compare(alloc: Global, image: &[u64], rows: &[Row<'_>]) -> Result<Vec<u64>, Fail> {
    let mut last = image.to_vec(alloc)?;
    for (line, script, fences, events) in rows {
        let (left, counted) = count(alloc, image, line, script, 4_096)?;
        same((left.fences, counted), (*fences, *events), script)?;
        same(
            (left.status, is_closed(&left.image)),
            (Status::Done, true),
            script,
        )?;
        last = left.image;
    }
    Ok(last)
}

#[test]
fn a_closed_volume_is_changed_or_not(rt: HostRuntime) -> Result<(), Fail> {
    let alloc = rt.alloc();
    let fresh = small_volume(alloc)?;
    let three = "create /a\ncreate /b\nrename /a /c\n";
    compare(
        alloc,
        fresh.as_slice(),
        &[
            (RUN, "", 0, 0),
            (RUN, "df\n", 0, 1),
            (RUN, "create /a\n", 5, 598),
            (RUN, three, 11, 669),
            ("squirrel tree v", "", 0, 0),
            ("squirrel work v 1 1", "", 9, 658),
        ],
    )?;
    compare(
        alloc,
        volume_with_a(alloc)?.as_slice(),
        &[
            (RUN, "create /a\n", 0, 1),
            (RUN, "rename /a /a\n", 0, 1),
            (RUN, "create /b\ncreate /c\n", 6, 58),
        ],
    )?;
    Ok(())
}

// Every value but 1 is that of a volume that wasn't closed, as one of an earlier version of the program has.
#[test]
fn a_volume_that_was_not_closed(rt: HostRuntime) -> Result<(), Fail> {
    let alloc = rt.alloc();
    let fresh = small_volume(alloc)?;
    for mark in [0, 7, u64::MAX] {
        let image = with_words(alloc, fresh.as_slice(), &[(5, mark)])?;
        compare(
            alloc,
            image.as_slice(),
            &[
                (RUN, "df\n", 1, 4),
                (RUN, "create /a\n", 4, 595),
                ("squirrel tree v", "", 1, 3),
            ],
        )?;
    }
    Ok(())
}

// The second reply has room for a byte.
#[test]
fn an_output_that_is_full_leaves_it_open(rt: HostRuntime) -> Result<(), Fail> {
    let alloc = rt.alloc();
    let fresh = small_volume(alloc)?;
    let (left, events) = count(alloc, fresh.as_slice(), RUN, "create /a\ncreate /b\n", 4)?;
    same((left.fences, events), (6, 621), "room for 4 bytes")?;
    let ended = (left.status, left.image.get(5).copied());
    same(ended, (Status::WriteFault, Some(0)), "room for 4 bytes")
}

#[test]
fn a_long_work_and_a_format(rt: HostRuntime) -> Result<(), Fail> {
    let alloc = rt.alloc();
    let work = "squirrel work v 1 100";
    let fresh = fresh_volume(alloc, 256)?;
    let once = compare(alloc, fresh.as_slice(), &[(work, "", 56, 5_232)])?;
    compare(alloc, once.as_slice(), &[(work, "", 49, 5_691)])?;
    let old = vec![in alloc; 7; 8_192]?;
    compare(
        alloc,
        old.as_slice(),
        &[("squirrel mkfs v 16", "", 3, 1_734)],
    )?;
    Ok(())
}
