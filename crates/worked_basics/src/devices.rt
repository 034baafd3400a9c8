// Devices in memory: their events, the fences that fail, and the images that a crash leaves.
ghost use Rattle.std.specs.Prelude.{◌<◌, length};

use pm_memory::{RamPm, Recorded, SteadyPm};
use pm_trait::{Event, Pm, PmFault};
use std::alloc::Global;
use std::process::Abort;
use std::test::Fail;

// A device has these events and no more, each by its number and all by a walk.
fn assert_events(rt: &impl Abort, pm: &RamPm, events: &[Event]) {
    // few acknowledgements, as `events` asks
    assert!(rt; pm.acks() < 100);
    assert_eq!(rt; pm.events(), events.len() as u64);
    let mut walk = pm.walk();
    for (number, event) in events.iter().enumerate() {
        assert!(rt; (number as u64) < pm.events());
        assert_eq!(rt; pm.event(number as u64), *event, "at {number}");
        assert_eq!(rt; walk.next(), Some(*event), "at {number}");
    }
    assert_eq!(rt; (walk.next(), walk.next()), (None, None));
}

#[test]
fn tells_its_events(rt: HostRuntime) -> Result<(), Fail> {
    let mut pm = RamPm::new(rt.alloc(), &[10, 11, 12, 13])?;
    assert_eq!(rt; pm.events(), 0);
    pm.reserve(3)?;
    pm.store(2, 30);
    pm.ack();
    pm.flush(0);
    assert!(rt; pm.fence().is_ok());
    pm.ack();
    assert_eq!(rt; pm.image(), [10, 11, 30, 13].as_slice());
    assert_eq!(rt; (pm.load(2), pm.fences(), pm.acks()), (30, 1, 2));
    assert_events(
        &rt,
        &pm,
        &[
            Event::Store { word: 2, value: 30 },
            Event::Ack,
            Event::Flush { line: 0 },
            Event::Fence,
            Event::Ack,
        ],
    );
    Ok(())
}

// The first event of the trail, once word 0 has a value.
fn first_event<P: Recorded>(pm: &mut P) -> Result<Option<Event>, Fail>
    requires { 0 < length (P.view pm.old).words }
{
    pm.reserve(1)?;
    pm.store(0, 8);
    Ok(pm.ram().walk().next())
}

#[test]
fn lends_what_it_recorded(rt: HostRuntime) -> Result<(), Fail> {
    let mut ram = RamPm::new(rt.alloc(), &[7])?;
    let stored = Some(Event::Store { word: 0, value: 8 });
    assert_eq!(rt; first_event(&mut ram)?, stored);
    let mut steady = SteadyPm::new(rt.alloc(), &[7])?;
    steady.reserve(2)?;
    steady.flush(0);
    assert_eq!(rt; steady.fence(), Ok(()));
    steady.ack();
    assert_eq!(rt; (steady.load(0), steady.fences(), steady.acks()), (7, 1, 1));
    assert_eq!(rt; first_event(&mut steady)?, Some(Event::Flush { line: 0 }));
    Ok(())
}

#[test]
fn fails_the_listed_fences(rt: HostRuntime) -> Result<(), Fail> {
    let failing = vec![in rt.alloc(); 2, 4]?;
    let mut pm = RamPm::with_failing(rt.alloc(), &[7], failing)?;
    pm.reserve(5)?;
    pm.store(0, 8);
    assert_eq!(rt; pm.fence(), Ok(()));
    assert_eq!(rt; pm.fence(), Err(PmFault));
    assert_eq!(rt; pm.fence(), Ok(()));
    assert_eq!(rt; pm.fence(), Err(PmFault));
    assert_eq!(rt; (pm.load(0), pm.fences()), (8, 2));
    assert_eq!(rt; pm.events(), 5);
    assert_eq!(rt; pm.event(2), Event::BadFence);
    Ok(())
}

// Two stores to word 0, which nothing flushes, and one each to the words 8 and 9 of the next line, the first of an equal
// value. A fence settles that line, and word 9 is stored once more.
fn stored(alloc: Global) -> Result<RamPm, Fail> {
    let mut pm = RamPm::new(alloc, &[1, 2, 3, 4, 5, 6, 7, 8, 9, 10])?;
    pm.reserve(7)?;
    pm.store(0, 20);
    pm.store(0, 21);
    pm.store(8, 9);
    pm.store(9, 30);
    pm.ack();
    pm.flush(1);
    let _ = pm.fence();
    pm.store(9, 31);
    Ok(pm)
}

#[test]
fn chooses_images(rt: HostRuntime) -> Result<(), Fail> {
    let pm = stored(rt.alloc())?;
    assert_eq!(rt; pm.acks(), 1);
    let rows = [
        (0, [1, 1, 1].as_slice(), (1, 9, 10)),
        (1, [5].as_slice(), (20, 9, 10)),
        (4, [1].as_slice(), (20, 9, 30)),
        (4, [2, 0].as_slice(), (21, 9, 10)),
        (4, [0, 0, 1].as_slice(), (1, 9, 30)),
        (4, [255].as_slice(), (1, 9, 30)),
        (5, [0, 1, 0].as_slice(), (1, 9, 10)),
        (6, [2, 0, 1].as_slice(), (21, 9, 30)),
        (7, [1, 0].as_slice(), (20, 9, 30)),
        (8, [0, 1].as_slice(), (1, 9, 31)),
        (8, [3, 2].as_slice(), (1, 9, 30)),
    ];
    for (moment, keep, want) in rows {
        assert!(rt; moment <= pm.events());
        assert!(rt; !keep.is_empty());
        let image = pm.image_at(rt.alloc(), moment, keep)?;
        assert_eq!(rt; image.len(), 10);
        assert_eq!(rt;
            (image[0], image[8], image[9]),
            want,
            "at {moment} with {keep:?}"
        );
        assert_eq!(rt; &image[1..8], [2, 3, 4, 5, 6, 7, 8].as_slice());
    }
    Ok(())
}
