// A volume of 16 pages, whose words are written by hand: the inode table begins at word 512, the descriptor table at word
// 1,024 and the data pages at word 1,536. `worked_rows` has more volumes: what they are mounted as, or refused for.
ghost use Rattle.std.specs.Prelude.{◌≡◌, IfOk};
ghost use Rattle.pm_trait.specs.DeviceView.{IsSettledView};

use image_reading::Violation;
use io_edge::MemSink;
use layout::ROOT;
use layout::superblock::MAGIC;
use mount_scan::{mount, report};
use pm_memory::RamPm;
use pm_trait::Pm;
use std::alloc::Global;
use std::test::Fail;

// A file `a` of 5,000 bytes, in inode 2 and slot 0, whose second page stands before its first.
const FILE: [(usize, u64); 23] = [
    (0, MAGIC),
    (1, 1),
    (2, 16),
    (3, 4),
    (4, 13),
    (512, 2),
    (513, 2),
    (515, 1),
    (528, 1),
    (529, 1),
    (530, 5_000),
    (531, 2),
    (1_024, 1),
    (1_025, 2),
    (1_032, 2),
    (1_033, 1),
    (1_034, 1),
    (1_040, 2),
    (1_041, 1),
    (1_042, 0),
    (1_536, 2),
    (1_537, 0),
    (1_538, 0x61_0001),
];

// A device with these words, and all others 0.
fn device(alloc: Global, words: &[(usize, u64)]) -> Result<RamPm, Fail>
    ensures settled { IfOk result (λ pm. IsSettledView (⟦<RamPm as Pm>⟧.view pm)) }
    ensures fences { IfOk result (λ pm. (⟦<RamPm as Pm>⟧.view pm).fences ≡ 0) }
{
    let mut image = vec![in alloc; 0; 8_192]?;
    for (word, value) in words {
        *image.get_mut(*word).ok_or("no word")? = *value;
    }
    let pm = RamPm::new(alloc, image.as_slice())?;
    Ok(pm)
}

// It is mounted as it is. What is planned on mounted volumes is in `worked_rows`.
#[test]
fn a_volume_with_a_file(rt: HostRuntime) -> Result<(), Fail> {
    let alloc = rt.alloc();
    let mut pm = device(alloc, &FILE)?;
    let volume = mount(alloc, &mut pm)?;
    assert_eq!(rt; pm.fences(), 0);
    assert_eq!(rt; volume.count(ROOT), 1);
    let first = volume.nth(ROOT, 0);
    assert_eq!(rt; first.name.as_slice(), b"a".as_slice());
    assert_eq!(rt; first.slot, 0);
    Ok(())
}

// An empty file `a`, in inode 2 and slot 0.
const EMPTY: [(usize, u64); 15] = [
    (0, MAGIC),
    (1, 1),
    (2, 16),
    (3, 4),
    (4, 13),
    (512, 2),
    (513, 2),
    (515, 1),
    (528, 1),
    (529, 1),
    (531, 2),
    (1_024, 1),
    (1_025, 2),
    (1_536, 2),
    (1_538, 0x61_0001),
];

// What is reported of that volume with these words besides, and what is written.
fn report_with(alloc: Global, more: &[(usize, u64)]) -> Result<(Option<Violation>, Vec<u8>), Fail> {
    let mut words = Vec::from_slice(alloc, &EMPTY)?;
    words.extend_from_slice(more)?;
    let pm = device(alloc, words.as_slice())?;
    let mut sink = MemSink::new(alloc, 200, Vec::new(alloc))?;
    let broken = report(alloc, &pm, &mut sink)?;
    let written = Vec::from_slice(alloc, sink.bytes())?;
    Ok((broken, written))
}

// The counts are of the words as they are, whatever a recovery would store.
#[test]
fn what_a_crash_left_is_counted(rt: HostRuntime) -> Result<(), Fail> {
    let alloc = rt.alloc();
    for (more, repairs) in [
        (
            [].as_slice(),
            "pointers 0 slots 0 pages 0 inodes 0 counts 0",
        ),
        (
            [(1_552, 2), (1_553, 1), (1_554, 0x62_0001)].as_slice(),
            "pointers 1 slots 1 pages 0 inodes 0 counts 0",
        ),
        (
            [(1_553, 1)].as_slice(),
            "pointers 1 slots 1 pages 0 inodes 0 counts 0",
        ),
        (
            [(1_554, 0x62_0001)].as_slice(),
            "pointers 0 slots 1 pages 0 inodes 0 counts 0",
        ),
        (
            [(1_032, 2), (1_033, 1)].as_slice(),
            "pointers 0 slots 0 pages 1 inodes 0 counts 0",
        ),
        (
            [(513, 9), (529, 7)].as_slice(),
            "pointers 0 slots 0 pages 0 inodes 0 counts 2",
        ),
        (
            [(5, 1)].as_slice(),
            "pointers 0 slots 0 pages 0 inodes 0 counts 0",
        ),
        (
            [(5, 2), (1_553, 1)].as_slice(),
            "pointers 1 slots 1 pages 0 inodes 0 counts 0",
        ),
    ] {
        let (broken, written) = report_with(alloc, more)?;
        let wanted = format!(in alloc;
            "sound\ntree directories 1 files 1 names 1\nrepairs {repairs}\n"
        )?;
        assert_eq!(rt; broken, None);
        assert_eq!(rt; written.as_slice(), wanted.as_bytes());
    }
    Ok(())
}

#[test]
fn broken_words_are_told(rt: HostRuntime) -> Result<(), Fail> {
    let alloc = rt.alloc();
    for (more, rule, place) in [
        ([(0, 0)].as_slice(), 1, 0),
        ([(3, 5)].as_slice(), 1, 3),
        ([(1_552, 2), (1_554, 0x61_0001)].as_slice(), 8, 1),
        ([(5, 1), (513, 9)].as_slice(), 15, 5),
        ([(5, 1), (1_552, 2), (1_554, 0x61_0001)].as_slice(), 8, 1),
    ] {
        let (broken, written) = report_with(alloc, more)?;
        assert_eq!(rt; broken, Some(Violation { rule, place }));
        assert!(rt; written.is_empty());
    }
    Ok(())
}
