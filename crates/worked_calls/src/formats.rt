// A device is made a volume: one of 16 pages, devices that can be none, and one whose second fence fails.
use format_ops::{FormatError, format};
use layout::superblock::MAGIC;
use pm_memory::RamPm;
use pm_trait::Pm;
use std::test::Fail;

#[test]
fn a_volume_of_sixteen_pages(rt: HostRuntime) -> Result<(), Fail> {
    let alloc = rt.alloc();
    let old = vec![in alloc; 7; 8_192]?;
    let mut pm = RamPm::new(alloc, old.as_slice())?;
    format(&mut pm)?;
    let table = [
        (0, MAGIC),
        (1, 1),
        (2, 16),
        (3, 4),
        (4, 13),
        (5, 1),
        (6, 0),
        (511, 0),
        (512, 2),
        (513, 2),
        (514, 0),
        (515, 1),
        (516, 0),
        (528, 0),
        (1_024, 0),
        (1_535, 0),
        (1_536, 7),
        (8_191, 7),
    ];
    for (word, value) in table {
        assert_eq!(rt; pm.image().get(word).copied(), Some(value), "at {word}");
    }
    assert_eq!(rt; pm.fences(), 3);
    assert_eq!(rt; pm.acks(), 0);
    Ok(())
}

#[test]
fn another_size(rt: HostRuntime) -> Result<(), Fail> {
    let alloc = rt.alloc();
    for words in [0, 1, 7_680, 8_191, 8_193] {
        let old = vec![in alloc; 7; words]?;
        let mut pm = RamPm::new(alloc, old.as_slice())?;
        assert_eq!(rt; format(&mut pm), Err(FormatError::BadSize), "at {words}");
        assert_eq!(rt; pm.image(), old.as_slice());
        assert_eq!(rt; pm.fences(), 0);
    }
    Ok(())
}

#[test]
fn a_second_fence_that_fails(rt: HostRuntime) -> Result<(), Fail> {
    let alloc = rt.alloc();
    let old = vec![in alloc; 7; 8_192]?;
    let mut pm = RamPm::with_failing(alloc, old.as_slice(), vec![in alloc; 2]?)?;
    assert_eq!(rt; format(&mut pm), Err(FormatError::PmFault));
    assert_eq!(rt; pm.image().first().copied(), Some(0));
    assert_eq!(rt; pm.image().get(2).copied(), Some(16));
    assert_eq!(rt; pm.image().get(1_536).copied(), Some(7));
    assert_eq!(rt; pm.fences(), 1);
    Ok(())
}
