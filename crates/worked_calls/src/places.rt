// A name in a new page of a directory, on a volume of 16 pages.
use entry_steps::NamePlace;
use fence_token::fence;
use layout::{Geometry, Name};
use pm_memory::RamPm;
use pm_trait::Pm;
use std::test::Fail;

#[test]
fn a_name_in_a_new_page(rt: HostRuntime) -> Result<(), Fail> {
    let alloc = rt.alloc();
    let mut old = vec![in alloc; 0; 1_536]?;
    let data_pages = vec![in alloc; 7; 6_656]?;
    old.extend_from_slice(data_pages.as_slice())?;
    let mut pm = RamPm::new(alloc, old.as_slice())?;
    pm.reserve(583)?;
    let geometry = Geometry::of(16).ok_or("no volume")?;
    assert_eq!(rt; geometry.data_pages, 13);
    let name = Name::new(b"a".as_slice()).ok().ok_or("no name")?;
    let written = NamePlace::write(&mut pm, &geometry, 64, Some(2), &name);
    let token = fence(&mut pm)?;
    let place = written.settle(&pm, &token);
    let slot = place.open(&mut pm, &geometry, 3)?;
    assert_eq!(rt; slot.slot(), 64);
    let table = [
        (1_039, 0),
        (1_040, 3),
        (1_041, 2),
        (1_042, 0),
        (2_559, 7),
        (2_560, 0),
        (2_561, 0),
        (2_562, 0x61_0001),
        (2_563, 0),
        (2_578, 0),
        (3_071, 0),
        (3_072, 7),
    ];
    for (word, value) in table {
        assert_eq!(rt; pm.image().get(word).copied(), Some(value), "at {word}");
    }
    assert_eq!(rt; pm.fences(), 2);
    assert_eq!(rt; pm.events(), 583);
    Ok(())
}
