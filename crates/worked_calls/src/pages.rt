// Pages on a volume of 16 pages: made pages of slots, and made pages of bytes that are given to an inode and written to.
use fence_token::{Clean, fence};
use layout::{Geometry, Name};
use page_state::{Free, PageH};
use pm_memory::RamPm;
use pm_trait::Pm;
use std::test::Fail;

#[test]
fn two_pages_with_a_name(rt: HostRuntime) -> Result<(), Fail> {
    let alloc = rt.alloc();
    let mut old = vec![in alloc; 0; 1_536]?;
    let data_pages = vec![in alloc; 7; 6_656]?;
    old.extend_from_slice(data_pages.as_slice())?;
    let mut pm = RamPm::new(alloc, old.as_slice())?;
    pm.reserve(1_159)?;
    let geometry = Geometry::of(16).ok_or("no volume")?;
    assert_eq!(rt; geometry.data_pages, 13);
    let numbers = [4, 2];
    let free: PageH<Clean, Free> = PageH::at(&pm, &geometry, &numbers);
    let name = Name::new(b"ab").ok().ok_or("no name")?;
    let filled = free.fill_dir_named(&mut pm, &name).flush(&mut pm);
    let token = fence(&mut pm)?;
    let filled = filled.settle(&pm, &token);
    assert_eq!(rt; filled.pages(), [4, 2].as_slice());
    let table = [
        (1_040, 0),
        (1_041, 2),
        (1_049, 0),
        (1_057, 2),
        (2_559, 7),
        (2_560, 0),
        (2_561, 0),
        (2_562, 0x6261_0002),
        (2_563, 0),
        (2_578, 0),
        (3_071, 0),
        (3_072, 7),
        (3_583, 7),
        (3_584, 0),
        (3_586, 0x6261_0002),
        (4_095, 0),
        (4_096, 7),
    ];
    for (word, value) in table {
        assert_eq!(rt; pm.image().get(word).copied(), Some(value), "at {word}");
    }
    assert_eq!(rt; pm.events(), 1_159);
    Ok(())
}

#[test]
fn new_bytes_of_a_file(rt: HostRuntime) -> Result<(), Fail> {
    let alloc = rt.alloc();
    let mut old = vec![in alloc; 0; 1_536]?;
    let data_pages = vec![in alloc; 7; 6_656]?;
    old.extend_from_slice(data_pages.as_slice())?;
    let mut pm = RamPm::new(alloc, old.as_slice())?;
    pm.reserve(1_169)?;
    let geometry = Geometry::of(16).ok_or("no volume")?;
    assert_eq!(rt; geometry.data_pages, 13);
    let numbers = [4, 2];
    let free: PageH<Clean, Free> = PageH::at(&pm, &geometry, &numbers);
    // Three bytes in the first page, a line of whole words in the second, and six bytes of a further word.
    let bytes = b"123The words of one line, each of its own bytes: a to z, 0 to 9, at last.";
    let filled = free.fill_bytes(&mut pm, 0, 4_093, bytes).flush(&mut pm);
    let token = fence(&mut pm)?;
    let filled = filled.settle(&pm, &token);
    let live = filled.claim(&mut pm, 3).flush(&mut pm);
    let token = fence(&mut pm)?;
    let live = live.settle(&pm, &token);
    let written = live
        .write_span(&mut pm, 0, 8_192, 4_095, &[170, 187])
        .flush(&mut pm);
    let token = fence(&mut pm)?;
    let written = written.settle(&pm, &token);
    let table = [
        (1_040, 3),
        (1_041, 1),
        (1_042, 1),
        (1_056, 3),
        (1_057, 1),
        (1_058, 0),
        (2_559, 7),
        (2_560, 0x6472_6f77_2065_68bb),
        (2_561, 0x656e_6f20_666f_2073),
        (2_562, 0x6520_2c65_6e69_6c20),
        (2_563, 0x6920_666f_2068_6361),
        (2_564, 0x6220_6e77_6f20_7374),
        (2_565, 0x2061_203a_7365_7479),
        (2_566, 0x2030_202c_7a20_6f74),
        (2_567, 0x7461_202c_3920_6f74),
        (2_568, 0x0000_2e74_7361_6c20),
        (2_569, 0),
        (3_584, 0),
        (4_094, 0),
        (4_095, 0xaa32_3100_0000_0000),
        (4_096, 7),
    ];
    for (word, value) in table {
        assert_eq!(rt; pm.image().get(word).copied(), Some(value), "at {word}");
    }
    assert_eq!(rt; written.pages(), [4, 2].as_slice());
    Ok(())
}
