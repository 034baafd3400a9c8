// Where the regions of a volume begin, and what words, kinds and names say.
use layout::superblock::{MAGIC, MAGIC_WORD, VERSION};
use layout::{
    Geometry, Name, NameFault, NodeKind, PageKind, cmp_name_words, name_of_words, name_words,
};
use std::cmp::Ordering;
use std::test::Fail;

#[test]
fn volumes_have_these_regions(rt: HostRuntime) -> Result<(), Fail> {
    for (pages, inodes, inode_pages, descriptor_pages, data_pages) in [
        (16, 4, 1, 1, 13),
        (64, 16, 1, 1, 61),
        (132, 33, 2, 3, 126),
        (256, 64, 2, 4, 249),
        (65_536, 16_384, 512, 1_024, 63_999),
    ] {
        let geometry = Geometry::of(pages).ok_or("no volume")?;
        assert_eq!(rt; geometry.pages, pages);
        assert_eq!(rt; geometry.inodes, inodes, "of {pages} pages");
        assert_eq!(rt; geometry.inode_pages, inode_pages, "of {pages} pages");
        assert_eq!(rt;
            geometry.descriptor_pages,
            descriptor_pages,
            "of {pages} pages"
        );
        assert_eq!(rt; geometry.data_pages, data_pages, "of {pages} pages");
    }
    assert_eq!(rt; Geometry::of(15), None);
    assert_eq!(rt; Geometry::of(65_537), None);
    Ok(())
}

#[test]
fn first_words_of_the_regions(rt: HostRuntime) -> Result<(), Fail> {
    let geometry = Geometry::of(16).ok_or("no volume")?;
    assert_eq!(rt; geometry.head(), [0x3130_4D50_4C52_5153, 1, 16, 4, 13]);
    assert_eq!(rt; [MAGIC, VERSION], [0x3130_4D50_4C52_5153, 1]);
    assert_eq!(rt; MAGIC_WORD, 0);
    assert!(rt; geometry.inodes == 4);
    assert!(rt; geometry.data_pages == 13);
    let slots = geometry.slots();
    assert!(rt; slots == 416);
    let addresses = [
        geometry.inode_word(2, 1),
        geometry.descriptor_word(0, 2),
        geometry.slot_word(1, 0),
        geometry.page_word(1, 3),
    ];
    assert_eq!(rt; addresses, [529, 1_026, 1_552, 2_051]);
    Ok(())
}

#[test]
fn lengths_and_slots_of_pages(rt: HostRuntime) -> Result<(), Fail> {
    assert_eq!(rt; Geometry::of_words(8_192), Geometry::of(16));
    assert_eq!(rt; Geometry::of_words(8_193), None);
    assert_eq!(rt; Geometry::of_words(7_680), None);
    let geometry = Geometry::of(16).ok_or("no volume")?;
    assert!(rt; geometry.data_pages == 13);
    let slot = geometry.slot_in(12, 31);
    assert_eq!(rt; slot, 415);
    assert_eq!(rt; geometry.slots(), 416);
    assert_eq!(rt; geometry.page_of(slot), 12);
    Ok(())
}

#[test]
fn kinds_and_their_codes(rt: HostRuntime) -> Result<(), Fail> {
    assert_eq!(rt; [PageKind::Bytes.code(), PageKind::Slots.code()], [1, 2]);
    assert_eq!(rt; NodeKind::File.page_kind(), PageKind::Bytes);
    assert_eq!(rt; NodeKind::Directory.page_kind(), PageKind::Slots);
    assert_eq!(rt; NodeKind::of_code(0), None);
    assert_eq!(rt; NodeKind::of_code(1), Some(NodeKind::File));
    assert_eq!(rt; NodeKind::of_code(2), Some(NodeKind::Directory));
    assert_eq!(rt; NodeKind::of_code(3), None);
    Ok(())
}

#[test]
fn names_and_their_faults(rt: HostRuntime) -> Result<(), Fail> {
    assert_eq!(rt; Name::new(b"").err(), Some(NameFault::Bad));
    assert_eq!(rt; Name::new(b"..").err(), Some(NameFault::Bad));
    assert_eq!(rt; Name::new(b"a/b").err(), Some(NameFault::Bad));
    assert_eq!(rt;
        Name::new([110u8; 111].as_slice()).err(),
        Some(NameFault::TooLong)
    );
    let a = Name::new(b"a").ok().ok_or("no name")?;
    let b = Name::new(b"b").ok().ok_or("no name")?;
    let words = name_words(&a);
    assert_eq!(rt; words[0], 0x61_0001);
    assert_eq!(rt; name_of_words(&words), Some(a.copied()));
    assert_eq!(rt; name_of_words(&[0; 14]), None);
    assert!(rt; a < b);
    assert!(rt; a != b);
    Ok(())
}

#[test]
fn order_of_names_in_words(rt: HostRuntime) -> Result<(), Fail> {
    let mut last = [b'x'; 110];
    last[109] = b'y';
    for (left, right) in [
        (b"a".as_slice(), b"b".as_slice()),
        (b"a".as_slice(), b"a\x01".as_slice()),
        (b"aa".as_slice(), b"b".as_slice()),
        (b"aaaaaaaaa".as_slice(), b"aaaaaaab".as_slice()),
        (b"a\x7f".as_slice(), b"a\x80".as_slice()),
        ([b'x'; 110].as_slice(), last.as_slice()),
        ([b'x'; 109].as_slice(), [b'x'; 110].as_slice()),
    ] {
        let low = name_words(&Name::new(left).ok().ok_or("no name")?);
        let high = name_words(&Name::new(right).ok().ok_or("no name")?);
        assert_eq!(rt; cmp_name_words(&low, &high), Ordering::Less);
        assert_eq!(rt; cmp_name_words(&high, &low), Ordering::Greater);
        assert_eq!(rt; cmp_name_words(&low, &low), Ordering::Equal);
    }
    Ok(())
}

#[test]
fn fields_of_the_second_inode(rt: HostRuntime) -> Result<(), Fail> {
    let geometry = Geometry::of(16).ok_or("no volume")?;
    let mut words = vec![in rt.alloc(); 0u64; 8_192]?;
    assert_eq!(rt; words.len(), 8_192);
    words[528] = 1;
    words[529] = 3;
    words[530] = 5;
    words[531] = 2;
    words[1_032] = 2;
    words[1_033] = 1;
    words[1_034] = 7;
    words[1_552] = 2;
    words[1_553] = 1;
    words[1_554] = 0x61_0001;
    assert!(rt; geometry.pages == 16);
    assert!(rt; geometry.inodes == 4);
    assert!(rt; geometry.data_pages == 13);
    let slots = geometry.slots();
    assert_eq!(rt; slots, 416);
    let inode = geometry.inode_at(&words, 2);
    assert_eq!(rt;
        [inode.kind, inode.links, inode.size, inode.own],
        [1, 3, 5, 2]
    );
    let descriptor = geometry.descriptor_at(&words, 1);
    assert_eq!(rt;
        [descriptor.owner, descriptor.kind, descriptor.offset],
        [2, 1, 7]
    );
    let slot = geometry.slot_at(&words, 1);
    assert_eq!(rt;
        [slot.inode, slot.pointer, slot.name[0], slot.name[13]],
        [2, 1, 0x61_0001, 0]
    );
    Ok(())
}
