// Calls on a volume made by hand. Those that read a device are called where a volume is mounted.
use allocators::Numbers;
use layout::{Geometry, Name, ROOT};
use std::test::Fail;
use tree_model::Refusal;
use volatile_index::Index;
use volume::{Volume, Walk};

#[test]
fn takes_in_a_name_and_a_node(rt: HostRuntime) -> Result<(), Fail> {
    let geometry = Geometry::of(16).ok_or("no volume")?;
    if geometry.inodes != 4 {
        return Err("another number of inodes".into());
    }
    let name = Name::new(b"a").ok().ok_or("no name")?;
    let mut index = Index::new(rt.alloc(), &geometry)?;
    index.reserve_one(1)?;
    let None = index.find(1, &name) else {
        return Err("the name is there".into());
    };
    let mut inodes = Numbers::new(rt.alloc(), 4)?;
    inodes.take(0);
    let data_pages = Numbers::new(rt.alloc(), geometry.data_pages)?;
    let mut volume = Volume::from_parts(rt.alloc(), geometry, index, inodes, data_pages, false);
    volume.take_inode(2);
    volume.put_name(1, name, 7, None);
    assert_eq!(rt; volume.count(ROOT), 1);
    let entry = volume.nth(ROOT, 0);
    assert_eq!(rt; entry.name.as_slice(), b"a".as_slice());
    assert_eq!(rt; entry.slot, 7);
    assert_eq!(rt; volume.geometry().pages, 16);
    Ok(())
}

#[test]
fn a_new_page_is_taken_before_its_name_is_in(rt: HostRuntime) -> Result<(), Fail> {
    let geometry = Geometry::of(16).ok_or("no volume")?;
    if geometry.inodes != 4 || geometry.data_pages != 13 {
        return Err("another number of inodes or pages".into());
    }
    let name = Name::new(b"a").ok().ok_or("no name")?;
    let mut index = Index::new(rt.alloc(), &geometry)?;
    index.reserve_one(1)?;
    index.reserve_pages(1, 1)?;
    let None = index.find(1, &name) else {
        return Err("the name is there".into());
    };
    let inodes = Numbers::new(rt.alloc(), 4)?;
    let data_pages = Numbers::new(rt.alloc(), 13)?;
    let mut volume = Volume::from_parts(rt.alloc(), geometry, index, inodes, data_pages, false);
    volume.take_page(Some(2));
    assert_eq!(rt; volume.pages(ROOT).len(), 0);
    volume.put_name(1, name, 64, Some(2));
    assert_eq!(rt; volume.pages(ROOT), [2].as_slice());
    volume.give_page(1, Some(2));
    assert_eq!(rt; volume.pages(ROOT).len(), 0);
    Ok(())
}

#[test]
fn stops(rt: HostRuntime) -> Result<(), Fail> {
    let geometry = Geometry::of(16).ok_or("no volume")?;
    let index = Index::new(rt.alloc(), &geometry)?;
    let inodes = Numbers::new(rt.alloc(), geometry.inodes)?;
    let data_pages = Numbers::new(rt.alloc(), geometry.data_pages)?;
    let mut volume = Volume::from_parts(rt.alloc(), geometry, index, inodes, data_pages, false);
    assert!(rt; !volume.stopped());
    volume.stop();
    assert!(rt; volume.stopped());
    Ok(())
}

#[test]
fn has_its_mark_until_it_is_cleared(rt: HostRuntime) -> Result<(), Fail> {
    let geometry = Geometry::of(16).ok_or("no volume")?;
    let index = Index::new(rt.alloc(), &geometry)?;
    let inodes = Numbers::new(rt.alloc(), geometry.inodes)?;
    let data_pages = Numbers::new(rt.alloc(), geometry.data_pages)?;
    let mut volume = Volume::from_parts(rt.alloc(), geometry, index, inodes, data_pages, true);
    assert!(rt; volume.marked());
    volume.clear_mark();
    assert!(rt; !volume.marked());
    Ok(())
}

#[test]
fn walks_that_fail_are_refusals(rt: HostRuntime) {
    assert_eq!(rt; Refusal::from(Walk::NotFound), Refusal::NotFound);
    assert_eq!(rt; Refusal::from(Walk::NotDir), Refusal::NotDir);
}
