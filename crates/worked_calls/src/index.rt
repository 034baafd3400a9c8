// Names and pages of inodes in memory, and of that what no clause says: that calls which need memory succeed, and the order
// of names in examples.
ghost use Rattle.std.specs.Prelude.{◌≡◌, ◌+◌, ◌<◌, ◌≤◌, ℕ, length, IfOk};
ghost use Rattle.volatile_index.specs.Index.{inodes_of_index, node_of, entries_of, IsEmpty};

use counting::Steps;
use layout::{Geometry, Name};
use std::alloc::Global;
use std::marker::Brand;
use std::process::Abort;
use std::sync::ledger::{Blank, Ledger};
use std::test::Fail;
use volatile_index::Index;

fn name(text: &str) -> Result<Name, Fail> {
    Ok(Name::new(text.as_bytes()).ok().ok_or("no name")?)
}

// An index of the least volume, whose inodes are 1 to 4.
fn least_index(alloc: Global) -> Result<Index, Fail>
    ensures inodes { IfOk result (λ index. inodes_of_index index ≡ 4) }
    ensures empty { IfOk result (λ index. (inode : ℕ) → IsEmpty (node_of index inode)) }
{
    let geometry = Geometry::of(16).ok_or("no volume")?;
    if geometry.inodes != 4 {
        return Err("another number of inodes".into());
    }
    Ok(Index::new(alloc, &geometry)?)
}

// Puts an entry into the directory 2.
fn add(index: &mut Index, text: &str, slot: u64) -> Result<(), Fail>
    requires inodes { inodes_of_index index.old ≡ 4 }
    ensures inodes { inodes_of_index index.new ≡ 4 }
{
    let name = name(text)?;
    index.reserve_one(2)?;
    match index.find(2, &name) {
        None => index.put(2, name, slot),
        Some(_) => return Err("the name is there".into()),
    }
    Ok(())
}

// Removes an entry of the directory 2.
fn take(index: &mut Index, text: &str) -> Result<(), Fail>
    requires inodes { inodes_of_index index.old ≡ 4 }
    ensures inodes { inodes_of_index index.new ≡ 4 }
{
    let name = name(text)?;
    match index.find(2, &name) {
        Some(_) => index.remove(2, &name),
        None => return Err("the name is not there".into()),
    }
    Ok(())
}

// Asserts which entry of the directory 2 stands at a place.
fn assert_nth(rt: &impl Abort, index: &Index, k: u64, text: &str, slot: u64)
    requires { inodes_of_index index.now ≡ 4 }
{
    assert!(rt; k < index.count(2));
    let entry = index.nth(2, k);
    assert_eq!(rt; entry.name.as_slice(), text.as_bytes());
    assert_eq!(rt; entry.slot, slot);
}

#[test]
fn names_stand_in_the_order_of_their_bytes(rt: HostRuntime) -> Result<(), Fail> {
    let mut index = least_index(rt.alloc())?;
    add(&mut index, "ab", 0)?;
    add(&mut index, "b", 1)?;
    add(&mut index, "A", 2)?;
    add(&mut index, "a b", 3)?;
    add(&mut index, "a", 4)?;
    assert_eq!(rt; (index.count(2), index.count(1), index.count(4)), (5, 0, 0));
    assert_nth(&rt, &index, 0, "A", 2);
    assert_nth(&rt, &index, 1, "a", 4);
    assert_nth(&rt, &index, 2, "a b", 3);
    assert_nth(&rt, &index, 3, "ab", 0);
    assert_nth(&rt, &index, 4, "b", 1);
    Ok(())
}

#[test]
fn finds_what_is_there(rt: HostRuntime) -> Result<(), Fail> {
    let mut index = least_index(rt.alloc())?;
    add(&mut index, "a", 7)?;
    add(&mut index, "b", 8)?;
    assert_eq!(rt; index.find(2, &name("a")?), Some(7));
    assert_eq!(rt; index.find(2, &name("b")?), Some(8));
    assert_eq!(rt; index.find(2, &name("ab")?), None);
    assert_eq!(rt; index.find(3, &name("a")?), None);
    take(&mut index, "a")?;
    assert_eq!(rt; index.find(2, &name("a")?), None);
    assert_eq!(rt; index.find(2, &name("b")?), Some(8));
    Ok(())
}

// Finds a name among those of the directory 2, in no more steps than so many names may take.
fn find_in_few_steps<L: Ledger>(index: &Index, name: &Name, steps: &mut Steps<L>) -> Option<u64>
    requires { inodes_of_index index.now ≡ 4 }
    ensures none { length (entries_of index.now 2) ≡ 0 → steps.new ≤ steps.old }
    ensures one { length (entries_of index.now 2) ≡ 1 → steps.new ≤ steps.old + 1 }
    ensures three { length (entries_of index.now 2) ≤ 3 → steps.new ≤ steps.old + 2 }
    ensures seven { length (entries_of index.now 2) ≤ 7 → steps.new ≤ steps.old + 3 }
    ensures eight { length (entries_of index.now 2) ≤ 8 → steps.new ≤ steps.old + 4 }
    ensures fourteen { length (entries_of index.now 2) ≤ 16383 → steps.new ≤ steps.old + 14 }
    ensures seventeen { length (entries_of index.now 2) ≤ 65536 → steps.new ≤ steps.old + 17 }
    ensures twenty { length (entries_of index.now 2) ≤ 1000000 → steps.new ≤ steps.old + 20 }
{
    index.find_counted(2, name, steps)
}

fn find_from_none<L: Ledger>(index: &Index, name: &Name, blank: Blank) -> Option<u64>
    requires inodes { inodes_of_index index.now ≡ 4 }
    requires name { blank.name ≡ L.name }
    requires parts { blank.parts ≡ L.parts }
    requires some { 0 < blank.parts }
{
    find_in_few_steps(index, name, &mut Steps::<L>::new(blank))
}

#[test]
fn few_names_take_few_steps(rt: HostRuntime) -> Result<(), Fail> {
    let mut index = least_index(rt.alloc())?;
    add(&mut index, "b", 1)?;
    add(&mut index, "c", 2)?;
    add(&mut index, "a", 3)?;
    let found = find_from_none::<Brand>(&index, &name("a")?, Blank::new(1));
    let missing = find_from_none::<Brand>(&index, &name("d")?, Blank::new(1));
    assert_eq!(rt; (found, missing), (Some(3), None));
    Ok(())
}

// Puts an entry into each of the first slots.
fn fill(alloc: Global, index: &mut Index, slots: u64) -> Result<(), Fail>
    requires inodes { inodes_of_index index.old ≡ 4 }
    ensures inodes { inodes_of_index index.new ≡ 4 }
{
    for slot in 0..slots {
        let text = format!(in alloc; "{slot}")?;
        add(index, &text, slot)?;
    }
    Ok(())
}

#[test]
fn a_page_of_32_names_has_no_room(rt: HostRuntime) -> Result<(), Fail> {
    let mut index = least_index(rt.alloc())?;
    assert_eq!(rt; index.page_with_room(2), None);
    fill(rt.alloc(), &mut index, 33)?;
    assert_eq!(rt; index.page_with_room(2), Some(1));
    take(&mut index, "7")?;
    assert_eq!(rt; index.page_with_room(2), Some(0));
    add(&mut index, "7", 7)?;
    assert_eq!(rt; index.page_with_room(2), Some(1));
    take(&mut index, "32")?;
    assert_eq!(rt; index.page_with_room(2), None);
    Ok(())
}

#[test]
fn pages_stand_in_the_order_of_their_coming(rt: HostRuntime) -> Result<(), Fail> {
    let mut index = least_index(rt.alloc())?;
    index.reserve_pages(4, 3)?;
    index.push_page(4, 9);
    index.push_page(4, 7);
    index.push_page(4, 8);
    assert_eq!(rt; index.pages(4), [9, 7, 8].as_slice());
    assert_eq!(rt; index.pages(1).len(), 0);
    index.cut_pages(4, 2);
    assert_eq!(rt; index.pages(4), [9].as_slice());
    Ok(())
}

#[test]
fn a_page_is_dropped_from_among_the_others(rt: HostRuntime) -> Result<(), Fail> {
    let mut index = least_index(rt.alloc())?;
    index.reserve_pages(2, 3)?;
    index.push_page(2, 9);
    index.push_page(2, 7);
    index.push_page(2, 8);
    index.drop_page(2, 7);
    assert_eq!(rt; index.pages(2), [9, 8].as_slice());
    Ok(())
}
