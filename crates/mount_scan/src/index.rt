// The index of a volume, made from its words. What it holds is said of the words that recovery makes of them.
ghost use Rattle.std.specs.Prelude.{◌≡◌, ℕ, ◌+◌, ◌<◌, ◌≤◌, [], length, IfOk, OnOk};
ghost use Rattle.layout.specs.Geometry.{inodes_of, data_pages_of};
ghost use Rattle.layout.specs.Fields.{inode_size};
ghost use Rattle.image_reading.specs.Images.{In};
ghost use Rattle.image_reading.specs.Litter.{IsInode};
ghost use Rattle.image_reading.specs.Reading.{HasBytes, pages_of_size};
ghost use Rattle.image_reading.specs.Scanned.{AreNames, IsScanned};
ghost use Rattle.volatile_index.specs.Index.{inodes_of_index, entries_of, pages_of, IsSameElsewhere};
ghost use Rattle.volume.specs.Stands.{KnowsNodes};
ghost use Rattle.mount_scan.specs.Building.{OfMended, HasPlaces, Holds};

use image_reading::Scanned;
use layout::{BYTES, FILE, PAGE_BYTES, name_of_words};
use pm_trait::NoMemory;
use std::alloc::Global;
use volatile_index::Index;

/// The entries of each directory, and the pages of each inode.
pub(crate) fn index_of_words(alloc: Global, scanned: &Scanned<'_>) -> Result<Index, NoMemory>
    requires { IsScanned scanned.now }
    ensures { IfOk result (λ index. OfMended scanned.now (λ P K. KnowsNodes P index K)) }
{
    let mut index = index_with_places(alloc, scanned)?;
    add_pages(&mut index, scanned)?;
    add_entries(&mut index, scanned, scanned.names())?;
    Ok(index)
}

// An index with a place for each page of a file. No page is known yet.
fn index_with_places(alloc: Global, scanned: &Scanned<'_>) -> Result<Index, NoMemory>
    requires { IsScanned scanned.now }
    ensures { IfOk result (λ index. OfMended scanned.now (λ P K. HasPlaces P K (inodes_of P) index)) }
{
    let mut index = Index::new(alloc, &scanned.image.geometry)?;
    for number in 0..scanned.image.geometry.inodes {
        let count = file_pages(scanned, number + 1);
        add_places(&mut index, number + 1, count)?;
    }
    Ok(index)
}

// How many pages an inode has if it is a file, and else 0.
fn file_pages(scanned: &Scanned<'_>, inode: u64) -> u64
    requires scanned { IsScanned scanned.now }
    requires inode { IsInode scanned.now.image.geometry.pages inode }
    ensures file { OfMended scanned.now (λ P K. HasBytes K inode → result ≡ pages_of_size (inode_size K inode)) }
    ensures other { OfMended scanned.now (λ P K. ¬ HasBytes K inode → result ≡ 0) }
{
    if !scanned.is_reached(inode) {
        return 0;
    }
    let fields = scanned.image.geometry.inode_at(scanned.image.words, inode);
    if fields.kind != FILE {
        return 0;
    }
    fields.size.div_ceil(PAGE_BYTES)
}

// Gives an inode places for so many more pages.
fn add_places(index: &mut Index, inode: u64, count: u64) -> Result<(), NoMemory>
    requires from_one { 1 ≤ inode }
    requires in_range { inode ≤ inodes_of_index index.old }
    ensures places { OnOk result (length (pages_of index.new inode) ≡ length (pages_of index.old inode) + count) }
    ensures entries { entries_of index.new inode ≡ entries_of index.old inode }
    ensures elsewhere { IsSameElsewhere inode index.old index.new }
{
    index.reserve_pages(inode, count)?;
    for _ in 0..count {
        index.push_page(inode, 0);
    }
    Ok(())
}

// Adds the pages that are kept.
fn add_pages(index: &mut Index, scanned: &Scanned<'_>) -> Result<(), NoMemory>
    requires scanned { IsScanned scanned.now }
    requires places { OfMended scanned.now (λ P K. HasPlaces P K (inodes_of P) index.old) }
    ensures { OnOk result (OfMended scanned.now (λ P K. Holds P K (data_pages_of P) [] 0 index.new)) }
{
    for page in 0..scanned.image.geometry.data_pages {
        add_page(index, scanned, page)?;
    }
    Ok(())
}

// Adds a page, if it is kept.
fn add_page(index: &mut Index, scanned: &Scanned<'_>, page: u64) -> Result<(), NoMemory>
    requires scanned { IsScanned scanned.now }
    requires in_range { page < data_pages_of scanned.now.image.geometry.pages }
    requires holds { OfMended scanned.now (λ P K. Holds P K page [] 0 index.old) }
    ensures { OnOk result (OfMended scanned.now (λ P K. Holds P K (page + 1) [] 0 index.new)) }
{
    if !scanned.is_kept(page) {
        return Ok(());
    }
    let fields = scanned
        .image
        .geometry
        .descriptor_at(scanned.image.words, page);
    if fields.kind == BYTES {
        index.swap_page(fields.owner, fields.offset, page);
        return Ok(());
    }
    index.reserve_pages(fields.owner, 1)?;
    index.push_page(fields.owner, page);
    Ok(())
}

// Adds the entries of these names: each goes to the end of its directory's list.
fn add_entries(index: &mut Index, scanned: &Scanned<'_>, names: &[u32]) -> Result<(), NoMemory>
    requires scanned { IsScanned scanned.now }
    requires names { AreNames scanned.now.image.geometry.pages scanned.now.image.words.now names.now }
    requires holds { OfMended scanned.now (λ P K. Holds P K (data_pages_of P) [] 0 index.old) }
    ensures { OnOk result (OfMended scanned.now (λ P K.
        Holds P K (data_pages_of P) names.now (length names.now) index.new)) }
{
    for place in 0..names.len() {
        add_entry(index, scanned, names, place)?;
    }
    Ok(())
}

// Adds the entry of one of the names.
fn add_entry(
    index: &mut Index,
    scanned: &Scanned<'_>,
    names: &[u32],
    place: usize,
) -> Result<(), NoMemory>
    requires scanned { IsScanned scanned.now }
    requires names { AreNames scanned.now.image.geometry.pages scanned.now.image.words.now names.now }
    requires place { place < length names.now }
    requires holds { OfMended scanned.now (λ P K. Holds P K (data_pages_of P) names.now place index.old) }
    ensures { OnOk result (OfMended scanned.now (λ P K.
        Holds P K (data_pages_of P) names.now (place + 1) index.new)) }
{
    let geometry = &scanned.image.geometry;
    let slot = u64::from(names[place]);
    let fields = geometry.slot_at(scanned.image.words, slot);
    let Some(name) = name_of_words(&fields.name) else {
        return Ok(());
    };
    let page = geometry.page_of(slot);
    let directory = geometry.descriptor_at(scanned.image.words, page).owner;
    index.reserve_one(directory)?;
    index.put(directory, name, slot);
    Ok(())
}
