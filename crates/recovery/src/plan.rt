// Which repairs an image needs.
ghost use Rattle.std.specs.Prelude.{◌≡◌, ℕ, ◌+◌, ◌*◌, ◌<◌, List, IfOk, OnOk, length, slice_index, vec_len};
ghost use Rattle.layout.specs.Geometry.{data_pages_of};
ghost use Rattle.image_reading.specs.Images.{In};
ghost use Rattle.image_reading.specs.Reading.{IsLinkCount, Reached};
ghost use Rattle.image_reading.specs.Repairs.{IsKeptDirectoryPage, IsLitterCount, IsLitterInode};
ghost use Rattle.image_reading.specs.Scanned.{IsScanned};
ghost use Rattle.image_reading.specs.Soundness.{Sound, pages_in_image};
ghost use Rattle.image_reading.specs.Tidy.{IsTidied};
ghost use Rattle.recovery.specs.Repairs.{events_of_repairs};
ghost use Rattle.repair_laws.specs.Stored.{HasNeedlessOwner, HasNeedlessKind, HasDeadName};
ghost use Rattle.recovery.specs.Listing.{IsListBelow};
ghost use Rattle.recovery.specs.Plans.{IsListOf, IsPlanOf};

use crate::Repairs;
use crate::needs::{
    has_dead_name, has_needless_kind, has_needless_owner, has_other_links, is_kept_directory_page,
    is_litter_inode,
};
use image_reading::{Scan, Scanned, first_fault};
use layout::{Geometry, PAGE_SLOTS, descriptor_words, inode_words};
use pm_trait::{NoMemory, Pm};
use std::alloc::Global;

impl Repairs {
    /// The repairs of an image in which nothing is to be repaired: none. It takes no memory.
    pub fn none(alloc: Global, geometry: &Geometry, words: &[u64]) -> Repairs
        ensures planned { IsTidied geometry.now.pages words.now → IsPlanOf words.now result }
        ensures made_for { result.geometry ≡ geometry.now }
        ensures nothing { events_of_repairs result ≡ 0 }
    {
        Repairs {
            geometry: *geometry,
            left: None,
            pointer: None,
            owners: Vec::new(alloc),
            slots: Vec::new(alloc),
            links: Vec::new(alloc),
            counts: Vec::new(alloc),
            descriptors: Vec::new(alloc),
            descriptor_width: descriptor_words(words),
            inodes: Vec::new(alloc),
            inode_width: inode_words(words),
        }
    }

    /// The repairs that an image needs whose words fit together. `NoMemory` where there is none for the lists.
    pub fn of(alloc: Global, scanned: &Scanned<'_>) -> Result<Repairs, NoMemory>
        requires { IsScanned scanned.now }
        ensures planned { IfOk result (IsPlanOf scanned.now.image.words.now) }
        ensures made_for { IfOk result (λ repairs. repairs.geometry ≡ scanned.now.image.geometry) }
    {
        let owners = needless_owners(alloc, scanned)?;
        let slots = dead_names(alloc, scanned)?;
        let links = other_links(alloc, scanned)?;
        let counts = counts_of(alloc, scanned, links.as_slice())?;
        let descriptors = needless_kinds(alloc, scanned)?;
        let inodes = litter_inodes(alloc, scanned)?;
        Ok(Repairs {
            geometry: scanned.image.geometry,
            left: scanned.left(),
            pointer: scanned.pointer(),
            owners,
            slots,
            links,
            counts,
            descriptors,
            descriptor_width: descriptor_words(scanned.image.words),
            inodes,
            inode_width: inode_words(scanned.image.words),
        })
    }
}

/// The repairs that the device's words need, which are sound.
///
/// `NoMemory` where there is none to look at the words, or for the lists.
pub fn plan_repairs<P: Pm>(alloc: Global, pm: &P) -> Result<Repairs, NoMemory>
    requires { Sound (pages_in_image (P.view pm.now).words) (P.view pm.now).words }
    ensures planned { IfOk result (IsPlanOf (P.view pm.now).words) }
    ensures made_for { IfOk result (λ repairs. repairs.geometry.pages ≡ pages_in_image (P.view pm.now).words) }
{
    let words = pm.image();
    let Some(geometry) = Geometry::of_words(words.len() as u64) else {
        unreachable!()
    };
    let mut scan = Scan::new(alloc, &geometry)?;
    let _fault = first_fault(words, &mut scan);
    Repairs::of(alloc, &scan.scanned(words))
}

// The pages that have an owner and aren't kept.
fn needless_owners(alloc: Global, scanned: &Scanned<'_>) -> Result<Vec<u64>, NoMemory>
    requires { IsScanned scanned.now }
    ensures { IfOk result (λ pages. IsListOf (In scanned.now.image HasNeedlessOwner) pages.items) }
{
    let mut pages = Vec::new(alloc);
    for page in 0..scanned.image.geometry.data_pages {
        if has_needless_owner(scanned, page) {
            pages.push(page)?;
        }
    }
    Ok(pages)
}

// The pages that have a word other than 0 behind their owner and aren't kept.
fn needless_kinds(alloc: Global, scanned: &Scanned<'_>) -> Result<Vec<u64>, NoMemory>
    requires { IsScanned scanned.now }
    ensures { IfOk result (λ pages. IsListOf (In scanned.now.image HasNeedlessKind) pages.items) }
{
    let mut pages = Vec::new(alloc);
    for page in 0..scanned.image.geometry.data_pages {
        if has_needless_kind(scanned, page) {
            pages.push(page)?;
        }
    }
    Ok(pages)
}

// The slots of kept pages that have a name and aren't live.
fn dead_names(alloc: Global, scanned: &Scanned<'_>) -> Result<Vec<u64>, NoMemory>
    requires { IsScanned scanned.now }
    ensures { IfOk result (λ slots. IsListOf (In scanned.now.image HasDeadName) slots.items) }
{
    let mut slots = Vec::new(alloc);
    for page in 0..scanned.image.geometry.data_pages {
        if is_kept_directory_page(scanned, page) {
            push_dead_names(&mut slots, scanned, page)?;
        }
    }
    Ok(slots)
}

// Puts those of one page behind those of the pages before it.
fn push_dead_names(slots: &mut Vec<u64>, scanned: &Scanned<'_>, page: u64) -> Result<(), NoMemory>
    requires scanned { IsScanned scanned.now }
    requires in_range { page < data_pages_of scanned.now.image.geometry.pages }
    requires kept { In scanned.now.image IsKeptDirectoryPage page }
    requires before { IsListBelow (In scanned.now.image HasDeadName) (32 * page) slots.old.items }
    ensures { OnOk result (IsListBelow (In scanned.now.image HasDeadName) (32 * (page + 1)) slots.new.items) }
{
    for place in 0..PAGE_SLOTS {
        let slot = scanned.image.geometry.slot_in(page, place);
        if has_dead_name(scanned, slot) {
            slots.push(slot)?;
        }
    }
    Ok(())
}

// The reached inodes that have other links than are counted.
fn other_links(alloc: Global, scanned: &Scanned<'_>) -> Result<Vec<u64>, NoMemory>
    requires { IsScanned scanned.now }
    ensures { IfOk result (λ inodes. IsListOf (In scanned.now.image IsLitterCount) inodes.items) }
{
    let mut inodes = Vec::new(alloc);
    for number in 0..scanned.image.geometry.inodes {
        let inode = number + 1;
        if has_other_links(scanned, inode) {
            inodes.push(inode)?;
        }
    }
    Ok(inodes)
}

// The links that are counted of each of these inodes.
fn counts_of(alloc: Global, scanned: &Scanned<'_>, inodes: &[u64]) -> Result<Vec<u64>, NoMemory>
    requires scanned { IsScanned scanned.now }
    requires reached { (place : ℕ) → place < length inodes.now
        → In scanned.now.image Reached (slice_index inodes.now place) }
    ensures size { IfOk result (λ counts. vec_len counts ≡ length inodes.now) }
    ensures each { IfOk result (λ counts. (place : ℕ) → place < length inodes.now
        → IsLinkCount scanned.now.image.geometry.pages scanned.now.image.words.now (slice_index inodes.now place)
        (slice_index counts.items place)) }
{
    let mut counts = Vec::new(alloc);
    for inode in inodes {
        counts.push(scanned.links(*inode))?;
    }
    Ok(counts)
}

// The inodes that aren't reached and have a word that isn't zero.
fn litter_inodes(alloc: Global, scanned: &Scanned<'_>) -> Result<Vec<u64>, NoMemory>
    requires { IsScanned scanned.now }
    ensures { IfOk result (λ inodes. IsListOf (In scanned.now.image IsLitterInode) inodes.items) }
{
    let mut inodes = Vec::new(alloc);
    for number in 0..scanned.image.geometry.inodes {
        let inode = number + 1;
        if is_litter_inode(scanned, inode) {
            inodes.push(inode)?;
        }
    }
    Ok(inodes)
}
