// The tables of a scan, and the rules that need them.
ghost use Rattle.std.specs.Prelude.{◌≡◌, ◌+◌, ◌≤◌, vec_len, vec_capacity};
ghost use Rattle.layout.specs.Geometry.{slots_of};

use crate::Violation;
use crate::chain::{fault_of_links, fault_of_names, fault_of_pages, fault_of_pointers};
use crate::held::rename_of;
use crate::image::{Image, Walked};
use crate::pages::{Lists, link_pages};
use crate::reach::Reach;
use crate::scanned::Scanned;
use crate::table::collect_slots;
use crate::walk::walk_tree;
use layout::Geometry;
use pm_trait::NoMemory;
use std::alloc::Global;

/// Working tables for the images of volumes of one size.
#[derive(Drop)]
pub struct Scan {
    /// The volumes that it is for.
    pub geometry: Geometry,
    // The links to each inode's first page, and to each page's next.
    first: Vec<u64>,
    next: Vec<u64>,
    // For each page, and behind the last, the link to the first held page from there on.
    held: Vec<u64>,
    // The held slot with a rename pointer.
    pointer: Option<u64>,
    reach: Reach,
    // The reached slots, by directory and then by name.
    names: Vec<u32>,
    // For each inode whether a directory's name has been seen, and its counted links.
    named: Vec<bool>,
    tally: Vec<u64>,
    // For each offset the last file that has a page there.
    stamps: Vec<u64>,
    ghost room_for_first: { vec_len first ≡ geometry.inodes + 1 },
    ghost room_for_next: { vec_len next ≡ geometry.data_pages },
    ghost room_for_held: { vec_len held ≡ geometry.data_pages + 1 },
    ghost room_for_reached: { vec_len reach.reached ≡ geometry.inodes + 1 },
    ghost room_for_names: { slots_of geometry.pages ≤ vec_capacity names },
    ghost room_for_named: { vec_len named ≡ geometry.inodes + 1 },
    ghost room_for_tally: { vec_len tally ≡ geometry.inodes + 1 },
    ghost room_for_stamps: { vec_len stamps ≡ geometry.data_pages },
}

impl Scan {
    ghost use Rattle.std.specs.Prelude.{◌≡◌, ◌*◌, ℕ, IfOk, None, length};
    ghost use Rattle.image_reading.specs.Scan.{AreHeld, FindsFault, IsLinked, IsPointerAt, KeepsBelow};
    ghost use Rattle.image_reading.specs.Scanned.{HasScanned, IsScanned};
    ghost use Rattle.image_reading.specs.Soundness.{IsCoherent, IsOnlyPointer, pages_in_image};
    ghost use Rattle.image_reading.specs.Walk.{IsWalkDone};

    /// Tables for volumes of this size.
    ///
    /// Fails where memory runs out, and for nothing else.
    pub fn new(alloc: Global, geometry: &Geometry) -> Result<Scan, NoMemory>
        ensures { IfOk result (λ scan. scan.geometry ≡ geometry.now) }
    {
        let inodes = geometry.inodes as usize + 1;
        let pages = geometry.data_pages as usize;
        let reach = Reach::new(alloc, inodes)?;
        let first = vec![in alloc; 0; inodes]?;
        let next = vec![in alloc; 0; pages]?;
        let held = vec![in alloc; 0; pages + 1]?;
        let names = Vec::with_capacity(alloc, geometry.slots() as usize)?;
        let named = vec![in alloc; false; inodes]?;
        let tally = vec![in alloc; 0; inodes]?;
        let stamps = vec![in alloc; 0; pages]?;
        Ok(Scan {
            geometry: *geometry,
            first,
            next,
            held,
            pointer: None,
            reach,
            names,
            named,
            tally,
            stamps,
        })
    }

    // Rules 3 and 4. Links the pages of each owner and the held pages, and finds the rename pointer.
    fn find_pointer(&mut self, words: &[u64]) -> Option<Violation>
        requires whole { length words.now ≡ 512 * self.old.geometry.pages }
        requires kept { KeepsBelow self.old.geometry.pages words.now 3 }
        ensures found { FindsFault self.old.geometry.pages words.now 5 result }
        ensures linked { IsLinked self.old.geometry.pages words.now self.new.first.items self.new.next.items }
        ensures held { AreHeld self.old.geometry.pages words.now self.new.held.items }
        ensures pointer { result ≡ None → IsPointerAt self.old.geometry.pages words.now self.new.pointer }
        ensures made_for { self.new.geometry ≡ self.old.geometry }
    {
        let image = Image {
            words,
            geometry: self.geometry,
        };
        link_pages(
            &image,
            self.first.as_mut_slice(),
            self.next.as_mut_slice(),
            self.held.as_mut_slice(),
        );
        fault_of_pointers(&image, self.held.as_slice(), &mut self.pointer)
    }

    // Finds what is reached.
    fn walk(&mut self, words: &[u64])
        requires whole { length words.now ≡ 512 * self.old.geometry.pages }
        requires one_pointer { (s : ℕ) → IsOnlyPointer self.old.geometry.pages words.now s }
        requires linked { IsLinked self.old.geometry.pages words.now self.old.first.items self.old.next.items }
        requires held { AreHeld self.old.geometry.pages words.now self.old.held.items }
        requires pointer { IsPointerAt self.old.geometry.pages words.now self.old.pointer }
        ensures done { IsWalkDone self.old.geometry.pages words.now self.new.first.items self.new.next.items
            self.new.held.items self.new.reach }
        ensures pointer { self.new.pointer ≡ self.old.pointer }
        ensures made_for { self.new.geometry ≡ self.old.geometry }
    {
        let image = Image {
            words,
            geometry: self.geometry,
        };
        let rename = rename_of(&image, self.pointer);
        let lists = Lists {
            first: self.first.as_slice(),
            next: self.next.as_slice(),
            held: self.held.as_slice(),
        };
        walk_tree(&image, rename, lists, &mut self.reach);
    }

    /// Rules 3 to 14, where those before hold.
    pub(crate) fn fault_of_tree(&mut self, words: &[u64]) -> Option<Violation>
        requires whole { length words.now ≡ 512 * self.old.geometry.pages }
        requires kept { KeepsBelow self.old.geometry.pages words.now 3 }
        ensures found { FindsFault self.old.geometry.pages words.now 15 result }
        ensures knows { result ≡ None → HasScanned words.now self.new }
        ensures made_for { self.new.geometry ≡ self.old.geometry }
    {
        if let Some(fault) = self.find_pointer(words) {
            return Some(fault);
        }
        self.walk(words);
        let image = Image {
            words,
            geometry: self.geometry,
        };
        let lists = Lists {
            first: self.first.as_slice(),
            next: self.next.as_slice(),
            held: self.held.as_slice(),
        };
        let walked = Walked::new(image, lists, &self.reach);
        collect_slots(&walked, &mut self.names);
        let named = self.named.as_mut_slice();
        if let Some(fault) = fault_of_names(&walked, named, self.names.as_mut_slice()) {
            return Some(fault);
        }
        if let Some(fault) = fault_of_pages(&walked, self.stamps.as_mut_slice()) {
            return Some(fault);
        }
        fault_of_links(&walked, self.names.as_slice(), self.tally.as_mut_slice())
    }

    /// The image that these words are, which fit together, with what the scan knows of it.
    pub fn scanned<'a>(&'a self, words: &'a [u64]) -> Scanned<'a>
        requires made_for { length words.now ≡ 512 * self.now.geometry.pages }
        requires known { HasScanned words.now self.now }
        requires coherent { IsCoherent (pages_in_image words.now) words.now }
        ensures known { IsScanned result }
        ensures words { result.image.words.now ≡ words.now }
        ensures geometry { result.image.geometry ≡ self.now.geometry }
    {
        let image = Image {
            words,
            geometry: self.geometry,
        };
        Scanned {
            image,
            reach: &self.reach,
            pointer: self.pointer,
            names: self.names.as_slice(),
            tally: self.tally.as_slice(),
        }
    }
}
