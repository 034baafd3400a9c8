// How many entries of a directory stand in each page.
ghost use Rattle.std.specs.Prelude.{◌≡◌, ◌+◌, ◌^◌, ◌<◌, ◌≤◌, [], ℕ, length, IsTrue, IsOk, IfOk, IfErr, OnOk, MatchOption};
ghost use Rattle.volatile_index.specs.Fills.{names_at, AreFull, IsRising, IsFillAt, IsFillGap, IsFirstOpen, Raises, IsOpenIn, IsLeastOpenIn};

use layout::PAGE_SLOTS;
use pm_trait::NoMemory;
use std::alloc::Global;
use std::marker::Model;

/// A page in whose slots entries stand, and how many.
#[derive(Drop)]
pub struct Fill {
    pub page: u64,
    pub names: u64,
}

/// The pages of a directory's entries, sorted by number, each with its count.
#[derive(Drop)]
pub struct Fills {
    fills: Vec<Fill>,
    // Where the first fill stands that has fewer than 32 names, or the number of fills.
    first_open: usize,
}

impl Model for Fills {
    ghost use Rattle.std.specs.Prelude.{nat_lt};
    ghost use Rattle.std.specs.Vec.{vec_len, vec_capacity};
    ghost use Rattle.volatile_index.specs.Fills.{FillsView, IsSound};

    ghost Value = { FillsView };

    ghost view = { λ list. record { fills = list.fills.items; has_room = nat_lt (vec_len list.fills) (vec_capacity list.fills) } };

    ghost invariant = { λ list. IsSound list.fills.items list.first_open };
}

impl Fills {
    /// No page.
    pub fn new(alloc: Global) -> Fills
        ensures { result.fills ≡ [] }
    {
        Fills {
            fills: Vec::new(alloc),
            first_open: 0,
        }
    }

    /// Takes memory for one more page. Whether there is any or not, the counts stay.
    ///
    /// Fails only where memory is out, and never where the room is there already.
    pub fn reserve_one(&mut self) -> Result<(), NoMemory>
        ensures fills { self.new.fills ≡ self.old.fills }
        ensures ok { OnOk result (IsTrue self.new.has_room) }
        ensures enough { IsTrue self.old.has_room → IsOk result }
    {
        self.fills.reserve(1)?;
        Ok(())
    }

    /// Counts one more entry in a page. The room is reserved before, so that it takes no memory.
    pub fn raise(&mut self, page: u64)
        requires room { IsTrue self.old.has_room }
        requires fits { names_at self.old.fills page + 1 < 2 ^ 64 }
        ensures { Raises page self.old.fills self.new.fills }
    {
        match place_of_page(&self.fills, page) {
            Ok(place) => {
                let names = self.fills[place].names + 1;
                self.fills[place] = Fill { page, names };
                self.first_open = pass_full(&self.fills, self.first_open);
            }
            Err(place) => {
                let _ = self.fills.insert(place, Fill { page, names: 1 });
                self.first_open = place.min(self.first_open);
            }
        }
    }

    /// Counts one entry less in a page. Room that was there stays.
    pub fn lower(&mut self, page: u64)
        requires some { 1 ≤ names_at self.old.fills page }
        ensures counts { Raises page self.new.fills self.old.fills }
        ensures room { IsTrue self.old.has_room → IsTrue self.new.has_room }
    {
        if let Ok(place) = place_of_page(&self.fills, page) {
            let names = self.fills[place].names;
            let first_open = place.min(self.first_open);
            if names == 1 {
                let _ = self.fills.remove(place);
                self.first_open = pass_full(&self.fills, first_open);
            } else {
                self.fills[place] = Fill {
                    page,
                    names: names - 1,
                };
                self.first_open = pass_full(&self.fills, first_open);
            }
        }
    }

    /// The least page in which entries stand, but fewer than 32.
    pub fn least_open(&self) -> Option<u64>
        ensures { MatchOption result ((page : ℕ) → ¬ IsOpenIn self.now.fills page) (λ page. IsLeastOpenIn self.now.fills page) }
    {
        if self.first_open < self.fills.len() {
            Some(self.fills[self.first_open].page)
        } else {
            None
        }
    }
}

// Where the fill of a page stands, or would stand.
fn place_of_page(fills: &[Fill], page: u64) -> Result<usize, usize>
    requires { IsRising fills.now }
    ensures found { IfOk result (λ place. IsFillAt fills.now page place) }
    ensures gap { IfErr result (λ place. IsFillGap fills.now page place) }
{
    fills.binary_search_by_key(&page, |fill| fill.page)
}

// The first fill with room from a place on, where all before are full.
fn pass_full(fills: &[Fill], from: usize) -> usize
    requires within { from ≤ length fills.now }
    requires full { AreFull fills.now from }
    ensures { IsFirstOpen fills.now result }
{
    for place in from..fills.len() {
        if fills[place].names < PAGE_SLOTS {
            return place;
        }
    }
    fills.len()
}
