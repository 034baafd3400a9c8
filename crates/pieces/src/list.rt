// The list: few items in one vector, or many in pieces.
ghost use Rattle.std.specs.Prelude.{◌≡◌, ◌-◌, ◌<◌, ◌≤◌, [], length, insert, remove, slice_get, IsTrue, IsOk, OnOk, MatchOption, Some};

use crate::many::{Many, PIECE};
use std::alloc::{AllocError, Global};
use std::marker::Model;
use std::mem;

/// A list of items, told by its items alone.
#[derive(Drop)]
pub struct Pieces<T> {
    few: Vec<T>,
    many: Many<T>,
}

impl<T> Model for Pieces<T> {
    ghost use Rattle.pieces.specs.Pieces.{PiecesView, pieces_code};

    ghost Value = { PiecesView T };

    ghost coded = { pieces_code T.code };

    ghost use Rattle.pieces.specs.Inside.{view_of, IsSound};

    ghost view = { λ list. view_of list.few list.many };

    ghost invariant = { λ list. IsSound list.few list.many };
}

impl<T: Drop> Pieces<T> {
    /// No item.
    pub fn new(alloc: Global) -> Pieces<T>
        ensures { result.items ≡ [] }
    {
        Pieces {
            few: Vec::new(alloc),
            many: Many::new(alloc),
        }
    }

    /// How many items there are.
    pub fn len(&self) -> usize
        ensures { result ≡ length self.now.items }
    {
        if self.many.pieces.is_empty() {
            self.few.len()
        } else {
            self.many.len()
        }
    }

    /// One item, counted from 0.
    pub fn get(&self, k: usize) -> &T
        requires { k < length self.now.items }
        ensures { slice_get self.now.items k ≡ Some result.now }
    {
        if self.many.pieces.is_empty() {
            &self.few[k]
        } else {
            self.many.get(k)
        }
    }

    /// The last item, if there is one.
    pub fn last(&self) -> Option<&T>
        ensures { MatchOption result (self.now.items ≡ [])
            (λ item. slice_get self.now.items (length self.now.items - 1) ≡ Some item.now) }
    {
        let count = self.len();
        if count == 0 {
            return None;
        }
        Some(self.get(count - 1))
    }

    /// Takes memory for one insert, wherever it goes. Whether there is any or not, the items stay.
    ///
    /// Fails only where memory is out, and never where the room is there already.
    pub fn reserve_one(&mut self) -> Result<(), AllocError>
        ensures items { self.new.items ≡ self.old.items }
        ensures ok { OnOk result (IsTrue self.new.has_room) }
        ensures enough { IsTrue self.old.has_room → IsOk result }
    {
        if self.many.pieces.is_empty() {
            if self.few.len() < PIECE {
                return self.few.reserve(1);
            }
            self.many.reserve_one()?;
            let alloc = *self.few.allocator();
            let few = mem::replace(&mut self.few, Vec::new(alloc));
            self.many.begin(few);
        }
        self.many.reserve_one()
    }

    /// Puts an item in at a place. The room is reserved before, so that it takes no memory.
    pub fn insert(&mut self, place: usize, item: T)
        requires place { place ≤ length self.old.items }
        requires room { IsTrue self.old.has_room }
        ensures { self.new.items ≡ insert self.old.items place item }
    {
        if self.many.pieces.is_empty() {
            let _ = self.few.insert(place, item);
        } else {
            self.many.insert(place, item);
        }
    }

    /// Takes the item at a place out. Room that was there stays.
    pub fn remove(&mut self, place: usize) -> T
        requires { place < length self.old.items }
        ensures items { self.new.items ≡ remove self.old.items place }
        ensures item { slice_get self.old.items place ≡ Some result }
        ensures room { IsTrue self.old.has_room → IsTrue self.new.has_room }
    {
        if self.many.pieces.is_empty() {
            self.few.remove(place)
        } else {
            self.many.remove(place)
        }
    }
}
