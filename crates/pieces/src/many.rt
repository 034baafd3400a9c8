// One piece or more.
ghost use Rattle.std.specs.Prelude.{◌≡◌, ◌+◌, ◌-◌, ◌^◌, ◌<◌, ◌≤◌, [], ◌∷◌, ◌++◌, ℕ, length, take, drop, insert, remove, slice_get, slice_index, vec_len, vec_capacity, IsTrue, IsOk, OnOk, Some};
ghost use Rattle.std.specs.List.{HoldsAt};
ghost use Rattle.pieces.specs.Joined.{IsPiece, IsTogetherPiece};
ghost use Rattle.pieces.specs.Many.{all_items, IsWhole, HasRoom};

use crate::counts::{count_from, piece_at};
use std::alloc::{AllocError, Global};
use std::mem;

// How many items a piece has at most.
pub const PIECE: usize = 256;

// The pieces, how many items stand before each, and an empty piece to come.
#[derive(Drop)]
pub struct Many<T> {
    pub pieces: Vec<Vec<T>>,
    pub starts: Vec<usize>,
    pub spare: Vec<T>,
}

impl<T: Drop> Many<T> {
    // No piece.
    pub fn new(alloc: Global) -> Many<T>
        ensures none { result.pieces.items ≡ [] }
        ensures whole { IsWhole result }
    {
        Many {
            pieces: Vec::new(alloc),
            starts: Vec::new(alloc),
            spare: Vec::new(alloc),
        }
    }

    // How many items there are.
    pub fn len(&self) -> usize
        requires { IsWhole self.now }
        ensures { result ≡ length (all_items self.now) }
    {
        let count = self.pieces.len();
        if count == 0 {
            return 0;
        }
        self.starts[count - 1] + self.pieces[count - 1].len()
    }

    // One item.
    pub fn get(&self, place: usize) -> &T
        requires whole { IsWhole self.now }
        requires place { place < length (all_items self.now) }
        ensures { slice_get (all_items self.now) place ≡ Some result.now }
    {
        let k = piece_at(&self.starts, place);
        &self.pieces[k][place - self.starts[k]]
    }

    // Takes memory for one more item, wherever it goes.
    pub fn reserve_one(&mut self) -> Result<(), AllocError>
        requires whole { IsWhole self.old }
        ensures whole { IsWhole self.new }
        ensures pieces { self.new.pieces.items ≡ self.old.pieces.items }
        ensures ok { OnOk result (HasRoom self.new) }
        ensures enough { HasRoom self.old → IsOk result }
    {
        if self.len() == usize::MAX {
            return Err(AllocError);
        }
        self.pieces.reserve(1)?;
        self.starts.reserve(1)?;
        self.spare.reserve_exact(PIECE)
    }

    // The first piece.
    pub fn begin(&mut self, piece: Vec<T>)
        requires whole { IsWhole self.old }
        requires none { self.old.pieces.items ≡ [] }
        requires piece { IsPiece piece }
        requires room { HasRoom self.old }
        ensures whole { IsWhole self.new }
        ensures pieces { self.new.pieces.items ≡ piece ∷ [] }
    {
        self.pieces.push_reserved(piece);
        self.starts.push_reserved(0);
    }

    // Puts an item into a piece that isn't full.
    fn put(&mut self, k: usize, at: usize, item: T)
        requires whole { IsWhole self.old }
        requires within { k < vec_len self.old.pieces }
        requires place { HoldsAt (λ piece. at ≤ vec_len piece) self.old.pieces.items k }
        requires not_full { HoldsAt (λ piece. vec_len piece < 256) self.old.pieces.items k }
        requires number { length (all_items self.old) < 2 ^ 64 - 1 }
        ensures whole { IsWhole self.new }
        ensures items { all_items self.new
            ≡ insert (all_items self.old) (slice_index self.old.starts.items k + at) item }
        ensures len { vec_len self.new.pieces ≡ vec_len self.old.pieces }
    {
        let _ = self.pieces[k].insert(at, item);
        count_from(&mut self.starts, &self.pieces, k + 1);
    }

    // Gives what a full piece has from `cut` on to the spare, which stands behind it then.
    fn split(&mut self, k: usize, cut: usize)
        requires whole { IsWhole self.old }
        requires within { k < vec_len self.old.pieces }
        requires full { HoldsAt (λ piece. vec_len piece ≡ 256) self.old.pieces.items k }
        requires cut { cut ≤ 256 }
        requires room { HasRoom self.old }
        ensures whole { IsWhole self.new }
        ensures items { all_items self.new ≡ all_items self.old }
        ensures begins { slice_index self.new.starts.items k ≡ slice_index self.old.starts.items k }
        ensures next { slice_index self.new.starts.items (k + 1)
            ≡ slice_index self.old.starts.items k + cut }
        ensures len { vec_len self.new.pieces ≡ vec_len self.old.pieces + 1 }
        ensures lower { HoldsAt (λ piece. vec_len piece ≡ cut) self.new.pieces.items k }
        ensures upper { HoldsAt (λ piece. vec_len piece + cut ≡ 256) self.new.pieces.items (k + 1) }
    {
        let alloc = *self.spare.allocator();
        let mut upper = mem::replace(&mut self.spare, Vec::new(alloc));
        move_upper(&mut self.pieces[k], cut, &mut upper);
        let _ = self.pieces.insert(k + 1, upper);
        self.starts.push_reserved(0);
        count_from(&mut self.starts, &self.pieces, k + 1);
    }

    // Puts an item in. It takes no memory, since a full piece is split with the spare.
    pub fn insert(&mut self, place: usize, item: T)
        requires whole { IsWhole self.old }
        requires some { 0 < vec_len self.old.pieces }
        requires place { place ≤ length (all_items self.old) }
        requires room { HasRoom self.old }
        ensures whole { IsWhole self.new }
        ensures items { all_items self.new ≡ insert (all_items self.old) place item }
        ensures some { 0 < vec_len self.new.pieces }
    {
        let k = piece_at(&self.starts, place);
        let at = place - self.starts[k];
        if self.pieces[k].len() < PIECE {
            self.put(k, at, item);
        } else {
            self.put_in_half(k, at, item);
        }
    }

    // Takes an item out. A piece that has few left, or none, is joined with a neighbour.
    pub fn remove(&mut self, place: usize) -> T
        requires whole { IsWhole self.old }
        requires place { place < length (all_items self.old) }
        ensures whole { IsWhole self.new }
        ensures items { all_items self.new ≡ remove (all_items self.old) place }
        ensures item { slice_get (all_items self.old) place ≡ Some result }
        ensures room { HasRoom self.old → HasRoom self.new }
        ensures some { 0 < vec_len self.new.pieces }
    {
        let k = piece_at(&self.starts, place);
        let at = place - self.starts[k];
        let item = self.take(k, at);
        self.join_around(k);
        item
    }

    // Takes an item out of a piece.
    fn take(&mut self, k: usize, at: usize) -> T
        requires whole { IsWhole self.old }
        requires within { k < vec_len self.old.pieces }
        requires place { HoldsAt (λ piece. at < vec_len piece) self.old.pieces.items k }
        ensures whole { IsWhole self.new }
        ensures items { all_items self.new
            ≡ remove (all_items self.old) (slice_index self.old.starts.items k + at) }
        ensures item { slice_get (all_items self.old) (slice_index self.old.starts.items k + at)
            ≡ Some result }
        ensures len { vec_len self.new.pieces ≡ vec_len self.old.pieces }
        ensures room { HasRoom self.old → HasRoom self.new }
    {
        let item = self.pieces[k].remove(at);
        count_from(&mut self.starts, &self.pieces, k + 1);
        item
    }

    // Joins a piece with the one behind it or else with the one before it, where these have few items.
    fn join_around(&mut self, k: usize)
        requires whole { IsWhole self.old }
        requires within { k < vec_len self.old.pieces }
        ensures whole { IsWhole self.new }
        ensures items { all_items self.new ≡ all_items self.old }
        ensures some { 0 < vec_len self.new.pieces }
        ensures room { HasRoom self.old → HasRoom self.new }
    {
        if k + 1 < self.pieces.len() && self.are_few(k) {
            self.join(k);
        } else if k > 0 && self.are_few(k - 1) {
            self.join(k - 1);
        }
    }

    // Whether a piece and the one behind it have half a piece at most together, or one of them has nothing.
    fn are_few(&self, k: usize) -> bool
        requires whole { IsWhole self.now }
        requires within { k + 1 < vec_len self.now.pieces }
        ensures { IsTrue result → IsTogetherPiece self.now.pieces.items k }
    {
        let first = self.pieces[k].len();
        let second = self.pieces[k + 1].len();
        first == 0 || second == 0 || first + second <= PIECE / 2
    }

    // Joins a piece with the one behind it. The emptied piece becomes the spare, where there was none.
    fn join(&mut self, k: usize)
        requires whole { IsWhole self.old }
        requires within { k + 1 < vec_len self.old.pieces }
        requires few { IsTogetherPiece self.old.pieces.items k }
        ensures whole { IsWhole self.new }
        ensures items { all_items self.new ≡ all_items self.old }
        ensures some { 0 < vec_len self.new.pieces }
        ensures room { HasRoom self.old → HasRoom self.new }
    {
        let mut upper = self.pieces.remove(k + 1);
        let _ = self.pieces[k].append(&mut upper);
        let _ = self.starts.pop();
        count_from(&mut self.starts, &self.pieces, k + 1);
        self.keep(upper);
    }

    // Keeps an emptied piece as the spare, where there was none.
    fn keep(&mut self, piece: Vec<T>)
        requires whole { IsWhole self.old }
        requires empty { piece.items ≡ [] }
        ensures whole { IsWhole self.new }
        ensures pieces { self.new.pieces ≡ self.old.pieces }
        ensures room { HasRoom self.old → HasRoom self.new }
    {
        if self.spare.capacity() < piece.capacity() {
            self.spare = piece;
        }
    }

    // Splits a full piece, in halves or behind its end, and puts an item into the part where it belongs.
    fn put_in_half(&mut self, k: usize, at: usize, item: T)
        requires whole { IsWhole self.old }
        requires within { k < vec_len self.old.pieces }
        requires place { at ≤ 256 }
        requires full { HoldsAt (λ piece. vec_len piece ≡ 256) self.old.pieces.items k }
        requires room { HasRoom self.old }
        ensures whole { IsWhole self.new }
        ensures items { all_items self.new
            ≡ insert (all_items self.old) (slice_index self.old.starts.items k + at) item }
        ensures some { 0 < vec_len self.new.pieces }
    {
        let cut = if at == PIECE { PIECE } else { PIECE / 2 };
        self.split(k, cut);
        if at < cut {
            self.put(k, at, item);
        } else {
            self.put(k + 1, at - cut, item);
        }
    }
}

// Moves the items from `cut` on into an empty piece with memory for them.
fn move_upper<T>(piece: &mut Vec<T>, cut: usize, upper: &mut Vec<T>)
    requires cut { cut ≤ vec_len piece.old }
    requires empty { upper.old.items ≡ [] }
    requires memory { vec_len piece.old ≤ vec_capacity upper.old }
    ensures lower { piece.new.items ≡ take cut piece.old.items }
    ensures upper { upper.new.items ≡ drop cut piece.old.items }
    ensures capacity { vec_capacity piece.new ≡ vec_capacity piece.old }
    ensures upper_capacity { vec_capacity upper.new ≡ vec_capacity upper.old }
{
    while piece.len() > cut {
        let item = piece.take_last();
        upper.push_reserved(item);
    }
    upper.reverse();
}
