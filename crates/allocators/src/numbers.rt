ghost use Rattle.std.specs.Prelude.{◌≡◌, ◌-◌, ◌*◌, ◌+◌, ◌<◌, ◌≤◌, ℕ, true, length, replicate, IfOk, MatchOption};
ghost use Rattle.allocators.specs.Numbers.{IsFree, IsLowest, IsNextFree, free_in, Takes, Gives};

use crate::words::{WORD_BITS, all_ones, next_one, past_zeros};
use counting::Steps;
use pm_trait::NoMemory;
use std::alloc::Global;
use std::marker::{Brand, Model};
use std::sync::ledger::{Blank, Ledger};

/// A set of free numbers from 0 to some last one, seen as the list that says at each number whether it is free.
#[derive(Drop)]
pub struct Numbers {
    // A bit for each number, which is 1 where it is free. The bits past the last number are 0.
    words: Vec<u64>,
    // How many numbers there are.
    size: u64,
    // No word below this one has a free number.
    lowest_word: usize,
    // How many are free.
    count: u64,
}

impl Model for Numbers {
    ghost use Rattle.std.specs.Prelude.{List, Bool};
    ghost use Rattle.allocators.specs.Words.{numbers_of};
    ghost use Rattle.allocators.specs.NumbersKept.{IsKept};

    ghost Value = { List Bool };

    ghost view = { λ numbers. numbers_of numbers.words.items numbers.size };

    ghost invariant = { λ numbers. IsKept numbers.words.items numbers.size numbers.lowest_word numbers.count };
}

impl Numbers {
    /// The numbers from 0 to `n - 1`, all of them free.
    pub fn new(alloc: Global, n: u64) -> Result<Numbers, NoMemory>
        ensures { IfOk result (λ numbers. numbers ≡ replicate n true) }
    {
        Ok(Numbers {
            words: all_ones(alloc, n)?,
            size: n,
            lowest_word: 0,
            count: n,
        })
    }

    /// The least free number, or `None` where none is free.
    pub fn lowest(&self) -> Option<u64>
        ensures { MatchOption result ((k : ℕ) → ¬ IsFree self.now k) (λ k. IsLowest self.now k) }
    {
        self.lowest_uncounted::<Brand>(Blank::new(1))
    }

    // The same, with steps that nobody reads.
    fn lowest_uncounted<L: Ledger>(&self, blank: Blank) -> Option<u64>
        requires name { blank.name ≡ L.name }
        requires parts { blank.parts ≡ L.parts }
        requires some { 0 < blank.parts }
        ensures { MatchOption result ((k : ℕ) → ¬ IsFree self.now k) (λ k. IsLowest self.now k) }
    {
        self.lowest_counted(&mut Steps::<L>::new(blank))
    }

    /// The least free number, or `None` where none is free. A step is a look at a word of 64 numbers.
    pub fn lowest_counted<L: Ledger>(&self, steps: &mut Steps<L>) -> Option<u64>
        ensures lowest { MatchOption result ((k : ℕ) → ¬ IsFree self.now k) (λ k. IsLowest self.now k) }
        ensures cost { 64 * (steps.new - steps.old) ≤ length self.now + 63 }
    {
        next_one(&self.words, self.lowest_word, 0, steps)
    }

    /// The least free number at or after `from`, or `None` where none is free there.
    pub fn next_free(&self, from: u64) -> Option<u64>
        ensures { MatchOption result ((k : ℕ) → from ≤ k → ¬ IsFree self.now k) (λ k. IsNextFree self.now from k) }
    {
        self.next_uncounted::<Brand>(from, Blank::new(1))
    }

    // The same, with steps that nobody reads.
    fn next_uncounted<L: Ledger>(&self, from: u64, blank: Blank) -> Option<u64>
        requires name { blank.name ≡ L.name }
        requires parts { blank.parts ≡ L.parts }
        requires some { 0 < blank.parts }
        ensures { MatchOption result ((k : ℕ) → from ≤ k → ¬ IsFree self.now k) (λ k. IsNextFree self.now from k) }
    {
        let mut steps = Steps::<L>::new(blank);
        let word = (from / WORD_BITS) as usize;
        if word < self.lowest_word {
            next_one(&self.words, self.lowest_word, 0, &mut steps)
        } else {
            next_one(&self.words, word, (from % WORD_BITS) as u32, &mut steps)
        }
    }

    /// Takes a free number.
    pub fn take(&mut self, k: u64)
        requires free { IsFree self.old k }
        ensures { Takes k self.old self.new }
    {
        self.words[(k / WORD_BITS) as usize] &= !(1 << (k % WORD_BITS));
        self.count -= 1;
        self.lowest_word = past_zeros(&self.words, self.lowest_word);
    }

    /// Gives back a number that is taken.
    pub fn give(&mut self, k: u64)
        requires in_range { k < length self.old }
        requires taken { ¬ IsFree self.old k }
        ensures { Gives k self.old self.new }
    {
        let word = (k / WORD_BITS) as usize;
        self.words[word] |= 1 << (k % WORD_BITS);
        self.count += 1;
        self.lowest_word = self.lowest_word.min(word);
    }

    /// How many numbers are free.
    pub fn free_count(&self) -> u64
        ensures { result ≡ free_in self.now }
    {
        self.count
    }
}
