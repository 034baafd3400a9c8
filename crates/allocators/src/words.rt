// Numbers as bits of words, 64 a word.
ghost use Rattle.std.specs.Prelude.{◌≡◌, ◌+◌, ◌-◌, ◌*◌, ◌^◌, ◌<◌, ◌≤◌, ℕ, length, slice_index, IfOk, MatchOption};
ghost use Rattle.std.specs.Int.{bit_at};
ghost use Rattle.allocators.specs.Words.{bit_of, AreWordsOf, IsLowestBit, IsNextBit};

use counting::Steps;
use pm_trait::NoMemory;
use std::alloc::Global;
use std::sync::ledger::Ledger;

/// How many numbers a word has.
pub const WORD_BITS: u64 = 64;

/// The words of the numbers from 0 to `n - 1` whose bits are all 1.
pub fn all_ones(alloc: Global, n: u64) -> Result<Vec<u64>, NoMemory>
    ensures words { IfOk result (λ words. AreWordsOf words.items n) }
    ensures ones { IfOk result (λ words. (k : ℕ) → k < n → bit_of words.items k ≡ 1) }
{
    let mut words = vec![in alloc; u64::MAX; n.div_ceil(WORD_BITS) as usize]?;
    if n % WORD_BITS != 0 {
        words[(n / WORD_BITS) as usize] = (1 << (n % WORD_BITS)) - 1;
    }
    Ok(words)
}

/// The least number whose bit is 1 from a bit of a word on. A step is a look at a word.
pub fn next_one<L: Ledger>(
    words: &[u64],
    word: usize,
    bit: u32,
    steps: &mut Steps<L>,
) -> Option<u64>
    requires few { length words.now ≤ 2 ^ 58 }
    requires in_word { bit < 64 }
    ensures found { MatchOption result ((k : ℕ) → 64 * word + bit ≤ k → bit_of words.now k ≡ 0)
        (IsNextBit words.now (64 * word + bit)) }
    ensures cost { steps.new ≤ steps.old + (length words.now - word) }
{
    let mut low = bit;
    for place in word..words.len() {
        if let Some(first) = lowest_one(words[place], low, steps) {
            return Some(WORD_BITS * place as u64 + first as u64);
        }
        low = 0;
    }
    None
}

// The lowest bit of a word from one on that is 1. A search for a free number looks at words here alone, and each look is a step.
fn lowest_one<L: Ledger>(word: u64, low: u32, steps: &mut Steps<L>) -> Option<u32>
    requires { low < 64 }
    ensures found { MatchOption result ((bit : ℕ) → low ≤ bit → bit < 64 → bit_at word bit ≡ 0)
        (IsLowestBit word low) }
    ensures cost { steps.new ≡ steps.old + 1 }
{
    steps.tick();
    let left = word & (u64::MAX << low);
    if left == 0 {
        None
    } else {
        Some(left.trailing_zeros())
    }
}

/// The first word from one on that isn't 0, or how many words there are.
pub fn past_zeros(words: &[u64], from: usize) -> usize
    ensures from { from ≤ result }
    ensures passed { (place : ℕ) → from ≤ place → place < result → slice_index words.now place ≡ 0 }
{
    let mut place = from;
    while place < words.len() && words[place] == 0 {
        place += 1;
    }
    place
}
