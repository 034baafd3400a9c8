// Which bytes of a file get new values, and what its words become.
ghost use Rattle.std.specs.Prelude.{◌≡◌, ◌⊎◌, ◌↔◌, ℕ, ◌+◌, ◌*◌, ◌^◌, ◌<◌, ◌≤◌, IsTrue, IsSome, IfSome, true, length, take, drop};
ghost use Rattle.layout.specs.Name.{word_of};
ghost use Rattle.page_state.specs.Spans.{has_new as has_new_byte, byte_after as byte_that_becomes, word_after as word_that_becomes};

use layout::{PAGE_WORDS, WORD_BYTES};

// The word of the eight bytes from this place on.
fn word_from(bytes: &[u8], place: usize) -> u64
    requires { place + 8 ≤ length bytes.now }
    ensures { result ≡ word_of (take 8 (drop place bytes.now)) }
{
    let mut eight = [0; 8];
    eight.copy_from_slice(&bytes[place..place + 8]);
    u64::from_le_bytes(eight)
}

/// The bytes of a file that get new values: those of a range, and every byte beside it from one on, which becomes zero.
#[derive(Clone, Copy)]
pub struct FileSpan {
    /// The offset of the first page, in pages. The offsets of the others follow.
    pub first: u64,
    /// The byte of the file at which the range begins.
    pub offset: u64,
    /// The bytes of the range.
    pub length: u64,
    /// The byte of the file from which on bytes beside the range become zero.
    pub zero_from: u64,
}

impl FileSpan {
    // Whether one of the `count` bytes from byte `at` on gets a new value.
    pub(crate) fn has_new(&self, at: u64, count: u64) -> bool
        requires range { self.now.offset + self.now.length ≤ 2 ^ 40 }
        requires place { at ≤ 2 ^ 40 }
        requires some { 0 < count }
        requires few { count ≤ 64 }
        ensures { result ≡ has_new_byte self.now at count }
    {
        let end = at + count;
        self.meets_range(at, end) || self.zero_from < end
    }

    // Whether a byte of the range is not before `first`, and before `end`.
    fn meets_range(&self, first: u64, end: u64) -> bool
        requires range { self.now.offset + self.now.length ≤ 2 ^ 40 }
        ensures { IsTrue result ↔ ((0 < self.now.length) × (first < self.now.offset + self.now.length)
            × (self.now.offset < end)) }
    {
        self.length > 0 && first < self.offset + self.length && self.offset < end
    }

    // What byte `at` becomes.
    fn byte_after(&self, bytes: &[u8], at: u64, old: u8) -> u8
        requires range { self.now.offset + self.now.length ≤ 2 ^ 40 }
        requires long { length bytes.now ≡ self.now.length }
        ensures { result ≡ byte_that_becomes self.now bytes.now at old }
    {
        if self.offset <= at && at < self.offset + self.length {
            bytes[(at - self.offset) as usize]
        } else if self.zero_from <= at {
            0
        } else {
            old
        }
    }

    // What the word becomes whose bytes are those from byte `at` on, where its old bytes don't matter: the range has all of them, or
    // all become zero.
    pub(crate) fn whole_word(&self, bytes: &[u8], at: u64) -> Option<u64>
        requires range { self.now.offset + self.now.length ≤ 2 ^ 40 }
        requires long { length bytes.now ≡ self.now.length }
        requires place { at ≤ 2 ^ 40 }
        ensures word { IfSome result (λ word. (old : ℕ) → word ≡ word_that_becomes self.now bytes.now at old) }
        ensures of_range { self.now.offset ≤ at → at + 8 ≤ self.now.offset + self.now.length → IsSome result }
        ensures of_zeros { self.now.zero_from ≤ at → (self.now.length ≡ 0) ⊎ (at + 8 ≤ self.now.offset)
            ⊎ (self.now.offset + self.now.length ≤ at) → IsSome result }
    {
        if !self.meets_range(at, at + WORD_BYTES) {
            return if self.zero_from <= at { Some(0) } else { None };
        }
        if at < self.offset || self.offset + self.length < at + WORD_BYTES {
            return None;
        }
        Some(self.word_of_range(bytes, at))
    }

    // What the word becomes whose bytes are those from byte `at` on, all of the range.
    pub(crate) fn word_of_range(&self, bytes: &[u8], at: u64) -> u64
        requires range { self.now.offset + self.now.length ≤ 2 ^ 40 }
        requires long { length bytes.now ≡ self.now.length }
        requires from { self.now.offset ≤ at }
        requires to { at + 8 ≤ self.now.offset + self.now.length }
        ensures word { (old : ℕ) → result ≡ word_that_becomes self.now bytes.now at old }
        ensures new { has_new_byte self.now at 8 ≡ true }
    {
        word_from(bytes, (at - self.offset) as usize)
    }

    // Which words of a page have all their bytes of the range: those from one on, and before another. The page begins at byte `start`
    // of the file.
    pub(crate) fn whole_words(&self, start: u64) -> (u64, u64)
        requires range { self.now.offset + self.now.length ≤ 2 ^ 40 }
        ensures order { result.0 ≤ result.1 }
        ensures within { result.1 ≤ 512 }
        ensures of_range { (word : ℕ) → result.0 ≤ word → word < result.1 → (self.now.offset ≤ start + 8 * word)
            × (start + 8 * word + 8 ≤ self.now.offset + self.now.length) }
    {
        let before = self.offset.saturating_sub(start).div_ceil(WORD_BYTES);
        let from = before.min(PAGE_WORDS);
        let end = self.offset + self.length;
        let to = end.saturating_sub(start) / WORD_BYTES;
        (from, to.min(PAGE_WORDS).max(from))
    }

    // What the word becomes whose bytes are those from byte `at` on.
    pub(crate) fn word_after(&self, bytes: &[u8], at: u64, old: u64) -> u64
        requires range { self.now.offset + self.now.length ≤ 2 ^ 40 }
        requires long { length bytes.now ≡ self.now.length }
        requires place { at ≤ 2 ^ 40 }
        ensures { result ≡ word_that_becomes self.now bytes.now at old }
    {
        let mut parts = old.to_le_bytes();
        for place in 0..8 {
            parts[place] = self.byte_after(bytes, at + place as u64, parts[place]);
        }
        u64::from_le_bytes(parts)
    }
}
