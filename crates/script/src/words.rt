ghost use Rattle.std.specs.Prelude.{◌≡◌, ◌+◌, ◌<◌, ◌≤◌, ◌∷◌, [], ◌==◌, ℕ, false, length, slice_index, IfSome, IsTrue, MatchOption};
ghost use Rattle.script.specs.Lines.{words_of, is_space};

use crate::places::first_place;

// The first word of a text, and the text behind it.
pub fn next_word(text: &[u8]) -> Option<(&[u8], &[u8])>
    ensures found { MatchOption result (words_of text.now ≡ [])
        (λ found. words_of text.now ≡ found.0.now ∷ words_of found.1.now) }
    ensures word_within { IfSome result (λ found. length found.0.now ≤ length text.now) }
    ensures rest_within { IfSome result (λ found. length found.1.now ≤ length text.now) }
{
    let text = without_spaces(text);
    if text.is_empty() {
        return None;
    }
    match first_place(text, b' ') {
        Some(end) => Some((&text[..end], &text[end + 1..])),
        None => Some((text, &text[text.len()..])),
    }
}

// Whether the last byte of a text is one of a word.
pub fn ends_in_word(text: &[u8]) -> bool
    ensures some { IsTrue result → 0 < length text.now }
    ensures last { IsTrue result → (k : ℕ) → k + 1 ≡ length text.now → is_space (slice_index text.now k) ≡ false }
{
    !text.is_empty() && text[text.len() - 1] != b' '
}

// The text from its first byte that is no space.
pub fn without_spaces(text: &[u8]) -> &[u8]
    ensures words { words_of result.now ≡ words_of text.now }
    ensures within { length result.now ≤ length text.now }
    ensures first { 0 < length result.now → is_space (slice_index result.now 0) ≡ false }
{
    for (place, byte) in text.iter().enumerate() {
        if *byte != b' ' {
            return &text[place..];
        }
    }
    &text[text.len()..]
}
