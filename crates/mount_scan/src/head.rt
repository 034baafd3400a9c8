// Whether words are a volume's, and where they aren't.
ghost use Rattle.std.specs.Prelude.{◌≡◌, ◌*◌, ℕ, MatchOption};
ghost use Rattle.image_reading.specs.Soundness.{IsFirstFault, IsFirstViolation, KeepsRule1, Rule, pages_in_image};

use image_reading::Violation;
use layout::Geometry;
use layout::superblock::HEAD_WORDS;

/// The number of the rule of the length and the first words.
pub const HEAD_RULE: u64 = 1;

/// The geometry of a device whose length and first words are a volume's.
pub fn geometry_of(words: &[u64]) -> Option<Geometry>
    ensures { MatchOption result ((P : ℕ) → ¬ KeepsRule1 P words.now)
        (λ geometry. KeepsRule1 geometry.pages words.now) }
{
    let geometry = Geometry::of_words(words.len() as u64)?;
    if words.starts_with(geometry.head().as_slice()) {
        Some(geometry)
    } else {
        None
    }
}

/// Where words that are no volume's break the rule of the length and the first words.
pub fn head_fault(words: &[u64]) -> Violation
    requires { (P : ℕ) → ¬ KeepsRule1 P words.now }
    ensures { IsFirstViolation words.now result }
{
    Violation {
        rule: HEAD_RULE,
        place: head_place(words),
    }
}

// The first of these words that isn't a volume's: 0 where the length isn't.
fn head_place(words: &[u64]) -> u64
    requires { (P : ℕ) → ¬ KeepsRule1 P words.now }
    ensures { IsFirstFault (pages_in_image words.now) words.now Rule.head result }
{
    let Some(geometry) = Geometry::of_words(words.len() as u64) else {
        return 0;
    };
    let head = geometry.head();
    for place in 0..HEAD_WORDS {
        if words[place] != head[place] {
            return place as u64;
        }
    }
    unreachable!()
}
