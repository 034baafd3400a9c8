// How many entries come before a moment.
ghost use Rattle.std.specs.Prelude.{◌≤◌, ℕ, length, take};
ghost use Rattle.pm_memory.specs.Entries.{told};
ghost use Rattle.pm_memory.specs.Plain.{plain, AreAlike};

use crate::entry::Entry;

/// How many entries have their event among the first `moment` events.
pub fn entries_within(entries: &[Entry], moment: u64) -> usize
    ensures within { result ≤ length entries.now }
    ensures alike { (acks : ℕ) → AreAlike (take moment (told entries.now acks)) (plain (take result entries.now)) }
{
    let mut left = moment;
    for (i, entry) in entries.iter().enumerate() {
        if left <= entry.acks {
            return i;
        }
        left -= entry.acks + 1;
    }
    entries.len()
}
