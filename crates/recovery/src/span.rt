// Words are given a value and their lines are flushed, each once.
ghost use Rattle.std.specs.Prelude.{◌≡◌, ℕ, ◌+◌, ◌-◌, ◌*◌, ◌^◌, ◌<◌, ◌≤◌, length, slice_index};
ghost use Rattle.pm_trait.specs.DeviceView.{Stores};
ghost use Rattle.recovery.specs.declared.part.Part.TheVariants.{Links};
ghost use Rattle.recovery.specs.Parts.{IsNumber, AreNumbers, IsRising, events_of_part};
ghost use Rattle.recovery.specs.Changes.{Changes, IsWithin, IsInSpan, span_events, IsInPart, IsCleared, IsLinked};

use crate::Part;
use fence_token::flush_span;
use layout::Geometry;
use pm_trait::Pm;

// Stores one value in each word from first to before end.
fn store_span<P: Pm>(pm: &mut P, first: u64, end: u64, value: u64)
    requires order { first ≤ end }
    requires in_range { end ≤ length (P.view pm.old).words }
    requires room { end - first ≤ (P.view pm.old).spare }
    ensures stored { (a : ℕ) → first ≤ a → a < end → slice_index (P.view pm.new).words a ≡ value }
    ensures device { Stores (IsWithin first end) (P.view pm.old) (P.view pm.new) (end - first) }
{
    for word in first..end {
        pm.store(word, value);
    }
}

// Stores it in each word from first to last, and flushes their lines.
fn fill_span<P: Pm>(pm: &mut P, first: u64, last: u64, value: u64)
    requires order { first ≤ last }
    requires small { last < 2 ^ 32 }
    requires in_range { last < length (P.view pm.old).words }
    requires room { span_events first last ≤ (P.view pm.old).spare }
    ensures { Changes (IsInSpan first last value) (P.view pm.old) (P.view pm.new) (span_events first last) }
{
    store_span(pm, first, last + 1, value);
    let _lines = flush_span(pm, first, last);
}

/// Gives the words of a part of one object this value.
pub fn set_part<P: Pm>(pm: &mut P, geometry: &Geometry, part: Part, number: u64, value: u64)
    requires whole { length (P.view pm.old).words ≡ 512 * geometry.now.pages }
    requires number { IsNumber geometry.now.pages part number }
    requires room { events_of_part part ≤ (P.view pm.old).spare }
    ensures { Changes (IsInPart geometry.now.pages part number value) (P.view pm.old) (P.view pm.new)
        (events_of_part part) }
{
    let first = part.first_word(geometry, number);
    let last = part.last_word(geometry, number);
    fill_span(pm, first, last, value);
}

/// Makes the words of a part zero in each of the objects of these numbers.
pub fn clear_all<P: Pm>(pm: &mut P, geometry: &Geometry, part: Part, numbers: &[u64])
    requires whole { length (P.view pm.old).words ≡ 512 * geometry.now.pages }
    requires rising { IsRising numbers.now }
    requires each { AreNumbers geometry.now.pages part numbers.now }
    requires room { events_of_part part * length numbers.now ≤ (P.view pm.old).spare }
    ensures { Changes (IsCleared geometry.now.pages part numbers.now) (P.view pm.old) (P.view pm.new)
        (events_of_part part * length numbers.now) }
{
    for number in numbers {
        set_part(pm, geometry, part, *number, 0);
    }
}

/// Gives the link word of each of these inodes the count that stands in its place.
pub fn set_links<P: Pm>(pm: &mut P, geometry: &Geometry, inodes: &[u64], counts: &[u64])
    requires whole { length (P.view pm.old).words ≡ 512 * geometry.now.pages }
    requires rising { IsRising inodes.now }
    requires each { AreNumbers geometry.now.pages Links inodes.now }
    requires counted { length counts.now ≡ length inodes.now }
    requires room { events_of_part Links * length inodes.now ≤ (P.view pm.old).spare }
    ensures { Changes (IsLinked geometry.now.pages inodes.now counts.now) (P.view pm.old) (P.view pm.new)
        (events_of_part Links * length inodes.now) }
{
    for (place, inode) in inodes.iter().enumerate() {
        set_part(pm, geometry, Part::Links, *inode, counts[place]);
    }
}
