// A walk over a trail, which keeps its place.
ghost use Rattle.std.specs.Prelude.{◌≡◌};

use crate::entry::Entry;
use pm_trait::Event;
use std::marker::Model;

/// The events of a trail in order, seen as the list of those that are still to come. It takes no memory.
#[derive(Drop)]
pub struct Walk<'a> {
    entries: &'a [Entry],
    acks_since: u64,
    passed: u64,
}

impl<'a> Model for Walk<'a> {
    ghost use Rattle.std.specs.Prelude.{List, ◌≤◌};
    ghost use Rattle.pm_trait.specs.declared.event.Event.{Event as EventData};

    ghost Value = { List EventData };

    ghost use Rattle.pm_memory.specs.Walk.{acks_first, events_left};

    ghost view = { λ walk. events_left walk.entries.now walk.acks_since walk.passed };

    ghost invariant = { λ walk. walk.passed ≤ acks_first walk.entries.now walk.acks_since };
}

impl<'a> Walk<'a> {
    ghost use Rattle.pm_memory.specs.Entries.{told};

    /// All the events of these entries, and the acknowledgements since.
    pub fn over(entries: &'a [Entry], acks_since: u64) -> Walk<'a>
        ensures { result ≡ told entries.now acks_since }
    {
        Walk {
            entries,
            acks_since,
            passed: 0,
        }
    }
}

impl<'a> Iterator for Walk<'a> {
    type Item = Event;

    ghost use Rattle.std.specs.Iterator.{YieldsFirst, item_count};

    ghost next_gives = { YieldsFirst (λ walk. walk) };

    ghost remaining = { item_count (λ walk. walk) };

    fn next(&mut self) -> Option<Event> {
        let Some((entry, later)) = self.entries.split_first() else {
            if self.passed == self.acks_since {
                return None;
            }
            self.passed += 1;
            return Some(Event::Ack);
        };
        if self.passed < entry.acks {
            self.passed += 1;
            return Some(Event::Ack);
        }
        self.entries = later;
        self.passed = 0;
        Some(entry.event)
    }
}
