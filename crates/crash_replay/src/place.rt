// Where the moment that is asked for stands in a trail.
ghost use Rattle.std.specs.Prelude.{◌≡◌, ◌+◌, ◌^◌, ◌≤◌, ◌<◌, ◌∷◌, suc, List, IfSome, IfNone, length, drop, take, min};
ghost use Rattle.pm_trait.specs.declared.event.Event.{Event as EventData};
ghost use Rattle.pm_trait.specs.Trail.{count_acks};
ghost use Rattle.crash_replay.specs.Place.{fence_within, place_in, start_of, through_acks};

use crate::Moment;
use pm_memory::{RamPm, Recorded, Walk};
use pm_trait::{Event, Pm};

/// How many events of the trail come before the moment. The first call begins behind the first `mark` events.
pub fn place_of<P: Recorded>(pm: &P, mark: u64, moment: Moment) -> u64
    requires { (P.view pm.now).acks ≤ 2 ^ 62 }
    ensures place { IfSome (P.view pm.now).trail (λ trail. result ≡ place_in trail.events mark moment) }
    ensures within { IfSome (P.view pm.now).trail (λ trail. result ≤ length trail.events) }
{
    place_in_ram(pm.ram(), mark, moment)
}

/// How many acknowledgements are among the first `place` events of the trail.
pub fn acks_before<P: Recorded>(pm: &P, place: u64) -> u64
    requires { (P.view pm.now).acks ≤ 2 ^ 62 }
    ensures { IfSome (P.view pm.now).trail (λ trail. result ≡ count_acks (take place trail.events)) }
{
    let mut walk = pm.ram().walk();
    count_within(&mut walk, place)
}

fn place_in_ram(pm: &RamPm, mark: u64, moment: Moment) -> u64
    requires { (⟦<RamPm as Pm>⟧.view pm.now).acks ≤ 2 ^ 62 }
    ensures { IfSome (⟦<RamPm as Pm>⟧.view pm.now).trail (λ trail. result ≡ place_in trail.events mark moment) }
{
    let events = pm.events();
    let mut walk = pm.walk();
    match moment {
        Moment::At(k) => k.min(events),
        Moment::Before { call: 0, fence } => pass_to_fence(&mut walk, fence, mark),
        Moment::Before { call, fence } => {
            let start = pass_to_call(&mut walk, mark, call - 1);
            start + pass_to_fence(&mut walk, fence, events)
        }
    }
}

// Goes on to the call behind so many acknowledgements after `mark`. Answers how many events that passes.
fn pass_to_call(walk: &mut Walk<'_>, mark: u64, acks: u64) -> u64
    requires countable { length walk.old < 2 ^ 64 }
    ensures start { result ≡ start_of walk.old mark (acks + 1) }
    ensures left { walk.new ≡ drop result walk.old }
    ensures within { result ≤ length walk.old }
{
    let mount = pass_events(walk, mark);
    mount + pass_acks(walk, acks)
}

// Goes on by so many events, or to the end. Answers how many there were.
fn pass_events(walk: &mut Walk<'_>, count: u64) -> u64
    ensures passed { result ≡ min count (length walk.old) }
    ensures left { walk.new ≡ drop result walk.old }
{
    for passed in 0..count {
        let Some(_event) = walk.next() else {
            return passed;
        };
    }
    count
}

// Goes on behind the last of so many acknowledgements, or to the end. Answers how many events that passes.
fn pass_acks(walk: &mut Walk<'_>, acks: u64) -> u64
    requires countable { length walk.old < 2 ^ 64 }
    ensures passed { result ≡ through_acks acks walk.old }
    ensures left { walk.new ≡ drop result walk.old }
{
    let mut left = acks;
    let mut passed = 0;
    'events: while left > 0 {
        let Some(event) = walk.next() else {
            return passed;
        };
        left = acks_behind(event, left);
        passed += 1;
    }
    passed
}

// How many of so many acknowledgements are still to come behind the event.
fn acks_behind(event: Event, acks: u64) -> u64
    requires some { 0 < acks }
    ensures { (later : List EventData) → through_acks acks (event ∷ later) ≡ suc (through_acks result later) }
{
    match event {
        Event::Ack => acks - 1,
        Event::Store { .. } | Event::Flush { .. } | Event::Fence | Event::BadFence => acks,
    }
}

// Goes on to this fence among the first `limit` events, counted from 1, or to the first acknowledgement, or to their end.
// Answers how many events come before it.
fn pass_to_fence(walk: &mut Walk<'_>, fence: u64, limit: u64) -> u64
    ensures place { result ≡ fence_within fence (take limit walk.old) }
    ensures within { result ≤ length walk.old }
{
    let mut left = fence;
    for passed in 0..limit {
        let Some(event) = walk.next() else {
            return passed;
        };
        match fence_behind(event, left) {
            None => return passed,
            Some(fence) => left = fence,
        }
    }
    limit
}

// Which fence is asked for behind the event; none where the place is before the event.
fn fence_behind(event: Event, fence: u64) -> Option<u64>
    ensures here { (later : List EventData) → IfNone result (fence_within fence (event ∷ later) ≡ 0) }
    ensures behind { (later : List EventData) → IfSome result (λ next.
        fence_within fence (event ∷ later) ≡ suc (fence_within next later)) }
{
    match event {
        Event::Ack => None,
        Event::Fence | Event::BadFence => {
            if fence == 1 {
                None
            } else {
                Some(fence.saturating_sub(1))
            }
        }
        Event::Store { .. } | Event::Flush { .. } => Some(fence),
    }
}

// How many acknowledgements are among the first `limit` events.
fn count_within(walk: &mut Walk<'_>, limit: u64) -> u64
    ensures { result ≡ count_acks (take limit walk.old) }
{
    let mut acks = 0;
    for _passed in 0..limit {
        let Some(event) = walk.next() else {
            return acks;
        };
        acks += acks_in(event);
    }
    acks
}

fn acks_in(event: Event) -> u64
    ensures some { (later : List EventData) → count_acks (event ∷ later) ≡ result + count_acks later }
    ensures one { result ≤ 1 }
{
    match event {
        Event::Ack => 1,
        Event::Store { .. } | Event::Flush { .. } | Event::Fence | Event::BadFence => 0,
    }
}
