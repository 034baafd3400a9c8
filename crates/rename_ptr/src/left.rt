// What a move holds and has left between two of its steps, and what its next step costs.
ghost use Rattle.std.specs.Prelude.{◌≡◌, ◌≤◌, nat_lt};
ghost use Rattle.layout.specs.Geometry.{most_data_pages};
ghost use Rattle.volume.specs.Costs.{goes_of, pages_of_loss, pages_replaced};
ghost use Rattle.rename_ptr.specs.Stages.{held_moving};
ghost use Rattle.rename_ptr.specs.Counts.{pointing_cost, losing_fences, fences_at, events_at};

use crate::rename::Progress;
use volume::{
    COMMIT_EVENTS, DESCRIPTOR_REST_EVENTS, FENCE_EVENTS, Held, INODE_EVENTS, Moving, PAGE_EVENTS,
    SLOT_REST_EVENTS, WORD_EVENTS,
};

// Whether a node goes.
pub fn node_goes(moving: &Moving) -> bool
    ensures { result ≡ goes_of moving.now.replaced }
{
    match moving.replaced {
        None => false,
        Some(loss) => loss.goes,
    }
}

// Whether pages are given back.
pub fn gives_pages(moving: &Moving) -> bool
    ensures { result ≡ nat_lt 0 (pages_replaced moving.now) }
{
    let lost = match moving.replaced {
        None => 0,
        Some(loss) => loss.pages,
    };
    lost > 0 || moving.given_back.is_some()
}

// How many pages are given back.
fn pages_given(moving: &Moving) -> u64
    requires bounded { pages_of_loss moving.now.replaced ≤ most_data_pages }
    ensures { result ≡ pages_replaced moving.now }
{
    let lost = match moving.replaced {
        None => 0,
        Some(loss) => loss.pages,
    };
    match moving.given_back {
        None => lost,
        Some(_) => lost + 1,
    }
}

// Until the commit the new page, and behind it what is given back.
pub fn held_at(moving: &Moving, progress: Progress) -> Held
    requires bounded { pages_of_loss moving.now.replaced ≤ most_data_pages }
    ensures { result ≡ held_moving moving.now progress }
{
    match progress {
        Progress::Begun | Progress::Filled | Progress::Opened | Progress::Pointed => Held {
            inodes: 0,
            pages: if moving.new_page.is_some() { 1 } else { 0 },
        },
        Progress::Moved | Progress::Left | Progress::Cleared | Progress::Disowned => Held {
            inodes: if node_goes(moving) { 1 } else { 0 },
            pages: pages_given(moving),
        },
    }
}

// The fences of the last two steps.
fn last_fences(moving: &Moving) -> u64
    ensures { result ≡ losing_fences moving.now }
{
    if gives_pages(moving) {
        2
    } else if node_goes(moving) {
        1
    } else {
        0
    }
}

// How many steps are left that have a store.
pub fn fences_left_at(moving: &Moving, progress: Progress) -> u64
    ensures { result ≡ fences_at moving.now progress }
{
    let last = last_fences(moving);
    match progress {
        Progress::Begun => {
            if moving.new_page.is_some() {
                6 + last
            } else {
                4 + last
            }
        }
        Progress::Filled => 5 + last,
        Progress::Opened => 4 + last,
        Progress::Pointed => 3 + last,
        Progress::Moved => 2 + last,
        Progress::Left => 1 + last,
        Progress::Cleared => 2,
        Progress::Disowned => 1,
    }
}

// The events of the pointer.
fn pointing_events(moving: &Moving) -> u64
    ensures { result ≡ pointing_cost moving.now }
{
    let slot = if moving.replaced.is_some() || moving.new_page.is_some() {
        WORD_EVENTS
    } else {
        SLOT_REST_EVENTS
    };
    let link = if moving.rising().is_some() {
        WORD_EVENTS
    } else {
        0
    };
    slot + link + FENCE_EVENTS
}

// The events of the step that comes next.
pub fn step_events(moving: &Moving, progress: Progress) -> u64
    requires bounded { pages_of_loss moving.now.replaced ≤ most_data_pages }
    ensures { result ≡ events_at moving.now progress }
{
    match progress {
        Progress::Begun => {
            if moving.new_page.is_some() {
                PAGE_EVENTS + FENCE_EVENTS
            } else {
                pointing_events(moving)
            }
        }
        Progress::Opened => pointing_events(moving),
        Progress::Filled | Progress::Pointed | Progress::Moved => COMMIT_EVENTS,
        Progress::Left => {
            let link = if moving.falling().is_some() {
                WORD_EVENTS
            } else {
                0
            };
            WORD_EVENTS + (SLOT_REST_EVENTS + link + FENCE_EVENTS)
        }
        Progress::Cleared => pages_given(moving) * WORD_EVENTS + FENCE_EVENTS,
        Progress::Disowned => {
            let inode = if node_goes(moving) { INODE_EVENTS } else { 0 };
            pages_given(moving) * DESCRIPTOR_REST_EVENTS + inode + FENCE_EVENTS
        }
    }
}
