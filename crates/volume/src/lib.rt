//! A mounted volume: what it stands for, and the plans of commands on it.
#![tactic(auto)]

mod contents;
mod costs;
mod fences;
mod leaving;
mod named;
mod names;
mod next;
mod place;
mod plan;
mod prepare;
mod resolve;
mod stat;
mod totals;
mod volume;

pub use costs::{
    COMMIT_EVENTS, DESCRIPTOR_REST_EVENTS, FENCE_EVENTS, INODE_EVENTS, MARK_EVENTS, NAME_EVENTS,
    NEW_PAGE_EVENTS, PAGE_EVENTS, SLOT_REST_EVENTS, WORD_EVENTS,
};
pub use named::{MOST_NAMED, NamedNodes};
pub use next::{Held, Next};
pub use plan::{
    Action, Loss, Moving, NewEntry, NewName, NewPages, Plan, Reading, Removal, Resizing, Writing,
    span_events,
};
pub use prepare::{LONGEST_FILE, LONGEST_READ};
pub use resolve::Walk;
pub use totals::Totals;
pub use volume::Volume;
