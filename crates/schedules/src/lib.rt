//! The calls of many sessions, step by step by a schedule.
#![tactic(auto)]

mod laws;
mod running;
mod weave_end;

pub use laws::{crash_law, history_law, turn_law};
pub use running::run_schedule;
pub use weave_end::WeaveEnd;
