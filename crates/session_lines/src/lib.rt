//! The lines of a script of many sessions, and whose turn it is by a schedule.
#![tactic(auto)]

mod count;
mod left;

pub use count::count_lines;
pub use left::LinesLeft;
