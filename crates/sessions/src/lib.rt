//! Sessions on one volume, whose calls run beside one another, each cut at its fences.
#![tactic(auto)]

mod beginning;
mod entry;
mod going;
mod interleave;
mod laws;
mod task;

pub use entry::{Entry, StepReply, WeaveReply};
pub use interleave::{Interleave, MOST_CALLS};
pub use laws::{step_law, telling_law, weaving_law};
pub use task::Task;
