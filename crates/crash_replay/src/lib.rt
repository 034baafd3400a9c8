//! The moment of a run that is asked for, and a count of its answers: what a replay of a crash is made of; and the script that a
//! seed generates.
#![tactic(auto)]

mod laws;
mod moment;
mod place;
mod tally;
mod work;
mod work_line;

pub use laws::{replay_law, tally_law, work_law};
pub use moment::Moment;
pub use place::{acks_before, place_of};
pub use tally::Tally;
pub use work::Work;
