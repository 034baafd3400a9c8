//! A session on a mounted volume: lines of a script are executed one after another, acknowledged and answered.
#![tactic(auto)]

mod command;
mod last_read;
mod laws;
mod listing;
mod places;
mod reply;
mod session;
mod tree;
mod turns;

pub use last_read::LastRead;
pub use laws::plain_runs_are_runs;
pub use reply::write_reply;
pub use session::Session;
pub use turns::run;
