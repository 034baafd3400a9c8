//! The top call: what the words of a command line ask of a device, a script and an output.
#![tactic(auto)]

mod checking;
mod chosen;
mod chosen_schedule;
mod generated;
mod laws;
mod listing;
mod mkfs;
mod refused;
mod replaying;
mod scripted;
mod status;
mod top_call;
mod weaving;
mod whole;
mod working;

pub use command_line::{ImagePath, Wanted, Words, device_of};
pub use laws::{closed_law, complete_law, replay_complete_law, replay_end_law, replay_law};
pub use replaying::replay;
pub use status::Status;
pub use top_call::squirrel;
