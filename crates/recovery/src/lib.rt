//! Recovery of a sound image: what a crash left of earlier commands is cleared, so that a crash at any moment of it
//! changes nothing of what the image means.
#![tactic(auto)]

mod costs;
mod needs;
mod part;
mod plan;
mod recover;
mod repairs;
mod span;
mod steps;

pub use needs::{has_other_links, is_kept_directory_page, is_litter_inode};
pub use part::Part;
pub use plan::plan_repairs;
pub use recover::repair;
pub use repairs::Repairs;
