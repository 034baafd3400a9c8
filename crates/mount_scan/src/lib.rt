//! Takes in the volume that a device holds, and tells what its words are.
#![tactic(auto)]

mod build;
mod counts;
mod error;
mod head;
mod index;
mod look;
mod mounting;
mod reporting;

pub use error::{MountError, ReportError};
pub use head::HEAD_RULE;
pub use mounting::mount;
pub use reporting::report;
