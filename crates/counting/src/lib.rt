//! A count of steps that takes no byte and no time.
#![tactic(auto)]

mod steps;

pub use steps::Steps;
