//! Worked rows of what lines cost: fences, and stores, flushes and fences together.
#![tactic(auto)]

#[cfg(test)]
mod costs;
mod course;
mod marks;
#[cfg(test)]
mod names;
#[cfg(test)]
mod plans;
#[cfg(test)]
mod renames;
mod stages;
