//! Worked rows of calls by hand: public functions of the crates below, each called as a test calls it.
#![tactic(auto)]

#[cfg(test)]
mod formats;
#[cfg(test)]
mod index;
#[cfg(test)]
mod mounts;
#[cfg(test)]
mod mounts_again;
#[cfg(test)]
mod pages;
#[cfg(test)]
mod places;
#[cfg(test)]
mod replays;
#[cfg(test)]
mod trees;
#[cfg(test)]
mod turns;
#[cfg(test)]
mod volumes;
#[cfg(test)]
mod words;
