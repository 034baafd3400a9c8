//! Worked rows of many sessions on one volume: what is told, by a schedule.
#![tactic(auto)]

#[cfg(test)]
mod cuts;
#[cfg(test)]
mod removals;
#[cfg(test)]
mod weaves;
#[cfg(test)]
mod writes;
