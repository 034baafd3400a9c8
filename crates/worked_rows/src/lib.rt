//! Worked rows: scripts and jobs, what is told, and how many fences that takes.
#![tactic(auto)]

#[cfg(test)]
mod contents;
#[cfg(test)]
mod limits;
#[cfg(test)]
mod lines;
#[cfg(test)]
mod links;
#[cfg(test)]
mod names;
#[cfg(test)]
mod removals;
#[cfg(test)]
mod scripts;
#[cfg(test)]
mod space;
#[cfg(test)]
mod volumes;
