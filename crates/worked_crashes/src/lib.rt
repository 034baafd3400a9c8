//! Worked rows of crashes, and of mounts after them.
#![tactic(auto)]

#[cfg(test)]
mod crashes;
#[cfg(test)]
mod marks;
#[cfg(test)]
mod recoveries;
#[cfg(test)]
mod torn;
#[cfg(test)]
mod walk;
